//! Laws over the definitions, as functions that do nothing.
ghost use Rattle.std.specs.Prelude.{ℕ, ◌<◌, ◌^◌, List, All};
ghost use Rattle.fpga_text.specs.Bytes.{Bytes};
ghost use Rattle.fpga_types.specs.Legal.{route_of};
ghost use Rattle.fpga_types.specs.declared.route.RouteText.{RouteText};
ghost use Rattle.fpga_route.specs.ReadBack.{IsPrintable};
ghost use Rattle.fpga_route.specs.Value.{Reads};

/// A route that was read can be printed.
pub fn read_routes_are_printable()
    ensures { (text : Bytes) (route : RouteText) → Reads text route → IsPrintable route }
{}

/// A route that can be printed can be printed with other tracks, of 32 bits.
pub fn routes_with_tracks_are_printable()
    ensures { (route : RouteText) (tracks : List ℕ) → IsPrintable route
        → All (λ t. t < 2 ^ 32) tracks → IsPrintable (route_of route tracks) }
{}
