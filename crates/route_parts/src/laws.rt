//! Laws over the definitions, as functions that do nothing.
ghost use Rattle.std.specs.Prelude.{ℕ};
ghost use Rattle.fpga_types.specs.Problem.{PlacedNetlist};
ghost use Rattle.route_parts.specs.Unreached.{HasNoRouting};

/// Where a sink of an ordinary net is not reached, there is no placed routing with so many tracks.
pub fn unreached_nets_have_no_routing()
    ensures { (placed : PlacedNetlist) (width : ℕ) → HasNoRouting placed width }
{}
