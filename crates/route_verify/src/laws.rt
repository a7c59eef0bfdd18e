//! Laws over the definitions, as functions that do nothing.
ghost use Rattle.std.specs.Prelude.{◌≡◌, ◌↔◌, ℕ, List, length};
ghost use Rattle.fpga_text.specs.FirstFault.{IsFaultless};
ghost use Rattle.fpga_types.specs.Fits.{Fits};
ghost use Rattle.fpga_types.specs.Legal.{IsLegalFor, route_of};
ghost use Rattle.fpga_types.specs.Problem.{RoutingProblem};
ghost use Rattle.fpga_types.specs.Slots.{slots};
ghost use Rattle.fpga_types.specs.Sound.{IsSound};
ghost use Rattle.fpga_types.specs.declared.route.RouteText.{RouteText};
ghost use Rattle.route_verify.specs.Judged.{causes, judged};
ghost use Rattle.route_verify.specs.declared.judgement.Judgement.TheVariants.{Legal};

/// A routed file is judged legal exactly where there is no cause against it.
pub fn legal_without_causes()
    ensures { (width : ℕ) (problem : RoutingProblem) (found : RouteText)
        → (judged width problem found ≡ Legal) ↔ IsFaultless (causes width problem found) }
{}

/// Of a problem that fits, with a route such as is read, the route with one track for each slot is
/// judged legal exactly where these are the tracks of a legal routing.
pub fn legal_tracks_are_judged_legal()
    ensures { (width : ℕ) (problem : RoutingProblem) (tracks : List ℕ)
        → IsSound problem.route → Fits problem → length tracks ≡ length (slots problem.route)
        → (judged width problem (route_of problem.route tracks) ≡ Legal)
        ↔ IsLegalFor problem.arch width problem.route tracks }
{}
