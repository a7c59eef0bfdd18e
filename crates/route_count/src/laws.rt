//! Laws over the definitions, as functions that do nothing.
ghost use Rattle.std.specs.Prelude.{◌≤◌, ℕ, List};
ghost use Rattle.fpga_types.specs.Given.{IsGiven};
ghost use Rattle.fpga_types.specs.Problem.{RoutingProblem};
ghost use Rattle.problem_facts.specs.Crowd.{IsCrowd};
ghost use Rattle.route_encode.specs.Exact.{IsUnroutableAt};
ghost use Rattle.route_count.specs.Crowded.{IsCrowded};

/// A problem that was read has no legal routing at a width that is crowded, by whichever crowd.
pub fn crowded_is_unroutable()
    ensures { (width : ℕ) (problem : RoutingProblem) (crowd : List ℕ) → 1 ≤ width
        → IsGiven problem → IsCrowd problem crowd → IsCrowded width problem crowd
        → IsUnroutableAt width problem }
{}
