//! Laws over the definitions, as functions that do nothing.
ghost use Rattle.std.specs.Prelude.{◌≡◌, ◌≤◌, ℕ, true};
ghost use Rattle.fpga_types.specs.Fits.{Fits};
ghost use Rattle.fpga_types.specs.Given.{IsGiven};
ghost use Rattle.fpga_types.specs.Problem.{RoutingProblem};
ghost use Rattle.problem_facts.specs.Full.{is_symmetric};
ghost use Rattle.route_core.specs.Fair.{IsFair};
ghost use Rattle.route_pinned.specs.Pinned.{PinnedSaysUnroutable, PinsChangeNothing, pinned_cnf};

/// Of a problem that was read and fits, where all tracks are alike, there is a legal routing
/// exactly where there is one in which each pinned slot has its track.
#[tactic(auto, using(crate::proofs::PinLemmas::nothing_changes))]
pub fn pins_change_nothing()
    ensures { (width : ℕ) (problem : RoutingProblem) → IsGiven problem → Fits problem
        → is_symmetric width problem ≡ true → PinsChangeNothing width problem }
{}

/// A problem that was read and fits has no legal routing, pinned or not, exactly where no values
/// satisfy the clauses with pinned tracks.
pub fn pinned_says_unroutable()
    ensures { (width : ℕ) (problem : RoutingProblem) → IsGiven problem → Fits problem
        → PinnedSaysUnroutable width problem }
{}

/// Of a problem that was read and fits, the clauses with pinned tracks are fair: where some nets
/// have a legal routing by themselves, some values make those about these nets alone true, their
/// pins among them.
#[tactic(auto, using(crate::proofs::FairLemmas::pinned_is_fair))]
pub fn pinned_clauses_are_fair()
    ensures { (width : ℕ) (problem : RoutingProblem) → 1 ≤ width → IsGiven problem → Fits problem
        → IsFair width problem (pinned_cnf width problem) }
{}
