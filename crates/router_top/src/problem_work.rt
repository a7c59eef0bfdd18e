//! Work on the problem that four files pose.
ghost use Rattle.std.specs.Prelude.{◌≡◌, IfSome, IsNone, None};
ghost use Rattle.fpga_problem.specs.Files.{Poses, names_said};
ghost use Rattle.run_outcome.specs.Posed.{EndsWithoutProblem};
ghost use Rattle.run_outcome.specs.Report.{IsReadFault};
ghost use Rattle.run_outcome.specs.Scene.{LeavesWork, scene};
ghost use Rattle.run_outcome.specs.Stopped.{EndsEarly};

use desk_io::{Desk, Shelf};
use fpga_bounds::PlacedProblem;
use fpga_problem::{FourNames, read_files};
use run_outcome::{Clock, Outcome, Ran, TextFile, unread_outcome};
use std::alloc::Global;

/// What a command does with a problem.
pub trait ProblemWork {
    ghost use Rattle.std.specs.Prelude.{ℕ};
    ghost use Rattle.desk_io.specs.ShelfState.{ShelfState};
    ghost use Rattle.fpga_types.specs.Problem.{RoutingProblem};
    ghost use Rattle.run_outcome.specs.declared.outcome.Outcome.{Outcome};

    /// What the work on a problem leaves, by the shelf before and after it and what it comes to.
    ghost leaves: { Self → RoutingProblem → ShelfState → ShelfState → Outcome → Type 0 };

    /// How many clauses a search of it may learn, if it searches.
    ghost budget: { Self → ℕ };

    /// Does the work, and gives what it comes to. A search is left open before its budget is spent
    /// only where the clock has said that it may not go on.
    fn work<S: Shelf, C: Clock>(
        &self,
        alloc: Global,
        problem: &PlacedProblem,
        shelf: &mut S,
        clock: &mut C,
    ) -> Outcome
        ensures leaves { leaves self.now problem.now (S.state shelf.old) (S.state shelf.new) result }
        ensures stopped { EndsEarly (budget self.now) result → C.is_over clock.new };
}

/// Reads the four files and does the work on their problem, which is given back. Where they give
/// none, nothing is written.
pub fn work_on<D: Desk, S: Shelf, C: Clock, W: ProblemWork>(
    alloc: Global,
    names: &FourNames<'_>,
    work: &W,
    desk: &mut D,
    shelf: &mut S,
    clock: &mut C,
) -> Ran
    ensures leaves { LeavesWork (names_said names.now) (W.leaves work.now)
        (scene (D.state desk.old) (D.state desk.new) (S.state shelf.old) (S.state shelf.new))
        result.outcome }
    ensures files { (D.state desk.new).files ≡ (D.state desk.old).files }
    ensures quiet { ¬ IsReadFault result.outcome
        → (D.state desk.new).faults ≡ (D.state desk.old).faults }
    ensures posed { IfSome result.problem
        (Poses (D.state desk.old).files (names_said names.now)) }
    ensures lacks { IsNone result.problem → EndsWithoutProblem result.outcome }
    ensures stopped { EndsEarly (W.budget work.now) result.outcome → C.is_over clock.new }
    ensures unraised { result.reason ≡ None }
{
    let problem = match read_files(alloc, desk, names) {
        Ok(problem) => problem,
        Err(stop) => {
            return Ran {
                outcome: unread_outcome(TextFile::Problem(stop.file), stop.fault),
                problem: None,
                reason: None,
            };
        }
    };
    let outcome = work.work(alloc, &problem, shelf, clock);
    Ran {
        outcome,
        problem: Some(problem),
        reason: None,
    }
}
