//! Work that is done where the method of a job suits its problem.
ghost use Rattle.std.specs.Prelude.{◌≤◌};
ghost use Rattle.fpga_types.specs.declared.limits.TheConstants.{WIDTH_LIMIT};

use crate::problem_work::ProblemWork;
use desk_io::Shelf;
use fpga_bounds::PlacedProblem;
use fpga_types::WIDTH_LIMIT;
use router_words::Method;
use run_clauses::unsuited;
use run_outcome::{Clock, Outcome};
use std::alloc::Global;

/// Work at some widths by a method that has to suit its problem: where tracks are to be pinned, all
/// of them are to be alike at each of these widths, and where they are to be kept in order, their
/// groups are to be free to change places. Where that is not so, nothing is written.
#[derive(Drop)]
pub struct Suited<W> {
    /// How routings are said by clauses.
    pub method: Method,
    /// The least of the widths, at least 1.
    pub first: u32,
    /// The greatest of the widths, at most 64.
    pub last: u32,
    /// What is done where the method suits the problem.
    pub work: W,
    ghost in_range: { (1 ≤ first) × (last ≤ WIDTH_LIMIT) },
}

// Does the work where the method suits the problem.
impl<W: ProblemWork> ProblemWork for Suited<W> {
    ghost use Rattle.run_clauses.specs.Suited.{LeavesSuited};

    ghost leaves = { λ suited. LeavesSuited suited.method suited.first suited.last
        (W.leaves suited.work) };

    ghost budget = { λ suited. W.budget suited.work };

    fn work<S: Shelf, C: Clock>(
        &self,
        alloc: Global,
        problem: &PlacedProblem,
        shelf: &mut S,
        clock: &mut C,
    ) -> Outcome {
        if let Some(outcome) = unsuited(problem, self.method, self.first, self.last) {
            return outcome;
        }
        self.work.work(alloc, problem, shelf, clock)
    }
}
