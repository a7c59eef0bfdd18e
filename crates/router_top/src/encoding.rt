//! The work of `encode` on a problem.
use crate::problem_work::ProblemWork;
use desk_io::Shelf;
use fpga_bounds::PlacedProblem;
use router_words::EncodeJob;
use run_clauses::encode_problem;
use run_outcome::{Clock, Outcome};
use std::alloc::Global;

impl<'a> ProblemWork for EncodeJob<'a> {
    ghost use Rattle.std.specs.Prelude.{false};
    ghost use Rattle.router_words.specs.Job.{encode_said};
    ghost use Rattle.run_clauses.specs.Encode.{Encodes};
    ghost use Rattle.run_clauses.specs.Suited.{LeavesPrepared};

    ghost leaves = { λ job. LeavesPrepared job.method false (Encodes (encode_said job)) };

    ghost budget = { λ job. 0 };

    fn work<S: Shelf, C: Clock>(
        &self,
        alloc: Global,
        problem: &PlacedProblem,
        shelf: &mut S,
        _clock: &mut C,
    ) -> Outcome {
        encode_problem(alloc, self, problem, shelf)
    }
}
