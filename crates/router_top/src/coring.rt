//! The command `core`: a search for a legal routing, or else for the nets that stand against each
//! other.
ghost use Rattle.std.specs.Prelude.{false};
ghost use Rattle.router_words.specs.Job.{core_said};
ghost use Rattle.router_top.specs.Core.{LeavesCore, SaysBlamed};
ghost use Rattle.run_clauses.specs.Known.{IsKnown};
ghost use Rattle.run_outcome.specs.Stopped.{EndsEarly};

use crate::problem_work::ProblemWork;
use crate::ways::core_way;
use desk_io::Shelf;
use fpga_bounds::PlacedProblem;
use problem_facts::Facts;
use route_sweep::{Ask, Found, Stop, one_width};
use router_words::CoreJob;
use run_clauses::{Chosen, known_of};
use run_outcome::{Clock, Outcome, Slot, does_fit, set_limit, stop_outcome, was_given};
use std::alloc::Global;

// Says behind the files what there is to say of a refutation: the nets to blame.
fn say_blamed<S: Shelf>(width: u32, came: Result<Found, Stop>, shelf: &mut S) -> Outcome
    ensures { SaysBlamed width (S.state shelf.old) (S.state shelf.new) came result }
{
    match came {
        Ok(Found::Routed) => Outcome::Routed { width },
        Ok(Found::Refuted { lead }) => {
            let Ok(()) = shelf.say(&lead) else {
                return Outcome::WriteFault { slot: Slot::Said };
            };
            Outcome::Unroutable { width }
        }
        Ok(Found::Spent { learned }) => Outcome::Undecided { width, learned },
        Err(stop) => stop_outcome(stop),
    }
}

// Searches for a legal routing by what is known of the problem, and writes it; or else writes the
// clauses and a log, and names the nets to blame where that refutes them. What is to be written and
// said is made before the first file is.
fn search_width<S: Shelf, C: Clock>(
    alloc: Global,
    job: &CoreJob<'_>,
    known: &Option<Facts>,
    problem: &PlacedProblem,
    shelf: &mut S,
    clock: &mut C,
) -> Outcome
    requires { IsKnown job.now.method false problem.now known.now }
    ensures leaves { LeavesCore (core_said job.now) problem.now (S.state shelf.old)
        (S.state shelf.new) result }
    ensures stopped { EndsEarly job.now.conflicts result → C.is_over clock.new }
{
    was_given(problem);
    does_fit(problem);
    let encoder = Chosen::of(job.method, known);
    let way = core_way(job);
    let ask = Ask {
        prefix: job.prefix,
        numbered: false,
    };
    set_limit(clock, job.seconds);
    let came = one_width(
        alloc, &way, &encoder, problem, job.width, &ask, shelf, clock,
    );
    say_blamed(job.width, came, shelf)
}

// Searches for a legal routing, and writes it; or else names the nets to blame.
impl<'a> ProblemWork for CoreJob<'a> {
    ghost use Rattle.std.specs.Prelude.{false};
    ghost use Rattle.router_words.specs.Job.{core_said};
    ghost use Rattle.router_top.specs.Core.{LeavesCore};
    ghost use Rattle.run_clauses.specs.Suited.{LeavesPrepared};

    ghost leaves = { λ job. LeavesPrepared job.method false (LeavesCore (core_said job)) };

    ghost budget = { λ job. job.conflicts };

    fn work<S: Shelf, C: Clock>(
        &self,
        alloc: Global,
        problem: &PlacedProblem,
        shelf: &mut S,
        clock: &mut C,
    ) -> Outcome {
        let Ok(known) = known_of(alloc, self.method, false, problem) else {
            return Outcome::OutOfMemory;
        };
        search_width(alloc, self, &known, problem, shelf, clock)
    }
}
