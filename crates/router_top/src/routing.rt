//! The command `route`: a search for a legal routing.
ghost use Rattle.std.specs.Prelude.{◌≡◌};
ghost use Rattle.router_words.specs.Job.{route_said};
ghost use Rattle.run_clauses.specs.Known.{IsKnown};
ghost use Rattle.run_outcome.specs.Report.{found_outcome};
ghost use Rattle.run_outcome.specs.Stopped.{EndsEarly};
ghost use Rattle.router_top.specs.Work.{LeavesRoute};

use crate::problem_work::ProblemWork;
use crate::ways::way_by;
use desk_io::Shelf;
use fpga_bounds::PlacedProblem;
use problem_facts::Facts;
use route_sweep::{Ask, Found, Stop, one_width};
use router_words::RouteJob;
use run_clauses::{Chosen, known_of};
use run_outcome::{Clock, Outcome, set_limit, stop_outcome, was_given};
use std::alloc::Global;

// What the run comes to by what was found at a width.
fn found_outcome(width: u32, came: Result<Found, Stop>) -> Outcome
    ensures { result ≡ found_outcome width came }
{
    match came {
        Ok(Found::Routed) => Outcome::Routed { width },
        Ok(Found::Refuted { .. }) => Outcome::Unroutable { width },
        Ok(Found::Spent { learned }) => Outcome::Undecided { width, learned },
        Err(stop) => stop_outcome(stop),
    }
}

// Searches for a legal routing by what is known of the problem, and writes it; or else the clauses
// and the log.
fn search_width<S: Shelf, C: Clock>(
    alloc: Global,
    job: &RouteJob<'_>,
    known: &Option<Facts>,
    problem: &PlacedProblem,
    shelf: &mut S,
    clock: &mut C,
) -> Outcome
    requires { IsKnown job.now.search.method job.now.search.count problem.now known.now }
    ensures leaves { LeavesRoute (route_said job.now) problem.now (S.state shelf.old)
        (S.state shelf.new) result }
    ensures stopped { EndsEarly job.now.search.conflicts result → C.is_over clock.new }
{
    was_given(problem);
    let search = job.search;
    let encoder = Chosen::of(search.method, known);
    let way = way_by(&search, job.members, known);
    let ask = Ask {
        prefix: search.prefix,
        numbered: false,
    };
    set_limit(clock, search.seconds);
    let came = one_width(
        alloc,
        &way,
        &encoder,
        problem,
        search.width,
        &ask,
        shelf,
        clock,
    );
    found_outcome(search.width, came)
}

// Searches for a legal routing, and writes it; or else the clauses and the log of the search.
impl<'a> ProblemWork for RouteJob<'a> {
    ghost use Rattle.router_words.specs.Job.{route_said};
    ghost use Rattle.run_clauses.specs.Suited.{LeavesPrepared};
    ghost use Rattle.router_top.specs.Work.{LeavesRoute};

    ghost leaves = { λ job. LeavesPrepared job.search.method job.search.count
        (LeavesRoute (route_said job)) };

    ghost budget = { λ job. job.search.conflicts };

    fn work<S: Shelf, C: Clock>(
        &self,
        alloc: Global,
        problem: &PlacedProblem,
        shelf: &mut S,
        clock: &mut C,
    ) -> Outcome {
        let Ok(known) = known_of(alloc, self.search.method, self.search.count, problem) else {
            return Outcome::OutOfMemory;
        };
        search_width(alloc, self, &known, problem, shelf, clock)
    }
}
