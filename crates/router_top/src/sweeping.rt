//! The command `sweep`: a search for the least width that has a legal routing.
ghost use Rattle.std.specs.Prelude.{◌≡◌, option_map};
ghost use Rattle.router_words.specs.Job.{members_said, search_said};
ghost use Rattle.run_clauses.specs.Known.{IsKnown};
ghost use Rattle.run_outcome.specs.Report.{climbed_outcome};
ghost use Rattle.run_outcome.specs.Stopped.{EndsEarly};
ghost use Rattle.router_top.specs.Work.{Climbs};

use crate::problem_work::ProblemWork;
use crate::ways::way_by;
use desk_io::Shelf;
use fpga_bounds::PlacedProblem;
use problem_facts::Facts;
use route_sweep::{Ask, Climbed, Stop, climb};
use router_words::{Members, SearchJob, SweepJob};
use run_clauses::{Chosen, known_of};
use run_outcome::{Clock, Outcome, set_limit, stop_outcome, was_given};
use std::alloc::Global;

// What the run comes to by what the climb came to.
fn climbed_outcome(came: Result<Climbed, Stop>) -> Outcome
    ensures { result ≡ climbed_outcome came }
{
    match came {
        Ok(Climbed::Routed { width }) => Outcome::Routed { width },
        Ok(Climbed::Unroutable { width }) => Outcome::Unroutable { width },
        Ok(Climbed::Undecided { width, learned }) => Outcome::Undecided { width, learned },
        Err(stop) => stop_outcome(stop),
    }
}

/// Searches at the widths from 1 on, up to the first that is not refuted or up to the last, by what
/// is known of the problem, at each by one search or by as many as take turns; writes a routing, or
/// else the clauses and the log of each width that was searched.
pub fn search_widths<S: Shelf, C: Clock>(
    alloc: Global,
    problem: &PlacedProblem,
    known: &Option<Facts>,
    search: &SearchJob<'_>,
    members: Option<Members>,
    shelf: &mut S,
    clock: &mut C,
) -> Outcome
    requires { IsKnown search.now.method search.now.count problem.now known.now }
    ensures leaves { Climbs (search_said search.now) (option_map members_said members) problem.now
        (S.state shelf.old) (S.state shelf.new) result }
    ensures stopped { EndsEarly search.now.conflicts result → C.is_over clock.new }
{
    was_given(problem);
    let encoder = Chosen::of(search.method, known);
    let way = way_by(search, members, known);
    let ask = Ask {
        prefix: search.prefix,
        numbered: true,
    };
    set_limit(clock, search.seconds);
    let came = climb(
        alloc,
        &way,
        &encoder,
        problem,
        search.width,
        &ask,
        shelf,
        clock,
    );
    climbed_outcome(came)
}

// Searches at one width after another.
impl<'a> ProblemWork for SweepJob<'a> {
    ghost use Rattle.router_words.specs.Job.{sweep_said};
    ghost use Rattle.run_clauses.specs.Suited.{LeavesPrepared};
    ghost use Rattle.router_top.specs.Work.{Sweeps};

    ghost leaves = { λ job. LeavesPrepared job.search.method job.search.count
        (Sweeps (sweep_said job)) };

    ghost budget = { λ job. job.search.conflicts };

    fn work<S: Shelf, C: Clock>(
        &self,
        alloc: Global,
        problem: &PlacedProblem,
        shelf: &mut S,
        clock: &mut C,
    ) -> Outcome {
        let Ok(known) = known_of(alloc, self.search.method, self.search.count, problem) else {
            return Outcome::OutOfMemory;
        };
        search_widths(
            alloc,
            problem,
            &known,
            &self.search,
            self.members,
            shelf,
            clock,
        )
    }
}
