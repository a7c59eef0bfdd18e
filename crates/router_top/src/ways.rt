//! The ways in which jobs search.
ghost use Rattle.std.specs.Prelude.{◌≡◌, ℕ, IsSome, IsTrue, option_map};
ghost use Rattle.fpga_types.specs.Problem.{RoutingProblem};
ghost use Rattle.route_core.specs.Fair.{IsFair};
ghost use Rattle.route_count.specs.Begun.{IsBegunBy};
ghost use Rattle.route_encode.specs.Encoding.{cnf_of};
ghost use Rattle.route_ways.specs.Way.{course_of, serves_by};
ghost use Rattle.router_words.specs.Job.{core_said, members_said, search_said};
ghost use Rattle.run_clauses.specs.Known.{IsKnown, crowd_of};
ghost use Rattle.router_top.specs.Ways.{core_way, plain_by, way_by, wires_by};
ghost use Rattle.sat_clause.specs.Formula.{Cnf};

use problem_facts::Facts;
use route_ways::{Counting, Guess, Guessing, Plain, Solver, Trimming, Way, Wires};
use router_words::{CoreJob, Members, Method, SearchJob};

// What the clauses of a method say of wires.
fn wires_by(method: Method) -> Wires
    ensures { result ≡ wires_by method }
{
    match method {
        Method::Within(_) => Wires::Several,
        Method::Strictly | Method::Pinned | Method::Ordered => Wires::One,
    }
}

// One search; or as many as take turns, which keep all clauses. They may be stopped where the words
// set a limit of time.
fn plain_by(search: &SearchJob<'_>, members: Option<Members>) -> Plain
    ensures { result ≡ plain_by (search_said search.now) (option_map members_said members) }
{
    let wires = wires_by(search.method);
    match members {
        None => Plain {
            solver: Solver::Merging,
            wires,
            budget: search.conflicts,
            keep: search.keep,
            limited: search.seconds.is_some(),
        },
        Some(members) => Plain {
            solver: Solver::Turns {
                members: members.count,
                seed: members.seed,
            },
            wires,
            budget: search.conflicts,
            keep: true,
            limited: search.seconds.is_some(),
        },
    }
}

/// The way in which a search is to be done, by one or by as many as take turns. Where it counts, it
/// does so by the facts of its problem, and the clauses are to begin with those of
/// [`Strict`](route_encode::Strict). Before it searches it guesses.
pub fn way_by<'a>(
    search: &SearchJob<'_>,
    members: Option<Members>,
    known: &'a Option<Facts>,
) -> Way<'a>
    requires { IsTrue search.now.count → IsSome known.now }
    ensures is { course_of result
        ≡ way_by (search_said search.now) (option_map members_said members) (crowd_of known.now) }
    ensures serves { (p : RoutingProblem) (width : ℕ) (formula : Cnf)
        → IsKnown search.now.method search.now.count p known.now
        → (IsTrue search.now.count → IsBegunBy formula (cnf_of width p))
        → serves_by result p width formula }
{
    let plain = plain_by(search, members);
    let guessing = Guessing {
        guess: guess_by(search.method),
        rest: plain,
    };
    if search.count {
        let Some(facts) = known else { unreachable!() };
        let counting = Counting {
            rest: guessing,
            facts,
        };
        return Way::Counted { counting };
    }
    Way::Searched { guessing }
}

// What is guessed before a search: pins and an order leave few of the routings that there are.
fn guess_by(method: Method) -> Guess {
    match method {
        Method::Strictly => Guess::Tracks,
        Method::Within(reach) => Guess::Wires { reach },
        Method::Pinned | Method::Ordered => Guess::Nothing,
    }
}

/// The way of `core`, which serves clauses that are fair.
pub fn core_way(job: &CoreJob<'_>) -> Way<'static>
    ensures is { course_of result ≡ core_way (core_said job.now) }
    ensures serves { (p : RoutingProblem) (width : ℕ) (formula : Cnf) → IsFair width p formula
        → serves_by result p width formula }
{
    let rest = Plain {
        solver: Solver::Merging,
        wires: Wires::One,
        budget: job.conflicts,
        keep: true,
        limited: job.seconds.is_some(),
    };
    Way::Cut {
        trimming: Trimming { rest },
    }
}
