//! The whole work: from words and files in to files out.
ghost use Rattle.std.specs.Prelude.{◌≡◌, IfSome, IsNone};
ghost use Rattle.router_words.specs.Word.{words_of};
ghost use Rattle.router_top.specs.JobFiles.{LeavesFiles};
ghost use Rattle.router_top.specs.Means.{Means};
ghost use Rattle.run_outcome.specs.Posed.{IsPosed, LacksProblem};
ghost use Rattle.run_placed.specs.Reasons.{GivesReason, LacksReason};
ghost use Rattle.run_outcome.specs.Report.{IsReadFault, unsaid, Reports};
ghost use Rattle.router_top.specs.Run.{Leaves, Runs};
ghost use Rattle.run_outcome.specs.Scene.{scene};
ghost use Rattle.router_top.specs.Saying.{Speaks};
ghost use Rattle.run_outcome.specs.Stopped.{WasStopped};
ghost use Rattle.router_top.specs.Truth.{IsComplete};

use crate::problem_work::work_on;
use crate::suited::Suited;
use crate::trying::trial;
use desk_io::{Desk, Shelf};
use router_words::{Job, WordsFault, read_words};
use run_checks::{check_files, judge_file, verify_file};
use run_clauses::decode_files;
use run_made::generate_files;
use run_outcome::{Clock, Outcome, Ran, Slot, report, without_problem};
use run_placed::{Progress, bound_files, narrow_files, negotiate_files};
use std::alloc::Global;

// The work that the words ask for, but for the report.
fn work<D: Desk, S: Progress, C: Clock>(
    alloc: Global,
    words: &[String],
    desk: &mut D,
    shelf: &mut S,
    clock: &mut C,
) -> Ran
    ensures leaves { Leaves (words_of words.now)
        (scene (D.state desk.old) (D.state desk.new) (S.state shelf.old) (S.state shelf.new))
        result.outcome }
    ensures files { (D.state desk.new).files ≡ (D.state desk.old).files }
    ensures quiet { ¬ IsReadFault result.outcome
        → (D.state desk.new).faults ≡ (D.state desk.old).faults }
    ensures posed { IfSome result.problem
        (IsPosed (D.state desk.old).files (words_of words.now)) }
    ensures lacks { IsNone result.problem → LacksProblem (words_of words.now) result.outcome }
    ensures stopped { WasStopped (words_of words.now) result.outcome → C.is_over clock.new }
    ensures reason { IfSome result.reason (GivesReason (words_of words.now)
        (D.state desk.old).files (S.state shelf.old).files (S.state shelf.new).files
        result.outcome) }
    ensures unraised { IsNone result.reason → LacksReason (words_of words.now) result.outcome }
{
    match read_words(alloc, words) {
        Ok(Job::Route(job)) => {
            let work = Suited {
                method: job.search.method,
                first: job.search.width,
                last: job.search.width,
                work: job,
            };
            work_on(alloc, &job.files, &work, desk, shelf, clock)
        }
        Ok(Job::Sweep(job)) => {
            let work = Suited {
                method: job.search.method,
                first: 1,
                last: job.search.width,
                work: job,
            };
            work_on(alloc, &job.files, &work, desk, shelf, clock)
        }
        Ok(Job::Encode(job)) => {
            let work = Suited {
                method: job.method,
                first: job.width,
                last: job.width,
                work: job,
            };
            work_on(alloc, &job.files, &work, desk, shelf, clock)
        }
        Ok(Job::Decode(job)) => without_problem(decode_files(alloc, &job, desk, shelf)),
        Ok(Job::Core(job)) => {
            let work = Suited {
                method: job.method,
                first: job.width,
                last: job.width,
                work: job,
            };
            work_on(alloc, &job.files, &work, desk, shelf, clock)
        }
        Ok(Job::Check(job)) => without_problem(check_files(alloc, &job, desk)),
        Ok(Job::Verify(job)) => without_problem(verify_file(alloc, &job, desk, shelf)),
        Ok(Job::Judge(job)) => without_problem(judge_file(alloc, &job, desk)),
        Ok(Job::Bound(job)) => without_problem(bound_files(alloc, &job, desk, shelf)),
        Ok(Job::Global(job)) => without_problem(negotiate_files(alloc, &job, desk, shelf, clock)),
        Ok(Job::Least(job)) => narrow_files(alloc, &job, desk, shelf, clock),
        Ok(Job::Gen(job)) => without_problem(generate_files(alloc, &job, shelf)),
        Ok(Job::Trial(job)) => without_problem(trial(alloc, &job, shelf, clock)),
        Err(WordsFault::Refused(cause)) => without_problem(Outcome::Usage { code: cause.code() }),
        Err(WordsFault::Memory) => without_problem(Outcome::OutOfMemory),
    }
}

// What a run comes to whose report line was not said.
fn unsaid(outcome: Outcome) -> Outcome
    ensures { result ≡ unsaid outcome }
{
    match outcome {
        Outcome::WriteFault { .. } => outcome,
        _ => Outcome::WriteFault { slot: Slot::Said },
    }
}

// Says the report line of an outcome, and gives what the run comes to.
fn say_report<S: Shelf>(shelf: &mut S, outcome: Outcome) -> Outcome
    ensures { Reports (S.state shelf.old) outcome (S.state shelf.new) result }
{
    let mut line = report(&outcome);
    line.push_str("\n");
    let Ok(()) = shelf.say(line.as_bytes()) else {
        return unsaid(outcome);
    };
    outcome
}

/// Runs a command: reads the words and the files, does what they ask for, and last says the report
/// line of the outcome. The words are those of `router_words::read_words`.
///
/// `route` writes PREFIX.route, or else PREFIX.cnf and PREFIX.lrat. `sweep` writes PREFIX.wK.cnf
/// and PREFIX.wK.lrat for each width K that it does not route, and PREFIX.route where it routes
/// one. `encode` writes PREFIX.cnf alone; `check`, `verify` and `judge` write nothing. Each file is
/// read and taken apart before the next is opened, the routed file of `verify` once the four before
/// it fit, that of `judge` behind its three, and the first refusal ends the work.
///
/// `decode` reads a model of the clauses that `encode` writes behind the four files. Where each
/// clause has a literal of it, it writes PREFIX.route, and else it names the first that has none.
///
/// `core` writes what `route` does, but a refutation is cut down to what it needs. It then says a
/// line `net NAME` for each net that the refutation blames: these have no legal routing by
/// themselves.
///
/// Where `--pin` is given to `route`, `sweep`, `core`, `encode` or `decode`, the nets of one most
/// crowded cell are given their tracks beforehand, and where `--symmetry` is, the trees of a crowd
/// come to the tracks or to pairs of them in their order. That changes no answer of a search, and
/// the nets to blame have no legal routing by themselves, with these tracks, in that order or
/// otherwise. For pins all tracks are to be alike, and for that order they or their pairs are to be
/// free to change places, at WIDTH or at each width up to MAX: if not, the outcome is
/// `NotSymmetric` with the least such width and nothing is written.
///
/// Where `--seconds` is given to `route`, `sweep`, `core` or `trial`, the clock is told of the
/// limit and asked each time that a search begins anew. Where it says no the search is left open,
/// with its clauses and log, as where its budget is spent. Where it is given to `global` or
/// `least`, the clock is asked before each round and each window; where it says no none is made,
/// and no further width is tried. Without the option no search is stopped.
///
/// Where `--reach` is given to `route`, `sweep`, `trial`, `encode` or `decode`, a routing is one in
/// which a net may take several wires of its cells and reaches each sink within so many joins; the
/// clauses say that there is one, and PREFIX.route has a tree of wires for each net. Where it is
/// given to `verify`, the routed file is judged as such a routing. Where `--all` is given to it, a
/// file that is not legal has a line said for each of its lines against which there is a cause.
///
/// `judge` asks of a routed file whether it is a routing of the placement, with no cells given
/// beforehand: one wire of a cell alone for each net where `--strict` is given, and else several.
///
/// `bound` asks how many tracks each routing of the placement has at the least, whatever its cells:
/// it says a line that names a cut of the array, a line `net NAME` for each net that crosses it,
/// and writes nothing.
///
/// `global` reads the first three files alone, and looks for a route of the placement together with
/// its tracks. It writes PREFIX.route where one is found in as many rounds as it is given, and else
/// nothing. Where no wires reach a sink of some net, whatever the other nets have, it looks for
/// none, and says a line `net NAME` for the first such net.
///
/// `least` reads what `global` does and says what `bound` does. It raises the bound of the cut by
/// refutations over the cells of windows, at widths below MAX. From as many tracks as that comes to
/// up to MAX it looks for a route as `global` does, and the first that is found ends it: it writes
/// PREFIX.route, and where a refutation has raised the bound its clauses and its log, PREFIX.cnf
/// and PREFIX.lrat.
///
/// `gen` makes a problem from its recipe and writes PREFIX.arch, PREFIX.net, PREFIX.place and
/// PREFIX.route. `trial` makes one too, says a line with the numbers of its slots, its steps and
/// its pairs of slots of different nets in one cell, and writes what `sweep` would write if it read
/// these four files. Both read no file.
///
/// Whatever fails, the files of a job are written in one order, and no other file changes. Where
/// the shelf fails on one, those before it are whole, it holds a front part of its text or was not
/// created, and those behind it are as they were; after any other answer each file that was begun
/// is whole. What is said is a front part of the lead and the report line, and all of both where
/// the shelf has not failed. The lead is the trial line, or the lines of `core`, `bound`, `global`,
/// `least` or `verify`.
///
/// After want of memory the files of a `sweep` or a `trial` are those of lower widths, and of
/// another command there is none. The files of the desk stay in any case.
///
/// The problem that `route`, `sweep`, `encode` and `core` worked on is given back with the outcome,
/// so that more can be said of it. They give none only where their files pose none, or memory is
/// too short. So is the refutation with which `least` raised the bound of its cut, where it wrote
/// one, with the netlist: the nets that it blames have no routing by themselves with one track less
/// than the raised bound or fewer.
pub fn run<D: Desk, S: Progress, C: Clock>(
    alloc: Global,
    words: &[String],
    desk: &mut D,
    shelf: &mut S,
    clock: &mut C,
) -> Ran
    ensures means { Means (words_of words.now) (D.state desk.old).files (S.state shelf.old).files
        (S.state shelf.new).files result.outcome }
    ensures runs { Runs (words_of words.now) (D.state desk.old) (D.state desk.new)
        (S.state shelf.old) (S.state shelf.new) result.outcome }
    ensures files { LeavesFiles (words_of words.now) (D.state desk.old).files
        (S.state shelf.old).files (S.state shelf.new).files result.outcome }
    ensures says { Speaks (words_of words.now) (D.state desk.old).files (S.state shelf.old)
        (S.state shelf.new) result.outcome }
    ensures complete { IsComplete (words_of words.now) (D.state desk.old) (D.state desk.new)
        (S.state shelf.old) (S.state shelf.new) result.outcome }
    ensures posed { IfSome result.problem
        (IsPosed (D.state desk.old).files (words_of words.now)) }
    ensures unposed { IsNone result.problem
        → LacksProblem (words_of words.now) result.outcome }
    ensures stopped { WasStopped (words_of words.now) result.outcome → C.is_over clock.new }
    ensures reason { IfSome result.reason (GivesReason (words_of words.now)
        (D.state desk.old).files (S.state shelf.old).files (S.state shelf.new).files
        result.outcome) }
    ensures unraised { IsNone result.reason → LacksReason (words_of words.now) result.outcome }
{
    let Ran {
        outcome,
        problem,
        reason,
    } = work(alloc, words, desk, shelf, clock);
    let outcome = say_report(shelf, outcome);
    Ran {
        outcome,
        problem,
        reason,
    }
}
