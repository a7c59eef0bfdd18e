//! The command `least`: how many tracks a placement needs, from both sides.
ghost use Rattle.std.specs.Prelude.{◌≡◌, ◌⊎◌, ◌≤◌, IfOk, IfSome, IsNone, None, is_some, option_map, true};
ghost use Rattle.fpga_problem.specs.Files.{IsSoundPlaced};
ghost use Rattle.route_bound.specs.Cuts.{IsBestCut};
ghost use Rattle.router_words.specs.Job.{global_said, least_said};
ghost use Rattle.run_outcome.specs.Report.{IsShort, IsReadFault};
ghost use Rattle.run_placed.specs.Least.{IsFoundAt, LeavesCut, LeavesNarrowed, LeavesRaised, LeavesWidths, at_width, LeavesLeast};
ghost use Rattle.run_placed.specs.Raised.{IsRaised};
ghost use Rattle.run_placed.specs.Reasons.{HasRaised, IsReasonOf, IsUnraised, given_why, reason_by};
ghost use Rattle.run_outcome.specs.Scene.{scene};
ghost use Rattle.run_outcome.specs.Stopped.{AreRoundsStopped};

use crate::bounding::say_cut;
use crate::narrowed::write_narrowed;
use crate::negotiating::{Begun, legal_route, read_begun};
use crate::progress::Progress;
use crate::raising::{Raised, raise};
use cell_bound::CellRefutation;
use desk_io::Desk;
use fpga_problem::PlacedFiles;
use fpga_types::RouteText;
use patience::{Forever, Patience};
use route_bound::{Cut, best_cut};
use route_sweep::Watch;
use router_words::{GlobalJob, LeastJob};
use run_outcome::{Clock, Outcome, Ran, Reason, set_limit, without_problem};
use std::alloc::{AllocError, Global};

/// A width, and a legal route that was found at it.
#[derive(Drop)]
pub struct FoundAt {
    pub width: u32,
    pub found: RouteText,
}

/// What searches at several widths come to: the most rounds that were made at one of them, whether
/// the last were ended by the clock, and the route that was found, if there is one.
#[derive(Drop)]
struct Narrowing {
    rounds: u32,
    stopped: bool,
    at: Option<FoundAt>,
}

/// What the work on a placed netlist comes to, and the refutation that raised the bound of which
/// that tells, if one did.
#[derive(Drop)]
struct Ended {
    outcome: Outcome,
    why: Option<CellRefutation>,
}

// The search for a route at a width.
fn at_width<'a>(job: &LeastJob<'a>, width: u32) -> GlobalJob<'a>
    requires some { 1 ≤ width }
    requires within { width ≤ job.now.last }
    ensures { global_said result ≡ at_width (least_said job.now) width }
{
    GlobalJob {
        files: job.files,
        width,
        prefix: job.prefix,
        free: job.free,
        from: job.from,
        rounds: job.rounds,
        seconds: job.seconds,
        stats: job.stats,
    }
}

// The first width from so many tracks up to the last at which a route is found, and that route, if
// there is one; and how many rounds were made at most. The shelf is told each width that has none.
// Where the clock ends the rounds of a width no further one is tried.
fn first_found<S: Progress, P: Watch>(
    alloc: Global,
    job: &LeastJob<'_>,
    begun: &Begun,
    tracks: u32,
    shelf: &mut S,
    patience: &mut P,
) -> Result<Narrowing, AllocError>
    requires placed { IsSoundPlaced begun.now.placed }
    requires some { 1 ≤ tracks }
    ensures rounds { IfOk result (λ narrowing. narrowing.rounds ≤ job.now.rounds) }
    ensures stopped { IfOk result
        (λ narrowing. narrowing.stopped ≡ true → P.is_over patience.new) }
    ensures timed { IfOk result
        (λ narrowing. narrowing.stopped ≡ true → is_some job.now.seconds ≡ true) }
    ensures at { IfOk result (λ narrowing. IfSome narrowing.at
        (IsFoundAt (least_said job.now) begun.now.placed tracks)) }
    ensures stays { S.state shelf.new ≡ S.state shelf.old }
{
    let mut most = 0;
    for width in tracks..job.last + 1 {
        let job = at_width(job, width);
        let searched = legal_route(alloc, &job, &begun.placed, begun.start.as_ref(), patience)?;
        most = searched.rounds.max(most);
        if let Some(found) = searched.route {
            return Ok(Narrowing {
                rounds: most,
                stopped: false,
                at: Some(FoundAt { width, found }),
            });
        }
        shelf.told_unfound(width, searched.rounds);
        if searched.stopped {
            return Ok(Narrowing {
                rounds: most,
                stopped: true,
                at: None,
            });
        }
    }
    Ok(Narrowing {
        rounds: most,
        stopped: false,
        at: None,
    })
}

// The bound of a cut, raised by refutations, which the patience may end where the job has a limit
// of time.
fn raised_bound<P: Patience>(
    alloc: Global,
    job: &LeastJob<'_>,
    placed: &PlacedFiles,
    cut: u32,
    patience: &mut P,
) -> Result<Raised, AllocError>
    requires placed { IsSoundPlaced placed.now }
    requires some { 1 ≤ cut }
    requires within { cut ≤ job.now.last }
    ensures { IfOk result (IsRaised placed.now cut) }
{
    if job.seconds.is_none() {
        return raise(alloc, placed, cut, job.last, &mut Forever);
    }
    raise(alloc, placed, cut, job.last, patience)
}

// Tells the shelf of a refutation that raised the bound.
fn tell_raised<S: Progress>(raised: &Raised, shelf: &mut S)
    ensures { S.state shelf.new ≡ S.state shelf.old }
{
    if raised.why.is_some() {
        shelf.told_refuted(raised.tracks.saturating_sub(1));
    }
}

// Looks for a route at each width from a bound on, where a cut asks for so many tracks, and writes
// the first, and what raised the bound.
fn search_from<S: Progress, P: Watch>(
    alloc: Global,
    job: &LeastJob<'_>,
    begun: &Begun,
    cut: u32,
    raised: &Raised,
    shelf: &mut S,
    patience: &mut P,
) -> Outcome
    requires placed { IsSoundPlaced begun.now.placed }
    requires some { 1 ≤ raised.now.tracks }
    ensures leaves { LeavesRaised (least_said job.now) begun.now.placed cut raised.now
        (S.state shelf.old) (S.state shelf.new) result }
    ensures stopped { AreRoundsStopped result → P.is_over patience.new }
{
    tell_raised(raised, shelf);
    let Ok(narrowing) = first_found(alloc, job, begun, raised.tracks, shelf, patience) else {
        return Outcome::OutOfMemory;
    };
    let Some(at) = narrowing.at else {
        return Outcome::Unfound {
            width: job.last,
            rounds: narrowing.rounds,
            stopped: narrowing.stopped,
        };
    };
    write_narrowed(alloc, job.prefix, cut, raised, &at, shelf)
}

// The refutation that raised a bound, if the outcome tells of that bound.
fn given_why(outcome: Outcome, raised: Raised) -> Option<CellRefutation>
    ensures { result ≡ given_why outcome raised.why }
{
    match outcome {
        Outcome::Narrowed { .. } => raised.why,
        _ => None,
    }
}

// Raises the bound of a cut, looks for a route at each width from there on, and writes the first,
// and what raised the bound.
fn search_widths<S: Progress, P: Watch>(
    alloc: Global,
    job: &LeastJob<'_>,
    begun: &Begun,
    cut: &Cut,
    shelf: &mut S,
    patience: &mut P,
) -> Ended
    requires placed { IsSoundPlaced begun.now.placed }
    requires some { 1 ≤ cut.now.tracks }
    ensures leaves { LeavesWidths (least_said job.now) begun.now.placed cut.now
        (S.state shelf.old) (S.state shelf.new) result.outcome }
    ensures why { IfSome result.why (HasRaised (least_said job.now) begun.now.placed
        (S.state shelf.old).files (S.state shelf.new).files result.outcome) }
    ensures none { IsNone result.why → IsUnraised result.outcome }
    ensures stopped { AreRoundsStopped result.outcome → P.is_over patience.new }
{
    if job.last < cut.tracks {
        return Ended {
            outcome: Outcome::Beyond {
                tracks: cut.tracks,
                cells: cut.cells,
                nets: cut.nets.as_slice().len() as u64,
            },
            why: None,
        };
    }
    let Ok(raised) = raised_bound(alloc, job, &begun.placed, cut.tracks, patience) else {
        return Ended {
            outcome: Outcome::OutOfMemory,
            why: None,
        };
    };
    let outcome = search_from(alloc, job, begun, cut.tracks, &raised, shelf, patience);
    Ended {
        outcome,
        why: given_why(outcome, raised),
    }
}

// Says the lines of a cut, and then looks for a route.
fn narrow_cut<S: Progress, P: Watch>(
    alloc: Global,
    job: &LeastJob<'_>,
    begun: &Begun,
    cut: &Cut,
    shelf: &mut S,
    patience: &mut P,
) -> Ended
    requires placed { IsSoundPlaced begun.now.placed }
    requires some { 1 ≤ cut.now.tracks }
    ensures leaves { IsShort (S.state shelf.old) (S.state shelf.new) result.outcome
        ⊎ LeavesCut (least_said job.now) begun.now.placed cut.now (S.state shelf.old)
        (S.state shelf.new) result.outcome }
    ensures why { IfSome result.why (HasRaised (least_said job.now) begun.now.placed
        (S.state shelf.old).files (S.state shelf.new).files result.outcome) }
    ensures none { IsNone result.why → IsUnraised result.outcome }
    ensures stopped { AreRoundsStopped result.outcome → P.is_over patience.new }
{
    match say_cut(alloc, &begun.placed.netlist, cut, shelf) {
        Ok(()) => search_widths(alloc, job, begun, cut, shelf, patience),
        Err(stop) => Ended {
            outcome: stop,
            why: None,
        },
    }
}

// Finds one of the best cuts of a placed netlist, says its lines, and looks for a route.
fn narrow_placed<S: Progress, C: Clock>(
    alloc: Global,
    job: &LeastJob<'_>,
    begun: &Begun,
    shelf: &mut S,
    clock: &mut C,
) -> Ended
    requires { IsSoundPlaced begun.now.placed }
    ensures leaves { LeavesNarrowed (least_said job.now) begun.now.placed (S.state shelf.old)
        (S.state shelf.new) result.outcome }
    ensures why { IfSome result.why (HasRaised (least_said job.now) begun.now.placed
        (S.state shelf.old).files (S.state shelf.new).files result.outcome) }
    ensures none { IsNone result.why → IsUnraised result.outcome }
    ensures stopped { AreRoundsStopped result.outcome → C.is_over clock.new }
{
    let placed = &begun.placed;
    let Ok(cut) = best_cut(alloc, &placed.arch, &placed.netlist, &placed.placement) else {
        return Ended {
            outcome: Outcome::OutOfMemory,
            why: None,
        };
    };
    set_limit(clock, job.seconds);
    narrow_cut(alloc, job, begun, &cut, shelf, clock)
}

// What a run comes to, and the reason that it gives back, if there is one, with the netlist.
fn ran_by(begun: Begun, ended: Ended) -> Ran
    ensures outcome { result.outcome ≡ ended.outcome }
    ensures problem { result.problem ≡ None }
    ensures reason { result.reason ≡ option_map (reason_by begun.placed.netlist) ended.why }
{
    let Ended { outcome, why } = ended;
    let Some(found) = why else {
        return without_problem(outcome);
    };
    let Begun { placed, .. } = begun;
    let PlacedFiles { netlist, .. } = placed;
    Ran {
        outcome,
        problem: None,
        reason: Some(Reason { netlist, found }),
    }
}

/// Reads the files of a job, says the lines of one of the best cuts, raises the bound of that by
/// refutations over cells, and looks for a route of the placement at each width from that bound up
/// to the last: the first that is found is written, and behind it the refutation, if there is one.
/// The clock is told of the job's limit once, if there is one, and then asked before each window
/// and each round; where it says no nothing more is refuted, and no further width is tried.
pub fn narrow_files<D: Desk, S: Progress, C: Clock>(
    alloc: Global,
    job: &LeastJob<'_>,
    desk: &mut D,
    shelf: &mut S,
    clock: &mut C,
) -> Ran
    ensures leaves { LeavesLeast (least_said job.now)
        (scene (D.state desk.old) (D.state desk.new) (S.state shelf.old) (S.state shelf.new))
        result.outcome }
    ensures files { (D.state desk.new).files ≡ (D.state desk.old).files }
    ensures quiet { ¬ IsReadFault result.outcome
        → (D.state desk.new).faults ≡ (D.state desk.old).faults }
    ensures problem { result.problem ≡ None }
    ensures reason { IfSome result.reason (IsReasonOf (least_said job.now) (D.state desk.old).files
        (S.state shelf.old).files (S.state shelf.new).files result.outcome) }
    ensures unraised { IsNone result.reason → IsUnraised result.outcome }
    ensures stopped { AreRoundsStopped result.outcome → C.is_over clock.new }
{
    match read_begun(alloc, &at_width(job, job.last), desk) {
        Ok(begun) => {
            let ended = narrow_placed(alloc, job, &begun, shelf, clock);
            ran_by(begun, ended)
        }
        Err(stop) => without_problem(stop),
    }
}
