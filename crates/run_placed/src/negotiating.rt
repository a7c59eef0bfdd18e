//! The command `global`: a search for a route of a placement together with its tracks.
ghost use Rattle.std.specs.Prelude.{◌≡◌, ◌⊎◌, ◌≤◌, [], ◌∷◌, IfErr, IfOk, IfSome, is_some, true};
ghost use Rattle.std.specs.Result.{IsErrAnd};
ghost use Rattle.fpga_problem.specs.Files.{IsSoundPlaced};
ghost use Rattle.fpga_problem.specs.Sources.{IsStopped};
ghost use Rattle.fpga_route.specs.Printed.{printed};
ghost use Rattle.fpga_route.specs.ReadBack.{ReadsBack};
ghost use Rattle.fpga_types.specs.Sound.{IsSound};
ghost use Rattle.router_words.specs.Job.{global_said};
ghost use Rattle.run_outcome.specs.Report.{IsShort, IsReadFault};
ghost use Rattle.run_placed.specs.Global.{HasFiles, IsFoundRoute, LacksFiles, LeavesFound, LeavesSought, SaysNet, found_file, judged_for, LeavesGlobal};
ghost use Rattle.run_outcome.specs.Scene.{scene};
ghost use Rattle.run_outcome.specs.Stopped.{AreRoundsStopped};
ghost use Rattle.run_outcome.specs.Written.{WritesFiles};
ghost use Rattle.run_outcome.specs.declared.outcome.Outcome.TheVariants.{OutOfMemory};

use crate::bounding::append_net;
use desk_io::{Desk, MemShelf, Shelf, write_file};
use fpga_problem::{PlacedFiles, TextFile as ProblemFile, read_placed, read_route_file};
use fpga_route::{WholeRoute, read_route};
use fpga_text::TextFault;
use fpga_types::{Netlist, RouteText};
use patience::{Forever, Patience};
use route_judge::{judge, judge_strict};
use route_negotiate::{CellWires, Options, Sought, negotiate, route_text};
use route_parts::unreached_net;
use route_sweep::{FileSlot, Watch};
use route_verify::Judgement;
use router_words::GlobalJob;
use run_outcome::{Clock, Outcome, Slot, TextFile, file_name, set_limit, unread_outcome};
use std::alloc::{AllocError, Global};

// The number by which the first search of a job tries the start tracks of its nets.
const SEED: u32 = 1;

// What the search of a job is told.
fn options_of(job: &GlobalJob<'_>) -> Options
    ensures { result.rounds ≡ job.now.rounds }
{
    let wires = if job.free {
        CellWires::Several
    } else {
        CellWires::One
    };
    Options {
        wires,
        rounds: job.rounds,
        seed: SEED,
    }
}

/// What a search comes to: how many rounds it makes, whether its patience has ended them, and a
/// route, if it finds one.
#[derive(Drop)]
pub(crate) struct Searched {
    pub rounds: u32,
    pub stopped: bool,
    pub route: Option<RouteText>,
}

// What a search comes to, which the patience may end where the job has a limit of time.
fn sought<P: Patience>(
    alloc: Global,
    job: &GlobalJob<'_>,
    placed: &PlacedFiles,
    start: Option<&RouteText>,
    patience: &mut P,
) -> Result<Sought, AllocError>
    requires { IsSoundPlaced placed.now }
    ensures rounds { IfOk result (λ sought. sought.rounds ≤ job.now.rounds) }
    ensures stopped { IfOk result (λ sought. sought.stopped ≡ true → P.is_over patience.new) }
    ensures timed { IfOk result
        (λ sought. sought.stopped ≡ true → is_some job.now.seconds ≡ true) }
{
    let (arch, netlist, placement) = (&placed.arch, &placed.netlist, &placed.placement);
    let (width, options) = (job.width, options_of(job));
    if job.seconds.is_none() {
        return negotiate(
            alloc,
            arch,
            netlist,
            placement,
            width,
            options,
            start,
            &mut Forever,
        );
    }
    negotiate(
        alloc, arch, netlist, placement, width, options, start, patience,
    )
}

// The route of the wires that a search finds, if it finds some. Nothing is known of it but that it
// can be judged.
fn searched_route<P: Patience>(
    alloc: Global,
    job: &GlobalJob<'_>,
    placed: &PlacedFiles,
    start: Option<&RouteText>,
    patience: &mut P,
) -> Result<Searched, AllocError>
    requires { IsSoundPlaced placed.now }
    ensures rounds { IfOk result (λ searched. searched.rounds ≤ job.now.rounds) }
    ensures stopped { IfOk result
        (λ searched. searched.stopped ≡ true → P.is_over patience.new) }
    ensures timed { IfOk result
        (λ searched. searched.stopped ≡ true → is_some job.now.seconds ≡ true) }
    ensures sound { IfOk result (λ searched. IfSome searched.route IsSound) }
{
    let (arch, netlist, placement) = (&placed.arch, &placed.netlist, &placed.placement);
    let sought = sought(alloc, job, placed, start, patience)?;
    let (rounds, stopped) = (sought.rounds, sought.stopped);
    let Some(nets) = sought.nets else {
        return Ok(Searched {
            rounds,
            stopped,
            route: None,
        });
    };
    let route = route_text(alloc, arch, netlist, placement, &nets)?;
    Ok(Searched {
        rounds,
        stopped,
        route: Some(route),
    })
}

// The printed form of a route, which is given back, since it may take as much memory.
fn printed_form(alloc: Global, route: RouteText) -> Result<Vec<u8>, AllocError>
    ensures { IfOk result (λ text. text.items ≡ printed route) }
{
    let mut shelf = MemShelf::new(alloc, Vec::new(alloc));
    let Ok(()) = write_file(&WholeRoute, &mut shelf, "", &route) else {
        return Err(AllocError);
    };
    let Some(text) = shelf.into_file("") else {
        unreachable!()
    };
    Ok(text)
}

// What the printed form of a route reads as, if it has no fault. That can be printed itself.
fn read_back(alloc: Global, route: RouteText) -> Result<Option<RouteText>, AllocError>
    ensures sound { IfOk result (λ found. IfSome found IsSound) }
    ensures back { IfOk result (λ found. IfSome found ReadsBack) }
{
    let text = printed_form(alloc, route)?;
    match read_route(alloc, &text) {
        Ok(found) => Ok(Some(found)),
        Err(TextFault::Memory) => Err(AllocError),
        Err(TextFault::Bad { .. } | TextFault::Limit { .. }) => Ok(None),
    }
}

// How a route is judged for a job.
fn judgement(
    alloc: Global,
    job: &GlobalJob<'_>,
    placed: &PlacedFiles,
    found: &RouteText,
) -> Result<Judgement, AllocError>
    requires placed { IsSoundPlaced placed.now }
    requires found { IsSound found.now }
    ensures { IfOk result (λ judgement. judgement
        ≡ judged_for (global_said job.now) placed.now found.now) }
{
    let (arch, netlist, placement) = (&placed.arch, &placed.netlist, &placed.placement);
    if job.free {
        return judge(alloc, arch, netlist, placement, job.width, found);
    }
    judge_strict(alloc, arch, netlist, placement, job.width, found)
}

/// A route that is judged legal as it is read from its printed form, if the search finds one.
///
/// # Errors
/// Memory ran out.
pub(crate) fn legal_route<P: Watch>(
    alloc: Global,
    job: &GlobalJob<'_>,
    placed: &PlacedFiles,
    start: Option<&RouteText>,
    patience: &mut P,
) -> Result<Searched, AllocError>
    requires { IsSoundPlaced placed.now }
    ensures rounds { IfOk result (λ searched. searched.rounds ≤ job.now.rounds) }
    ensures stopped { IfOk result
        (λ searched. searched.stopped ≡ true → P.is_over patience.new) }
    ensures timed { IfOk result
        (λ searched. searched.stopped ≡ true → is_some job.now.seconds ≡ true) }
    ensures found { IfOk result
        (λ searched. IfSome searched.route (IsFoundRoute (global_said job.now) placed.now)) }
{
    patience.told_width(job.width);
    let Searched {
        rounds,
        stopped,
        route,
    } = searched_route(alloc, job, placed, start, patience)?;
    patience.told_rounds(rounds);
    let Some(route) = route else {
        return Ok(Searched {
            rounds,
            stopped,
            route: None,
        });
    };
    let route = judged_route(alloc, job, placed, route)?;
    tell_route(&route, patience);
    Ok(Searched {
        rounds,
        stopped,
        route,
    })
}

// Tells of a route, if there is one.
fn tell_route<P: Watch>(route: &Option<RouteText>, patience: &mut P)
    ensures { P.is_over patience.old → P.is_over patience.new }
{
    if let Some(route) = route {
        patience.told_route(route);
    }
}

// What a route is read as from its printed form, if that is judged legal.
fn judged_route(
    alloc: Global,
    job: &GlobalJob<'_>,
    placed: &PlacedFiles,
    route: RouteText,
) -> Result<Option<RouteText>, AllocError>
    requires placed { IsSoundPlaced placed.now }
    requires route { IsSound route }
    ensures { IfOk result
        (λ found. IfSome found (IsFoundRoute (global_said job.now) placed.now)) }
{
    let Some(found) = read_back(alloc, route)? else {
        return Ok(None);
    };
    match judgement(alloc, job, placed, &found)? {
        Judgement::Legal => Ok(Some(found)),
        Judgement::NotLegal { .. } => Ok(None),
    }
}

// Writes the file of a route that was found, and gives the outcome of that.
fn write_found<S: Shelf>(
    alloc: Global,
    job: &GlobalJob<'_>,
    found: &RouteText,
    done: Outcome,
    shelf: &mut S,
) -> Outcome
    ensures { ((result ≡ OutOfMemory) × (S.state shelf.new ≡ S.state shelf.old))
        ⊎ WritesFiles done (found_file (global_said job.now) found.now ∷ [])
        (S.state shelf.old) (S.state shelf.new) result }
{
    let Ok(name) = file_name(alloc, job.prefix, ".route") else {
        return Outcome::OutOfMemory;
    };
    let Ok(()) = write_file(&WholeRoute, shelf, name.as_str(), found) else {
        return Outcome::WriteFault {
            slot: Slot::File(FileSlot::Route),
        };
    };
    done
}

// Looks for a legal route, and writes it.
fn search_route<S: Shelf, C: Clock>(
    alloc: Global,
    job: &GlobalJob<'_>,
    placed: &PlacedFiles,
    start: Option<&RouteText>,
    shelf: &mut S,
    clock: &mut C,
) -> Outcome
    requires { IsSoundPlaced placed.now }
    ensures leaves { LeavesFound (global_said job.now) placed.now (S.state shelf.old)
        (S.state shelf.new) result }
    ensures stopped { AreRoundsStopped result → C.is_over clock.new }
{
    set_limit(clock, job.seconds);
    let Ok(searched) = legal_route(alloc, job, placed, start, clock) else {
        return Outcome::OutOfMemory;
    };
    let Some(found) = searched.route else {
        return Outcome::Unfound {
            width: job.width,
            rounds: searched.rounds,
            stopped: searched.stopped,
        };
    };
    let done = Outcome::Routed { width: job.width };
    write_found(alloc, job, &found, done, shelf)
}

// Says the line of a net that no wires reach, and that there is no way at the width.
fn say_unreached<S: Shelf>(
    alloc: Global,
    netlist: &Netlist,
    net: usize,
    width: u32,
    shelf: &mut S,
) -> Outcome
    ensures { IsShort (S.state shelf.old) (S.state shelf.new) result
        ⊎ SaysNet netlist.now net width (S.state shelf.old) (S.state shelf.new) result }
{
    let mut line = Vec::new(alloc);
    let Ok(()) = append_net(&mut line, netlist, net) else {
        return Outcome::OutOfMemory;
    };
    let Ok(()) = shelf.say(&line) else {
        return Outcome::WriteFault { slot: Slot::Said };
    };
    Outcome::NoWay { width }
}

// Looks for a net that no wires reach, and says it; where there is none, looks for a legal route,
// and writes it.
fn seek_route<S: Shelf, C: Clock>(
    alloc: Global,
    job: &GlobalJob<'_>,
    placed: &PlacedFiles,
    start: Option<&RouteText>,
    shelf: &mut S,
    clock: &mut C,
) -> Outcome
    requires { IsSoundPlaced placed.now }
    ensures leaves { LeavesSought (global_said job.now) placed.now (S.state shelf.old)
        (S.state shelf.new) result }
    ensures stopped { AreRoundsStopped result → C.is_over clock.new }
{
    let (arch, netlist, placement) = (&placed.arch, &placed.netlist, &placed.placement);
    match unreached_net(alloc, arch, netlist, placement, job.width) {
        Ok(Some(found)) => say_unreached(alloc, netlist, found.net, job.width, shelf),
        Ok(None) => search_route(alloc, job, placed, start, shelf, clock),
        Err(_) => Outcome::OutOfMemory,
    }
}

/// What a search for a route of a placement begins with.
#[derive(Drop)]
pub(crate) struct Begun {
    /// The placed netlist.
    pub placed: PlacedFiles,
    /// The route to begin with, if there is to be one.
    pub start: Option<RouteText>,
}

/// Reads the three files of a placed netlist, and then the route to begin with, if there is to be
/// one.
///
/// # Errors
/// What the run comes to, since a file of these gives nothing.
pub(crate) fn read_begun<D: Desk>(
    alloc: Global,
    job: &GlobalJob<'_>,
    desk: &mut D,
) -> Result<Begun, Outcome>
    ensures has { IfOk result (λ begun. HasFiles (D.state desk.old).files (global_said job.now)
        begun.placed) }
    ensures lacks { IfErr result (LacksFiles (IsStopped (D.state desk.old) (D.state desk.new))
        (D.state desk.old).files (global_said job.now)) }
    ensures files { (D.state desk.new).files ≡ (D.state desk.old).files }
    ensures quiet { ¬ IsErrAnd result IsReadFault
        → (D.state desk.new).faults ≡ (D.state desk.old).faults }
{
    let placed = match read_placed(alloc, desk, &job.files) {
        Ok(placed) => placed,
        Err(stop) => return Err(unread_outcome(TextFile::Problem(stop.file), stop.fault)),
    };
    let Some(name) = job.from else {
        return Ok(Begun {
            placed,
            start: None,
        });
    };
    match read_route_file(alloc, desk, name) {
        Ok(start) => Ok(Begun {
            placed,
            start: Some(start),
        }),
        Err(fault) => Err(unread_outcome(TextFile::Problem(ProblemFile::Route), fault)),
    }
}

/// Reads the files of a job, looks for a route with its tracks, and writes it; or says a net that
/// no wires reach, before any search. The clock is told of the job's limit before the search, if
/// there is one, and then asked before each round.
///
/// What is found is printed into memory, read from there and judged, and what was judged is
/// written: so the search is not relied on, nor is what makes a text of its wires.
pub fn negotiate_files<D: Desk, S: Shelf, C: Clock>(
    alloc: Global,
    job: &GlobalJob<'_>,
    desk: &mut D,
    shelf: &mut S,
    clock: &mut C,
) -> Outcome
    ensures leaves { LeavesGlobal (global_said job.now)
        (scene (D.state desk.old) (D.state desk.new) (S.state shelf.old) (S.state shelf.new))
        result }
    ensures files { (D.state desk.new).files ≡ (D.state desk.old).files }
    ensures quiet { ¬ IsReadFault result → (D.state desk.new).faults ≡ (D.state desk.old).faults }
    ensures stopped { AreRoundsStopped result → C.is_over clock.new }
{
    match read_begun(alloc, job, desk) {
        Ok(begun) => seek_route(
            alloc,
            job,
            &begun.placed,
            begun.start.as_ref(),
            shelf,
            clock,
        ),
        Err(stop) => stop,
    }
}
