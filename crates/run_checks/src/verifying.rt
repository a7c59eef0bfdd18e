//! The command `verify`: whether a routed file is a legal routing of a problem, or each cause
//! against it.
ghost use Rattle.std.specs.Prelude.{◌≡◌, ◌⊎◌, IfOk};
ghost use Rattle.fpga_problem.specs.Sources.{IsStopped};
ghost use Rattle.fpga_types.specs.Sound.{IsSound};
ghost use Rattle.route_verify.specs.Reach.{judged_by};
ghost use Rattle.router_words.specs.Job.{verify_said};
ghost use Rattle.run_outcome.specs.Report.{IsReadFault, IsShort};
ghost use Rattle.run_checks.specs.Causes.{HasSaidCauses, LeavesVerified, TellsCauses, TellsLines};
ghost use Rattle.run_checks.specs.Check.{judged_outcome};
ghost use Rattle.run_outcome.specs.declared.outcome.Outcome.TheVariants.{OutOfMemory};

use crate::cause_lines::cause_lines;
use desk_io::{Desk, Shelf};
use fpga_bounds::PlacedProblem;
use fpga_problem::{read_files, read_route_file};
use fpga_types::{RouteNet, RouteText};
use route_verify::{Judgement, LineCause, all_causes, verify, verify_reach};
use router_words::VerifyJob;
use run_outcome::{Outcome, Slot, TextFile, unread_outcome};
use std::alloc::{AllocError, Global};

// How the routed file is judged, within the reach that was given or without one.
fn judgement(
    alloc: Global,
    job: &VerifyJob<'_>,
    problem: &PlacedProblem,
    found: &RouteText,
) -> Result<Judgement, AllocError>
    requires { IsSound found.now }
    ensures { IfOk result (λ judgement. judgement
        ≡ judged_by job.now.reach job.now.width problem.now found.now) }
{
    match job.reach {
        None => verify(alloc, problem, job.width, found),
        Some(reach) => verify_reach(alloc, problem, job.width, reach, found),
    }
}

/// What the run comes to by how a routed file is judged.
pub fn judged_outcome(judgement: Judgement) -> Outcome
    ensures { result ≡ judged_outcome judgement }
{
    match judgement {
        Judgement::Legal => Outcome::LegalRoute,
        Judgement::NotLegal { line, cause } => Outcome::NotLegal { line, cause },
    }
}

// What the run comes to by how the routed file of the job is judged.
fn judge(alloc: Global, job: &VerifyJob<'_>, problem: &PlacedProblem, found: &RouteText) -> Outcome
    requires { IsSound found.now }
    ensures { (result ≡ OutOfMemory) ⊎ (result ≡ judged_outcome
        (judged_by job.now.reach job.now.width problem.now found.now)) }
{
    match judgement(alloc, job, problem, found) {
        Ok(judgement) => judged_outcome(judgement),
        Err(_) => Outcome::OutOfMemory,
    }
}

// Says the lines of causes against a file with these nets, once they are all made.
fn say_causes<S: Shelf>(
    alloc: Global,
    nets: &[RouteNet],
    causes: &[LineCause],
    shelf: &mut S,
) -> Result<(), Outcome>
    ensures { HasSaidCauses nets.now causes.now (S.state shelf.old) (S.state shelf.new) result }
{
    let Ok(lines) = cause_lines(alloc, nets, causes) else {
        return Err(Outcome::OutOfMemory);
    };
    let Ok(()) = shelf.say(&lines) else {
        return Err(Outcome::WriteFault { slot: Slot::Said });
    };
    Ok(())
}

// Says the lines of all causes against a file with these nets: what the run comes to, by the first.
fn tell_causes<S: Shelf>(
    alloc: Global,
    nets: &[RouteNet],
    causes: &[LineCause],
    shelf: &mut S,
) -> Outcome
    ensures { IsShort (S.state shelf.old) (S.state shelf.new) result
        ⊎ TellsLines nets.now causes.now (S.state shelf.old) (S.state shelf.new) result }
{
    let Some(first) = causes.first() else {
        return Outcome::LegalRoute;
    };
    match say_causes(alloc, nets, causes, shelf) {
        Ok(()) => Outcome::NotLegal {
            line: first.line,
            cause: first.cause,
        },
        Err(stop) => stop,
    }
}

// Says a line for each cause against the routed file of the job: what the run comes to, by the
// first.
fn judge_lines<S: Shelf>(
    alloc: Global,
    job: &VerifyJob<'_>,
    problem: &PlacedProblem,
    found: &RouteText,
    shelf: &mut S,
) -> Outcome
    requires { IsSound found.now }
    ensures { TellsCauses job.now.reach job.now.width problem.now found.now (S.state shelf.old)
        (S.state shelf.new) result }
{
    let Ok(causes) = all_causes(alloc, problem, job.width, job.reach, found) else {
        return Outcome::OutOfMemory;
    };
    tell_causes(alloc, found.nets.as_slice(), causes.as_slice(), shelf)
}

/// Reads the four files, and once they pose a problem the routed file, and judges that. Where all
/// causes against it are asked for, says a line for each.
pub fn verify_file<D: Desk, S: Shelf>(
    alloc: Global,
    job: &VerifyJob<'_>,
    desk: &mut D,
    shelf: &mut S,
) -> Outcome
    ensures verifies { LeavesVerified (IsStopped (D.state desk.old) (D.state desk.new))
        (D.state desk.old).files (verify_said job.now) (S.state shelf.old) (S.state shelf.new)
        result }
    ensures files { (D.state desk.new).files ≡ (D.state desk.old).files }
    ensures quiet { ¬ IsReadFault result → (D.state desk.new).faults ≡ (D.state desk.old).faults }
{
    let problem = match read_files(alloc, desk, &job.files) {
        Ok(problem) => problem,
        Err(stop) => return unread_outcome(TextFile::Problem(stop.file), stop.fault),
    };
    let found = match read_route_file(alloc, desk, job.routed) {
        Ok(found) => found,
        Err(fault) => return unread_outcome(TextFile::Routed, fault),
    };
    if job.all {
        return judge_lines(alloc, job, &problem, &found, shelf);
    }
    judge(alloc, job, &problem, &found)
}
