//! The command `judge`: whether a routed file is a routing of a placement.
ghost use Rattle.std.specs.Prelude.{◌≡◌, ◌⊎◌, IfOk};
ghost use Rattle.fpga_problem.specs.Files.{IsSoundPlaced};
ghost use Rattle.fpga_problem.specs.Sources.{IsStopped};
ghost use Rattle.fpga_types.specs.Sound.{IsSound};
ghost use Rattle.route_judge.specs.Judged.{placed_judged};
ghost use Rattle.router_words.specs.Job.{judge_said};
ghost use Rattle.run_checks.specs.Placed.{IsJudgement, IsTrueJudgement, JudgesPlaced};
ghost use Rattle.run_outcome.specs.Report.{IsReadFault};
ghost use Rattle.run_outcome.specs.declared.outcome.Outcome.TheVariants.{OutOfMemory};

use crate::verifying::judged_outcome;
use desk_io::Desk;
use fpga_problem::{PlacedFiles, read_placed, read_route_file};
use fpga_types::RouteText;
use route_judge::{judge, judge_strict};
use route_verify::Judgement;
use router_words::JudgeJob;
use run_outcome::{Outcome, TextFile, unread_outcome};
use std::alloc::{AllocError, Global};

// How the routed file is judged, strictly or not.
fn judgement(
    alloc: Global,
    job: &JudgeJob<'_>,
    placed: &PlacedFiles,
    found: &RouteText,
) -> Result<Judgement, AllocError>
    requires placed { IsSoundPlaced placed.now }
    requires found { IsSound found.now }
    ensures { IfOk result (λ judgement. judgement
        ≡ placed_judged job.now.strict job.now.width placed.now found.now) }
{
    let arch = &placed.arch;
    let netlist = &placed.netlist;
    let placement = &placed.placement;
    if job.strict {
        return judge_strict(alloc, arch, netlist, placement, job.width, found);
    }
    judge(alloc, arch, netlist, placement, job.width, found)
}

// What the run comes to by how the routed file is judged.
fn judged(alloc: Global, job: &JudgeJob<'_>, placed: &PlacedFiles, found: &RouteText) -> Outcome
    requires placed { IsSoundPlaced placed.now }
    requires found { IsSound found.now }
    ensures { (result ≡ OutOfMemory) ⊎ IsJudgement (judge_said job.now) placed.now found.now
        result }
{
    match judgement(alloc, job, placed, found) {
        Ok(judgement) => judged_outcome(judgement),
        Err(_) => Outcome::OutOfMemory,
    }
}

/// Reads the three files, and once they pose a placed netlist the routed file, and judges that.
pub fn judge_file<D: Desk>(alloc: Global, job: &JudgeJob<'_>, desk: &mut D) -> Outcome
    ensures judges { JudgesPlaced (IsStopped (D.state desk.old) (D.state desk.new))
        (D.state desk.old).files (judge_said job.now) (IsTrueJudgement (judge_said job.now))
        result }
    ensures files { (D.state desk.new).files ≡ (D.state desk.old).files }
    ensures quiet { ¬ IsReadFault result → (D.state desk.new).faults ≡ (D.state desk.old).faults }
{
    let placed = match read_placed(alloc, desk, &job.files) {
        Ok(placed) => placed,
        Err(stop) => return unread_outcome(TextFile::Problem(stop.file), stop.fault),
    };
    let found = match read_route_file(alloc, desk, job.routed) {
        Ok(found) => found,
        Err(fault) => return unread_outcome(TextFile::Routed, fault),
    };
    judged(alloc, job, &placed, &found)
}
