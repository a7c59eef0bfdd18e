//! The command `check`: whether a log refutes a formula.
ghost use Rattle.std.specs.Prelude.{◌≡◌, length};
ghost use Rattle.fpga_problem.specs.Sources.{IsStopped, ReadsTo, Says};
ghost use Rattle.fpga_text.specs.FirstFault.{Answers};
ghost use Rattle.sat_check.specs.Verdict.{judgement_of};
ghost use Rattle.sat_rat.specs.FullJudge.{full_judge};
ghost use Rattle.sat_text.specs.CnfText.{cnf_said};
ghost use Rattle.sat_text.specs.LratText.{full_lrat_faults, lrat_said};
ghost use Rattle.router_words.specs.Job.{check_said};
ghost use Rattle.run_checks.specs.Check.{ChecksTo, SaysOf, cnf_source, lrat_source};
ghost use Rattle.run_outcome.specs.Report.{IsReadFault};

use desk_io::Desk;
use fpga_problem::{FileFault, read_bytes};
use fpga_text::TextFault;
use router_words::CheckJob;
use run_outcome::{Outcome, PROOF_BYTES, TextFile, unread_outcome};
use sat_check::Verdict;
use sat_clause::Formula;
use sat_rat::FullReplay;
use sat_text::{LogLines, read_cnf};
use std::alloc::Global;

// The formula of a CNF file.
fn read_formula<D: Desk>(alloc: Global, desk: &mut D, name: &str) -> Result<Formula, FileFault>
    ensures { ReadsTo (D.state desk.old) (D.state desk.new) (cnf_source name.now)
        (λ formula. Says (D.state desk.old).files (cnf_source name.now) cnf_said formula.cnf)
        result }
{
    let text = match read_bytes(alloc, desk, name, PROOF_BYTES) {
        Ok(text) => text,
        Err(fault) => return Err(fault),
    };
    match read_cnf(alloc, &text) {
        Ok(formula) => Ok(formula),
        Err(fault) => Err(FileFault::Text(fault)),
    }
}

// What the steps of an LRAT text say of the formula. Each step is judged as it is read, and the
// clauses that it adds are kept as long as they are live. What stands behind the end of the judging
// is read for faults alone.
fn replay_text(alloc: Global, formula: &Formula, text: &[u8]) -> Result<Verdict, TextFault>
    ensures { Answers (full_lrat_faults (length formula.now.cnf.clauses) text.now)
        (λ verdict. judgement_of verdict ≡ full_judge formula.now.cnf (lrat_said text.now)) result }
{
    let Ok(mut replay) = FullReplay::new(alloc, formula) else {
        return Err(TextFault::Memory);
    };
    let mut lines = LogLines::full(alloc, text, formula.len());
    loop {
        let more = match lines.read_next() {
            Ok(more) => more,
            Err(fault) => return Err(fault),
        };
        if !more {
            return Ok(replay.verdict());
        }
        let Ok(()) = replay.take(lines.step()) else {
            return Err(TextFault::Memory);
        };
    }
}

// What the log of an LRAT file says of the formula.
fn replay_file<D: Desk>(
    alloc: Global,
    desk: &mut D,
    name: &str,
    formula: &Formula,
) -> Result<Verdict, FileFault>
    ensures { ReadsTo (D.state desk.old) (D.state desk.new)
        (lrat_source name.now (length formula.now.cnf.clauses))
        (λ verdict. SaysOf (D.state desk.old).files name.now formula.now.cnf (judgement_of verdict))
        result }
{
    let text = match read_bytes(alloc, desk, name, PROOF_BYTES) {
        Ok(text) => text,
        Err(fault) => return Err(fault),
    };
    match replay_text(alloc, formula, &text) {
        Ok(verdict) => Ok(verdict),
        Err(fault) => Err(FileFault::Text(fault)),
    }
}

/// Reads the formula, and replays the log as it reads it.
pub fn check_files<D: Desk>(alloc: Global, job: &CheckJob<'_>, desk: &mut D) -> Outcome
    ensures checks { ChecksTo (IsStopped (D.state desk.old) (D.state desk.new))
        (D.state desk.old).files (check_said job.now) result }
    ensures files { (D.state desk.new).files ≡ (D.state desk.old).files }
    ensures quiet { ¬ IsReadFault result → (D.state desk.new).faults ≡ (D.state desk.old).faults }
{
    let formula = match read_formula(alloc, desk, job.cnf) {
        Ok(formula) => formula,
        Err(fault) => return unread_outcome(TextFile::Cnf, fault),
    };
    let verdict = match replay_file(alloc, desk, job.lrat, &formula) {
        Ok(verdict) => verdict,
        Err(fault) => return unread_outcome(TextFile::Lrat, fault),
    };
    match verdict {
        Verdict::Accepted => Outcome::Accepted,
        Verdict::Refused { step, cause } => Outcome::NotAccepted {
            step,
            cause: cause.number(),
        },
    }
}
