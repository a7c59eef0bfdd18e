//! The words for each outcome.
ghost use Rattle.std.specs.Prelude.{◌≡◌, ◌++◌, IsOk, IsTrue, OnOk, false, string_bytes, true, unwrap_or};
ghost use Rattle.std.specs.Option.{option_copied};
ghost use Rattle.code_words.specs.Refused.{judged_said, limit_said, line_said, step_said};
ghost use Rattle.router_says.specs.AtFault.{Appends, Shows, sought_of};
ghost use Rattle.router_says.specs.Names.{asked, may_have_several, name_of};
ghost use Rattle.router_says.specs.Quiet.{is_quiet};
ghost use Rattle.router_says.specs.Said.{
  IsSaid,
  Says,
  SaysAnd,
  about_said,
  limit_place,
  undecided_said,
  unmet_said,
  unroutable_said,
};
ghost use Rattle.router_says.specs.Seen.{Sees};
ghost use Rattle.router_says.specs.declared.sought.Sought.TheVariants.{Routed as RoutedLine};
ghost use Rattle.run_outcome.specs.declared.text_file.TextFile.TheVariants.{Lrat, Model, Routed};
ghost use Rattle.router_words.specs.Word.{words_of};

use crate::at_fault::{append_at_fault, append_judged_line};
use crate::bounds::{append_bound, append_narrowed};
use crate::faults::{SystemErrors, append_unread, append_unwritten};
use crate::names::{job_in, may_have_several};
use crate::raised::append_raised;
use crate::refused::{append_file, append_limit_place, append_unmet};
use crate::seen::append_seen;
use crate::symmetry::append_obstacle;
use crate::unfound::{append_no_way, append_unfound};
use crate::unsettled::{append_no_memory, append_undecided, append_unroutable};
use code_words::{append_judged, append_limit, append_line, append_step};
use desk_io::Desk;
use fpga_bounds::PlacedProblem;
use router_words::Job;
use run_outcome::{Outcome, Ran, TextFile, status};
use std::alloc::{AllocError, Global};
use usage_words::append_usage;

/// Appends what an outcome of a run with these words means, in lines that end with a newline:
/// which file is meant, by the name that was given or made; what its line has, and the name of what
/// is at fault there, or the line as it stands; of a fault the reason that the system gave last;
/// what can be tried next. It appends nothing where the run came to what was asked for and no more
/// is to be known of that, and in each other case something.
///
/// Where a file has a fault or is not legal, it reads the files of the desk once more; else none.
/// Of a width that has no routing or is open it looks at the problem that the run gives back; of
/// tracks that a refutation asks for, it names nets that need them by the reason that it gives.
///
/// # Errors
/// Memory ran out; then a front part may have been appended.
pub fn append_words<D: Desk>(
    alloc: Global,
    desk: &mut D,
    out: &mut String,
    words: &[String],
    ran: &Ran,
    errors: SystemErrors,
) -> Result<(), AllocError>
    ensures quiet { IsTrue (is_quiet ran.now.outcome) →
        IsOk result × (string_bytes out.new ≡ string_bytes out.old) }
    ensures said { OnOk result (is_quiet ran.now.outcome ≡ false → IsSaid (D.state desk.old)
        (D.state desk.new) (words_of words.now) errors ran.now.problem ran.now.reason
        ran.now.outcome (string_bytes out.old) (string_bytes out.new)) }
{
    if is_quiet(&ran.outcome) {
        return Ok(());
    }
    let job = job_in(alloc, words)?;
    append_meaning(alloc, desk, out, words, job, ran, errors)?;
    append_raised(out, &ran.reason, &ran.outcome)?;
    out.push_str("\n")?;
    Ok(())
}

// Whether the run came to what was asked for, and no more is to be known of that.
fn is_quiet(outcome: &Outcome) -> bool
    ensures { result ≡ is_quiet outcome.now }
{
    match outcome {
        Outcome::Bound { .. } | Outcome::Narrowed { .. } => false,
        _ => status(outcome) == 0,
    }
}

// Appends what an outcome means, without the newline at the end.
fn append_meaning<D: Desk>(
    alloc: Global,
    desk: &mut D,
    out: &mut String,
    words: &[String],
    job: Option<Job<'_>>,
    ran: &Ran,
    errors: SystemErrors,
) -> Result<(), AllocError>
    ensures { OnOk result (Appends (Says (D.state desk.old) (D.state desk.new) (words_of words.now)
        (asked job.entry) errors ran.now.problem ran.now.outcome) (string_bytes out.old)
        (string_bytes out.new)) }
{
    match ran.outcome {
        Outcome::NotAccepted { step, cause } => append_refused_step(out, job, step, cause),
        Outcome::NotLegal { line, cause } => {
            append_not_legal(alloc, desk, out, job, line, cause)
        }
        Outcome::NotModel { clause } => append_no_model(out, job, clause),
        Outcome::InputFault { file, line, code } => {
            append_bad_line(alloc, desk, out, job, file, line, code)
        }
        Outcome::Limit { file, code, count } => append_passed_limit(out, job, file, code, count),
        Outcome::NotSymmetric { width, why } => append_obstacle(out, width, why),
        Outcome::Unroutable { width } => append_refuted(alloc, out, job, &ran.problem, width),
        Outcome::Undecided { width, learned } => {
            append_left_open(alloc, out, job, &ran.problem, width, learned)
        }
        Outcome::Bound {
            tracks,
            cells,
            nets,
        }
        | Outcome::Beyond {
            tracks,
            cells,
            nets,
        } => append_bound(out, tracks, cells, nets),
        Outcome::Narrowed { tracks, width, cut } => {
            append_narrowed(out, job, tracks, width, cut)
        }
        Outcome::Unfound {
            width,
            rounds,
            stopped,
        } => append_unfound(out, job, width, rounds, stopped),
        Outcome::NoWay { width } => append_no_way(out, width),
        Outcome::Usage { code } => append_usage(out, words, code),
        Outcome::ReadFault { file } => append_unread(out, job, file, errors.reading),
        Outcome::WriteFault { slot } => append_unwritten(out, job, slot, errors),
        Outcome::OutOfMemory => append_no_memory(out, job),
        Outcome::Routed { .. } | Outcome::Done | Outcome::Accepted | Outcome::LegalRoute => Ok(()),
    }
}

// Which step of the log is refused, and why.
fn append_refused_step(
    out: &mut String,
    job: Option<Job<'_>>,
    step: u64,
    code: u32,
) -> Result<(), AllocError>
    ensures { OnOk result (string_bytes out.new ≡ string_bytes out.old
        ++ (about_said (asked job.entry) Lrat ++ step_said step code)) }
{
    append_file(out, job, TextFile::Lrat)?;
    append_step(out, step, code)
}

// Which line of the routed file is bad, why, the line as it stands and in which net.
fn append_not_legal<D: Desk>(
    alloc: Global,
    desk: &mut D,
    out: &mut String,
    job: Option<Job<'_>>,
    line: u64,
    code: u32,
) -> Result<(), AllocError>
    ensures { OnOk result (Appends (SaysAnd (Shows (D.state desk.old) (D.state desk.new)
        (name_of (asked job.entry)) Routed line RoutedLine)
        (about_said (asked job.entry) Routed
        ++ judged_said (may_have_several (asked job.entry)) line code))
        (string_bytes out.old) (string_bytes out.new)) }
{
    append_judged_of(out, job, line, code)?;
    append_judged_line(alloc, desk, out, job, line)?;
    Ok(())
}

// Which clause the model leaves unsatisfied.
fn append_no_model(out: &mut String, job: Option<Job<'_>>, clause: u32) -> Result<(), AllocError>
    ensures { OnOk result (string_bytes out.new
        ≡ string_bytes out.old ++ (about_said (asked job.entry) Model ++ unmet_said clause)) }
{
    append_file(out, job, TextFile::Model)?;
    append_unmet(out, clause)
}

// Which line of the routed file is bad, and why.
fn append_judged_of(
    out: &mut String,
    job: Option<Job<'_>>,
    line: u64,
    code: u32,
) -> Result<(), AllocError>
    ensures { OnOk result (string_bytes out.new ≡ string_bytes out.old
        ++ (about_said (asked job.entry) Routed
        ++ judged_said (may_have_several (asked job.entry)) line code)) }
{
    append_file(out, job, TextFile::Routed)?;
    append_judged(out, may_have_several(job), line, code)
}

// Which line is bad, why, and what is at fault there, by its name or as the line stands.
fn append_bad_line<D: Desk>(
    alloc: Global,
    desk: &mut D,
    out: &mut String,
    job: Option<Job<'_>>,
    file: TextFile,
    line: u64,
    code: u32,
) -> Result<(), AllocError>
    ensures { OnOk result (Appends (SaysAnd (Shows (D.state desk.old) (D.state desk.new)
        (name_of (asked job.entry)) file line (sought_of file code))
        (about_said (asked job.entry) file ++ line_said line code))
        (string_bytes out.old) (string_bytes out.new)) }
{
    append_line_of(out, job, file, line, code)?;
    append_at_fault(alloc, desk, out, job, file, line, code)?;
    Ok(())
}

// Which line of a file is bad, and why.
fn append_line_of(
    out: &mut String,
    job: Option<Job<'_>>,
    file: TextFile,
    line: u64,
    code: u32,
) -> Result<(), AllocError>
    ensures { OnOk result (string_bytes out.new ≡ string_bytes out.old
        ++ (about_said (asked job.entry) file ++ line_said line code)) }
{
    append_file(out, job, file)?;
    append_line(out, line, code)
}

// What passes its limit, and where.
fn append_passed_limit(
    out: &mut String,
    job: Option<Job<'_>>,
    file: Option<TextFile>,
    code: u32,
    count: u64,
) -> Result<(), AllocError>
    ensures { OnOk result (string_bytes out.new ≡ string_bytes out.old
        ++ (limit_place (asked job.entry) file ++ limit_said code count)) }
{
    append_limit_place(out, job, file)?;
    append_limit(out, code, count)
}

// That no routing of a width is legal, and what is seen of it without a search.
fn append_refuted(
    alloc: Global,
    out: &mut String,
    job: Option<Job<'_>>,
    problem: &Option<PlacedProblem>,
    width: u32,
) -> Result<(), AllocError>
    ensures { OnOk result (Appends (SaysAnd (Sees problem.now (asked job.entry) width false)
        (unroutable_said (asked job.entry) width)) (string_bytes out.old)
        (string_bytes out.new)) }
{
    append_unroutable(out, job, width)?;
    append_seen(alloc, out, job, problem, width, false)?;
    Ok(())
}

// That a width is open, what can be tried next, and what is seen of it without a search.
fn append_left_open(
    alloc: Global,
    out: &mut String,
    job: Option<Job<'_>>,
    problem: &Option<PlacedProblem>,
    width: u32,
    learned: u64,
) -> Result<(), AllocError>
    ensures { OnOk result (Appends (SaysAnd (Sees problem.now (asked job.entry) width true)
        (undecided_said (asked job.entry) width learned)) (string_bytes out.old)
        (string_bytes out.new)) }
{
    append_undecided(out, job, width, learned)?;
    append_seen(alloc, out, job, problem, width, true)?;
    Ok(())
}
