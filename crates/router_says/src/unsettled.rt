//! Words for a search that found no routing.
ghost use Rattle.std.specs.Prelude.{
  ◌≡◌,
  ◌*◌,
  ◌<◌,
  ◌≤◌,
  ◌++◌,
  OnOk,
  decimal,
  min,
  option_map,
  string_bytes,
};
ghost use Rattle.fpga_problem.specs.Files.{names_said};
ghost use Rattle.route_sweep.specs.Names.{numbered_prefix};
ghost use Rattle.router_says.specs.Names.{asked, prefix_of, prefix_said};
ghost use Rattle.router_says.specs.Said.{
  budget_said,
  check_each_said,
  check_one_said,
  claim_said,
  effort_said,
  elsewhere_by,
  elsewhere_said,
  end_said,
  greater_said,
  hand_each_said,
  hand_one_said,
  log_one_said,
  memory_said,
  more_said,
  next_said,
  open_said,
  reach_said,
  refuted_each_said,
  refuted_one_said,
  refuted_said,
  undecided_by,
  undecided_said,
  unroutable_by,
  unroutable_said,
  up_to_said,
  was_stopped,
};
ghost use Rattle.run_outcome.specs.Stopped.{budget_asked};
ghost use Rattle.router_words.specs.Job.{job_said};
ghost use Rattle.router_words.specs.declared.limits.TheConstants.{BUDGET_LIMIT};

use crate::names::{Written, files_written, reach_asked};
use crate::phrases::*;
use fpga_problem::FourNames;
use fpga_types::WIDTH_LIMIT;
use router_words::{BUDGET_LIMIT, Job};
use std::alloc::AllocError;

/// Appends that no routing of this width is legal, what shows it, and of which global route.
pub(crate) fn append_unroutable(
    out: &mut String,
    job: Option<Job<'_>>,
    width: u32,
) -> Result<(), AllocError>
    ensures { OnOk result (string_bytes out.new
        ≡ string_bytes out.old ++ unroutable_said (asked job.entry) width) }
{
    append_refutation(out, files_written(job), reach_asked(job), width)?;
    append_elsewhere(out, job, width)
}

// Appends that this is so of the global route that was given, and what speaks of all routes of the
// placement.
fn append_elsewhere(out: &mut String, job: Option<Job<'_>>, width: u32) -> Result<(), AllocError>
    ensures { OnOk result (string_bytes out.new
        ≡ string_bytes out.old ++ elsewhere_said (asked job.entry) width) }
{
    match job {
        Some(Job::Route(job)) => append_beside(out, job.files, job.search.prefix, width),
        Some(Job::Sweep(job)) => append_beside(out, job.files, job.search.prefix, width),
        _ => Ok(()),
    }
}

fn append_beside(
    out: &mut String,
    files: FourNames<'_>,
    prefix: &str,
    width: u32,
) -> Result<(), AllocError>
    ensures { OnOk result (string_bytes out.new
        ≡ string_bytes out.old ++ elsewhere_by (names_said files.entry) prefix.now width) }
{
    let route = files.route;
    let architecture = files.architecture;
    let netlist = files.netlist;
    let placement = files.placement;
    write!(
        out,
        "{ROUTE_GIVEN}{route}{ROUTE_OTHERS}{architecture} {netlist} {placement} {width} {prefix}"
    )
}

fn append_refutation(
    out: &mut String,
    written: Option<Written<'_>>,
    reach: Option<u32>,
    width: u32,
) -> Result<(), AllocError>
    ensures { OnOk result (string_bytes out.new ≡ string_bytes out.old
        ++ unroutable_by (option_map prefix_said written.entry) reach width) }
{
    append_claim(out, up_to(written), width)?;
    append_reach(out, reach)?;
    append_refuted(out, written, width)?;
    Ok(())
}

// What is claimed, with these words before the width.
fn append_claim(out: &mut String, up_to: &str, width: u32) -> Result<(), AllocError>
    ensures { OnOk result
        (string_bytes out.new ≡ string_bytes out.old ++ claim_said up_to.now width) }
{
    write!(out, "{REFUTED_ROUTING}{up_to}{width}{TRACKS_LEGAL}")
}

// A climb has refuted the lower widths too.
fn up_to(written: Option<Written<'_>>) -> &'static str
    ensures { result.now ≡ up_to_said (option_map prefix_said written.entry) }
{
    match written {
        Some(Written::Each(_)) => REFUTED_UP_TO,
        Some(Written::One(_)) | None => "",
    }
}

// Within how many joins that is, where a reach was given.
fn append_reach(out: &mut String, reach: Option<u32>) -> Result<(), AllocError>
    ensures { OnOk result (string_bytes out.new ≡ string_bytes out.old ++ reach_said reach) }
{
    match reach {
        Some(reach) => write!(out, "{REACH_WITHIN}{reach}{REACH_JOINS}"),
        None => Ok(()),
    }
}

// The files that show it, and how they are checked.
fn append_refuted(
    out: &mut String,
    written: Option<Written<'_>>,
    width: u32,
) -> Result<(), AllocError>
    ensures { OnOk result (string_bytes out.new
        ≡ string_bytes out.old ++ refuted_said (option_map prefix_said written.entry) width) }
{
    match written {
        Some(Written::One(prefix)) => append_one(out, prefix),
        Some(Written::Each(prefix)) => append_each(out, prefix, width),
        None => out.push_str("."),
    }
}

fn append_one(out: &mut String, prefix: &str) -> Result<(), AllocError>
    ensures { OnOk result
        (string_bytes out.new ≡ string_bytes out.old ++ refuted_one_said prefix.now) }
{
    append_log_one(out, prefix)?;
    append_check_one(out, prefix)?;
    Ok(())
}

fn append_log_one(out: &mut String, prefix: &str) -> Result<(), AllocError>
    ensures { OnOk result
        (string_bytes out.new ≡ string_bytes out.old ++ log_one_said prefix.now) }
{
    write!(
        out,
        ": {prefix}{FILE_LOG}{LOG_REFUTES}{prefix}{FILE_CLAUSES}."
    )
}

/// Appends how a log is checked against its clauses.
pub(crate) fn append_check_one(out: &mut String, prefix: &str) -> Result<(), AllocError>
    ensures { OnOk result
        (string_bytes out.new ≡ string_bytes out.old ++ check_one_said prefix.now) }
{
    write!(out, "{LOG_CHECK}{prefix}{FILE_CLAUSES} {prefix}{FILE_LOG}")
}

fn append_each(out: &mut String, prefix: &str, width: u32) -> Result<(), AllocError>
    ensures { OnOk result (string_bytes out.new ≡ string_bytes out.old
        ++ (refuted_each_said prefix.now ++ check_each_said (numbered_prefix prefix.now width))) }
{
    append_refuted_each(out, prefix)?;
    append_check_each(out, prefix, width)?;
    Ok(())
}

fn append_refuted_each(out: &mut String, prefix: &str) -> Result<(), AllocError>
    ensures { OnOk result
        (string_bytes out.new ≡ string_bytes out.old ++ refuted_each_said prefix.now) }
{
    write!(
        out,
        ": {prefix}{LOG_EACH_REFUTES}{prefix}{LOG_EACH_CLAUSES}"
    )
}

fn append_check_each(out: &mut String, prefix: &str, width: u32) -> Result<(), AllocError>
    ensures { OnOk result (string_bytes out.new ≡ string_bytes out.old
        ++ check_each_said (numbered_prefix prefix.now width)) }
{
    out.push_str(LOG_CHECK_LAST)?;
    append_width_name(out, prefix, width)?;
    write!(out, "{FILE_CLAUSES} ")?;
    append_width_name(out, prefix, width)?;
    out.push_str(FILE_LOG)?;
    Ok(())
}

// Appends what the names of the files of a width begin with.
fn append_width_name(out: &mut String, prefix: &str, width: u32) -> Result<(), AllocError>
    ensures { OnOk result
        (string_bytes out.new ≡ string_bytes out.old ++ numbered_prefix prefix.now width) }
{
    write!(out, "{prefix}.w{width}")
}

/// Appends that a width is open, and what can be tried.
pub(crate) fn append_undecided(
    out: &mut String,
    job: Option<Job<'_>>,
    width: u32,
    learned: u64,
) -> Result<(), AllocError>
    ensures { OnOk result (string_bytes out.new
        ≡ string_bytes out.old ++ undecided_said (asked job.entry) width learned) }
{
    let stopped = was_stopped(job, learned);
    append_doubt(
        out,
        files_written(job),
        reach_asked(job),
        stopped,
        width,
        learned,
    )
}

// Whether the search of a job was stopped before its budget was spent.
fn was_stopped(job: Option<Job<'_>>, learned: u64) -> bool
    ensures { result ≡ was_stopped (asked job.entry) learned }
{
    let Some(job) = job else {
        return false;
    };
    learned < budget_asked(job)
}

// How many clauses a search of a job may learn, if it searches so.
fn budget_asked(job: Job<'_>) -> u64
    ensures { result ≡ budget_asked (job_said job.entry) }
{
    match job {
        Job::Route(job) => job.search.conflicts,
        Job::Sweep(job) => job.search.conflicts,
        Job::Core(job) => job.conflicts,
        Job::Trial(job) => job.search.conflicts,
        Job::Encode(_)
        | Job::Decode(_)
        | Job::Check(_)
        | Job::Verify(_)
        | Job::Judge(_)
        | Job::Bound(_)
        | Job::Global(_)
        | Job::Least(_)
        | Job::Gen(_) => 0,
    }
}

fn append_doubt(
    out: &mut String,
    written: Option<Written<'_>>,
    reach: Option<u32>,
    stopped: bool,
    width: u32,
    learned: u64,
) -> Result<(), AllocError>
    ensures { OnOk result (string_bytes out.new ≡ string_bytes out.old
        ++ undecided_by (option_map prefix_said written.entry) reach stopped width learned) }
{
    write!(out, "{OPEN_ROUTING}{width}{TRACKS_LEGAL}")?;
    append_reach(out, reach)?;
    append_open(out, stopped, learned)?;
    append_next(out, written, stopped, width, learned)?;
    Ok(())
}

fn append_open(out: &mut String, stopped: bool, learned: u64) -> Result<(), AllocError>
    ensures { OnOk result
        (string_bytes out.new ≡ string_bytes out.old ++ open_said stopped learned) }
{
    write!(out, "{OPEN_LEARNED}{learned}")?;
    out.push_str(end_said(stopped))?;
    Ok(())
}

// What has ended the search.
fn end_said(stopped: bool) -> &'static str
    ensures { result.now ≡ end_said stopped }
{
    if stopped {
        OPEN_TIME_OVER
    } else {
        OPEN_BUDGET_SPENT
    }
}

// What can be tried next.
fn append_next(
    out: &mut String,
    written: Option<Written<'_>>,
    stopped: bool,
    width: u32,
    learned: u64,
) -> Result<(), AllocError>
    ensures { OnOk result (string_bytes out.new ≡ string_bytes out.old
        ++ next_said (option_map prefix_said written.entry) stopped width learned) }
{
    match written {
        Some(Written::One(prefix)) => append_next_of_one(out, prefix, stopped, learned),
        Some(Written::Each(prefix)) => { append_next_of_each(out, prefix, stopped, width, learned) }
        None => Ok(()),
    }
}

// The same, where the clauses that are left open are of one width.
fn append_next_of_one(
    out: &mut String,
    prefix: &str,
    stopped: bool,
    learned: u64,
) -> Result<(), AllocError>
    ensures { OnOk result (string_bytes out.new ≡ string_bytes out.old
        ++ (effort_said stopped learned ++ hand_one_said prefix.now)) }
{
    append_effort(out, stopped, learned)?;
    write!(
        out,
        "{TRY_HAND}{prefix}{FILE_CLAUSES}{TRY_ANOTHER_SOLVER}{TRY_OR}{TRY_OTHER_WIDTH}"
    )
}

fn append_next_of_each(
    out: &mut String,
    prefix: &str,
    stopped: bool,
    width: u32,
    learned: u64,
) -> Result<(), AllocError>
    ensures { OnOk result (string_bytes out.new ≡ string_bytes out.old
        ++ (effort_said stopped learned
        ++ hand_each_said (numbered_prefix prefix.now width) width)) }
{
    append_effort(out, stopped, learned)?;
    append_hand_each(out, prefix, width)?;
    Ok(())
}

fn append_hand_each(out: &mut String, prefix: &str, width: u32) -> Result<(), AllocError>
    ensures { OnOk result (string_bytes out.new ≡ string_bytes out.old
        ++ hand_each_said (numbered_prefix prefix.now width) width) }
{
    out.push_str(TRY_HAND)?;
    append_width_name(out, prefix, width)?;
    write!(out, "{FILE_CLAUSES}{TRY_ANOTHER_SOLVER}")?;
    append_greater(out, width)?;
    Ok(())
}

// A greater width can be tried, where the words take one.
fn append_greater(out: &mut String, width: u32) -> Result<(), AllocError>
    ensures { OnOk result (string_bytes out.new ≡ string_bytes out.old ++ greater_said width) }
{
    if width < WIDTH_LIMIT {
        return write!(out, "{TRY_OR}{TRY_GREATER_WIDTH}");
    }
    out.push_str(".")
}

// How much more can be tried next: time where the search was stopped, or else a budget.
fn append_effort(out: &mut String, stopped: bool, learned: u64) -> Result<(), AllocError>
    ensures { OnOk result (string_bytes out.new
        ≡ string_bytes out.old ++ effort_said stopped learned) }
{
    if stopped {
        return write!(out, "{TRY_SECONDS}{TRY_OR}");
    }
    append_budget(out, learned)
}

// What budget can be tried next, if the words take a greater one.
fn append_budget(out: &mut String, learned: u64) -> Result<(), AllocError>
    ensures { OnOk result (string_bytes out.new ≡ string_bytes out.old ++ budget_said learned) }
{
    if learned >= BUDGET_LIMIT {
        return out.push_str(TRY_NO_BUDGET);
    }
    append_more(out, greater_budget(learned))
}

// Ten times this budget, but no more than the words take.
fn greater_budget(learned: u64) -> u64
    requires { learned < BUDGET_LIMIT }
    ensures value { result ≡ min (learned * 10) BUDGET_LIMIT }
    ensures within { result ≤ BUDGET_LIMIT }
{
    (learned * 10).min(BUDGET_LIMIT)
}

fn append_more(out: &mut String, budget: u64) -> Result<(), AllocError>
    ensures { OnOk result (string_bytes out.new ≡ string_bytes out.old ++ more_said budget) }
{
    write!(out, "{TRY_CONFLICTS}{budget}{TRY_OR}")
}

/// Appends that memory ran out, and what was shown until then.
pub(crate) fn append_no_memory(out: &mut String, job: Option<Job<'_>>) -> Result<(), AllocError>
    ensures { OnOk result (string_bytes out.new
        ≡ string_bytes out.old ++ memory_said (prefix_of (asked job.entry))) }
{
    append_shown(out, files_written(job))
}

fn append_shown(out: &mut String, written: Option<Written<'_>>) -> Result<(), AllocError>
    ensures { OnOk result (string_bytes out.new
        ≡ string_bytes out.old ++ memory_said (option_map prefix_said written.entry)) }
{
    match written {
        Some(Written::Each(prefix)) => write!(out, "{MEMORY_WIDTHS}{prefix}{MEMORY_REFUTED}"),
        Some(Written::One(_)) | None => out.push_str(MEMORY_NOTHING),
    }
}
