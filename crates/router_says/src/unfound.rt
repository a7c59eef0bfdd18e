//! Words for rounds that have found no route of a placement, and for a net that has none.
ghost use Rattle.std.specs.Prelude.{◌≡◌, ◌*◌, ◌<◌, ◌≤◌, ◌++◌, OnOk, min, string_bytes};
ghost use Rattle.router_says.specs.Names.{asked};
ghost use Rattle.router_says.specs.Unfound.{
  freer_said,
  is_free,
  more_effort_said,
  more_rounds_said,
  no_way_said,
  others_said,
  rounds_asked,
  rounds_end_said,
  rounds_said,
  tries_said,
  try_rounds_said,
  unfound_said,
  wider_said,
};
ghost use Rattle.router_words.specs.declared.limits.TheConstants.{ROUND_LIMIT};

use crate::phrases::*;
use fpga_types::WIDTH_LIMIT;
use router_words::{Job, ROUND_LIMIT};
use std::alloc::AllocError;

/// Appends that a width is open, since rounds have found no route, which the clock may have ended,
/// and what can be tried.
pub(crate) fn append_unfound(
    out: &mut String,
    job: Option<Job<'_>>,
    width: u32,
    rounds: u32,
    stopped: bool,
) -> Result<(), AllocError>
    ensures { OnOk result (string_bytes out.new
        ≡ string_bytes out.old ++ unfound_said (asked job.entry) width rounds stopped) }
{
    append_rounds(out, width, rounds, rounds_end(stopped))?;
    append_tries(out, is_free(job), stopped, rounds_asked(job), width, rounds)?;
    Ok(())
}

/// Appends that a width has no route, and why.
pub(crate) fn append_no_way(out: &mut String, width: u32) -> Result<(), AllocError>
    ensures { OnOk result (string_bytes out.new ≡ string_bytes out.old ++ no_way_said width) }
{
    write!(out, "{NO_WAY_ROUTE}{width}{NO_WAY_WHY}{NO_WAY_OTHERS}")
}

// What can be tried.
fn append_tries(
    out: &mut String,
    free: bool,
    stopped: bool,
    most: u32,
    width: u32,
    rounds: u32,
) -> Result<(), AllocError>
    ensures { OnOk result (string_bytes out.new
        ≡ string_bytes out.old ++ tries_said free stopped most width rounds) }
{
    out.push_str(ROUNDS_TRY)?;
    append_more_effort(out, stopped, most, rounds)?;
    append_others(out, free, width)?;
    Ok(())
}

// What can be tried beside more rounds.
fn append_others(out: &mut String, free: bool, width: u32) -> Result<(), AllocError>
    ensures { OnOk result (string_bytes out.new ≡ string_bytes out.old ++ others_said free width) }
{
    out.push_str(freer_said(free))?;
    out.push_str(wider_said(width))?;
    out.push_str(ROUNDS_PLACEMENT)?;
    Ok(())
}

// In how many rounds none was found, with this at the end.
fn append_rounds(out: &mut String, width: u32, rounds: u32, end: &str) -> Result<(), AllocError>
    ensures { OnOk result
        (string_bytes out.new ≡ string_bytes out.old ++ rounds_said width rounds end.now) }
{
    write!(
        out,
        "{ROUNDS_ROUTE}{width}{ROUNDS_OPEN}{rounds}{ROUNDS_MADE}{end}"
    )
}

// What has ended the rounds, where the clock has.
fn rounds_end(stopped: bool) -> &'static str
    ensures { result.now ≡ rounds_end_said stopped }
{
    if stopped { ROUNDS_STOPPED } else { "." }
}

// That more time can be tried, where the clock has ended the rounds, or else how many of them.
fn append_more_effort(
    out: &mut String,
    stopped: bool,
    most: u32,
    rounds: u32,
) -> Result<(), AllocError>
    ensures { OnOk result (string_bytes out.new
        ≡ string_bytes out.old ++ more_effort_said stopped most rounds) }
{
    if stopped {
        return out.push_str(ROUNDS_TIME);
    }
    append_more_rounds(out, most, rounds)
}

// How many rounds can be tried next, if all that there might be were made and the words take more.
fn append_more_rounds(out: &mut String, most: u32, rounds: u32) -> Result<(), AllocError>
    ensures { OnOk result
        (string_bytes out.new ≡ string_bytes out.old ++ more_rounds_said most rounds) }
{
    if rounds < most {
        return Ok(());
    }
    if rounds >= ROUND_LIMIT {
        return Ok(());
    }
    append_try_rounds(out, more_rounds(rounds))
}

// Ten times as many rounds, but no more than the words take.
fn more_rounds(rounds: u32) -> u32
    requires { rounds < ROUND_LIMIT }
    ensures value { result ≡ min (rounds * 10) ROUND_LIMIT }
    ensures within { result ≤ ROUND_LIMIT }
{
    (rounds * 10).min(ROUND_LIMIT)
}

fn append_try_rounds(out: &mut String, rounds: u32) -> Result<(), AllocError>
    ensures { OnOk result (string_bytes out.new ≡ string_bytes out.old ++ try_rounds_said rounds) }
{
    write!(out, "{ROUNDS_MORE}{rounds},")
}

// Whether the words let a net have several wires of a cell.
fn is_free(job: Option<Job<'_>>) -> bool
    ensures { result ≡ is_free (asked job.entry) }
{
    match job {
        Some(Job::Global(job)) => job.free,
        Some(Job::Least(job)) => job.free,
        _ => false,
    }
}

// How many rounds the words allow, at most.
fn rounds_asked(job: Option<Job<'_>>) -> u32
    ensures { result ≡ rounds_asked (asked job.entry) }
{
    match job {
        Some(Job::Global(job)) => job.rounds,
        Some(Job::Least(job)) => job.rounds,
        _ => 0,
    }
}

// A net can be let have several wires of a cell, where it may not yet.
fn freer_said(free: bool) -> &'static str
    ensures { result.now ≡ freer_said free }
{
    if free { "" } else { ROUNDS_FREE }
}

// A greater width can be tried, where the words take one.
fn wider_said(width: u32) -> &'static str
    ensures { result.now ≡ wider_said width }
{
    if width < WIDTH_LIMIT {
        ROUNDS_WIDER
    } else {
        ""
    }
}
