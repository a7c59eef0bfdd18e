//! Words for how many tracks a cut asks for, and how near that a route came.
ghost use Rattle.std.specs.Prelude.{◌≡◌, ◌++◌, OnOk, option_map, string_bytes};
ghost use Rattle.router_says.specs.Names.{asked, prefix_said};
ghost use Rattle.router_says.specs.Said.{
  asker_said,
  bound_said,
  clauses_said,
  for_said,
  found_said,
  log_said,
  narrowed_said,
};

use crate::names::{Written, files_written};
use crate::phrases::*;
use crate::unsettled::append_check_one;
use router_words::Job;
use std::alloc::AllocError;

/// Appends that no routing of the placement has fewer tracks, and why.
pub(crate) fn append_bound(
    out: &mut String,
    tracks: u32,
    cells: u32,
    nets: u64,
) -> Result<(), AllocError>
    ensures { OnOk result
        (string_bytes out.new ≡ string_bytes out.old ++ bound_said tracks cells nets) }
{
    write!(
        out,
        "{BOUND_ROUTING}{tracks}{BOUND_ANY_ROUTE}{nets}{BOUND_CROSSING}{cells}{BOUND_CELLS}"
    )
}

/// Appends that a width is the least of the placement, or between which two the least is, by what,
/// and how that is checked.
pub(crate) fn append_narrowed(
    out: &mut String,
    job: Option<Job<'_>>,
    tracks: u32,
    width: u32,
    cut: u32,
) -> Result<(), AllocError>
    ensures { OnOk result (string_bytes out.new
        ≡ string_bytes out.old ++ narrowed_said (asked job.entry) tracks width cut) }
{
    let is_open = tracks < width;
    append_found(out, is_open, tracks, width)?;
    append_asker(out, files_written(job), cut < tracks, for_said(is_open))
}

// Appends which number of tracks is the least, or between which two the least is.
fn append_found(out: &mut String, is_open: bool, tracks: u32, width: u32) -> Result<(), AllocError>
    ensures { OnOk result
        (string_bytes out.new ≡ string_bytes out.old ++ found_said is_open tracks width) }
{
    if is_open {
        return write!(out, "{NEAR_NEEDS}{tracks}{TO}{width}{TRACKS}");
    }
    write!(out, "{width}{LEAST_FOUND}")
}

// Which of these numbers is asked for.
fn for_said(is_open: bool) -> &'static str
    ensures { result.now ≡ for_said is_open }
{
    if is_open { NEAR_FOR } else { LEAST_FOR }
}

// Appends what asks for so many tracks: clauses, where they are more than the cut asks for.
fn append_asker(
    out: &mut String,
    written: Option<Written<'_>>,
    is_raised: bool,
    asked_for: &str,
) -> Result<(), AllocError>
    ensures { OnOk result (string_bytes out.new ≡ string_bytes out.old
        ++ asker_said (option_map prefix_said written.entry) is_raised asked_for.now) }
{
    if is_raised {
        return append_clauses(out, written, asked_for);
    }
    write!(out, "{ASKS_CUT}{asked_for}")
}

fn append_clauses(
    out: &mut String,
    written: Option<Written<'_>>,
    asked_for: &str,
) -> Result<(), AllocError>
    ensures { OnOk result (string_bytes out.new ≡ string_bytes out.old
        ++ clauses_said (option_map prefix_said written.entry) asked_for.now) }
{
    match written {
        Some(Written::One(prefix)) => append_log(out, prefix, asked_for),
        Some(Written::Each(_)) | None => write!(out, "{ASKS_CLAUSES}{ASKS}{asked_for}"),
    }
}

// Appends that they are clauses which a log refutes, and how that is checked.
fn append_log(out: &mut String, prefix: &str, asked_for: &str) -> Result<(), AllocError>
    ensures { OnOk result (string_bytes out.new
        ≡ string_bytes out.old ++ log_said prefix.now asked_for.now) }
{
    write!(
        out,
        "{ASKS_CLAUSES}{ASKS_REFUTED}{prefix}{FILE_LOG},{ASKS}{asked_for}"
    )?;
    append_check_one(out, prefix)?;
    Ok(())
}
