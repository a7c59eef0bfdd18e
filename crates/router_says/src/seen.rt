//! Words for what can be seen of a width without a search.
ghost use Rattle.std.specs.Prelude.{◌≡◌, ◌≤◌, ◌++◌, IsTrue, OnOk, codes, false, string_bytes};
ghost use Rattle.fpga_types.specs.declared.limits.TheConstants.{WIDTH_LIMIT};
ghost use Rattle.problem_facts.specs.Facts.{AreFactsOf};
ghost use Rattle.router_says.specs.AtFault.{Appends};
ghost use Rattle.router_says.specs.Names.{asked};
ghost use Rattle.router_says.specs.Seen as spec;
ghost use Rattle.router_says.specs.Seen.{
  SaysAlone,
  SaysSeen,
  SaysSeenBy,
  SaysSeenOf,
  Sees,
  apart_said,
  count_said,
  crowding_said,
  first_cell_said,
  hints_of,
  nets_said,
  order_said,
  trackless_said,
};
ghost use Rattle.router_says.specs.declared.phrases.TheConstants.{SEEN_CELL, SEEN_CROWD};

use crate::names::reach_asked;
use crate::phrases::{
    SEEN_ALONE, SEEN_APART, SEEN_CELL, SEEN_COUNT, SEEN_CROWD, SEEN_ORDER, SEEN_TRACKLESS,
};
use crate::places::{append_first_cell, append_net, append_nets, append_pins};
use fpga_bounds::PlacedProblem;
use fpga_types::{PinStep, WIDTH_LIMIT};
use problem_facts::{ClosedTree, Facts, is_exchangeable, trackless};
use route_count::{Crowding, crowded_by};
use router_words::{Job, Method};
use std::alloc::{AllocError, Global};

/// Which options may help that were not given.
#[derive(Clone, Copy)]
pub(crate) struct Hints {
    /// Counting.
    pub(crate) count: bool,
    /// Tracks in order.
    pub(crate) order: bool,
}

/// Appends what is seen of a width without a search, where no reach was given: which nets want
/// more tracks than there are, and which option helps; else a net that no track serves alone; else,
/// where the width is open, which option may help. Where no problem was worked on, nothing is said.
pub(crate) fn append_seen(
    alloc: Global,
    out: &mut String,
    job: Option<Job<'_>>,
    problem: &Option<PlacedProblem>,
    width: u32,
    is_open: bool,
) -> Result<(), AllocError>
    ensures { OnOk result (Appends (Sees problem.now (asked job.entry) width is_open)
        (string_bytes out.old) (string_bytes out.new)) }
{
    if !is_looked_at(job, width) {
        return Ok(());
    }
    append_looked(alloc, out, problem, width, hints_of(job, is_open))
}

// Whether it is looked at: numbers alone say nothing of a search within a reach.
fn is_looked_at(job: Option<Job<'_>>, width: u32) -> bool
    ensures value { result ≡ spec.is_looked_at width (asked job.entry) }
    ensures within { IsTrue result → (1 ≤ width) × (width ≤ WIDTH_LIMIT) }
{
    if reach_asked(job).is_some() {
        return false;
    }
    1 <= width && width <= WIDTH_LIMIT
}

// Appends what is seen of the problem, if one was worked on.
fn append_looked(
    alloc: Global,
    out: &mut String,
    problem: &Option<PlacedProblem>,
    width: u32,
    hints: Hints,
) -> Result<(), AllocError>
    requires width { (1 ≤ width) × (width ≤ WIDTH_LIMIT) }
    ensures { OnOk result (Appends (SaysSeen width hints problem.now) (string_bytes out.old)
        (string_bytes out.new)) }
{
    match problem {
        Some(problem) => append_of_problem(alloc, out, problem, width, hints),
        None => Ok(()),
    }
}

// Which options may help that were not given.
fn hints_of(job: Option<Job<'_>>, is_open: bool) -> Hints
    ensures { result ≡ hints_of (asked job.entry) is_open }
{
    Hints {
        count: may_count(job),
        order: is_open && may_order(job),
    }
}

// Whether counting can be asked for, and was not.
fn may_count(job: Option<Job<'_>>) -> bool
    ensures { result ≡ spec.may_count (asked job.entry) }
{
    let Some(job) = job else {
        return false;
    };
    match job {
        Job::Route(job) => !job.search.count,
        Job::Sweep(job) => !job.search.count,
        Job::Encode(_)
        | Job::Decode(_)
        | Job::Core(_)
        | Job::Check(_)
        | Job::Verify(_)
        | Job::Judge(_)
        | Job::Bound(_)
        | Job::Global(_)
        | Job::Least(_)
        | Job::Gen(_)
        | Job::Trial(_) => false,
    }
}

// Whether tracks in order can be asked for, and nothing of that kind was.
fn may_order(job: Option<Job<'_>>) -> bool
    ensures { result ≡ spec.may_order (asked job.entry) }
{
    let Some(job) = job else {
        return false;
    };
    match job {
        Job::Route(job) => is_strict(job.search.method),
        Job::Sweep(job) => is_strict(job.search.method),
        Job::Core(job) => is_strict(job.method),
        Job::Encode(_)
        | Job::Decode(_)
        | Job::Check(_)
        | Job::Verify(_)
        | Job::Judge(_)
        | Job::Bound(_)
        | Job::Global(_)
        | Job::Least(_)
        | Job::Gen(_)
        | Job::Trial(_) => false,
    }
}

fn is_strict(method: Method) -> bool
    ensures { result ≡ spec.is_strict method }
{
    match method {
        Method::Strictly => true,
        Method::Pinned | Method::Ordered | Method::Within(_) => false,
    }
}

// Appends it of a problem.
fn append_of_problem(
    alloc: Global,
    out: &mut String,
    problem: &PlacedProblem,
    width: u32,
    hints: Hints,
) -> Result<(), AllocError>
    requires width { (1 ≤ width) × (width ≤ WIDTH_LIMIT) }
    ensures { OnOk result (Appends (SaysSeenOf width hints problem.now) (string_bytes out.old)
        (string_bytes out.new)) }
{
    let facts = Facts::of(alloc, problem)?;
    append_by_facts(alloc, out, problem, &facts, width, hints)
}

// Appends it of a problem of which this is known.
fn append_by_facts(
    alloc: Global,
    out: &mut String,
    problem: &PlacedProblem,
    facts: &Facts,
    width: u32,
    hints: Hints,
) -> Result<(), AllocError>
    requires width { (1 ≤ width) × (width ≤ WIDTH_LIMIT) }
    requires facts { AreFactsOf problem.now facts.now }
    ensures { OnOk result (Appends (SaysSeenBy width hints problem.now facts.now.crowd)
        (string_bytes out.old) (string_bytes out.new)) }
{
    match crowded_by(alloc, problem, facts, width)? {
        Some(crowding) => append_crowded(out, problem, &crowding, hints),
        None => append_alone(alloc, out, problem, facts, width, hints),
    }
}

// Appends a net that no track serves, or what else may help.
fn append_alone(
    alloc: Global,
    out: &mut String,
    problem: &PlacedProblem,
    facts: &Facts,
    width: u32,
    hints: Hints,
) -> Result<(), AllocError>
    requires width { (1 ≤ width) × (width ≤ WIDTH_LIMIT) }
    requires facts { AreFactsOf problem.now facts.now }
    ensures { OnOk result (Appends (SaysAlone width hints problem.now) (string_bytes out.old)
        (string_bytes out.new)) }
{
    match trackless(alloc, problem, facts, width)? {
        Some(found) => append_trackless(out, problem, &found),
        None => append_order(out, problem, width, hints),
    }
}

// Appends a net that no track serves, and the places of its pins.
fn append_trackless(
    out: &mut String,
    problem: &PlacedProblem,
    found: &ClosedTree,
) -> Result<(), AllocError>
    ensures { OnOk result (string_bytes out.new
        ≡ string_bytes out.old ++ trackless_said problem.now found.now) }
{
    out.push_str(SEEN_TRACKLESS)?;
    append_net(out, problem, found.tree)?;
    append_apart(out, &found.pins)?;
    Ok(())
}

// Appends the places of pins that open no track in common.
fn append_apart(out: &mut String, row: &[PinStep]) -> Result<(), AllocError>
    ensures { OnOk result (string_bytes out.new ≡ string_bytes out.old ++ apart_said row.now) }
{
    out.push_str(SEEN_ALONE)?;
    append_pins(out, row)?;
    out.push_str(SEEN_APART)?;
    Ok(())
}

// Appends that keeping tracks in order may help, where it can.
fn append_order(
    out: &mut String,
    problem: &PlacedProblem,
    width: u32,
    hints: Hints,
) -> Result<(), AllocError>
    requires width { (1 ≤ width) × (width ≤ WIDTH_LIMIT) }
    ensures { OnOk result
        (string_bytes out.new ≡ string_bytes out.old ++ order_said width hints problem.now) }
{
    if !hints.order {
        return Ok(());
    }
    if !is_exchangeable(problem, width) {
        return Ok(());
    }
    out.push_str(SEEN_ORDER)
}

// Appends slots that want different tracks, and are more than there are, and what shows that.
fn append_crowded(
    out: &mut String,
    problem: &PlacedProblem,
    crowding: &Crowding,
    hints: Hints,
) -> Result<(), AllocError>
    ensures { OnOk result (string_bytes out.new ≡ string_bytes out.old
        ++ (crowding_said problem.now crowding.now ++ count_said hints)) }
{
    append_slots(out, problem, crowding)?;
    append_count(out, hints)?;
    Ok(())
}

// Appends that counting shows it, where that may help.
fn append_count(out: &mut String, hints: Hints) -> Result<(), AllocError>
    ensures { OnOk result (string_bytes out.new ≡ string_bytes out.old ++ count_said hints) }
{
    if !hints.count {
        return Ok(());
    }
    out.push_str(SEEN_COUNT)
}

// Appends slots that want different tracks, and are more than there are.
fn append_slots(
    out: &mut String,
    problem: &PlacedProblem,
    crowding: &Crowding,
) -> Result<(), AllocError>
    ensures { OnOk result (string_bytes out.new
        ≡ string_bytes out.old ++ crowding_said problem.now crowding.now) }
{
    match crowding {
        Crowding::Cell(row) => append_cell_row(out, problem, row.as_slice()),
        Crowding::Crowd(row) => append_crowd_row(out, problem, row.as_slice()),
    }
}

// Appends slots of one cell.
fn append_cell_row(out: &mut String, problem: &PlacedProblem, row: &[u32]) -> Result<(), AllocError>
    ensures { OnOk result (string_bytes out.new ≡ string_bytes out.old
        ++ (SEEN_CELL.now ++ (first_cell_said problem.now row.now
        ++ (codes ":" ++ nets_said problem.now row.now)))) }
{
    out.push_str(SEEN_CELL)?;
    append_first_cell(out, problem, row)?;
    out.push_str(":")?;
    append_nets(out, problem, row)?;
    Ok(())
}

// Appends slots of trees that meet each other.
fn append_crowd_row(
    out: &mut String,
    problem: &PlacedProblem,
    row: &[u32],
) -> Result<(), AllocError>
    ensures { OnOk result (string_bytes out.new ≡ string_bytes out.old
        ++ (SEEN_CROWD.now ++ nets_said problem.now row.now)) }
{
    out.push_str(SEEN_CROWD)?;
    append_nets(out, problem, row)?;
    Ok(())
}
