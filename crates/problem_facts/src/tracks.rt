//! Which tracks the pins of each tree close to it.
ghost use Rattle.std.specs.Prelude.{◌≡◌, ◌<◌, ◌≤◌, ◌||◌, All, IfOk, IfSome, IsNone, IsTrue, [], ℕ, false, length, not, slice_index_or};
ghost use Rattle.fpga_graph.specs.declared.opened.TheConstants.{MOST_TRACKS};
ghost use Rattle.fpga_types.specs.Pins.{HasPin};
ghost use Rattle.fpga_types.specs.declared.limits.TheConstants.{SLOT_LIMIT, WIDTH_LIMIT};
ghost use Rattle.problem_facts.specs.Alone.{AreClosed, IsFull};

use fpga_graph::{Graph, MOST_TRACKS};
use fpga_types::{PinStep, SLOT_LIMIT, WIDTH_LIMIT};
use std::alloc::{AllocError, Global};

/// For each slot and each track whether a pin closes the track to the slot's tree, in the row of
/// its first slot; the rows of other slots hold nothing.
pub(crate) fn closed_tracks(
    alloc: Global,
    graph: &Graph<'_>,
    roots: &[u32],
    steps: &[PinStep],
) -> Result<Vec<[bool; MOST_TRACKS]>, AllocError>
    requires within { All (λ root. root < length roots.now) roots.now }
    requires slots { All (λ step. step.slot < length roots.now) steps.now }
    requires pins { All (λ step. HasPin graph.now.arch step.pin) steps.now }
    ensures each { IfOk result (λ rows. length rows.items ≡ length roots.now) }
    ensures closed { IfOk result (λ rows. AreClosed graph.now.arch graph.now.width roots.now
        steps.now rows.items) }
{
    let mut rows = empty_rows(alloc, roots.len())?;
    for step in steps {
        let opened = graph.opened(step.pin);
        close(&mut rows[roots[step.slot as usize] as usize], &opened);
    }
    Ok(rows)
}

/// So many rows without a mark.
fn empty_rows(alloc: Global, count: usize) -> Result<Vec<[bool; MOST_TRACKS]>, AllocError>
    ensures each { IfOk result (λ rows. length rows.items ≡ count) }
    ensures none { IfOk result (λ rows. (tree track : ℕ)
        → slice_index_or (slice_index_or rows.items tree []) track false ≡ false) }
{
    let mut rows = Vec::with_capacity(alloc, count)?;
    for _ in 0..count {
        rows.push([false; MOST_TRACKS])?;
    }
    Ok(rows)
}

/// Marks the tracks that are not opened.
fn close(row: &mut [bool; MOST_TRACKS], opened: &[bool; MOST_TRACKS])
    ensures { (t : ℕ) → t < MOST_TRACKS → slice_index_or row.new t false
        ≡ (slice_index_or row.old t false || not (slice_index_or opened.now t false)) }
{
    for t in 0..MOST_TRACKS {
        if !opened[t] {
            row[t] = true;
        }
    }
}

/// The first row in which each track of a channel is marked.
pub(crate) fn first_full(rows: &[[bool; MOST_TRACKS]], width: u32) -> Option<u32>
    requires few { length rows.now ≤ SLOT_LIMIT }
    requires width { width ≤ WIDTH_LIMIT }
    ensures some { IfSome result (λ s. (s < length rows.now)
        × IsFull width (slice_index_or rows.now s [])) }
    ensures none { IsNone result → (s : ℕ) → s < length rows.now
        → ¬ IsFull width (slice_index_or rows.now s []) }
{
    for s in 0..rows.len() {
        if is_full(&rows[s], width) {
            return Some(s as u32);
        }
    }
    None
}

/// Whether each track of a channel is marked.
fn is_full(row: &[bool; MOST_TRACKS], width: u32) -> bool
    requires width { width ≤ WIDTH_LIMIT }
    ensures all { IsTrue result → IsFull width row.now }
    ensures some { result ≡ false → ¬ IsFull width row.now }
{
    for t in 0..width as usize {
        if !row[t] {
            return false;
        }
    }
    true
}
