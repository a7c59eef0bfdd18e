//! Slots that are seen to want different tracks, more than there are.
ghost use Rattle.std.specs.Prelude.{◌≡◌, ◌+◌, ◌≤◌, ◌<◌, All, IfOk, IfSome, IsNone, IsTrue, length, suc, take};
ghost use Rattle.fpga_types.specs.CellNumbers.{cell_count};
ghost use Rattle.fpga_types.specs.Fabric.{is_cell};
ghost use Rattle.problem_facts.specs.CellCounts.{slots_before};
ghost use Rattle.problem_facts.specs.Fullest.{slots_in};
ghost use Rattle.problem_facts.specs.Facts.{AreFactsOf};
ghost use Rattle.route_count.specs.Crowded.{AreSpread, IsCrowded, IsCrowding};

use arrayvec::ArrayVec;
use fpga_bounds::PlacedProblem;
use fpga_types::{Grid, Pattern, SLOT_LIMIT, Slot, WIDTH_LIMIT, cell_number};
use problem_facts::{Facts, cells_of};
use sat_count::COUNTED_LIMIT;
use std::alloc::{AllocError, Global};

/// Slots that are to have different tracks, one more than there are tracks.
#[derive(Drop)]
pub enum Crowding {
    /// Slots of one cell.
    Cell(ArrayVec<u32, COUNTED_LIMIT>),
    /// The first slots of trees of which each two meet, where switch blocks keep tracks.
    Crowd(ArrayVec<u32, COUNTED_LIMIT>),
}

/// What is seen to forbid this width, from 1 to 64: a cell with more slots than tracks, or else,
/// where the switch blocks are subset ones, the crowd that is known of the problem, if it has more
/// trees; `None` where there is neither. The time is that of the slots and the cells.
///
/// # Errors
/// Where memory is short.
pub fn crowded_by(
    alloc: Global,
    problem: &PlacedProblem,
    facts: &Facts,
    width: u32,
) -> Result<Option<Crowding>, AllocError>
    requires width { (1 ≤ width) × (width ≤ WIDTH_LIMIT) }
    requires facts { AreFactsOf problem.now facts.now }
    ensures some { IfOk result (λ found. IfSome found
        (IsCrowding width problem.now facts.now.crowd)) }
    ensures none { IfOk result (λ found. IsNone found
        → ¬ IsCrowded width problem.now facts.now.crowd) }
{
    let grid = problem.route().grid;
    let slots = problem.slots();
    if let Some(number) = crowded_cell(alloc, grid, slots, width)? {
        return Ok(Some(Crowding::Cell(first_of_cell(grid, slots, number, width))));
    }
    if problem.arch().pattern != Pattern::Subset {
        return Ok(None);
    }
    let trees = facts.crowd();
    if trees.len() <= width as usize {
        return Ok(None);
    }
    Ok(Some(Crowding::Crowd(first_of(trees, width))))
}

/// The number of a cell that more slots take than there are tracks, if there is one.
fn crowded_cell(
    alloc: Global,
    grid: Grid,
    slots: &[Slot],
    width: u32,
) -> Result<Option<u32>, AllocError>
    requires few { length slots.now ≤ SLOT_LIMIT }
    requires there { All (λ slot. IsTrue (is_cell grid slot.cell)) slots.now }
    ensures some { IfOk result (λ found. IfSome found
        (λ number. width < length (slots_in grid slots.now number))) }
    ensures none { IfOk result (λ found. IsNone found → AreSpread width grid slots.now) }
{
    let mut counts = vec![in alloc; 0; cells_of(grid) as usize]?;
    Ok(first_over(&mut counts, grid, slots, width))
}

/// The number of the cell of the first slot with which its cell has more than so many slots. The
/// row has a zero for each cell.
fn first_over(counts: &mut [u32], grid: Grid, slots: &[Slot], width: u32) -> Option<u32>
    requires few { length slots.now ≤ SLOT_LIMIT }
    requires there { All (λ slot. IsTrue (is_cell grid slot.cell)) slots.now }
    requires room { length counts.old ≡ cell_count grid }
    requires zeros { All (λ n. n ≡ 0) counts.old }
    ensures some { IfSome result (λ number. width < length (slots_in grid slots.now number)) }
    ensures none { IsNone result → AreSpread width grid slots.now }
{
    for slot in slots {
        let number = cell_number(grid, slot.cell);
        counts[number as usize] += 1;
        if counts[number as usize] > width {
            return Some(number);
        }
    }
    None
}

/// The first slots of the cell with this number, one more than there are tracks.
fn first_of_cell(
    grid: Grid,
    slots: &[Slot],
    number: u32,
    width: u32,
) -> ArrayVec<u32, COUNTED_LIMIT>
    requires width { width ≤ WIDTH_LIMIT }
    requires few { length slots.now ≤ SLOT_LIMIT }
    requires there { All (λ slot. IsTrue (is_cell grid slot.cell)) slots.now }
    ensures { result.items ≡ take (suc width) (slots_in grid slots.now number) }
{
    let mut row = ArrayVec::new();
    for s in 0..slots.len() as u32 {
        add_of_cell(&mut row, grid, slots, number, width, s);
    }
    row
}

/// Adds a slot, if it takes the cell with this number and there is room for it.
fn add_of_cell(
    row: &mut ArrayVec<u32, COUNTED_LIMIT>,
    grid: Grid,
    slots: &[Slot],
    number: u32,
    width: u32,
    slot: u32,
)
    requires width { width ≤ WIDTH_LIMIT }
    requires slot { slot < length slots.now }
    requires there { All (λ slot. IsTrue (is_cell grid slot.cell)) slots.now }
    requires row { row.old.items ≡ take (suc width) (slots_before grid slots.now number slot) }
    ensures { row.new.items ≡ take (suc width) (slots_before grid slots.now number (slot + 1)) }
{
    if width < row.len() as u32 {
        return;
    }
    if cell_number(grid, slots[slot as usize].cell) != number {
        return;
    }
    row.push(slot);
}

/// The first of these slots, one more than there are tracks.
fn first_of(trees: &[u32], width: u32) -> ArrayVec<u32, COUNTED_LIMIT>
    requires width { width ≤ WIDTH_LIMIT }
    requires many { width < length trees.now }
    ensures { result.items ≡ take (suc width) trees.now }
{
    let mut row = ArrayVec::new();
    for at in 0..width as usize + 1 {
        row.push(trees[at]);
    }
    row
}
