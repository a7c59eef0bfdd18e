//! The slots whose tracks are given beforehand.
ghost use Rattle.std.specs.Prelude.{◌≡◌, ◌≤◌, ◌<◌, ◌+◌, All, IsTrue, length, take};
ghost use Rattle.fpga_types.specs.Fabric.{is_cell};
ghost use Rattle.fpga_types.specs.Fits.{Fits};
ghost use Rattle.fpga_types.specs.Given.{IsGiven};
ghost use Rattle.fpga_types.specs.Slots.{slots};
ghost use Rattle.problem_facts.specs.CellCounts.{slots_before};
ghost use Rattle.problem_facts.specs.Fullest.{slots_in};
ghost use Rattle.route_pinned.specs.Pinned.{pinned_row};

use arrayvec::ArrayVec;
use fpga_bounds::PlacedProblem;
use fpga_types::{Grid, SLOT_LIMIT, Slot, WIDTH_LIMIT, cell_number};
use problem_facts::{fullest_cell, is_symmetric};

/// Where all tracks are alike the pinned slots of the problem, the first with track 0, the second
/// with track 1 and so on, as far as there are tracks; none elsewhere.
pub(crate) fn pinned_row(problem: &PlacedProblem, width: u32) -> ArrayVec<u32, 64>
    requires width { (1 ≤ width) × (width ≤ WIDTH_LIMIT) }
    ensures row { result.items ≡ pinned_row width problem.now }
    ensures tracks { length result.items ≤ width }
    ensures slots { All (λ s. s < length (slots problem.now.route)) result.items }
    ensures given { IsGiven problem.now }
    ensures fits { Fits problem.now }
{
    let grid = problem.route().grid;
    if !is_symmetric(problem, width) {
        return ArrayVec::new();
    }
    let slots = problem.slots();
    slots_in_cell(grid, slots, fullest_cell(grid, slots), width)
}

/// The first slots that take the cell with this number, as many as there are tracks at most.
fn slots_in_cell(grid: Grid, slots: &[Slot], number: u32, width: u32) -> ArrayVec<u32, 64>
    requires width { width ≤ WIDTH_LIMIT }
    requires few { length slots.now ≤ SLOT_LIMIT }
    requires there { All (λ slot. IsTrue (is_cell grid slot.cell)) slots.now }
    ensures row { result.items ≡ take width (slots_in grid slots.now number) }
    ensures few { length result.items ≤ width }
{
    let mut row = ArrayVec::new();
    for s in 0..slots.len() as u32 {
        add_slot(&mut row, grid, slots, number, width, s);
    }
    row
}

/// Adds a slot, if it takes the cell with this number and there is a track for it.
fn add_slot(
    row: &mut ArrayVec<u32, 64>,
    grid: Grid,
    slots: &[Slot],
    number: u32,
    width: u32,
    slot: u32,
)
    requires width { width ≤ WIDTH_LIMIT }
    requires slot { slot < length slots.now }
    requires there { All (λ slot. IsTrue (is_cell grid slot.cell)) slots.now }
    requires row { row.old.items ≡ take width (slots_before grid slots.now number slot) }
    requires few { length row.old.items ≤ width }
    ensures row { row.new.items ≡ take width (slots_before grid slots.now number (slot + 1)) }
    ensures few { length row.new.items ≤ width }
{
    if width as usize <= row.len() {
        return;
    }
    if cell_number(grid, slots[slot as usize].cell) != number {
        return;
    }
    row.push(slot);
}
