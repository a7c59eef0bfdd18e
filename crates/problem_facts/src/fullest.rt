//! The cell that the most slots take.
ghost use Rattle.std.specs.Prelude.{◌≡◌, ◌≤◌, ◌<◌, All, IsTrue, Some, find, length};
ghost use Rattle.fpga_types.specs.CellNumbers.{cell_count};
ghost use Rattle.fpga_types.specs.Fabric.{is_cell};
ghost use Rattle.route_encode.specs.Encoding.{below};
ghost use Rattle.problem_facts.specs.CellCounts.{AreCounted, IsFirstGreatest};
ghost use Rattle.problem_facts.specs.Fullest.{has_most};

use fpga_types::{Grid, SLOT_LIMIT, Slot, cell_number};

/// The greatest number of cells of an array, which has 100 columns and 100 rows.
const CELL_LIMIT: usize = 20_200;

/// The number of the first cell that the most slots take. The time is that of the cells and the
/// slots; the table of the cells stands on the stack.
pub fn fullest_cell(grid: Grid, slots: &[Slot]) -> u32
    requires few { length slots.now ≤ SLOT_LIMIT }
    requires there { All (λ slot. IsTrue (is_cell grid slot.cell)) slots.now }
    ensures first { find (has_most grid slots.now) (below (cell_count grid)) ≡ Some result }
{
    let mut counts = [0; CELL_LIMIT];
    count_slots(&mut counts, grid, slots);
    first_greatest(&counts[..cells_of(grid) as usize])
}

/// How many cells the array has, at most 20,200.
pub fn cells_of(grid: Grid) -> u32
    ensures count { result ≡ cell_count grid }
    ensures within { (1 ≤ result) × (result ≤ 20200) }
{
    grid.nx * (grid.ny + 1) + grid.ny * (grid.nx + 1)
}

/// Counts in a row of zeros, by the numbers of the cells, how many slots take each.
fn count_slots(counts: &mut [u32], grid: Grid, slots: &[Slot])
    requires few { length slots.now ≤ SLOT_LIMIT }
    requires there { All (λ slot. IsTrue (is_cell grid slot.cell)) slots.now }
    requires room { cell_count grid ≤ length counts.old }
    requires zeros { All (λ n. n ≡ 0) counts.old }
    ensures size { length counts.new ≡ length counts.old }
    ensures counted { AreCounted grid slots.now (length slots.now) counts.new }
{
    for slot in slots {
        counts[cell_number(grid, slot.cell) as usize] += 1;
    }
}

/// Where the first of the greatest numbers of a row stands.
fn first_greatest(row: &[u32]) -> u32
    requires some { (1 ≤ length row.now) × (length row.now ≤ CELL_LIMIT) }
    ensures { IsFirstGreatest row.now result }
{
    let mut best = 0;
    for at in 1..row.len() {
        if row[best] < row[at] {
            best = at;
        }
    }
    best as u32
}
