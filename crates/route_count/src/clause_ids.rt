//! Under which ids the clauses of a problem are expected.
ghost use Rattle.std.specs.Prelude.{ℕ, ◌≡◌, ◌≤◌, ◌<◌, ◌+◌, ◌*◌, ◌^◌, All, IfOk, IsTrue, length};
ghost use Rattle.fpga_types.specs.CellNumbers.{cell_count};
ghost use Rattle.fpga_types.specs.Fabric.{is_cell};
ghost use Rattle.fpga_types.specs.Slots.{slots};
ghost use Rattle.fpga_types.specs.declared.limits.TheConstants.{SLOT_LIMIT, STEP_LIMIT, WIDTH_LIMIT};
ghost use Rattle.route_encode.specs.Encoding.{cnf_of};
ghost use Rattle.sat_clause.specs.declared.limits.TheConstants.{ID_LIMIT};

use fpga_bounds::PlacedProblem;
use fpga_types::{Grid, SLOT_LIMIT, STEP_LIMIT, Slot, WIDTH_LIMIT, cell_number};
use problem_facts::cells_of;
use route_encode::{Encoder, Strict};
use sat_clause::ID_LIMIT;
use std::alloc::{AllocError, Global};

/// The ids of clauses of a problem at a width: by the number of clauses of each kind before them,
/// and of slots that share a cell by how many such pairs there are before.
#[derive(Drop)]
pub(crate) struct ClauseIds {
    pub width: u32,
    pub slots: u32,
    first_of_steps: u64,
    first_of_pairs: u64,
    rivals: Vec<u32>,
    pairs_before: Vec<u64>,
    ghost few_tracks: { width ≤ WIDTH_LIMIT },
    ghost few_steps: { first_of_steps ≤ ID_LIMIT + 1 },
    ghost few_pairs: { first_of_pairs ≤ ID_LIMIT + 1 },
    ghost each: { length rivals.items ≡ slots },
    ghost each_sum: { length pairs_before.items ≡ slots },
    ghost few: { All (λ n. n ≤ SLOT_LIMIT) rivals.items },
    ghost few_before: { All (λ n. n ≤ SLOT_LIMIT * SLOT_LIMIT) pairs_before.items },
}

impl ClauseIds {
    /// The ids of the clauses of a problem. The time is that of the slots, the cells and the pin
    /// steps.
    ///
    /// # Errors
    /// Where memory is short.
    pub fn of(alloc: Global, problem: &PlacedProblem, width: u32) -> Result<ClauseIds, AllocError>
        requires width { (1 ≤ width) × (width ≤ WIDTH_LIMIT) }
        requires few { length (cnf_of width problem.now).clauses ≤ ID_LIMIT }
        ensures width { IfOk result (λ ids. ids.width ≡ width) }
        ensures slots { IfOk result (λ ids. ids.slots ≡ length (slots problem.now.route)) }
    {
        let of_pairs = problem.pairs() * width as u64;
        let of_steps = problem.steps().len() as u64 * width as u64;
        let before_pairs = Strict.count(problem, width).saturating_sub(of_pairs);
        let before_steps = before_pairs.saturating_sub(of_steps);
        let slots = problem.slots();
        let rivals = rivals_after(alloc, problem.route().grid, slots)?;
        let pairs_before = sums_before(alloc, &rivals)?;
        Ok(ClauseIds {
            width,
            slots: slots.len() as u32,
            first_of_steps: before_steps + 1,
            first_of_pairs: before_pairs + 1,
            rivals,
            pairs_before,
        })
    }

    /// The id of the clause that a slot has a track.
    pub fn some_track(&self, slot: u32) -> u64 {
        slot as u64 + 1
    }

    /// The id of the clause that, where the first slot of a step has a track, the second has the
    /// one that it is joined to.
    pub fn joined(&self, step: u64, track: u32) -> u64
        requires step { step < STEP_LIMIT }
        requires track { track < self.now.width }
    {
        self.first_of_steps + step * self.width as u64 + track as u64
    }

    /// The id of the clause that two slots of one cell do not both have a track.
    pub fn apart(&self, a: u32, b: u32, track: u32) -> u64
        requires slots { (a < self.now.slots) × (b < self.now.slots) }
        requires track { track < self.now.width }
    {
        let (lower, higher) = (a.min(b) as usize, a.max(b) as usize);
        let between = self.rivals[lower].saturating_sub(self.rivals[higher] + 1);
        let pair = self.pairs_before[lower] + between as u64;
        self.first_of_pairs + pair * self.width as u64 + track as u64
    }
}

/// For each slot how many later ones take its cell.
fn rivals_after(alloc: Global, grid: Grid, slots: &[Slot]) -> Result<Vec<u32>, AllocError>
    requires few { length slots.now ≤ SLOT_LIMIT }
    requires there { All (λ slot. IsTrue (is_cell grid slot.cell)) slots.now }
    ensures each { IfOk result (λ rivals. length rivals.items ≡ length slots.now) }
    ensures few { IfOk result (λ rivals. All (λ n. n ≤ SLOT_LIMIT) rivals.items) }
{
    let mut counts = vec![in alloc; 0; cells_of(grid) as usize]?;
    let mut rivals = vec![in alloc; 0; slots.len()]?;
    count_rivals(&mut rivals, &mut counts, grid, slots);
    Ok(rivals)
}

/// Counts for each slot how many later ones take its cell, from the last on, in a row of zeros for
/// the slots and one for the cells.
fn count_rivals(rivals: &mut [u32], counts: &mut [u32], grid: Grid, slots: &[Slot])
    requires few { length slots.now ≤ SLOT_LIMIT }
    requires there { All (λ slot. IsTrue (is_cell grid slot.cell)) slots.now }
    requires each { length rivals.old ≡ length slots.now }
    requires cells { length counts.old ≡ cell_count grid }
    requires zeros { All (λ n. n ≡ 0) rivals.old }
    requires no_counts { All (λ n. n ≡ 0) counts.old }
    ensures each { length rivals.new ≡ length slots.now }
    ensures few { All (λ n. n ≤ SLOT_LIMIT) rivals.new }
{
    for s in (0..slots.len()).rev() {
        let number = cell_number(grid, slots[s].cell) as usize;
        rivals[s] = counts[number];
        counts[number] += 1;
    }
}

/// For each place the sum of the numbers before it.
fn sums_before(alloc: Global, row: &[u32]) -> Result<Vec<u64>, AllocError>
    requires short { length row.now ≤ SLOT_LIMIT }
    requires few { All (λ n. n ≤ SLOT_LIMIT) row.now }
    ensures each { IfOk result (λ sums. length sums.items ≡ length row.now) }
    ensures few { IfOk result (λ sums. All (λ n. n ≤ SLOT_LIMIT * SLOT_LIMIT) sums.items) }
{
    let mut sums = Vec::with_capacity(alloc, row.len())?;
    let mut sum = 0;
    for n in row {
        sums.push(sum)?;
        sum += *n as u64;
    }
    Ok(sums)
}
