//! Where trees meet.
ghost use Rattle.std.specs.Prelude.{◌≡◌, ◌≢◌, ◌≤◌, ◌<◌, ◌+◌, ◌*◌, ℕ, List, All, IfOk, IsTrue, None, OnOk, Some, length};
ghost use Rattle.std.specs.List.{AllPairs};
ghost use Rattle.fpga_types.specs.CellNumbers.{cell_count};
ghost use Rattle.fpga_types.specs.Fabric.{is_cell};
ghost use Rattle.route_count.specs.Meetings.{AreFound, AreNoted, ArePlaces, AreTaken, AreUnknown, DoMeet, KeepsOthers, meeting_at};
ghost use Rattle.sat_count.specs.declared.limits.TheConstants.{COUNTED_LIMIT};

use fpga_types::{Grid, SLOT_LIMIT, Slot, cell_number};
use problem_facts::{Trees, cells_of};
use sat_count::COUNTED_LIMIT;
use std::alloc::{AllocError, Global};
use std::marker::Model;

/// Slots of two trees, both of one cell.
#[derive(Clone, Copy)]
pub(crate) struct Meeting {
    pub lower: u32,
    pub higher: u32,
}

/// For each two places of a row the slots in which the trees of its slots meet.
#[derive(Drop)]
pub(crate) struct Meetings {
    found: Vec<Option<Meeting>>,
}

impl Model for Meetings {
    ghost use Rattle.std.specs.Prelude.{◌≡◌, ◌*◌, List, Option, length};
    ghost use Rattle.sat_count.specs.declared.limits.TheConstants.{COUNTED_LIMIT};
    ghost use Rattle.route_count.specs.declared.meetings.Meeting.{Meeting};

    ghost Value = { List (Option Meeting) };

    ghost view = { λ m. m.found.items };

    ghost invariant = { λ m. length m.found.items ≡ COUNTED_LIMIT * COUNTED_LIMIT };
}

impl Meetings {
    /// Finds for each two slots of a row, which stand for their trees, where these meet. The time
    /// is that of the slots for each of the row.
    ///
    /// # Errors
    /// Where memory is short.
    pub fn new(
        alloc: Global,
        grid: Grid,
        slots: &[Slot],
        trees: &Trees,
        row: &[u32],
    ) -> Result<Meetings, AllocError>
        requires few { length slots.now ≤ SLOT_LIMIT }
        requires there { All (λ slot. IsTrue (is_cell grid slot.cell)) slots.now }
        requires trees { length trees.now.roots ≡ length slots.now }
        requires differ { AllPairs (λ s t. s ≢ t) row.now }
        requires row { All (λ s. s < length slots.now) row.now }
        requires short { length row.now ≤ COUNTED_LIMIT }
        requires meet { DoMeet grid slots.now trees.now.roots row.now }
        ensures { IfOk result (AreFound slots.now trees.now row.now (length row.now)) }
    {
        let places = places_of(alloc, slots.len(), row)?;
        let mut found = vec![in alloc; None; COUNTED_LIMIT * COUNTED_LIMIT]?;
        let Ok(()) = note_all(alloc, &mut found, grid, slots, trees, &places, row) else {
            return Err(AllocError);
        };
        Ok(Meetings { found })
    }

    /// Where the trees of two slots of the row meet, of which the first stands before the other.
    pub fn of(&self, lower: usize, higher: usize) -> Meeting
        requires lower { lower < COUNTED_LIMIT }
        requires higher { higher < COUNTED_LIMIT }
        requires there { meeting_at self.now lower higher ≢ None }
        ensures { meeting_at self.now lower higher ≡ Some result }
    {
        let Some(meeting) = self.found[higher * COUNTED_LIMIT + lower] else {
            unreachable!();
        };
        meeting
    }
}

/// For each of so many slots its place in the row.
fn places_of(alloc: Global, count: usize, row: &[u32]) -> Result<Vec<Option<usize>>, AllocError>
    requires row { All (λ s. s < count) row.now }
    requires differ { AllPairs (λ s t. s ≢ t) row.now }
    ensures each { IfOk result (λ places. length places.items ≡ count) }
    ensures places { IfOk result (λ places. ArePlaces row.now (length row.now) places.items) }
{
    let mut places = vec![in alloc; None; count]?;
    for at in 0..row.len() {
        places[row[at] as usize] = Some(at);
    }
    Ok(places)
}

/// For each cell, by number, a slot of the tree that takes it.
fn cells_taken(
    alloc: Global,
    grid: Grid,
    slots: &[Slot],
    trees: &Trees,
    root: u32,
) -> Result<Vec<Option<u32>>, AllocError>
    requires few { length slots.now ≤ SLOT_LIMIT }
    requires there { All (λ slot. IsTrue (is_cell grid slot.cell)) slots.now }
    requires trees { length trees.now.roots ≡ length slots.now }
    ensures each { IfOk result (λ taken. length taken.items ≡ cell_count grid) }
    ensures taken { IfOk result
        (λ taken. AreTaken grid slots.now trees.now root (length slots.now) taken.items) }
{
    let mut taken = vec![in alloc; None; cells_of(grid) as usize]?;
    for s in 0..slots.len() as u32 {
        note_cell(&mut taken, grid, slots, trees, root, s);
    }
    Ok(taken)
}

/// Notes the cell of a slot, if it is of the tree.
fn note_cell(
    taken: &mut [Option<u32>],
    grid: Grid,
    slots: &[Slot],
    trees: &Trees,
    root: u32,
    slot: u32,
)
    requires there { All (λ slot. IsTrue (is_cell grid slot.cell)) slots.now }
    requires trees { length trees.now.roots ≡ length slots.now }
    requires each { length taken.old ≡ cell_count grid }
    requires slot { slot < length slots.now }
    requires taken { AreTaken grid slots.now trees.now root slot taken.old }
    ensures each { length taken.new ≡ length taken.old }
    ensures taken { AreTaken grid slots.now trees.now root (slot + 1) taken.new }
{
    if trees.root(slot) != root {
        return;
    }
    let number = cell_number(grid, slots[slot as usize].cell);
    taken[number as usize] = Some(slot);
}

/// Notes for each two slots of the row where their trees meet.
fn note_all(
    alloc: Global,
    found: &mut [Option<Meeting>],
    grid: Grid,
    slots: &[Slot],
    trees: &Trees,
    places: &[Option<usize>],
    row: &[u32],
) -> Result<(), AllocError>
    requires few { length slots.now ≤ SLOT_LIMIT }
    requires there { All (λ slot. IsTrue (is_cell grid slot.cell)) slots.now }
    requires trees { length trees.now.roots ≡ length slots.now }
    requires row { All (λ s. s < length slots.now) row.now }
    requires short { length row.now ≤ COUNTED_LIMIT }
    requires meet { DoMeet grid slots.now trees.now.roots row.now }
    requires each_place { length places.now ≡ length slots.now }
    requires places { ArePlaces row.now (length row.now) places.now }
    requires each { length found.old ≡ COUNTED_LIMIT * COUNTED_LIMIT }
    requires unknown { All (λ meeting. meeting ≡ None) found.old }
    ensures each { length found.new ≡ COUNTED_LIMIT * COUNTED_LIMIT }
    ensures found { OnOk result
        (AreFound slots.now trees.now row.now (length row.now) found.new) }
{
    for at in 0..row.len() {
        let Ok(taken) = cells_taken(alloc, grid, slots, trees, row[at]) else {
            return Err(AllocError);
        };
        note_meetings(found, grid, slots, trees, places, &taken, at);
    }
    Ok(())
}

/// Notes where the trees of the slots before one in the row take a cell that its tree takes.
fn note_meetings(
    found: &mut [Option<Meeting>],
    grid: Grid,
    slots: &[Slot],
    trees: &Trees,
    places: &[Option<usize>],
    taken: &[Option<u32>],
    at: usize,
)
    requires few { length slots.now ≤ SLOT_LIMIT }
    requires there { All (λ slot. IsTrue (is_cell grid slot.cell)) slots.now }
    requires trees { length trees.now.roots ≡ length slots.now }
    requires places { length places.now ≡ length slots.now }
    requires taken { length taken.now ≡ cell_count grid }
    requires at { at < COUNTED_LIMIT }
    requires each { length found.old ≡ COUNTED_LIMIT * COUNTED_LIMIT }
    requires unknown { AreUnknown at found.old }
    ensures each { length found.new ≡ COUNTED_LIMIT * COUNTED_LIMIT }
    ensures noted { (row : List ℕ) → at ≤ length row → ArePlaces row (length row) places.now
        → AreNoted grid slots.now trees.now taken.now row at (length slots.now) found.new }
    ensures others { KeepsOthers at found.old found.new }
{
    for s in 0..slots.len() as u32 {
        note_meeting(found, grid, slots, trees, places, taken, at, s);
    }
}

/// Notes that a slot takes a cell that the tree takes, if it is of a tree before.
fn note_meeting(
    found: &mut [Option<Meeting>],
    grid: Grid,
    slots: &[Slot],
    trees: &Trees,
    places: &[Option<usize>],
    taken: &[Option<u32>],
    at: usize,
    slot: u32,
)
    requires there { All (λ slot. IsTrue (is_cell grid slot.cell)) slots.now }
    requires trees { length trees.now.roots ≡ length slots.now }
    requires places { length places.now ≡ length slots.now }
    requires taken { length taken.now ≡ cell_count grid }
    requires at { at < COUNTED_LIMIT }
    requires slot { slot < length slots.now }
    requires each { length found.old ≡ COUNTED_LIMIT * COUNTED_LIMIT }
    ensures each { length found.new ≡ COUNTED_LIMIT * COUNTED_LIMIT }
    ensures noted { (row : List ℕ) → at ≤ length row → ArePlaces row (length row) places.now
        → AreNoted grid slots.now trees.now taken.now row at slot found.old
        → AreNoted grid slots.now trees.now taken.now row at (slot + 1) found.new }
    ensures others { KeepsOthers at found.old found.new }
{
    let Some(lower) = places[trees.root(slot) as usize] else {
        return;
    };
    if lower >= at {
        return;
    }
    let number = cell_number(grid, slots[slot as usize].cell);
    let Some(higher) = taken[number as usize] else {
        return;
    };
    found[at * COUNTED_LIMIT + lower] = Some(Meeting {
        lower: slot,
        higher,
    });
}
