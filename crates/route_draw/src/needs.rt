//! How many tracks each cell of a route wants: a table by the numbers of the cells.
ghost use Rattle.std.specs.Prelude.{◌≡◌, ◌≤◌, ◌<◌, ◌++◌, ◌∷◌, IfOk, IfSome, IsTrue, List, OnOk, [], is_some, length, ℕ};
ghost use Rattle.std.specs.List.{list_any};
ghost use Rattle.fpga_types.specs.CellNumbers.{IsAlone, cell_count, number_of_cell};
ghost use Rattle.fpga_types.specs.Fabric.{is_cell};
ghost use Rattle.fpga_types.specs.declared.grid.Cell.{Cell as AnyCell};
ghost use Rattle.fpga_types.specs.declared.limits.TheConstants.{SLOT_LIMIT};
ghost use Rattle.fpga_types.specs.declared.problem.Slot.{Slot as AnySlot};
ghost use Rattle.fpga_types.specs.declared.route.Elem.{Elem as AnyElem};
ghost use Rattle.route_draw.specs.Needs.{AreNeeds, has_track, has_tracks, lines_of, most_asked, slots_in};

use fpga_types::{Cell, Elem, Grid, RouteNet, Slot, cell_number};
use std::alloc::{AllocError, Global};

/// How many cells an array has.
pub(crate) fn cell_count(grid: Grid) -> u32
    ensures { result ≡ cell_count grid }
{
    let Grid { nx, ny } = grid;
    nx * (ny + 1) + ny * (nx + 1)
}

/// The number of a cell, if it is one of the array.
pub(crate) fn place_of(grid: Grid, cell: Cell) -> Option<usize>
    ensures there { is_some result ≡ is_cell grid cell }
    ensures place { IfSome result (λ place. number_of_cell grid cell ≡ place) }
    ensures within { IfSome result (λ place. place < cell_count grid) }
    ensures alone { IfSome result (λ place. IsAlone grid cell place) }
{
    if !grid.has_cell(cell) {
        return None;
    }
    Some(cell_number(grid, cell) as usize)
}

/// Whether a net has another track than 0, so that the route is no global one.
pub(crate) fn has_tracks(nets: &[RouteNet]) -> bool
    ensures { result ≡ has_tracks nets.now }
{
    for net in nets {
        if has_track(net.elems.as_slice()) {
            return true;
        }
    }
    false
}

// Whether one of the lines is a channel line with another track than 0.
fn has_track(elems: &[Elem]) -> bool
    ensures { result ≡ list_any has_track elems.now }
{
    elems
        .iter()
        .any(|elem| elem.cell().is_some() && elem.number != 0)
}

/// A table in which no cell wants a track.
pub(crate) fn no_needs(alloc: Global, grid: Grid) -> Result<Vec<u64>, AllocError>
    ensures { IfOk result (λ needs. AreNeeds grid (λ cell. 0) needs.items) }
{
    vec![in alloc; 0u64; cell_count(grid) as usize]
}

/// What a cell of the array wants.
pub(crate) fn need_at(needs: &[u64], grid: Grid, cell: Cell) -> u64
    ensures { (wants : AnyCell → ℕ) → AreNeeds grid wants needs.now → IsTrue (is_cell grid cell) →
        result ≡ wants cell }
{
    let Some(place) = place_of(grid, cell) else {
        return 0;
    };
    needs.get(place).copied().unwrap_or(0)
}

/// Has each cell want the tracks that the lines of the nets ask for, where none wants one.
pub(crate) fn take_nets(needs: &mut [u64], grid: Grid, nets: &[RouteNet])
    requires { AreNeeds grid (λ cell. 0) needs.old }
    ensures { AreNeeds grid (λ cell. most_asked cell (lines_of nets.now)) needs.new }
{
    for net in nets {
        take_lines(needs, grid, net.elems.as_slice());
    }
}

// Has each cell want the tracks that these lines ask for too.
fn take_lines(needs: &mut [u64], grid: Grid, elems: &[Elem])
    requires size { length needs.old ≡ cell_count grid }
    ensures { (before : List AnyElem) → AreNeeds grid (λ cell. most_asked cell before) needs.old →
        AreNeeds grid (λ cell. most_asked cell (before ++ elems.now)) needs.new }
{
    for elem in elems {
        take_line(needs, grid, *elem);
    }
}

// Has a cell want the tracks that this line asks for too.
fn take_line(needs: &mut [u64], grid: Grid, elem: Elem)
    requires size { length needs.old ≡ cell_count grid }
    ensures size { length needs.new ≡ length needs.old }
    ensures needs { (before : List AnyElem) → AreNeeds grid (λ cell. most_asked cell before)
        needs.old → AreNeeds grid (λ cell. most_asked cell (before ++ elem ∷ [])) needs.new }
{
    let Some(cell) = elem.cell() else {
        return;
    };
    let Some(place) = place_of(grid, cell) else {
        return;
    };
    let asked = elem.number as u64 + 1;
    if needs[place] < asked {
        needs[place] = asked;
    }
}

/// Has each cell want as many tracks as slots are in it, where none wants one.
pub(crate) fn take_slots(needs: &mut [u64], grid: Grid, slots: &[Slot])
    requires needs { AreNeeds grid (λ cell. 0) needs.old }
    requires few { length slots.now ≤ SLOT_LIMIT }
    ensures { AreNeeds grid (λ cell. slots_in cell slots.now) needs.new }
{
    for slot in slots {
        count_slot(needs, grid, *slot);
    }
}

// Has the cell of a slot want one track more.
fn count_slot(needs: &mut [u64], grid: Grid, slot: Slot)
    requires { (before : List AnySlot) × (length before < SLOT_LIMIT)
        × AreNeeds grid (λ cell. slots_in cell before) needs.old }
    ensures { (before : List AnySlot) → AreNeeds grid (λ cell. slots_in cell before) needs.old →
        AreNeeds grid (λ cell. slots_in cell (before ++ slot ∷ [])) needs.new }
{
    let Some(place) = place_of(grid, slot.cell) else {
        return;
    };
    needs[place] += 1;
}
