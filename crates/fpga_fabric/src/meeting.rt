//! Where two cells meet.
ghost use Rattle.std.specs.Prelude.{◌≡◌, ◌≤◌, ◌↔◌, IsTrue, IsSome, IfSome};
ghost use Rattle.fpga_fabric.specs.Answers.{meeting_parts};
ghost use Rattle.fpga_fabric.specs.Ends.{lower_end, lower_side, meet_by_ends, side_on, upper_end, upper_side};
ghost use Rattle.fpga_types.specs.Fabric.{Meets, MeetsAt, cell_on, is_cell, same_axis, same_cell};

use fpga_types::{Axis, Cell, Grid, SIDE_LIMIT, Side, SwitchAt};

/// The switch block at which two different cells of the array meet, the side of it that `a` is on
/// and the side that `b` is on. None where no switch block has both. They never meet at two.
///
/// Takes constant time and no memory.
pub fn meet(grid: Grid, a: Cell, b: Cell) -> Option<(SwitchAt, Side, Side)>
    requires first { IsTrue (is_cell grid a) }
    requires second { IsTrue (is_cell grid b) }
    ensures parts { result ≡ meeting_parts grid a b }
    ensures at { IfSome result (λ m. MeetsAt grid a b (record { at = m.0; from = m.1; to = m.2 })) }
    ensures some { IsSome result ↔ Meets grid a b }
{
    // The limits of the array keep all coordinates in range.
    let Grid { nx: _, ny: _ } = grid;
    meet_by_ends(a, b)
}

/// The same by the ends of `a`.
fn meet_by_ends(a: Cell, b: Cell) -> Option<(SwitchAt, Side, Side)>
    requires { (a.x ≤ SIDE_LIMIT) × (a.y ≤ SIDE_LIMIT) }
    ensures { result ≡ meet_by_ends a b }
{
    if same_cell(a, b) {
        return None;
    }
    let low = lower_end(a);
    if let Some(side) = side_on(low, b) {
        return Some((low, lower_side(a.axis), side));
    }
    let high = SwitchAt { i: a.x, j: a.y };
    match side_on(high, b) {
        Some(side) => Some((high, upper_side(a.axis), side)),
        None => None,
    }
}

/// The switch block at the lower end of a cell.
fn lower_end(cell: Cell) -> SwitchAt
    ensures { result ≡ lower_end cell.axis cell.x cell.y }
{
    match cell.axis {
        Axis::X => SwitchAt {
            i: cell.x.saturating_sub(1),
            j: cell.y,
        },
        Axis::Y => SwitchAt {
            i: cell.x,
            j: cell.y.saturating_sub(1),
        },
    }
}

/// The side of it that the cell is on.
fn lower_side(axis: Axis) -> Side
    ensures { result ≡ lower_side axis }
{
    match axis {
        Axis::X => Side::Right,
        Axis::Y => Side::Top,
    }
}

/// The side that the cell is on of the switch block at its upper end.
fn upper_side(axis: Axis) -> Side
    ensures { result ≡ upper_side axis }
{
    match axis {
        Axis::X => Side::Left,
        Axis::Y => Side::Bottom,
    }
}

/// The side of a switch block that a cell is on.
fn side_on(at: SwitchAt, cell: Cell) -> Option<Side>
    requires { (at.i ≤ SIDE_LIMIT) × (at.j ≤ SIDE_LIMIT) }
    ensures { result ≡ side_on at cell }
{
    if same_cell(cell, cell_on(Side::Left, at)) {
        return Some(Side::Left);
    }
    if same_cell(cell, cell_on(Side::Right, at)) {
        return Some(Side::Right);
    }
    if same_cell(cell, cell_on(Side::Bottom, at)) {
        return Some(Side::Bottom);
    }
    if same_cell(cell, cell_on(Side::Top, at)) {
        return Some(Side::Top);
    }
    None
}

/// The cell on a side of a switch block.
fn cell_on(side: Side, at: SwitchAt) -> Cell
    requires { (at.i ≤ SIDE_LIMIT) × (at.j ≤ SIDE_LIMIT) }
    ensures { result ≡ cell_on side at }
{
    match side {
        Side::Left => Cell {
            axis: Axis::X,
            x: at.i,
            y: at.j,
        },
        Side::Right => Cell {
            axis: Axis::X,
            x: at.i + 1,
            y: at.j,
        },
        Side::Bottom => Cell {
            axis: Axis::Y,
            x: at.i,
            y: at.j,
        },
        Side::Top => Cell {
            axis: Axis::Y,
            x: at.i,
            y: at.j + 1,
        },
    }
}

/// Whether two cells are one.
fn same_cell(a: Cell, b: Cell) -> bool
    ensures { result ≡ same_cell a b }
{
    same_axis(a.axis, b.axis) && a.x == b.x && a.y == b.y
}

/// Whether two cells run in one direction.
fn same_axis(a: Axis, b: Axis) -> bool
    ensures { result ≡ same_axis a b }
{
    match (a, b) {
        (Axis::X, Axis::X) | (Axis::Y, Axis::Y) => true,
        _ => false,
    }
}
