//! Which cells a pin touches.
ghost use Rattle.std.specs.Prelude.{◌≡◌, ◌↔◌, ◌+◌, ◌==◌, ◌<◌, IsTrue, ◌&&◌, length};
ghost use Rattle.fpga_types.specs.Pins.{HasPin};
ghost use Rattle.fpga_types.specs.Touching.{Touches, has_side, is_beside, is_on_side, lies_along, looks_in, touches};

use fpga_types::{Arch, Axis, Cell, Grid, PinAt, Side, SideSet};

/// Whether the pin touches the cell: the cell is one of the array and lies along a side of the
/// pin's block that the pin is on, or of the pad's place that looks into the array. A pin of a
/// logic block is to be one of the architecture.
///
/// Takes constant time and no memory.
pub fn touches(arch: &Arch, grid: Grid, pin: PinAt, cell: Cell) -> bool
    requires { HasPin arch.now pin }
    ensures found { result ≡ touches arch.now grid pin cell }
    ensures is { IsTrue result ↔ Touches arch.now grid pin cell }
{
    grid.has_cell(cell)
        && (meets_side(arch, grid, pin, cell, Side::Left)
            || meets_side(arch, grid, pin, cell, Side::Right)
            || meets_side(arch, grid, pin, cell, Side::Bottom)
            || meets_side(arch, grid, pin, cell, Side::Top))
}

/// Whether the pin is on this side of its place, and the cell lies along it.
fn meets_side(arch: &Arch, grid: Grid, pin: PinAt, cell: Cell, side: Side) -> bool
    requires { HasPin arch.now pin }
    ensures { result ≡ (is_on_side arch.now grid pin side && is_beside pin cell side) }
{
    match pin {
        PinAt::Pad { x, y, .. } => looks_in(grid, x, y, side) && lies_along(x, y, cell, side),
        PinAt::Pin { x, y, pin } => {
            let spec = arch.pins.as_slice()[pin as usize];
            has_side(spec.sides, side) && lies_along(x, y, cell, side)
        }
    }
}

/// Whether the side is one of these.
fn has_side(sides: SideSet, side: Side) -> bool
    ensures { result ≡ has_side sides side }
{
    match side {
        Side::Left => sides.left,
        Side::Right => sides.right,
        Side::Bottom => sides.bottom,
        Side::Top => sides.top,
    }
}

/// Whether this side of a pad's place looks into the array.
fn looks_in(grid: Grid, x: u32, y: u32, side: Side) -> bool
    ensures { result ≡ looks_in grid x y side }
{
    match side {
        Side::Left => x == grid.nx + 1,
        Side::Right => x == 0,
        Side::Bottom => y == grid.ny + 1,
        Side::Top => y == 0,
    }
}

/// Whether the cell lies along this side of the place (x,y).
fn lies_along(x: u32, y: u32, cell: Cell, side: Side) -> bool
    ensures { result ≡ lies_along x y cell side }
{
    match (side, cell.axis) {
        (Side::Left, Axis::Y) => is_after(x, cell.x) && cell.y == y,
        (Side::Right, Axis::Y) => cell.x == x && cell.y == y,
        (Side::Bottom, Axis::X) => cell.x == x && is_after(y, cell.y),
        (Side::Top, Axis::X) => cell.x == x && cell.y == y,
        _ => false,
    }
}

/// Whether `a` is the number after `b`.
fn is_after(a: u32, b: u32) -> bool
    ensures { result ≡ (b + 1 == a) }
{
    b < a && a - b == 1
}
