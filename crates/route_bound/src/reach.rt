//! The cells that a terminal touches, by its place and the sides of its pins.
ghost use Rattle.std.specs.Prelude.{◌≡◌, IfOk, length, map};
ghost use Rattle.std.specs.List.{list_any};
ghost use Rattle.fpga_types.specs.Touching.{has_side as side_in};
ghost use Rattle.fpga_types.specs.declared.arch.PinSpec.{PinSpec};
ghost use Rattle.route_bound.specs.Corners.{has_corner_in, has_corner_out};
ghost use Rattle.route_bound.specs.Ranges.{corners_of};
ghost use Rattle.route_bound.specs.Reaches.{class_sides as spec_class_sides, has_cell_along as cell_along, is_class_pin_on as class_pin_on, on_side, pad_sides as spec_pad_sides, reach_along, side_cell as spec_side_cell};
ghost use Rattle.route_bound.specs.Standings.{standing_of};

use crate::range::{CornerRange, Standing};
use fpga_types::{Axis, Cell, Grid, PinSpec, Side, SideSet};
use std::alloc::{AllocError, Global};

/// A place, and sides of it along which the array has cells: those that a terminal touches.
#[derive(Clone, Copy)]
pub(crate) struct Reach {
    pub x: u32,
    pub y: u32,
    pub sides: SideSet,
}

impl Reach {
    /// Those of the sides of a place along which the array has a cell.
    pub fn along(grid: Grid, x: u32, y: u32, sides: SideSet) -> Reach
        ensures { result ≡ reach_along grid x y sides }
    {
        Reach {
            x,
            y,
            sides: SideSet {
                left: sides.left && has_cell_along(grid, x, y, Side::Left),
                right: sides.right && has_cell_along(grid, x, y, Side::Right),
                bottom: sides.bottom && has_cell_along(grid, x, y, Side::Bottom),
                top: sides.top && has_cell_along(grid, x, y, Side::Top),
            },
        }
    }

    /// On which sides of the cut round these corners all cells lie that are reached.
    pub fn standing(self, range: CornerRange) -> Standing
        ensures { result ≡ standing_of (corners_of range) self }
    {
        let Reach { x, y, sides } = self;
        let left = seen(range, sides.left, side_cell(x, y, Side::Left));
        let right = seen(range, sides.right, side_cell(x, y, Side::Right));
        let bottom = seen(range, sides.bottom, side_cell(x, y, Side::Bottom));
        let top = seen(range, sides.top, side_cell(x, y, Side::Top));
        Standing {
            inside: (left.inside && right.inside) && (bottom.inside && top.inside),
            outside: (left.outside && right.outside) && (bottom.outside && top.outside),
        }
    }
}

/// On which sides of a cut a cell lies, if it is reached; both, if it is not.
fn seen(range: CornerRange, reached: bool, cell: Cell) -> Standing
    ensures inside { result.inside ≡ on_side reached (has_corner_in (corners_of range) cell) }
    ensures outside { result.outside ≡ on_side reached (has_corner_out (corners_of range) cell) }
{
    if !reached {
        return Standing {
            inside: true,
            outside: true,
        };
    }
    range.standing(cell)
}

/// The cell along a side of a place, where there is one.
pub(crate) fn side_cell(x: u32, y: u32, side: Side) -> Cell
    ensures { result ≡ spec_side_cell x y side }
{
    let (axis, x, y) = match side {
        Side::Left => (Axis::Y, x.saturating_sub(1), y),
        Side::Right => (Axis::Y, x, y),
        Side::Bottom => (Axis::X, x, y.saturating_sub(1)),
        Side::Top => (Axis::X, x, y),
    };
    Cell { axis, x, y }
}

/// Whether a cell of the array lies along the side.
fn has_cell_along(grid: Grid, x: u32, y: u32, side: Side) -> bool
    ensures { result ≡ cell_along grid x y side }
{
    let first = match side {
        Side::Left => 1 <= x,
        Side::Bottom => 1 <= y,
        Side::Right => 0 <= x,
        Side::Top => 0 <= y,
    };
    first && grid.has_cell(side_cell(x, y, side))
}

/// The sides of a pad's place that look into the array.
pub(crate) fn pad_sides(grid: Grid, x: u32, y: u32) -> SideSet
    ensures { result ≡ spec_pad_sides grid x y }
{
    let Grid { nx, ny } = grid;
    SideSet {
        left: x == nx + 1,
        right: x == 0,
        bottom: y == ny + 1,
        top: y == 0,
    }
}

/// For each pin, the sides that its class has pins on which take ordinary nets.
///
/// # Errors
/// Where memory is short.
pub(crate) fn sides_by_pin(alloc: Global, pins: &[PinSpec]) -> Result<Vec<SideSet>, AllocError>
    ensures { IfOk result (λ sides. sides.items
        ≡ map (λ (spec : PinSpec). spec_class_sides pins.now spec.class) pins.now) }
{
    pins.iter()
        .map(|spec| class_sides(pins, spec.class))
        .collect(alloc)
}

/// The sides that a class has pins on which take ordinary nets.
pub(crate) fn class_sides(pins: &[PinSpec], class: u32) -> SideSet
    ensures { result ≡ spec_class_sides pins.now class }
{
    SideSet {
        left: has_pin_on(pins, class, Side::Left),
        right: has_pin_on(pins, class, Side::Right),
        bottom: has_pin_on(pins, class, Side::Bottom),
        top: has_pin_on(pins, class, Side::Top),
    }
}

/// Whether the class has a pin on the side which takes ordinary nets.
fn has_pin_on(pins: &[PinSpec], class: u32, side: Side) -> bool
    ensures { result ≡ list_any (class_pin_on class side) pins.now }
{
    pins.iter().any(|pin| is_class_pin_on(pin, class, side))
}

/// Whether the pin is one of the class, takes ordinary nets, and is on the side.
fn is_class_pin_on(pin: &PinSpec, class: u32, side: Side) -> bool
    ensures { result ≡ class_pin_on class side pin.now }
{
    pin.class == class && !pin.global && has_side(pin.sides, side)
}

/// Whether the side is one of these.
fn has_side(sides: SideSet, side: Side) -> bool
    ensures { result ≡ side_in sides side }
{
    match side {
        Side::Left => sides.left,
        Side::Right => sides.right,
        Side::Bottom => sides.bottom,
        Side::Top => sides.top,
    }
}
