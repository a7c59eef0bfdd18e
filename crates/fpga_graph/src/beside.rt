//! The wires that a pin opens in the cells along the sides of its place.
ghost use Rattle.std.specs.List.{range_with_len};
ghost use Rattle.std.specs.Prelude.{◌≡◌, ◌≤◌, ◌++◌, filter, map, OnOk};
ghost use Rattle.fpga_graph.specs.Beside.{cell_along, cell_beside};
ghost use Rattle.fpga_graph.specs.Wires.{wire_in};
ghost use Rattle.fpga_types.specs.Boxes.{opens};
ghost use Rattle.fpga_types.specs.Pins.{HasPin};

use crate::around::{column_cell, row_cell};
use fpga_fabric::opens;
use fpga_types::{Arch, Cell, PinAt, Side, WIDTH_LIMIT, Wire};
use std::alloc::AllocError;

/// The cell along this side of the pin's place: none lies on the left of column 0 or below row 0.
/// It may be none of the array, and the pin may not be on this side of its place.
///
/// Takes constant time and no memory.
pub fn cell_beside(pin: PinAt, side: Side) -> Option<Cell>
    ensures { result ≡ cell_beside pin side }
{
    match pin {
        PinAt::Pad { x, y, .. } => cell_along(x, y, side),
        PinAt::Pin { x, y, .. } => cell_along(x, y, side),
    }
}

/// The cell along this side of the place (x,y).
fn cell_along(x: u32, y: u32, side: Side) -> Option<Cell>
    ensures { result ≡ cell_along x y side }
{
    match side {
        Side::Left => {
            if x == 0 {
                return None;
            }
            Some(column_cell(x - 1, y))
        }
        Side::Right => Some(column_cell(x, y)),
        Side::Bottom => {
            if y == 0 {
                return None;
            }
            Some(row_cell(x, y - 1))
        }
        Side::Top => Some(row_cell(x, y)),
    }
}

/// Adds the wires of the cell whose tracks the pin opens.
pub(crate) fn add_opened(
    wires: &mut Vec<Wire>,
    arch: &Arch,
    width: u32,
    pin: PinAt,
    cell: Cell,
) -> Result<(), AllocError>
    requires width { (1 ≤ width) × (width ≤ WIDTH_LIMIT) }
    requires pin { HasPin arch.now pin }
    ensures { OnOk result (wires.new.items ≡ wires.old.items
        ++ map (wire_in cell) (filter (opens arch.now width pin) (range_with_len 0 width))) }
{
    for track in 0..width {
        if opens(arch, width, pin, track) {
            wires.push(Wire { cell, track })?;
        }
    }
    Ok(())
}
