//! Where the pins of a route stand.
use crate::scale::{BLOCK, Point, block_start, channel_start, part_middle};
use fpga_types::{Arch, Axis, Cell, PinAt};

/// A wire as it is drawn: its cell, and how far it is from the start of the channel.
#[derive(Clone, Copy)]
pub(crate) struct Strand {
    pub(crate) cell: Cell,
    pub(crate) across: u64,
}

/// Where a pin stands: on the side of its place that looks at the cell.
pub(crate) fn pin_point(arch: &Arch, pin: PinAt, cell: Cell) -> Point {
    let (x, y) = place_of(pin);
    let along = along_side(arch, pin);
    let start = Point {
        x: block_start(x),
        y: block_start(y),
    };
    match cell.axis {
        Axis::X => start.moved(along, if cell.y == y { BLOCK } else { 0 }),
        Axis::Y => start.moved(if cell.x == x { BLOCK } else { 0 }, along),
    }
}

/// The point of a wire that is straight across from a pin.
pub(crate) fn switch_point(arch: &Arch, pin: PinAt, strand: Strand) -> Point {
    let (x, y) = place_of(pin);
    let along = along_side(arch, pin);
    match strand.cell.axis {
        Axis::X => Point {
            x: block_start(x).saturating_add(along),
            y: channel_start(strand.cell.y).saturating_add(strand.across),
        },
        Axis::Y => Point {
            x: channel_start(strand.cell.x).saturating_add(strand.across),
            y: block_start(y).saturating_add(along),
        },
    }
}

// How far a pin is from the start of its side.
fn along_side(arch: &Arch, pin: PinAt) -> u64 {
    match pin {
        PinAt::Pad { sub, .. } => part_middle(sub, arch.io_rat as u64),
        PinAt::Pin { pin, .. } => part_middle(pin, arch.pins.as_slice().len() as u64),
    }
}

fn place_of(pin: PinAt) -> (u32, u32) {
    match pin {
        PinAt::Pad { x, y, .. } | PinAt::Pin { x, y, .. } => (x, y),
    }
}
