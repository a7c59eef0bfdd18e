//! The pins of the placed blocks.

use crate::frame::Point;
use crate::row::{at, short};
use crate::rows::{Keyed, Rows, grouped};
use crate::sites::{SIDES, pin_at, spec_of, touched_cell};
use fpga_types::{Arch, BlockKind, Grid, Netlist, Place, Placement};
use std::alloc::{AllocError, Global};

/// The pins of the placed blocks by number, those of one block behind those of another; and where
/// the blocks stand.
#[derive(Drop)]
pub(crate) struct Pins {
    /// The number of each block's first pin.
    first: Vec<u32>,
    /// The block of each pin.
    owner: Vec<u32>,
    points: Vec<Point>,
    /// How many classes a block may have. A class has its block's number times this, and its own
    /// more; a pad is one class.
    classes: u32,
    /// The input pins along each cell.
    along: Rows<u32>,
}

/// Pins, and for each input pin the cells that it touches.
#[derive(Drop)]
struct Draft {
    first: Vec<u32>,
    owner: Vec<u32>,
    points: Vec<Point>,
    touching: Vec<Keyed>,
}

impl Pins {
    /// The pins of the blocks of a netlist, on an array of so many cells.
    pub(crate) fn new(
        alloc: Global,
        arch: &Arch,
        netlist: &Netlist,
        placement: &Placement,
        cells: u32,
    ) -> Result<Pins, AllocError> {
        let mut draft = Draft {
            first: Vec::new(alloc),
            owner: Vec::new(alloc),
            points: Vec::new(alloc),
            touching: Vec::new(alloc),
        };
        let places = placement.places.as_slice();
        for (number, block) in netlist.blocks.as_slice().iter().enumerate() {
            if number < places.len() {
                draft.add_block(arch, placement.grid, block.kind, places[number])?;
            }
        }
        let along = grouped(alloc, cells, &draft.touching)?;
        Ok(Pins {
            first: draft.first,
            owner: draft.owner,
            points: draft.points,
            classes: class_count(arch),
            along,
        })
    }

    /// How many pins there are.
    pub(crate) fn count(&self) -> usize {
        self.owner.len()
    }

    /// How many numbers of classes there are.
    pub(crate) fn class_numbers(&self) -> usize {
        self.first.len().saturating_mul(self.classes as usize)
    }

    /// The number of a block's pin.
    pub(crate) fn number_of(&self, block: u32, pin: u32) -> u32 {
        at(&self.first, block as usize).saturating_add(pin)
    }

    /// The block of a pin.
    pub(crate) fn block_of(&self, number: u32) -> u32 {
        at(&self.owner, number as usize)
    }

    /// The number of a pin in its block.
    pub(crate) fn pin_in_block(&self, number: u32) -> u32 {
        let block = self.block_of(number);
        number.saturating_sub(at(&self.first, block as usize))
    }

    /// The number of the class of a block's pin.
    pub(crate) fn class_of(&self, arch: &Arch, kind: BlockKind, block: u32, pin: u32) -> u32 {
        let own = match kind {
            BlockKind::Logic => match spec_of(arch, pin) {
                Some(spec) => spec.class,
                None => 0,
            },
            BlockKind::Input | BlockKind::Output => 0,
        };
        block.saturating_mul(self.classes).saturating_add(own)
    }

    /// Where the block of a class stands.
    pub(crate) fn class_point(&self, class: u32) -> Point {
        let block = if self.classes == 0 {
            0
        } else {
            class / self.classes
        };
        let block = block as usize;
        if block < self.points.len() {
            self.points[block]
        } else {
            Point { x: 0, y: 0 }
        }
    }

    /// The input pins along a cell.
    pub(crate) fn along(&self, cell: u32) -> &[u32] {
        self.along.row(cell as usize)
    }
}

impl Draft {
    /// Adds the pins of a block of this kind at a place.
    fn add_block(
        &mut self,
        arch: &Arch,
        grid: Grid,
        kind: BlockKind,
        place: Place,
    ) -> Result<(), AllocError> {
        let block = short(self.first.len());
        self.first.push(short(self.owner.len()))?;
        self.points.push(Point {
            x: place.x.saturating_mul(2),
            y: place.y.saturating_mul(2),
        })?;
        for pin in 0..pin_count(arch, kind) {
            let number = short(self.owner.len());
            self.owner.push(block)?;
            if takes_in(arch, kind, pin) {
                self.add_touching(arch, grid, kind, place, pin, number)?;
            }
        }
        Ok(())
    }

    /// Adds the cells that a pin touches.
    fn add_touching(
        &mut self,
        arch: &Arch,
        grid: Grid,
        kind: BlockKind,
        place: Place,
        pin: u32,
        number: u32,
    ) -> Result<(), AllocError> {
        let Some(there) = pin_at(arch, kind, place, pin) else {
            return Ok(());
        };
        for side in SIDES {
            if let Some(cell) = touched_cell(arch, grid, there, side) {
                self.touching.push(Keyed {
                    key: cell,
                    item: number,
                })?;
            }
        }
        Ok(())
    }
}

/// How many pins a block of this kind has.
fn pin_count(arch: &Arch, kind: BlockKind) -> u32 {
    match kind {
        BlockKind::Logic => short(arch.pins.as_slice().len()),
        BlockKind::Input | BlockKind::Output => 1,
    }
}

/// Whether the pin of a block of this kind may be the end of an ordinary net.
fn takes_in(arch: &Arch, kind: BlockKind, pin: u32) -> bool {
    match kind {
        BlockKind::Input => false,
        BlockKind::Output => true,
        BlockKind::Logic => match spec_of(arch, pin) {
            Some(spec) => !spec.output && !spec.global,
            None => false,
        },
    }
}

/// One more than the greatest class of the architecture.
fn class_count(arch: &Arch) -> u32 {
    let mut count = 1;
    for spec in arch.pins.as_slice() {
        count = spec.class.saturating_add(1).max(count);
    }
    count
}
