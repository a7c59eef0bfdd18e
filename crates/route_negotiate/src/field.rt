//! What a search knows of each wire, pin, cell and class.

use crate::board::Board;
use crate::costs::{PIN, WIRE};
use crate::frame::Point;
use crate::held::Held;
use crate::sites::{opened_tracks, pin_at};
use crate::tree::Tree;
use crate::wires::{cell_of, track_of};
use std::alloc::{AllocError, Global};

/// In place of the wire that a wave came from: it began here, at a wire of the tree.
pub(crate) const ROOT: u32 = u32::MAX;
/// In place of the wire that a wave came from: it began here, at the driver.
pub(crate) const DRIVER: u32 = u32::MAX - 1;

/// A wire: how far it is in the wave `seen` and from which wire; in which tree it was last; what it
/// costs, and how many nets take it. As there are many, each has 20 bytes.
#[derive(Clone, Copy)]
pub(crate) struct Spot {
    pub dist: u32,
    pub from: u32,
    pub seen: u16,
    pub tree: u16,
    pub held: Held,
}

/// A pin: the tracks that it opens, the class that it is of; what it costs, and how many nets take
/// it.
#[derive(Clone, Copy)]
pub(crate) struct PinSpot {
    pub opened: u64,
    pub class: u32,
    pub held: Held,
}

/// Which class of those that the tree has to reach is nearest, and how many steps it is away.
#[derive(Clone, Copy)]
pub(crate) struct Near {
    pub tree: u16,
    pub class: u32,
    pub steps: u32,
}

/// A cell: where it lies, which wave came to it last, in which tree it was last, and what was found
/// to be near.
#[derive(Clone, Copy)]
pub(crate) struct CellSpot {
    pub at: Point,
    pub seen: u16,
    pub tree: u16,
    pub near: Near,
}

/// All wires, pins, cells and classes, and the numbers of the last wave and the last tree.
#[derive(Drop)]
pub(crate) struct Field {
    width: u32,
    pub spots: Vec<Spot>,
    pub pins: Vec<PinSpot>,
    pub cells: Vec<CellSpot>,
    /// For each class the tree that has to reach it.
    wanted: Vec<u16>,
    present: u64,
    pub wave: u16,
    pub tree: u16,
}

impl Spot {
    /// A wire that no net takes.
    const FREE: Spot = Spot {
        dist: 0,
        from: ROOT,
        seen: 0,
        tree: 0,
        held: Held::WIRE,
    };
}

impl PinSpot {
    /// A pin that opens no track.
    const SHUT: PinSpot = PinSpot {
        opened: 0,
        class: u32::MAX,
        held: Held::PIN,
    };
}

impl Field {
    /// The field of which no net takes anything.
    pub(crate) fn new(alloc: Global, board: &Board<'_>, present: u64) -> Result<Field, AllocError> {
        Ok(Field {
            width: board.fabric.width,
            spots: vec![in alloc; Spot::FREE; board.fabric.wires()]?,
            pins: pin_spots(alloc, board)?,
            cells: cell_spots(alloc, &board.fabric.points)?,
            wanted: vec![in alloc; 0; board.pins.class_numbers()]?,
            present,
            wave: 0,
            tree: 0,
        })
    }

    /// Gives back all that nets take, and forgets all fights and waves.
    pub(crate) fn clear(&mut self, present: u64) {
        self.present = present;
        for spot in self.spots.iter_mut() {
            *spot = Spot::FREE;
        }
        for pin in self.pins.iter_mut() {
            pin.held = Held::PIN;
        }
        self.forget_trees();
        self.forget_waves();
    }

    /// Begins another wave: no wire is seen in it.
    pub(crate) fn next_wave(&mut self) {
        if self.wave == u16::MAX {
            self.forget_waves();
        }
        self.wave = self.wave.saturating_add(1);
    }

    /// Takes the marks of waves from wires and cells.
    fn forget_waves(&mut self) {
        for spot in self.spots.iter_mut() {
            spot.seen = 0;
        }
        for cell in self.cells.iter_mut() {
            cell.seen = 0;
        }
        self.wave = 0;
    }

    /// Begins another tree: no wire, cell or class is marked by it.
    pub(crate) fn next_tree(&mut self) {
        if self.tree == u16::MAX {
            for spot in self.spots.iter_mut() {
                spot.tree = 0;
            }
            self.forget_trees();
        }
        self.tree = self.tree.saturating_add(1);
    }

    /// Takes the marks of trees from cells and classes.
    fn forget_trees(&mut self) {
        for cell in self.cells.iter_mut() {
            cell.tree = 0;
            cell.near.tree = 0;
        }
        self.wanted.fill(0);
        self.tree = 0;
    }

    /// Where a wire stands in the row of all.
    pub(crate) fn place_of(&self, wire: u32) -> usize {
        cell_of(wire)
            .wrapping_mul(self.width)
            .wrapping_add(track_of(wire)) as usize
    }

    /// A wire, or one that no wave goes to.
    pub(crate) fn spot(&self, wire: u32) -> Spot {
        let place = self.place_of(wire);
        if place < self.spots.len() {
            self.spots[place]
        } else {
            Spot {
                held: Held::NONE,
                ..Spot::FREE
            }
        }
    }

    /// Sets how far a wire is in this wave, and from which wire.
    pub(crate) fn see(&mut self, wire: u32, dist: u32, from: u32) {
        let wave = self.wave;
        let place = self.place_of(wire);
        if place < self.spots.len() {
            let spot = &mut self.spots[place];
            spot.dist = dist;
            spot.seen = wave;
            spot.from = from;
        }
        let cell = cell_of(wire) as usize;
        if cell < self.cells.len() {
            self.cells[cell].seen = wave;
        }
    }

    /// A cell, or one far away.
    pub(crate) fn cell(&self, cell: u32) -> CellSpot {
        let place = cell as usize;
        if place < self.cells.len() {
            return self.cells[place];
        }
        far_cell(Point {
            x: u32::MAX,
            y: u32::MAX,
        })
    }

    /// Sets what is near to a cell.
    pub(crate) fn set_near(&mut self, cell: u32, near: Near) {
        let place = cell as usize;
        if place < self.cells.len() {
            self.cells[place].near = near;
        }
    }

    /// Puts a wire and its cell into the tree: whether it is new there.
    pub(crate) fn grow(&mut self, wire: u32) -> bool {
        let tree = self.tree;
        let cell = cell_of(wire) as usize;
        let place = self.place_of(wire);
        if place >= self.spots.len() || self.spots[place].tree == tree {
            return false;
        }
        self.spots[place].tree = tree;
        if cell < self.cells.len() {
            self.cells[cell].tree = tree;
        }
        true
    }

    /// Whether the tree has to reach the class.
    pub(crate) fn is_wanted(&self, class: u32) -> bool {
        let place = class as usize;
        place < self.wanted.len() && self.wanted[place] == self.tree
    }

    /// Sets whether the tree has to reach the class.
    pub(crate) fn want(&mut self, class: u32, wanted: bool) {
        let place = class as usize;
        let mark = if wanted { self.tree } else { 0 };
        if place < self.wanted.len() {
            self.wanted[place] = mark;
        }
    }

    /// A pin, or one that opens no track.
    pub(crate) fn pin(&self, pin: u32) -> PinSpot {
        let place = pin as usize;
        if place < self.pins.len() {
            self.pins[place]
        } else {
            PinSpot::SHUT
        }
    }

    /// Lets a net take the wires and pins of its tree.
    pub(crate) fn take(&mut self, tree: &Tree) {
        for step in 0..tree.steps.len() {
            for wire in tree.new_wires_of(step) {
                self.take_wire(*wire);
            }
            self.take_pin(tree.steps[step].pin);
        }
        self.take_pin(tree.leaves);
    }

    /// Takes from a net the wires and pins of its tree.
    pub(crate) fn give(&mut self, tree: &Tree) {
        for step in 0..tree.steps.len() {
            for wire in tree.new_wires_of(step) {
                self.give_wire(*wire);
            }
            self.give_pin(tree.steps[step].pin);
        }
        self.give_pin(tree.leaves);
    }

    fn take_wire(&mut self, wire: u32) {
        let place = self.place_of(wire);
        if place < self.spots.len() {
            self.spots[place].held = self.spots[place].held.given_to_one(WIRE, self.present);
        }
    }

    fn give_wire(&mut self, wire: u32) {
        let place = self.place_of(wire);
        if place < self.spots.len() {
            self.spots[place].held = self.spots[place].held.given_back(WIRE, self.present);
        }
    }

    fn take_pin(&mut self, pin: u32) {
        let place = pin as usize;
        if place < self.pins.len() {
            self.pins[place].held = self.pins[place].held.given_to_one(PIN, self.present);
        }
    }

    fn give_pin(&mut self, pin: u32) {
        let place = pin as usize;
        if place < self.pins.len() {
            self.pins[place].held = self.pins[place].held.given_back(PIN, self.present);
        }
    }

    /// Whether a tree has a wire or a pin that another net takes too.
    pub(crate) fn is_contested(&self, tree: &Tree) -> bool {
        for step in 0..tree.steps.len() {
            for wire in tree.new_wires_of(step) {
                if self.spot(*wire).held.taken > 1 {
                    return true;
                }
            }
            if self.pin(tree.steps[step].pin).held.taken > 1 {
                return true;
            }
        }
        self.pin(tree.leaves).held.taken > 1
    }

    /// How many nets are too many, over all wires and pins.
    pub(crate) fn excess(&self) -> u64 {
        let mut excess: u64 = 0;
        for spot in self.spots.as_slice() {
            excess = excess.saturating_add(spot.held.excess() as u64);
        }
        for pin in self.pins.as_slice() {
            excess = excess.saturating_add(pin.held.excess() as u64);
        }
        excess
    }

    /// Ends a round: what is kept of fights grows by each net too many, and the factor for each
    /// such net changes.
    pub(crate) fn end_round(&mut self, present: u64) {
        self.present = present;
        for spot in self.spots.iter_mut() {
            spot.held = spot.held.after_round(WIRE, present);
        }
        for pin in self.pins.iter_mut() {
            pin.held = pin.held.after_round(PIN, present);
        }
    }

    /// The factor for each net too many.
    pub(crate) fn present(&self) -> u64 {
        self.present
    }
}

/// All pins, of which no net takes one.
fn pin_spots(alloc: Global, board: &Board<'_>) -> Result<Vec<PinSpot>, AllocError> {
    let mut spots = Vec::with_capacity(alloc, board.pins.count())?;
    for number in 0..board.pins.count() {
        spots.push(pin_spot(board, (number & 0xffff_ffff) as u32))?;
    }
    Ok(spots)
}

/// A pin that no net takes.
fn pin_spot(board: &Board<'_>, number: u32) -> PinSpot {
    let block = board.pins.block_of(number);
    let pin = board.pins.pin_in_block(number);
    let mut spot = PinSpot::SHUT;
    let width = board.fabric.width;
    let blocks = board.netlist.blocks.as_slice();
    let places = board.placement.places.as_slice();
    let at = block as usize;
    if at >= blocks.len() || at >= places.len() || width == 0 || width > 64 {
        return spot;
    }
    let kind = blocks[at].kind;
    if let Some(there) = pin_at(board.arch, kind, places[at], pin) {
        spot.opened = opened_tracks(board.arch, board.placement.grid, width, there);
        spot.class = board.pins.class_of(board.arch, kind, block, pin);
    }
    spot
}

/// A cell that was in no tree yet.
fn far_cell(at: Point) -> CellSpot {
    CellSpot {
        at,
        seen: 0,
        tree: 0,
        near: Near {
            tree: 0,
            class: 0,
            steps: 0,
        },
    }
}

/// All cells.
fn cell_spots(alloc: Global, points: &[Point]) -> Result<Vec<CellSpot>, AllocError> {
    let mut cells = Vec::with_capacity(alloc, points.len())?;
    for at in points {
        cells.push(far_cell(*at))?;
    }
    Ok(cells)
}
