//! What a search within own cells knows of wires: of those of the array, how many nets take them,
//! and of those of one net, how far they are.

use crate::costs::WIRE;
use crate::held::Held;
use std::alloc::{AllocError, Global};

/// In place of the wire that a wave came from: it began here.
pub(crate) const BEGIN: u32 = u32::MAX;

/// A wire of the net in hand: how far the wave of the tree `seen` came to it, and over how many
/// joins; from which wire; and in which tree it was last.
#[derive(Clone, Copy)]
pub(crate) struct Step {
    pub dist: u32,
    pub from: u32,
    pub seen: u32,
    pub tree: u32,
    pub joins: u32,
}

/// A wire of a tree, and over how many joins the driver reaches it.
#[derive(Clone, Copy)]
pub(crate) struct Grown {
    pub wire: u32,
    pub joins: u32,
}

/// All wires of the array, and those of the net in hand.
#[derive(Drop)]
pub(crate) struct OwnField {
    width: u32,
    held: Vec<Held>,
    steps: Vec<Step>,
    present: u64,
    pub tree: u32,
}

impl Step {
    /// A wire that no wave came to.
    const UNSEEN: Step = Step {
        dist: u32::MAX,
        from: BEGIN,
        seen: 0,
        tree: 0,
        joins: 0,
    };
}

impl OwnField {
    /// The field of so many cells with so many tracks each, and of nets with so many slots at the
    /// most.
    pub(crate) fn new(
        alloc: Global,
        cells: u32,
        slots: u32,
        width: u32,
    ) -> Result<OwnField, AllocError> {
        Ok(OwnField {
            width,
            held: vec![in alloc; Held::WIRE; wires_of(cells, width)]?,
            steps: vec![in alloc; Step::UNSEEN; wires_of(slots, width)]?,
            present: 0,
            tree: 0,
        })
    }

    /// Gives back all that nets take, and forgets all fights.
    pub(crate) fn clear(&mut self, present: u64) {
        self.present = present;
        self.held.fill(Held::WIRE);
    }

    /// Begins another tree, and its wave: no wire is in them.
    pub(crate) fn next_tree(&mut self) {
        if self.tree == u32::MAX {
            self.steps.fill(Step::UNSEEN);
            self.tree = 0;
        }
        self.tree = self.tree.saturating_add(1);
    }

    /// A wire of the net in hand, or one that no wave came to.
    pub(crate) fn step(&self, wire: u32) -> Step {
        let place = wire as usize;
        if place < self.steps.len() {
            self.steps[place]
        } else {
            Step::UNSEEN
        }
    }

    /// Lets the wave come to a wire of the net in hand.
    pub(crate) fn see(&mut self, wire: u32, from: u32, dist: u32, joins: u32) {
        let seen = self.tree;
        let place = wire as usize;
        if place < self.steps.len() {
            let tree = self.steps[place].tree;
            self.steps[place] = Step {
                dist,
                from,
                seen,
                tree,
                joins,
            };
        }
    }

    /// Whether a wire of the net in hand is in its tree.
    pub(crate) fn is_grown(&self, wire: u32) -> bool {
        self.step(wire).tree == self.tree
    }

    /// Puts a wire of the net in hand into its tree.
    pub(crate) fn grow(&mut self, wire: u32) {
        let tree = self.tree;
        let place = wire as usize;
        if place < self.steps.len() {
            self.steps[place].tree = tree;
        }
    }

    /// Where a wire of the array stands among all.
    fn place_of(&self, cell: u32, track: u32) -> usize {
        (cell as usize)
            .saturating_mul(self.width as usize)
            .saturating_add(track as usize)
    }

    /// A wire of the array, or one that no net may take.
    pub(crate) fn held(&self, cell: u32, track: u32) -> Held {
        let place = self.place_of(cell, track);
        if place < self.held.len() {
            self.held[place]
        } else {
            Held::NONE
        }
    }

    /// Lets one more net take a wire of the array.
    pub(crate) fn take(&mut self, cell: u32, track: u32) {
        let place = self.place_of(cell, track);
        if place < self.held.len() {
            self.held[place] = self.held[place].given_to_one(WIRE, self.present);
        }
    }

    /// Takes a wire of the array from a net.
    pub(crate) fn give(&mut self, cell: u32, track: u32) {
        let place = self.place_of(cell, track);
        if place < self.held.len() {
            self.held[place] = self.held[place].given_back(WIRE, self.present);
        }
    }

    /// How many nets are too many, over all wires.
    pub(crate) fn excess(&self) -> u64 {
        let mut excess: u64 = 0;
        for held in self.held.as_slice() {
            excess = excess.saturating_add(held.excess() as u64);
        }
        excess
    }

    /// Ends a round: what is kept of fights grows by each net too many, and the factor for each
    /// such net changes.
    pub(crate) fn end_round(&mut self, present: u64) {
        self.present = present;
        for held in self.held.iter_mut() {
            *held = held.after_round(WIRE, present);
        }
    }

    /// The factor for each net too many.
    pub(crate) fn present(&self) -> u64 {
        self.present
    }
}

/// How many wires so many cells have.
fn wires_of(cells: u32, width: u32) -> usize {
    (cells as usize).saturating_mul(width as usize)
}
