//! What a wave goes by: the classes that the tree has still to reach, and how far they are.

use crate::board::Board;
use crate::costs::WIRE;
use crate::field::{Field, Near};
use crate::frame::{Frame, Point};
use crate::heap::Heap;
use crate::options::CellWires;
use std::alloc::{AllocError, Global};

/// The most classes whose places are looked at one by one.
const NEAR_MOST: usize = 64;

/// A class that the tree has still to reach, and where its block stands.
#[derive(Clone, Copy)]
struct Target {
    class: u32,
    at: Point,
}

/// The wires that a wave has still to leave, and what is left of the net.
#[derive(Drop)]
pub(crate) struct Front {
    pub heap: Heap,
    /// Whether a net may have one wire of a cell alone.
    pub is_strict: bool,
    /// The wires of the tree.
    pub grown: Vec<u32>,
    /// Where the net is to be routed.
    pub frame: Frame,
    left: Vec<Target>,
    round_left: Frame,
}

impl Front {
    /// A front for nets that may have so many wires of a cell.
    pub(crate) fn new(alloc: Global, wires: CellWires) -> Front {
        Front {
            heap: Heap::new(alloc),
            is_strict: matches!(wires, CellWires::One),
            grown: Vec::new(alloc),
            frame: Frame::empty(),
            left: Vec::new(alloc),
            round_left: Frame::empty(),
        }
    }

    /// How many classes the tree has still to reach.
    pub(crate) fn left_count(&self) -> usize {
        self.left.len()
    }

    /// Begins a tree of a net: no wire is in it, and each class is left, once.
    pub(crate) fn begin(
        &mut self,
        board: &Board<'_>,
        field: &mut Field,
        net: usize,
        slack: u32,
    ) -> Result<(), AllocError> {
        field.next_tree();
        self.grown.clear();
        self.left.clear();
        for class in board.nets.sinks_of(net) {
            if !field.is_wanted(*class) {
                field.want(*class, true);
                let at = board.pins.class_point(*class);
                self.left.push(Target { class: *class, at })?;
            }
        }
        self.aim();
        let mut frame = self.round_left;
        for start in board.nets.starts_of(net) {
            frame = frame.with(field.cell(start.cell).at);
        }
        self.frame = frame.wider(slack);
        Ok(())
    }

    /// Sets the rectangle of what is left.
    fn aim(&mut self) {
        let mut round = Frame::empty();
        for target in self.left.as_slice() {
            round = round.with(target.at);
        }
        self.round_left = round;
    }

    /// Takes a class off what is left.
    pub(crate) fn reach(&mut self, field: &mut Field, class: u32) {
        field.want(class, false);
        let mut place = self.left.len();
        for k in 0..self.left.len() {
            if self.left[k].class == class {
                place = k;
            }
        }
        if place < self.left.len() {
            self.left.swap_remove(place);
        }
        self.aim();
    }

    /// How many steps a cell is away from the nearest class that is left, or fewer.
    pub(crate) fn steps_ahead(&self, field: &mut Field, cell: u32) -> u32 {
        let spot = field.cell(cell);
        if self.left.len() > NEAR_MOST {
            return self.round_left.steps_to(spot.at);
        }
        if spot.near.tree == field.tree && field.is_wanted(spot.near.class) {
            return spot.near.steps;
        }
        let near = self.nearest(field.tree, spot.at);
        field.set_near(cell, near);
        near.steps
    }

    /// The class that is nearest to a place, of those that are left.
    fn nearest(&self, tree: u16, at: Point) -> Near {
        let mut near = Near {
            tree,
            class: u32::MAX,
            steps: u32::MAX,
        };
        for target in self.left.as_slice() {
            let steps = at.steps_to(target.at);
            if steps < near.steps {
                near.steps = steps;
                near.class = target.class;
            }
        }
        near
    }
}

/// A bound from below for the cost of the wires ahead of a cell that is so many steps away.
pub(crate) fn cost_ahead(steps: u32) -> u64 {
    (steps.saturating_sub(1) / 2) as u64 * WIRE
}
