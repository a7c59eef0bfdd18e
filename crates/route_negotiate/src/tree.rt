//! The tree of wires of a net.

use std::alloc::{AllocError, Global};

/// A path of a tree: where its wires begin in the row of all paths, the pin that it ends at, and
/// whether it begins at the driver and not at a wire of the tree.
#[derive(Clone, Copy)]
pub(crate) struct Step {
    pub begin: u32,
    pub pin: u32,
    pub fresh: bool,
}

/// The paths from a net's driver to its sinks. Each begins at the driver or at a wire of an earlier
/// one.
#[derive(Drop)]
pub(crate) struct Tree {
    pub path: Vec<u32>,
    pub steps: Vec<Step>,
    /// The track that the first path begins at.
    pub start: u32,
    /// The pin that the first path leaves by.
    pub leaves: u32,
}

impl Tree {
    /// The tree of no wire.
    pub(crate) fn new(alloc: Global) -> Tree {
        Tree {
            path: Vec::new(alloc),
            steps: Vec::new(alloc),
            start: 0,
            leaves: u32::MAX,
        }
    }

    /// Makes it the tree of no wire, from this track on. The room stays.
    pub(crate) fn restart(&mut self, start: u32) {
        self.path.clear();
        self.steps.clear();
        self.start = start;
        self.leaves = u32::MAX;
    }

    /// Makes it equal to another.
    pub(crate) fn become_copy(&mut self, other: &Tree) -> Result<(), AllocError> {
        self.restart(other.start);
        self.leaves = other.leaves;
        self.path.extend_from_slice(&other.path)?;
        self.steps.extend_from_slice(&other.steps)
    }

    /// Whether it is the tree of no wire.
    pub(crate) fn is_empty(&self) -> bool {
        self.steps.is_empty()
    }

    /// The wires of a path, the last before its pin.
    pub(crate) fn wires_of(&self, step: usize) -> &[u32] {
        let begin = self.begin_of(step);
        let end = self.begin_of(step.saturating_add(1));
        part(&self.path, begin, end)
    }

    /// The wires of a path that stand in no earlier one.
    pub(crate) fn new_wires_of(&self, step: usize) -> &[u32] {
        let wires = self.wires_of(step);
        if step < self.steps.len() && !self.steps[step].fresh {
            return part(wires, 1, wires.len());
        }
        wires
    }

    /// Where the wires of a path begin, or the end of all.
    fn begin_of(&self, step: usize) -> usize {
        if step < self.steps.len() {
            self.steps[step].begin as usize
        } else {
            self.path.len()
        }
    }
}

/// The part of a row from one place to another, or of none.
fn part(row: &[u32], begin: usize, end: usize) -> &[u32] {
    if begin <= end && end <= row.len() {
        &row[begin..end]
    } else {
        &row[0..0]
    }
}
