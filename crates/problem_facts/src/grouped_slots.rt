//! The slots of a problem by trees and by cells.
ghost use Rattle.std.specs.Prelude.{◌≡◌};
ghost use Rattle.problem_facts.specs.Crowd.{tree_of};

use crate::fullest::cells_of;
use crate::gathering::TreeSlots;
use crate::grouped::{Grouped, number_at};
use crate::trees::Trees;
use fpga_bounds::PlacedProblem;
use std::alloc::{AllocError, Global};

/// For each slot its tree, its net and the number of its cell, and the slots of each tree and of
/// each cell. A tree is told by its first slot. Nothing is promised of them.
#[derive(Drop)]
pub struct GroupedSlots {
    rows: SlotRows,
    of_tree: Grouped,
    in_cell: Grouped,
}

/// For each slot its tree, its net and the number of its cell.
#[derive(Drop)]
struct SlotRows {
    roots: Vec<u32>,
    nets: Vec<u32>,
    cells: Vec<u32>,
}

impl GroupedSlots {
    /// The slots of a problem, of which these are the trees. The time is that of the slots and the
    /// cells.
    ///
    /// # Errors
    /// Where memory is short.
    pub fn of_problem(
        alloc: Global,
        problem: &PlacedProblem,
        trees: &Trees,
    ) -> Result<GroupedSlots, AllocError>
        requires trees { trees.now.roots ≡ tree_of problem.now }
    {
        GroupedSlots::of(alloc, &TreeSlots::of_problem(problem, trees))
    }

    /// The same by the slots and their trees.
    ///
    /// # Errors
    /// Where memory is short.
    pub(crate) fn of(alloc: Global, trees: &TreeSlots<'_>) -> Result<GroupedSlots, AllocError> {
        let count = trees.slots.len() as u32;
        let rows = SlotRows::of(alloc, trees)?;
        let of_tree = Grouped::by(alloc, &rows.roots, count)?;
        let in_cell = Grouped::by(alloc, &rows.cells, cells_of(trees.grid))?;
        Ok(GroupedSlots {
            rows,
            of_tree,
            in_cell,
        })
    }

    /// The tree of a slot.
    pub fn tree(&self, slot: u32) -> u32 {
        number_at(&self.rows.roots, slot as usize)
    }

    /// The net of a slot.
    pub fn net(&self, slot: u32) -> u32 {
        number_at(&self.rows.nets, slot as usize)
    }

    /// The slots of a tree, rising.
    pub fn of_tree(&self, tree: u32) -> &[u32] {
        self.of_tree.of(tree)
    }

    /// The slots of the cell that a slot takes, rising.
    pub fn in_cell_of(&self, slot: u32) -> &[u32] {
        self.in_cell.of(number_at(&self.rows.cells, slot as usize))
    }
}

impl SlotRows {
    /// The rows of these slots.
    ///
    /// # Errors
    /// Where memory is short.
    fn of(alloc: Global, trees: &TreeSlots<'_>) -> Result<SlotRows, AllocError> {
        let roots = trees.roots.to_vec(alloc)?;
        let mut nets = Vec::new(alloc);
        let mut cells = Vec::new(alloc);
        for s in 0..trees.slots.len() as u32 {
            nets.push(trees.slots[s as usize].net)?;
            cells.push(u32::try_from(trees.cell(s)).unwrap_or(0))?;
        }
        Ok(SlotRows { roots, nets, cells })
    }
}
