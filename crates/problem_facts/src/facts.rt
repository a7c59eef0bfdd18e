//! What is known of a problem before a search.
ghost use Rattle.std.specs.Prelude.{◌≡◌, ◌≤◌, IfOk, Some, find, length};
ghost use Rattle.fpga_types.specs.CellNumbers.{cell_count};
ghost use Rattle.fpga_types.specs.Slots.{slots};
ghost use Rattle.route_encode.specs.Encoding.{below};
ghost use Rattle.problem_facts.specs.Crowd.{IsCrowd, tree_of};
ghost use Rattle.problem_facts.specs.Facts.{AreFactsOf};
ghost use Rattle.problem_facts.specs.Fullest.{has_most};
ghost use Rattle.problem_facts.specs.declared.limits.TheConstants.{CROWD_LIMIT};

use crate::crowding::crowd_of;
use crate::fullest::fullest_cell;
use crate::gathering::TreeSlots;
use crate::limits::CROWD_LIMIT;
use crate::trees::Trees;
use arrayvec::ArrayVec;
use fpga_bounds::PlacedProblem;
use std::alloc::{AllocError, Global};
use std::marker::Model;

/// What is known of a problem before a search: its trees, which are slots that steps join, the
/// fullest cell, and a crowd, which is made of trees that want different tracks where the switch
/// blocks are subset ones. Contracts see the three.
#[derive(Drop)]
pub struct Facts {
    trees: Trees,
    fullest: u32,
    crowd: ArrayVec<u32, CROWD_LIMIT>,
}

impl Model for Facts {
    ghost use Rattle.std.specs.Prelude.{◌≤◌, length};
    ghost use Rattle.problem_facts.specs.Facts.{FactsState};
    ghost use Rattle.problem_facts.specs.Leads.{AreTrees};
    ghost use Rattle.problem_facts.specs.declared.limits.TheConstants.{CROWD_LIMIT};

    ghost Value = { FactsState };

    ghost view = { λ f. record {
      trees = f.trees;
      fullest = f.fullest;
      crowd = f.crowd.items;
    } };

    ghost invariant = { λ f. AreTrees f.trees × (length f.crowd.items ≤ CROWD_LIMIT) };
}

impl Facts {
    /// Finds the facts of a problem. The crowd is a greatest one wherever the search for it comes
    /// to its end within [`LOOK_LIMIT`](crate::LOOK_LIMIT) looks and no tree meets more than
    /// [`MET_LIMIT`](crate::MET_LIMIT) larger ones; no clause says so.
    ///
    /// The time is near that of the slots, the cells and the steps, and that of the looks: at most
    /// some tenths of a second. The memory is that of the slots and the cells.
    ///
    /// # Errors
    /// Where memory is short.
    pub fn of(alloc: Global, problem: &PlacedProblem) -> Result<Facts, AllocError>
        ensures { IfOk result (AreFactsOf problem.now) }
    {
        let grid = problem.route().grid;
        let slots = problem.slots();
        let trees = Trees::of_steps(alloc, slots.len() as u32, problem.steps())?;
        let fullest = fullest_cell(grid, slots);
        let crowd = crowd_among(alloc, problem, &trees, fullest)?;
        Ok(Facts {
            trees,
            fullest,
            crowd,
        })
    }

    /// The trees.
    pub fn trees(&self) -> &Trees
        ensures { result.now ≡ self.now.trees }
    {
        &self.trees
    }

    /// The number of the first cell that the most slots take.
    pub fn fullest_cell(&self) -> u32
        ensures { result ≡ self.now.fullest }
    {
        self.fullest
    }

    /// The trees of the crowd, each by its first slot; at most 128.
    pub fn crowd(&self) -> &[u32]
        ensures value { result.now ≡ self.now.crowd }
        ensures few { length result.now ≤ CROWD_LIMIT }
    {
        &self.crowd
    }
}

/// A crowd of these trees of a problem, of which this is the fullest cell.
fn crowd_among(
    alloc: Global,
    problem: &PlacedProblem,
    trees: &Trees,
    fullest: u32,
) -> Result<ArrayVec<u32, CROWD_LIMIT>, AllocError>
    requires trees { trees.now.roots ≡ tree_of problem.now }
    requires fullest { find (has_most problem.now.route.grid (slots problem.now.route))
        (below (cell_count problem.now.route.grid)) ≡ Some fullest }
    ensures { IfOk result (λ crowd. IsCrowd problem.now crowd.items) }
{
    let _given = problem.route();
    let rooted = TreeSlots::of_problem(problem, trees);
    let crowd = crowd_of(alloc, &rooted, fullest)?;
    Ok(crowd)
}
