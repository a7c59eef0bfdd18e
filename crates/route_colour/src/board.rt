//! The trees of a problem, and which tracks are left to each.
ghost use Rattle.std.specs.Prelude.{◌≡◌, ◌≤◌};
ghost use Rattle.fpga_types.specs.declared.limits.TheConstants.{WIDTH_LIMIT};

use crate::choices::{Choices, bit};
use crate::tree_tracks::TreeTracks;
use fpga_bounds::PlacedProblem;
use fpga_graph::{Graph, MOST_TRACKS};
use fpga_types::WIDTH_LIMIT;
use problem_facts::{GroupedSlots, Trees};
use std::alloc::{AllocError, Global};

/// How often trees may be stuck in each round.
const ROUNDS: [u32; 3] = [16, 16, 32];

/// The slots of a problem, how tracks go through its trees, and which are left to each. Nothing is
/// promised of them.
#[derive(Drop)]
pub(crate) struct Board {
    slots: GroupedSlots,
    tracks: TreeTracks,
    choices: Choices,
}

impl Board {
    /// The trees of a problem, to each of which those tracks are left that all its pins open.
    ///
    /// # Errors
    /// Where memory is short.
    pub fn of(alloc: Global, problem: &PlacedProblem, width: u32) -> Result<Board, AllocError>
        requires { (1 ≤ width) × (width ≤ WIDTH_LIMIT) }
    {
        let count = problem.slots().len();
        let trees = Trees::of_steps(alloc, count as u32, problem.steps())?;
        let slots = GroupedSlots::of_problem(alloc, problem, &trees)?;
        let tracks = TreeTracks::of(alloc, problem, &trees, width)?;
        let choices = Choices::new(alloc, count, width)?;
        let mut board = Board {
            slots,
            tracks,
            choices,
        };
        board.close(problem, width);
        Ok(board)
    }

    /// Takes from each tree the tracks that a pin of it does not open.
    fn close(&mut self, problem: &PlacedProblem, width: u32)
        requires { (1 ≤ width) × (width ≤ WIDTH_LIMIT) }
    {
        let graph = Graph::new(problem.arch(), problem.route().grid, width);
        for step in problem.pin_steps() {
            let opened = graph.opened(step.pin);
            let tracks = self.opened_to_tree(step.slot, &opened);
            self.choices.keep(self.slots.tree(step.slot), tracks);
        }
    }

    /// The tracks of a slot's tree with which the slot has one of those that are opened.
    fn opened_to_tree(&self, slot: u32, opened: &[bool; MOST_TRACKS]) -> u64 {
        let mut tracks = 0;
        let mut track = 0u32;
        for is_open in opened {
            if *is_open {
                tracks |= bit(self.tracks.of_tree(slot, track));
            }
            track = track.saturating_add(1);
        }
        tracks
    }

    /// Notes what each tree of so many slots weighs: the more, the more slots take its cells.
    fn weigh(&mut self, count: u32) {
        for slot in 0..count {
            let rivals = self.slots.in_cell_of(slot).len() as u64;
            self.choices.add_weight(self.slots.tree(slot), rivals);
        }
    }

    /// Notes that each tree of so many slots wants a track.
    ///
    /// # Errors
    /// Where memory is short.
    fn begin(&mut self, count: u32) -> Result<(), AllocError> {
        for slot in 0..count {
            if self.slots.tree(slot) == slot {
                self.choices.wish(slot)?;
            }
        }
        Ok(())
    }

    /// Gives each tree of so many slots a track, in some rounds at most; whether that was done.
    ///
    /// # Errors
    /// Where memory is short.
    pub fn colour(&mut self, count: u32) -> Result<bool, AllocError> {
        self.weigh(count);
        for most in ROUNDS {
            self.begin(count)?;
            if self.go_round(count, most)? {
                return Ok(true);
            }
            self.choices.begin_anew()?;
        }
        Ok(false)
    }

    /// Gives each tree a track, as long as trees are stuck at most so often; whether that was done.
    fn go_round(&mut self, count: u32, most: u32) -> Result<bool, AllocError> {
        let mut stuck = 0u32;
        for _ in 0..(count as u64).saturating_mul(most as u64 + 1) {
            let Some(tree) = self.choices.next()? else {
                return Ok(true);
            };
            if !self.give(tree)? {
                stuck = stuck.saturating_add(1);
                if stuck > most || !self.choices.go_back()? {
                    return Ok(false);
                }
            }
        }
        Ok(false)
    }

    /// Gives a tree a track, and takes that from the trees of other nets where they meet; whether
    /// one was left to it, and to each of those.
    fn give(&mut self, tree: u32) -> Result<bool, AllocError> {
        let Some(first) = self.choices.give(tree)? else {
            return Ok(false);
        };
        for slot in self.slots.of_tree(tree) {
            let track = self.tracks.of_slot(*slot, first);
            for other in self.slots.in_cell_of(*slot) {
                if self.slots.net(*other) != self.slots.net(*slot) {
                    let rival = self.slots.tree(*other);
                    if self
                        .choices
                        .take(rival, self.tracks.of_tree(*other, track))?
                    {
                        return Ok(false);
                    }
                }
            }
        }
        Ok(true)
    }

    /// The track of a slot whose tree was given one, and else 0.
    pub fn track(&self, slot: u32) -> u32 {
        match self.choices.given(self.slots.tree(slot)) {
            Some(first) => self.tracks.of_slot(slot, first),
            None => 0,
        }
    }
}
