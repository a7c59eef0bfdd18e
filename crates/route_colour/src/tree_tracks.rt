//! Which tracks of slots go with which tracks of their trees.
ghost use Rattle.std.specs.Prelude.{◌≤◌};
ghost use Rattle.fpga_types.specs.declared.limits.TheConstants.{WIDTH_LIMIT};

use fpga_bounds::PlacedProblem;
use fpga_graph::{Crossing, Graph};
use fpga_types::{Slot, WIDTH_LIMIT};
use problem_facts::{Lead, Trees};
use std::alloc::{AllocError, Global};

/// For each track of each slot the track that the first slot of its tree has with it, since switch
/// blocks join the one to the other. Nothing is promised of them.
#[derive(Drop)]
pub(crate) struct TreeTracks {
    width: u32,
    firsts: Vec<u32>,
}

impl TreeTracks {
    /// The tracks of a problem with these trees. The time and the memory are those of the tracks of
    /// all slots.
    ///
    /// # Errors
    /// Where memory is short.
    pub fn of(
        alloc: Global,
        problem: &PlacedProblem,
        trees: &Trees,
        width: u32,
    ) -> Result<TreeTracks, AllocError>
        requires { (1 ≤ width) × (width ≤ WIDTH_LIMIT) }
    {
        let slots = problem.slots();
        let graph = Graph::new(problem.arch(), problem.route().grid, width);
        let firsts = vec![in alloc; 0; slots.len().saturating_mul(width as usize)]?;
        let mut tracks = TreeTracks { width, firsts };
        tracks.note_all(&graph, slots, trees);
        Ok(tracks)
    }

    /// Notes the tracks of all slots.
    fn note_all(&mut self, graph: &Graph<'_>, slots: &[Slot], trees: &Trees) {
        let mut slot = 0u32;
        for _ in slots {
            match crossing_to(graph, slots, trees, slot) {
                Some((from, crossing)) => self.follow(from, slot, crossing),
                None => self.begin(slot),
            }
            slot = slot.saturating_add(1);
        }
    }

    /// Notes that a slot has the tracks of its tree.
    fn begin(&mut self, slot: u32) {
        for track in 0..self.width {
            self.note(slot, track, track);
        }
    }

    /// Notes that a slot has the tracks that those of an earlier one are joined to.
    fn follow(&mut self, from: u32, slot: u32, crossing: Crossing) {
        for track in 0..crossing.width {
            let first = self.of_tree(from, track);
            self.note(slot, crossing.track(track), first);
        }
    }

    /// Notes which track the first slot of the tree has where this slot has this one.
    fn note(&mut self, slot: u32, track: u32, first: u32) {
        let place = self.place(slot, track);
        if place < self.firsts.len() {
            self.firsts[place] = first;
        }
    }

    /// Where that is noted.
    fn place(&self, slot: u32, track: u32) -> usize {
        (slot as usize)
            .saturating_mul(self.width as usize)
            .saturating_add(track as usize)
    }

    /// The track that the first slot of the tree has where this slot has this one.
    pub fn of_tree(&self, slot: u32, track: u32) -> u32 {
        self.firsts
            .get(self.place(slot, track))
            .copied()
            .unwrap_or(0)
    }

    /// The track that this slot has where the first slot of its tree has this one.
    pub fn of_slot(&self, slot: u32, first: u32) -> u32 {
        if self.of_tree(slot, first) == first {
            return first;
        }
        for track in 0..self.width {
            if self.of_tree(slot, track) == first {
                return track;
            }
        }
        0
    }
}

/// From which slot a slot is come to, and how tracks go from there, unless its tree begins with it.
fn crossing_to(
    graph: &Graph<'_>,
    slots: &[Slot],
    trees: &Trees,
    slot: u32,
) -> Option<(u32, Crossing)> {
    if slot as usize >= trees.roots().len() {
        return None;
    }
    let Lead { from, .. } = trees.lead(slot)?;
    let first = slots.get(from as usize)?.cell;
    let second = slots.get(slot as usize)?.cell;
    let crossing = graph.crossing(first, second)?;
    Some((from, crossing))
}
