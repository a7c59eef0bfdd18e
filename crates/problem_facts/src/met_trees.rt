//! Which trees share cells, as a search for crowds goes over them.
use crate::gathering::TreeSlots;
use crate::grouped::{Grouped, number_at, set_number};
use crate::grouped_slots::GroupedSlots;
use std::alloc::{AllocError, Global};

/// The trees by their first slots, the largest first, with the slots of each and those of each
/// cell. Nothing is promised of them.
#[derive(Drop)]
pub(crate) struct MetTrees {
    slots: GroupedSlots,
    by_size: BySize,
}

/// The trees, the largest first, and the place of each among them. Behind them stand the slots that
/// are no first ones.
#[derive(Drop)]
struct BySize {
    trees: Vec<u32>,
    places: Vec<u32>,
}

impl MetTrees {
    /// The trees of these slots. The time is that of the slots and the cells.
    ///
    /// # Errors
    /// Where memory is short.
    pub fn of(alloc: Global, trees: &TreeSlots<'_>) -> Result<MetTrees, AllocError> {
        let slots = GroupedSlots::of(alloc, trees)?;
        let by_size = BySize::of(alloc, &slots, trees.slots.len() as u32)?;
        Ok(MetTrees { slots, by_size })
    }

    /// The tree at a place.
    pub fn tree_at(&self, place: u32) -> u32 {
        number_at(&self.by_size.trees, place as usize)
    }

    /// The places of the trees of other nets that take cells of the one at this place, each as
    /// often as they do.
    ///
    /// # Errors
    /// Where memory is short.
    pub fn met_by(&self, alloc: Global, place: u32) -> Result<Vec<u32>, AllocError> {
        let tree = self.tree_at(place);
        let net = self.slots.net(tree);
        let mut met = Vec::new(alloc);
        for slot in self.slots.of_tree(tree) {
            self.add_of_cell(&mut met, *slot, net)?;
        }
        Ok(met)
    }

    /// Adds the places of the trees of other nets that take the cell of this slot.
    fn add_of_cell(&self, met: &mut Vec<u32>, slot: u32, net: u32) -> Result<(), AllocError> {
        for other in self.slots.in_cell_of(slot) {
            let tree = self.slots.tree(*other);
            if self.slots.net(tree) != net {
                met.push(number_at(&self.by_size.places, tree as usize))?;
            }
        }
        Ok(())
    }
}

impl BySize {
    /// So many slots by how many their trees have, if they are the first of these.
    ///
    /// # Errors
    /// Where memory is short.
    fn of(alloc: Global, slots: &GroupedSlots, count: u32) -> Result<BySize, AllocError> {
        let mut lacks = Vec::new(alloc);
        for tree in 0..count {
            lacks.push((count as usize).saturating_sub(slots.of_tree(tree).len()) as u32)?;
        }
        let sorted = Grouped::by(alloc, &lacks, count.saturating_add(1))?;
        let trees = sorted.numbers().to_vec(alloc)?;
        let mut places = vec![in alloc; 0; trees.len()]?;
        note_places(&mut places, &trees);
        Ok(BySize { trees, places })
    }
}

/// Notes for each number where it stands in a row.
pub(crate) fn note_places(places: &mut [u32], row: &[u32]) {
    let mut place = 0u32;
    for number in row {
        set_number(places, *number as usize, place);
        place = place.saturating_add(1);
    }
}
