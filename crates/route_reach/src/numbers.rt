//! The slots of a problem, found by their net and cell.
ghost use Rattle.std.specs.Prelude.{◌≡◌, ◌≤◌, length, IfOk};
ghost use Rattle.fpga_bounds.specs.Pairs.{AreDistinct};
ghost use Rattle.route_reach.specs.FirstSlots.{AreFirst, AreOnGrid};
ghost use Rattle.route_reach.specs.Near.{found_number};

use fpga_types::{Grid, SLOT_LIMIT, Slot, cell_number};
use route_encode::RivalChains;
use std::alloc::{AllocError, Global};
use std::marker::Model;

/// The slots of a problem, with the first slot of each cell. Contracts see the slots.
#[derive(Drop)]
pub(crate) struct SlotNumbers<'a> {
    grid: Grid,
    slots: &'a [Slot],
    chains: &'a RivalChains<'a>,
    first: Vec<Option<u32>>,
}

impl<'a> Model for SlotNumbers<'a> {
    ghost use Rattle.std.specs.Prelude.{List};
    ghost use Rattle.fpga_types.specs.declared.problem.Slot.{Slot};
    ghost use Rattle.route_reach.specs.FirstSlots.{AreFindable};

    ghost Value = { List Slot };

    ghost view = { λ n. n.slots.now };

    ghost invariant = { λ n. AreFindable n.grid n.slots.now n.chains.now n.first.items };
}

impl<'a> SlotNumbers<'a> {
    /// The slots of these chains, which are cells of the array. Each stands once. The time is that
    /// of the slots and of the cells of the array.
    pub(crate) fn new(
        alloc: Global,
        grid: Grid,
        slots: &'a [Slot],
        chains: &'a RivalChains<'a>,
    ) -> Result<SlotNumbers<'a>, AllocError>
        requires few { length slots.now ≤ SLOT_LIMIT }
        requires distinct { AreDistinct slots.now }
        requires on_grid { AreOnGrid grid slots.now }
        requires chains { chains.now ≡ slots.now }
        ensures { IfOk result (λ numbers. numbers ≡ slots.now) }
    {
        let first = first_slots(alloc, grid, slots)?;
        Ok(SlotNumbers {
            grid,
            slots,
            chains,
            first,
        })
    }

    /// The number of a slot, if it is one of these. The time is that of the slots of its cell.
    pub(crate) fn found_number(&self, slot: Slot) -> Option<u32>
        ensures { result ≡ found_number self.now slot }
    {
        if !self.grid.has_cell(slot.cell) {
            return None;
        }
        let mut next = self.first[cell_number(self.grid, slot.cell) as usize];
        while let Some(number) = next {
            if self.slots[number as usize].net == slot.net {
                return Some(number);
            }
            next = self.chains.next_after(number);
        }
        None
    }
}

/// For each cell of the array, by number, the first slot in it.
fn first_slots(alloc: Global, grid: Grid, slots: &[Slot]) -> Result<Vec<Option<u32>>, AllocError>
    requires few { length slots.now ≤ SLOT_LIMIT }
    requires on_grid { AreOnGrid grid slots.now }
    ensures { IfOk result (λ first. AreFirst grid slots.now 0 first.items) }
{
    let Grid { nx, ny } = grid;
    let count = nx * (ny + 1) + ny * (nx + 1);
    let mut first = vec![in alloc; None; count as usize]?;
    for s in (0..slots.len()).rev() {
        first[cell_number(grid, slots[s].cell) as usize] = Some(s as u32);
    }
    Ok(first)
}
