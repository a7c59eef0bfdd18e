//! The slots that take one cell, one after another.
ghost use Rattle.std.specs.Prelude.{◌≡◌, ◌≤◌, ◌<◌, length, IfOk};
ghost use Rattle.route_encode.specs.Rivals.{AreNextRivals, next_rival};

use fpga_types::{Cell, SLOT_LIMIT, Slot};
use std::alloc::{AllocError, Global};
use std::collections::BTreeMap;
use std::marker::Model;

/// The slots of a problem, with the next slot of its cell for each. Contracts see the slots.
#[derive(Drop)]
pub struct RivalChains<'a> {
    slots: &'a [Slot],
    next: Vec<Option<u32>>,
}

impl<'a> Model for RivalChains<'a> {
    ghost use Rattle.std.specs.Prelude.{List};
    ghost use Rattle.fpga_types.specs.declared.problem.Slot.{Slot};
    ghost use Rattle.route_encode.specs.Rivals.{AreNextRivals};

    ghost Value = { List Slot };

    ghost view = { λ c. c.slots.now };

    ghost invariant = { λ c. AreNextRivals c.slots.now c.next.items };
}

impl<'a> RivalChains<'a> {
    /// Links each slot to the next one of its cell. The time is `n log n` in the slots.
    ///
    /// # Errors
    /// Where memory is short.
    pub fn new(alloc: Global, slots: &'a [Slot]) -> Result<RivalChains<'a>, AllocError>
        requires { length slots.now ≤ SLOT_LIMIT }
        ensures { IfOk result (λ chains. chains ≡ slots.now) }
    {
        let next = next_rivals(alloc, slots)?;
        Ok(RivalChains { slots, next })
    }

    /// The next slot after this one that takes its cell, or `None` where no later one does.
    pub fn next_after(&self, slot: u32) -> Option<u32>
        requires { slot < length self.now }
        ensures { result ≡ next_rival self.now slot }
    {
        self.next[slot as usize]
    }
}

/// For each slot the next one that takes its cell.
fn next_rivals(alloc: Global, slots: &[Slot]) -> Result<Vec<Option<u32>>, AllocError>
    requires { length slots.now ≤ SLOT_LIMIT }
    ensures { IfOk result (λ next. AreNextRivals slots.now next.items) }
{
    let mut first: BTreeMap<Cell, u32> = BTreeMap::new(alloc);
    let mut next = vec![in alloc; None; slots.len()]?;
    for s in (0..slots.len()).rev() {
        next[s] = first.insert(slots[s].cell, s as u32)?;
    }
    Ok(next)
}
