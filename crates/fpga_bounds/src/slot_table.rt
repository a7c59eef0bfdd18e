//! The slots of a route, by number and by net and cell.
ghost use Rattle.std.specs.Prelude.{◌≡◌, ◌<◌, ◌≤◌, [], length, false, ◌==◌, OnOk, OnErr};
ghost use Rattle.std.specs.List.{list_any};
ghost use Rattle.fpga_bounds.specs.SlotTable.{with_slot};
ghost use Rattle.fpga_types.specs.Slots as spec;
ghost use Rattle.fpga_types.specs.Slots.{same_slot};

use fpga_types::{SLOT_LIMIT, Slot};
use std::alloc::{AllocError, Global};
use std::cmp::Reverse;
use std::collections::BTreeMap;
use std::marker::Model;

/// Slots in the order in which they came, each once. Contracts see the list of them.
#[derive(Drop)]
pub(crate) struct SlotTable {
    slots: Vec<Slot>,
    // The slots of a net come behind those of earlier nets. The tree looks from its least key on,
    // and so finds those of the net at hand at once.
    numbers: BTreeMap<Reverse<Slot>, u32>,
}

impl Model for SlotTable {
    ghost use Rattle.std.specs.Prelude.{List};
    ghost use Rattle.fpga_types.specs.declared.problem.Slot.{Slot};
    ghost use Rattle.fpga_bounds.specs.SlotTable.{IsNumbered};

    ghost Value = { List Slot };

    ghost view = { λ t. t.slots.items };

    ghost invariant = { λ t. IsNumbered t.slots.items t.numbers };
}

impl SlotTable {
    /// A table of no slots. Takes no memory.
    pub(crate) fn new(alloc: Global) -> SlotTable
        ensures { result ≡ [] }
    {
        SlotTable {
            slots: Vec::new(alloc),
            numbers: BTreeMap::new(alloc),
        }
    }

    /// The slots, by number.
    pub(crate) fn as_slice(&self) -> &[Slot]
        ensures value { result.now ≡ self.now }
        ensures limit { length self.now ≤ SLOT_LIMIT }
    {
        self.slots.as_slice()
    }

    /// Whether there is no room for one slot more.
    pub(crate) fn is_full(&self) -> bool
        ensures value { result ≡ (length self.now == SLOT_LIMIT) }
        ensures limit { length self.now ≤ SLOT_LIMIT }
    {
        self.slots.len() == SLOT_LIMIT
    }

    /// Whether the slot is one of the table.
    pub(crate) fn has(&self, slot: Slot) -> bool
        ensures { result ≡ list_any (same_slot slot) self.now }
    {
        self.numbers.contains_key(&Reverse(slot))
    }

    /// The number of the slot, or the number of slots where it is none of the table.
    pub(crate) fn slot_number(&self, slot: Slot) -> u32
        ensures { result ≡ spec.slot_number self.now slot }
    {
        match self.numbers.get(&Reverse(slot)) {
            Some(number) => *number,
            None => self.slots.len() as u32,
        }
    }

    /// The number of the slot, as `slot_number` gives it, by one look where it is the guess.
    pub(crate) fn number_near(&self, slot: Slot, guess: u32) -> u32
        ensures { result ≡ spec.slot_number self.now slot }
    {
        if let Some(there) = self.slots.get(guess as usize) {
            if *there == slot {
                return guess;
            }
        }
        self.slot_number(slot)
    }

    /// Puts the slot at the end, unless the table has it. After an error the table is as it was.
    pub(crate) fn add(&mut self, slot: Slot) -> Result<(), AllocError>
        requires room { list_any (same_slot slot) self.old ≡ false → length self.old < SLOT_LIMIT }
        ensures ok { OnOk result (self.new ≡ with_slot self.old slot) }
        ensures err { OnErr result (self.new ≡ self.old) }
    {
        if self.has(slot) {
            return Ok(());
        }
        let number = self.slots.len() as u32;
        self.slots.reserve(1)?;
        self.numbers.insert(Reverse(slot), number)?;
        self.slots.push_reserved(slot);
        Ok(())
    }
}
