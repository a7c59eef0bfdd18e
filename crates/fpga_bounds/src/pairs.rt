//! How many pairs of nets meet in a cell.
ghost use Rattle.std.specs.Prelude.{◌≡◌, ◌≤◌, ◌<◌, ◌+◌, ◌*◌, length, IfOk};
ghost use Rattle.fpga_types.specs.Slots.{pairs};
ghost use Rattle.fpga_bounds.specs.Pairs.{AreDistinct, HasCrowd, crowd_of};

use fpga_types::{Cell, SLOT_LIMIT, Slot};
use std::alloc::{AllocError, Global};
use std::collections::BTreeMap;

/// How many pairs of these slots are of different nets and take one cell. Each slot stands once.
pub(crate) fn pair_count(alloc: Global, slots: &[Slot]) -> Result<u64, AllocError>
    requires few { length slots.now ≤ SLOT_LIMIT }
    requires distinct { AreDistinct slots.now }
    ensures count { IfOk result (λ count. count ≡ length (pairs slots.now)) }
    ensures limit { IfOk result (λ count. count ≤ SLOT_LIMIT * SLOT_LIMIT) }
{
    let mut crowds = BTreeMap::new(alloc);
    let mut count = 0;
    for slot in slots {
        let crowd = add_to_crowd(&mut crowds, slot.cell)?;
        count += crowd as u64;
    }
    Ok(count)
}

/// Counts one slot more in a cell, and gives how many there were.
fn add_to_crowd(crowds: &mut BTreeMap<Cell, u32>, cell: Cell) -> Result<u32, AllocError>
    requires { crowd_of crowds.old cell < SLOT_LIMIT }
    ensures before { IfOk result (λ crowd. crowd ≡ crowd_of crowds.old cell) }
    ensures after { IfOk result (λ crowd. HasCrowd crowds.old cell (crowd + 1) crowds.new) }
{
    let crowd = crowds.entry(cell)?.or_insert(0);
    *crowd += 1;
    Ok(*crowd - 1)
}
