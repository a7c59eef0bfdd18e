//! The pin steps of a route, by slot numbers.
ghost use Rattle.std.specs.Prelude.{◌≡◌, ◌≤◌, ◌++◌, length, option_and_then, IfOk, OnOk};
ghost use Rattle.std.specs.Option.{option_to_list};
ghost use Rattle.fpga_bounds.specs.PinList.{net_pin_steps, pin_step_beside, pin_steps_in};
ghost use Rattle.fpga_types.specs.Slots.{elem_pin, elem_slot, pin_step_of};

use crate::slot_table::SlotTable;
use crate::step_list::elem_number;
use fpga_types::{Elem, NET_LIMIT, PinStep, RouteNet};
use std::alloc::{AllocError, Global};

/// The pin steps of some nets, in line order.
pub(crate) fn pin_steps_of(
    alloc: Global,
    nets: &[RouteNet],
    table: &SlotTable,
) -> Result<Vec<PinStep>, AllocError>
    requires { length nets.now ≤ NET_LIMIT }
    ensures { IfOk result (λ found. found.items ≡ pin_steps_in table.now nets.now) }
{
    let mut found = Vec::new(alloc);
    for n in 0..nets.len() {
        add_pin_steps(&mut found, table, n as u32, nets[n].elems.as_slice())?;
    }
    Ok(found)
}

/// Adds the pin steps of the net at position `net`, which has these elements.
fn add_pin_steps(
    found: &mut Vec<PinStep>,
    table: &SlotTable,
    net: u32,
    elems: &[Elem],
) -> Result<(), AllocError>
    ensures { OnOk result (found.new.items
        ≡ found.old.items ++ net_pin_steps table.now net elems.now) }
{
    let mut previous: Option<Elem> = None;
    for e in elems {
        add_pin_step(found, pin_step_behind(table, net, previous, *e))?;
        previous = Some(*e);
    }
    Ok(())
}

/// Adds the pin step, where there is one.
fn add_pin_step(found: &mut Vec<PinStep>, step: Option<PinStep>) -> Result<(), AllocError>
    ensures { OnOk result (found.new.items ≡ found.old.items ++ option_to_list step) }
{
    let Some(step) = step else {
        return Ok(());
    };
    found.push(step)?;
    Ok(())
}

/// The pin step of an element and the one before it, where one is a pin and the other a channel.
fn pin_step_behind(table: &SlotTable, net: u32, before: Option<Elem>, e: Elem) -> Option<PinStep>
    ensures { result ≡ option_and_then (λ other. pin_step_beside table.now net (other, e)) before }
{
    let before = before?;
    if let Some(step) = pin_step(table, net, before, e) {
        return Some(step);
    }
    pin_step(table, net, e, before)
}

/// The pin step of a pin and a channel, where they are these.
fn pin_step(table: &SlotTable, net: u32, pin: Elem, channel: Elem) -> Option<PinStep>
    ensures { result ≡ pin_step_of table.now (elem_pin pin) (elem_slot net channel) }
{
    let pin = pin.pin()?;
    let slot = elem_number(table, net, channel)?;
    Some(PinStep { pin, slot })
}
