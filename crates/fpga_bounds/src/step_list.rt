//! The steps of a route, by slot numbers.
ghost use Rattle.std.specs.Prelude.{◌≡◌, ◌≤◌, ◌++◌, length, IfOk, OnOk};
ghost use Rattle.std.specs.Option.{option_to_list};
ghost use Rattle.fpga_bounds.specs.StepList as spec;
ghost use Rattle.fpga_bounds.specs.StepList.{step_between, net_steps, steps_in};

use crate::slot_table::SlotTable;
use fpga_types::{Elem, NET_LIMIT, RouteNet, RouteStep};
use std::alloc::{AllocError, Global};

/// The steps of some nets, in line order.
pub(crate) fn steps_of(
    alloc: Global,
    nets: &[RouteNet],
    table: &SlotTable,
) -> Result<Vec<RouteStep>, AllocError>
    requires { length nets.now ≤ NET_LIMIT }
    ensures { IfOk result (λ found. found.items ≡ steps_in table.now nets.now) }
{
    let mut found = Vec::new(alloc);
    let mut next = 0;
    for n in 0..nets.len() {
        let elems = nets[n].elems.as_slice();
        add_steps(&mut found, table, n as u32, elems, &mut next)?;
    }
    Ok(found)
}

/// Adds the steps of the net at position `net`, which has these elements. The number of the slot
/// that may come next is a guess.
fn add_steps(
    found: &mut Vec<RouteStep>,
    table: &SlotTable,
    net: u32,
    elems: &[Elem],
    next: &mut u32,
) -> Result<(), AllocError>
    ensures { OnOk result (found.new.items ≡ found.old.items ++ net_steps table.now net elems.now) }
{
    let mut previous: Option<u32> = None;
    for e in elems {
        let number = number_behind(table, net, *e, next);
        add_step(found, previous, number)?;
        previous = number;
    }
    Ok(())
}

/// The number of the element's slot, if it is a channel.
pub(crate) fn elem_number(table: &SlotTable, net: u32, e: Elem) -> Option<u32>
    ensures { result ≡ spec.elem_number table.now net e }
{
    let slot = e.slot(net)?;
    Some(table.slot_number(slot))
}

/// The number of the element's slot, if it is a channel. The number is guessed, and the one behind
/// it is the next guess: slots have their numbers in the order of the channels that come first.
pub(crate) fn number_behind(table: &SlotTable, net: u32, e: Elem, next: &mut u32) -> Option<u32>
    ensures { result ≡ spec.elem_number table.now net e }
{
    let slot = e.slot(net)?;
    let number = table.number_near(slot, *next);
    *next = number.wrapping_add(1);
    Some(number)
}

/// Adds the step between two slots, where there are two.
fn add_step(
    found: &mut Vec<RouteStep>,
    from: Option<u32>,
    to: Option<u32>,
) -> Result<(), AllocError>
    ensures { OnOk result (found.new.items ≡ found.old.items ++ option_to_list
        (step_between from to)) }
{
    let Some(from) = from else {
        return Ok(());
    };
    let Some(to) = to else {
        return Ok(());
    };
    found.push(RouteStep { from, to })?;
    Ok(())
}
