//! Words for nets, cells and pins of a problem, the first of a row of them.
ghost use Rattle.std.specs.Prelude.{◌≡◌, ◌++◌, ◌-◌, OnOk, codes, decimal, flat_map, length, string_bytes, take};
ghost use Rattle.router_says.specs.Seen.{
  axis_said,
  cell_said,
  first_cell_said,
  listed,
  net_said,
  nets_said,
  pin_said,
  place_said,
  slot_cell_said,
};
ghost use Rattle.router_says.specs.declared.phrases.TheConstants.{AND, SEEN_CHANNEL, SEEN_MORE};
ghost use Rattle.router_says.specs.declared.places.TheConstants.{NAME_LIMIT};
ghost use Rattle.route_sweep.specs.NetNames.{name_at};

use crate::phrases::{AND, SEEN_CHANNEL, SEEN_MORE};
use fault_names::append_name;
use fpga_bounds::PlacedProblem;
use fpga_types::{Axis, Cell, PinAt, PinStep, RouteText};
use std::alloc::AllocError;

/// How many nets or pins are named at the most.
pub(crate) const NAME_LIMIT: usize = 10;

/// Appends the nets of slots, the first of them by name.
pub(crate) fn append_nets(
    out: &mut String,
    problem: &PlacedProblem,
    row: &[u32],
) -> Result<(), AllocError>
    ensures { OnOk result (string_bytes out.new
        ≡ string_bytes out.old ++ nets_said problem.now row.now) }
{
    if row.len() <= NAME_LIMIT {
        return append_named(out, problem, row);
    }
    append_named(out, problem, &row[..NAME_LIMIT])?;
    append_more(out, row.len() - NAME_LIMIT)?;
    Ok(())
}

/// Appends how many more there are than were named.
pub(crate) fn append_more(out: &mut String, count: usize) -> Result<(), AllocError>
    ensures { OnOk result (string_bytes out.new
        ≡ string_bytes out.old ++ (AND.now ++ (decimal count ++ SEEN_MORE.now))) }
{
    write!(out, "{AND}{count}{SEEN_MORE}")
}

// Appends the nets of slots, each by name behind a blank.
fn append_named(out: &mut String, problem: &PlacedProblem, row: &[u32]) -> Result<(), AllocError>
    ensures { OnOk result (string_bytes out.new
        ≡ string_bytes out.old ++ flat_map (net_said problem.now) row.now) }
{
    for slot in row {
        append_net(out, problem, *slot)?;
    }
    Ok(())
}

/// Appends the net of a slot behind a blank, by name.
pub(crate) fn append_net(
    out: &mut String,
    problem: &PlacedProblem,
    slot: u32,
) -> Result<(), AllocError>
    ensures { OnOk result
        (string_bytes out.new ≡ string_bytes out.old ++ net_said problem.now slot) }
{
    let Some(slot) = problem.slots().get(slot as usize) else {
        return Ok(());
    };
    out.push_str(" ")?;
    append_name(out, net_name(problem.route(), slot.net))?;
    Ok(())
}

// The name of a net by its position among those of a route; empty where there is none.
fn net_name(route: &RouteText, position: u32) -> &[u8]
    ensures { result.now ≡ name_at route.now position }
{
    let Some(net) = route.nets.as_slice().get(position as usize) else {
        return b"";
    };
    net.name.bytes.as_slice()
}

/// Appends the cell of the first of these slots.
pub(crate) fn append_first_cell(
    out: &mut String,
    problem: &PlacedProblem,
    row: &[u32],
) -> Result<(), AllocError>
    ensures { OnOk result (string_bytes out.new
        ≡ string_bytes out.old ++ first_cell_said problem.now row.now) }
{
    let Some(slot) = row.first() else {
        return Ok(());
    };
    append_cell_of(out, problem, *slot)
}

// Appends the cell of a slot.
fn append_cell_of(out: &mut String, problem: &PlacedProblem, slot: u32) -> Result<(), AllocError>
    ensures { OnOk result (string_bytes out.new
        ≡ string_bytes out.old ++ slot_cell_said problem.now slot) }
{
    let Some(slot) = problem.slots().get(slot as usize) else {
        return Ok(());
    };
    append_cell(out, slot.cell)
}

// Appends a cell behind a blank.
fn append_cell(out: &mut String, cell: Cell) -> Result<(), AllocError>
    ensures { OnOk result (string_bytes out.new ≡ string_bytes out.old ++ cell_said cell) }
{
    append_place(out, axis_said(cell.axis), cell.x, cell.y)
}

// Appends a cell of a channel of this kind behind a blank.
fn append_place(out: &mut String, axis: &str, x: u32, y: u32) -> Result<(), AllocError>
    ensures { OnOk result (string_bytes out.new ≡ string_bytes out.old
        ++ (SEEN_CHANNEL.now ++ (axis.now ++ (codes " (" ++ (decimal x ++ (codes "," ++ (decimal y
        ++ codes ")"))))))) }
{
    write!(out, "{SEEN_CHANNEL}{axis} ({x},{y})")
}

// A kind of channel.
fn axis_said(axis: Axis) -> &'static str
    ensures { result.now ≡ axis_said axis }
{
    match axis {
        Axis::X => "X",
        Axis::Y => "Y",
    }
}

/// Appends the places of the pins of pin steps, the first of them.
pub(crate) fn append_pins(out: &mut String, row: &[PinStep]) -> Result<(), AllocError>
    ensures { OnOk result (string_bytes out.new
        ≡ string_bytes out.old ++ listed (λ step. pin_said step.pin) row.now) }
{
    if row.len() <= NAME_LIMIT {
        return append_places(out, row);
    }
    append_places(out, &row[..NAME_LIMIT])?;
    append_more(out, row.len() - NAME_LIMIT)?;
    Ok(())
}

// Appends the places of the pins of pin steps, each behind a blank.
fn append_places(out: &mut String, row: &[PinStep]) -> Result<(), AllocError>
    ensures { OnOk result (string_bytes out.new
        ≡ string_bytes out.old ++ flat_map (λ step. pin_said step.pin) row.now) }
{
    for step in row {
        append_pin(out, step.pin)?;
    }
    Ok(())
}

// Appends the place of a pin behind a blank.
fn append_pin(out: &mut String, pin: PinAt) -> Result<(), AllocError>
    ensures { OnOk result (string_bytes out.new ≡ string_bytes out.old ++ pin_said pin) }
{
    match pin {
        PinAt::Pad { x, y, .. } => append_spot(out, x, y),
        PinAt::Pin { x, y, .. } => append_spot(out, x, y),
    }
}

// Appends a place behind a blank.
fn append_spot(out: &mut String, x: u32, y: u32) -> Result<(), AllocError>
    ensures { OnOk result (string_bytes out.new ≡ string_bytes out.old ++ place_said x y) }
{
    write!(out, " ({x},{y})")
}
