//! What joins the wires of a net to each other and to its pins.
use crate::lanes::Lanes;
use crate::path::{append_dot, append_line};
use crate::pins::{Strand, pin_point, switch_point};
use crate::scale::{CHANNEL, Point, channel_start};
use fpga_fabric::meet;
use fpga_types::{Arch, Cell, Elem, Grid, PinAt, Side, SwitchAt};
use std::alloc::{AllocError, Global};

/// What is drawn of a net behind its wires: their joints and the ways to the pins, the switches,
/// and the pin that drives it.
pub(crate) fn rest_drawn(
    alloc: Global,
    arch: &Arch,
    grid: Grid,
    lanes: &Lanes,
    elems: &[Elem],
) -> Result<String, AllocError> {
    let later = elems.get(1..).unwrap_or(&[]);
    let mut out = String::new(alloc);
    append_joints(&mut out, grid, lanes, elems, later)?;
    append_ways(&mut out, arch, lanes, elems, later)?;
    out.push_str("\"/><path class=\"d\" d=\"")?;
    append_switches(&mut out, arch, lanes, elems, later)?;
    out.push_str("\"/><path class=\"p\" d=\"")?;
    append_driver(&mut out, arch, lanes, elems, later)?;
    out.push_str("\"/>")?;
    Ok(out)
}

// The wire of a channel line.
fn strand(lanes: &Lanes, elem: Elem) -> Option<Strand> {
    let cell = elem.cell()?;
    let across = lanes.across(cell, elem.number);
    Some(Strand { cell, across })
}

// A pin and a wire whose lines stand next to each other.
fn pin_and_wire(lanes: &Lanes, from: Elem, to: Elem) -> Option<(PinAt, Strand)> {
    if let Some(pin) = from.pin() {
        let wire = strand(lanes, to)?;
        return Some((pin, wire));
    }
    let pin = to.pin()?;
    let wire = strand(lanes, from)?;
    Some((pin, wire))
}

// The joints of wires whose lines stand next to each other.
fn append_joints(
    out: &mut String,
    grid: Grid,
    lanes: &Lanes,
    elems: &[Elem],
    later: &[Elem],
) -> Result<(), AllocError> {
    for (from, to) in elems.iter().zip(later) {
        append_joint(out, grid, strand(lanes, *from), strand(lanes, *to))?;
    }
    Ok(())
}

// The joint of two wires, across the switch block where their cells meet.
fn append_joint(
    out: &mut String,
    grid: Grid,
    from: Option<Strand>,
    to: Option<Strand>,
) -> Result<(), AllocError> {
    let (Some(from), Some(to)) = (from, to) else {
        return Ok(());
    };
    let Some((at, from_side, to_side)) = meeting(grid, from.cell, to.cell) else {
        return Ok(());
    };
    append_line(
        out,
        end_at(at, from_side, from.across),
        end_at(at, to_side, to.across),
    )
}

// Where two cells meet, if they are cells of the array that do.
fn meeting(grid: Grid, a: Cell, b: Cell) -> Option<(SwitchAt, Side, Side)> {
    if !grid.has_cell(a) {
        return None;
    }
    if !grid.has_cell(b) {
        return None;
    }
    meet(grid, a, b)
}

// Where a wire ends on a side of a switch block.
fn end_at(at: SwitchAt, side: Side, across: u64) -> Point {
    let corner = Point {
        x: channel_start(at.i),
        y: channel_start(at.j),
    };
    match side {
        Side::Left => corner.moved(0, across),
        Side::Right => corner.moved(CHANNEL, across),
        Side::Bottom => corner.moved(across, 0),
        Side::Top => corner.moved(across, CHANNEL),
    }
}

// The ways from the pins to their wires.
fn append_ways(
    out: &mut String,
    arch: &Arch,
    lanes: &Lanes,
    elems: &[Elem],
    later: &[Elem],
) -> Result<(), AllocError> {
    for (from, to) in elems.iter().zip(later) {
        if let Some((pin, wire)) = pin_and_wire(lanes, *from, *to) {
            let start = pin_point(arch, pin, wire.cell);
            append_line(out, start, switch_point(arch, pin, wire))?;
        }
    }
    Ok(())
}

// The switches between the pins and their wires.
fn append_switches(
    out: &mut String,
    arch: &Arch,
    lanes: &Lanes,
    elems: &[Elem],
    later: &[Elem],
) -> Result<(), AllocError> {
    for (from, to) in elems.iter().zip(later) {
        if let Some((pin, wire)) = pin_and_wire(lanes, *from, *to) {
            append_dot(out, switch_point(arch, pin, wire))?;
        }
    }
    Ok(())
}

// The pin that drives the net: the first that stands next to a wire.
fn append_driver(
    out: &mut String,
    arch: &Arch,
    lanes: &Lanes,
    elems: &[Elem],
    later: &[Elem],
) -> Result<(), AllocError> {
    for (from, to) in elems.iter().zip(later) {
        if let Some((pin, wire)) = pin_and_wire(lanes, *from, *to) {
            return append_dot(out, pin_point(arch, pin, wire.cell));
        }
    }
    Ok(())
}
