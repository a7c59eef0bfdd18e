//! Sets of wires.
ghost use Rattle.std.specs.Prelude.{◌≡◌, false, OnOk};
ghost use Rattle.std.specs.Option.{option_map_or};
ghost use Rattle.route_verify.specs.Wires.{GainsWire, GainsWires, is_kept, wire_key};
ghost use Rattle.route_verify.specs.Wiring.{elem_wire};

use crate::wiring::wire_of;
use fpga_types::{Cell, Elem, Wire};
use std::alloc::AllocError;
use std::collections::BTreeSet;

/// A wire, as a set keeps it.
#[derive(Clone, Copy, PartialEq, Eq, PartialOrd, Ord)]
pub struct WireKey {
    pub cell: Cell,
    pub track: u32,
}

/// The key of a wire.
fn wire_key(wire: Wire) -> WireKey
    ensures { result ≡ wire_key wire }
{
    WireKey {
        cell: wire.cell,
        track: wire.track,
    }
}

/// Whether the line is a channel line on a wire of the set.
pub fn is_on(wires: &BTreeSet<WireKey>, line: Elem) -> bool
    ensures { result ≡ option_map_or (is_kept wires.now) (elem_wire line) false }
{
    match wire_of(line) {
        Some(wire) => wires.contains(&wire_key(wire)),
        None => false,
    }
}

/// Puts the line's wire into the set, if it is a channel line.
pub fn add_wire(wires: &mut BTreeSet<WireKey>, line: Elem) -> Result<(), AllocError>
    ensures { OnOk result (GainsWire wires.old line wires.new) }
{
    let Some(wire) = wire_of(line) else {
        return Ok(());
    };
    wires.insert(wire_key(wire))?;
    Ok(())
}

/// Puts the wires of a net into the set.
pub fn add_wires(wires: &mut BTreeSet<WireKey>, lines: &[Elem]) -> Result<(), AllocError>
    ensures { OnOk result (GainsWires wires.old lines.now wires.new) }
{
    for line in lines {
        add_wire(wires, *line)?;
    }
    Ok(())
}
