//! Sets of the pins of some nets.
ghost use Rattle.std.specs.Prelude.{◌≡◌, OnOk};
ghost use Rattle.fpga_bounds.specs.Keys as spec;
ghost use Rattle.fpga_bounds.specs.Keys.{GainsPin, GainsPins};
ghost use Rattle.route_verify.specs.Pins as own;

use fpga_bounds::{ElemKey, has_elem, see};
use fpga_types::{Elem, ElemKind};
use std::alloc::AllocError;
use std::collections::BTreeSet;

/// Whether the line is a pin line, at a pin of the set.
pub(crate) fn has_pin(pins: &BTreeSet<ElemKey>, line: Elem) -> bool
    ensures { result ≡ spec.has_pin pins.now line }
{
    line.kind.is_pin() && has_elem(pins, as_ipin(line))
}

/// Puts the pins among these lines of a net into the set.
pub(crate) fn take_pins(pins: &mut BTreeSet<ElemKey>, lines: &[Elem]) -> Result<(), AllocError>
    ensures { OnOk result (GainsPins pins.old lines.now pins.new) }
{
    for line in lines {
        take_pin(pins, *line)?;
    }
    Ok(())
}

/// Puts the line's pin into the set, if it is a pin line.
fn take_pin(pins: &mut BTreeSet<ElemKey>, line: Elem) -> Result<(), AllocError>
    ensures { OnOk result (GainsPin pins.old line pins.new) }
{
    if !line.kind.is_pin() {
        return Ok(());
    }
    see(pins, as_ipin(line))?;
    Ok(())
}

/// The IPIN line at the pin of a line.
fn as_ipin(line: Elem) -> Elem
    ensures { result ≡ own.as_ipin line }
{
    Elem {
        kind: ElemKind::Ipin,
        ..line
    }
}
