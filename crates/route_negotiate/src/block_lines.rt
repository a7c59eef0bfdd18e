//! The lines of a global net, which name the blocks that it connects.

use fpga_types::{Arch, BlockKind, Items, Name, Net, Netlist, PinRef, Place, Placement};
use itoa::Buffer;
use std::alloc::{AllocError, Global};

/// What a line says of a pad in place of the class of a pin.
const NO_CLASS: &[u8] = b"-1";

/// For each pin of a global net, the driver's first, the line that names its block.
pub(crate) fn block_lines(
    alloc: Global,
    arch: &Arch,
    netlist: &Netlist,
    placement: &Placement,
    net: &Net,
) -> Result<Vec<Name>, AllocError> {
    let mut lines = Vec::new(alloc);
    add_lines(&mut lines, alloc, arch, netlist, placement, net)?;
    Ok(lines)
}

/// Adds these lines.
fn add_lines(
    lines: &mut Vec<Name>,
    alloc: Global,
    arch: &Arch,
    netlist: &Netlist,
    placement: &Placement,
    net: &Net,
) -> Result<(), AllocError> {
    if let Some(driver) = net.driver {
        lines.push(block_line(alloc, arch, netlist, placement, driver)?)?;
    }
    for sink in net.sinks.as_slice() {
        lines.push(block_line(alloc, arch, netlist, placement, *sink)?)?;
    }
    Ok(())
}

/// The line that names the block of a pin.
fn block_line(
    alloc: Global,
    arch: &Arch,
    netlist: &Netlist,
    placement: &Placement,
    pin: PinRef,
) -> Result<Name, AllocError> {
    let mut line = Vec::new(alloc);
    add_block(&mut line, arch, netlist, placement, pin)?;
    Ok(Name {
        bytes: Items::of(line),
    })
}

/// Adds what the line says.
fn add_block(
    line: &mut Vec<u8>,
    arch: &Arch,
    netlist: &Netlist,
    placement: &Placement,
    pin: PinRef,
) -> Result<(), AllocError> {
    line.extend_from_slice(b"Block ")?;
    let at = pin.block as usize;
    let blocks = netlist.blocks.as_slice();
    let places = placement.places.as_slice();
    if at >= blocks.len() || at >= places.len() {
        return Ok(());
    }
    let block = &blocks[at];
    line.extend_from_slice(block.name.bytes.as_slice())?;
    add_place(line, pin.block, places[at])?;
    add_class(line, arch, block.kind, pin.pin)?;
    line.extend_from_slice(b".")
}

/// Adds the number and the place of a block.
fn add_place(line: &mut Vec<u8>, block: u32, place: Place) -> Result<(), AllocError> {
    add_number(line, b" (#", block)?;
    add_number(line, b") at (", place.x)?;
    add_number(line, b", ", place.y)?;
    line.extend_from_slice(b"), Pin class ")
}

/// Adds a text and a number behind it.
fn add_number(line: &mut Vec<u8>, before: &[u8], number: u32) -> Result<(), AllocError> {
    line.extend_from_slice(before)?;
    let mut buffer = Buffer::new();
    line.extend_from_slice(buffer.format(number).as_bytes())
}

/// Adds the class of a pin.
fn add_class(line: &mut Vec<u8>, arch: &Arch, kind: BlockKind, pin: u32) -> Result<(), AllocError> {
    let specs = arch.pins.as_slice();
    if !matches!(kind, BlockKind::Logic) || pin as usize >= specs.len() {
        return line.extend_from_slice(NO_CLASS);
    }
    add_number(line, b"", specs[pin as usize].class)
}
