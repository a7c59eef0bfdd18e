//! The placement of a generated problem.
ghost use Rattle.std.specs.Prelude.{◌≡◌, ◌*◌, ◌<◌, ◌≤◌, ◌++◌, IfOk, OnOk};
ghost use Rattle.fpga_types.specs.declared.limits.TheConstants.{SIDE_LIMIT};
ghost use Rattle.route_gen.specs.Placements as spec;

use crate::location::Location;
use crate::netlist::{push_block_name, push_number};
use std::alloc::{AllocError, Global};

/// Adds the two head lines.
fn push_head(text: &mut Vec<u8>, side: u32) -> Result<(), AllocError>
    ensures { OnOk result (text.new.items ≡ text.old.items ++ spec.placement_head side) }
{
    text.extend_from_slice(b"Netlist file: gen.net Architecture file: gen.arch\nArray size: ")?;
    push_number(text, side)?;
    text.extend_from_slice(b" x ")?;
    push_number(text, side)?;
    text.extend_from_slice(b" logic blocks\n")
}

/// Adds the line of a block.
fn push_place(text: &mut Vec<u8>, side: u32, block: u32) -> Result<(), AllocError>
    requires side { (1 ≤ side) × (side ≤ SIDE_LIMIT) }
    requires block { block < side * side }
    ensures { OnOk result (text.new.items ≡ text.old.items ++ spec.place_line side block) }
{
    let at = Location::of(side, block);
    push_block_name(text, block)?;
    text.extend_from_slice(b" ")?;
    push_number(text, at.column)?;
    text.extend_from_slice(b" ")?;
    push_number(text, at.row)?;
    text.extend_from_slice(b" 0\n")
}

/// The placement of an array of this side, in which each place has its block.
pub fn placement_text(alloc: Global, side: u32) -> Result<Vec<u8>, AllocError>
    requires { (1 ≤ side) × (side ≤ SIDE_LIMIT) }
    ensures { IfOk result (λ text. text.items ≡ spec.generated_placement side) }
{
    let mut text = Vec::new(alloc);
    push_head(&mut text, side)?;
    for block in 0..side * side {
        push_place(&mut text, side, block)?;
    }
    Ok(text)
}
