//! The blocks at which nets end, by where they stand.
ghost use Rattle.std.specs.Prelude.{◌≡◌, length, zip, List, OnOk, IfOk};
ghost use Rattle.std.specs.List.{list_any};
ghost use Rattle.fpga_bounds.specs.Inputs.{GainsInput, HasInputs};
ghost use Rattle.fpga_bounds.specs.Inputs as spec;
ghost use Rattle.fpga_types.specs.Terminals.{is_input_of, is_ordinary_input as ordinary_input};
ghost use Rattle.fpga_types.specs.declared.netlist.Block.{Block};
ghost use Rattle.fpga_types.specs.declared.placement.Place.{Place};

use fpga_types::{Arch, Block, BlockKind, Elem, Label, Place, Spot};
use std::alloc::{AllocError, Global};
use std::collections::BTreeSet;

/// The spots of the blocks at which nets may end.
pub(crate) fn input_spots(
    alloc: Global,
    blocks: &[Block],
    places: &[Place],
) -> Result<BTreeSet<Spot>, AllocError>
    requires { length places.now ≡ length blocks.now }
    ensures { IfOk result (λ spots. HasInputs spots (zip blocks.now places.now)) }
{
    let mut spots = BTreeSet::new(alloc);
    for i in 0..blocks.len() {
        add_input(&mut spots, &blocks[i], places[i])?;
    }
    Ok(spots)
}

/// Puts the block's spot into the set, if nets may end there.
fn add_input(spots: &mut BTreeSet<Spot>, block: &Block, place: Place) -> Result<(), AllocError>
    ensures { OnOk result (GainsInput spots.old (block.now, place) spots.new) }
{
    if !ends_nets(block.kind) {
        return Ok(());
    }
    spots.insert(place.spot(block.kind))?;
    Ok(())
}

/// Whether nets may end at a block of this kind.
fn ends_nets(kind: BlockKind) -> bool
    ensures { result ≡ spec.ends_nets kind }
{
    matches!(kind, BlockKind::Logic | BlockKind::Output)
}

/// Whether the pin line is at an input pin of one of the placed blocks that takes ordinary nets, or
/// at an output pad.
pub(crate) fn is_at_input(arch: &Arch, spots: &BTreeSet<Spot>, e: Elem) -> bool
    ensures { (placed : List (Block × Place)) → HasInputs spots.now placed
        → result ≡ list_any (is_input_of arch.now e) placed }
{
    let Some(spot) = input_spot(arch, e) else {
        return false;
    };
    spots.contains(&spot)
}

/// The spot of the block at which a pin line ends its net, if its label and its number are those of
/// an input.
fn input_spot(arch: &Arch, e: Elem) -> Option<Spot>
    ensures { result ≡ spec.input_spot arch.now e.x e.y e.label e.number }
{
    let Elem { x, y, number, .. } = e;
    match e.label {
        Label::Pin => {
            if !is_ordinary_input(arch, number) {
                return None;
            }
            Some(Spot::Block { x, y })
        }
        Label::Pad => Some(Spot::Pad { x, y, sub: number }),
        Label::Class | Label::Track => None,
    }
}

/// Whether the pin is an input, and takes ordinary nets.
fn is_ordinary_input(arch: &Arch, pin: u32) -> bool
    ensures { result ≡ ordinary_input arch.now pin }
{
    match arch.pins.as_slice().get(pin as usize) {
        Some(spec) => !spec.output && !spec.global,
        None => false,
    }
}
