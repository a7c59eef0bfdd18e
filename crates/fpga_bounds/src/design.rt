//! The four values of a routing problem, lent, and where their nets begin and end.
ghost use Rattle.std.specs.Prelude.{◌≡◌, length, IfOk};
ghost use Rattle.fpga_types.specs.Problem.{problem_of};
ghost use Rattle.fpga_types.specs.Terminals.{is_input as input, terminal_at as placed_terminal, terminal_of as pin_terminal};

use crate::inputs::{input_spots, is_at_input};
use fpga_types::{
    Arch, BlockKind, Elem, Label, Netlist, PinRef, Place, Placement, RouteText, Spot, Terminal,
};
use std::alloc::{AllocError, Global};
use std::collections::BTreeSet;
use std::marker::Model;

/// The four values, and the spots of the blocks at which nets may end. Contracts see the values.
#[derive(Drop)]
pub struct Design<'a> {
    pub arch: &'a Arch,
    pub netlist: &'a Netlist,
    pub placement: &'a Placement,
    pub route: &'a RouteText,
    inputs: BTreeSet<Spot>,
}

impl<'a> Model for Design<'a> {
    ghost use Rattle.fpga_bounds.specs.Inputs.{HasInputs};
    ghost use Rattle.fpga_types.specs.Problem.{RoutingProblem, problem_of};
    ghost use Rattle.fpga_types.specs.Terminals.{placed_blocks};

    ghost Value = { RoutingProblem };

    ghost view = { λ d. problem_of d.arch.now d.netlist.now d.placement.now d.route.now };

    ghost invariant = { λ d. HasInputs d.inputs (placed_blocks
        (problem_of d.arch.now d.netlist.now d.placement.now d.route.now)) };
}

impl<'a> Design<'a> {
    /// These four values; each block has its place.
    ///
    /// # Errors
    /// Where memory is short.
    pub fn of(
        alloc: Global,
        arch: &'a Arch,
        netlist: &'a Netlist,
        placement: &'a Placement,
        route: &'a RouteText,
    ) -> Result<Design<'a>, AllocError>
        requires { length placement.now.places ≡ length netlist.now.blocks }
        ensures { IfOk result (λ design. design
            ≡ problem_of arch.now netlist.now placement.now route.now) }
    {
        let inputs = input_spots(
            alloc,
            netlist.blocks.as_slice(),
            placement.places.as_slice(),
        )?;
        Ok(Design {
            arch,
            netlist,
            placement,
            route,
            inputs,
        })
    }

    /// Whether the pin line is at an input pin of a placed logic block that takes ordinary nets, or
    /// at a placed output pad.
    pub fn is_input(&self, e: Elem) -> bool
        ensures { result ≡ input self.now e }
    {
        is_at_input(self.arch, &self.inputs, e)
    }

    /// Where a net begins or ends by this pin; None where block or pin are not there.
    pub(crate) fn terminal_of(&self, pin: PinRef) -> Option<Terminal>
        ensures { result ≡ pin_terminal self.now pin }
    {
        let block = self.netlist.blocks.as_slice().get(pin.block as usize)?;
        let place = self.placement.places.as_slice().get(pin.block as usize)?;
        terminal_at(self.arch, block.kind, pin.pin, *place)
    }
}

/// The terminal of a pin of a block of this kind that stands there: the pin's class, or the pad.
fn terminal_at(arch: &Arch, kind: BlockKind, pin: u32, place: Place) -> Option<Terminal>
    ensures { result ≡ placed_terminal arch.now kind pin place }
{
    let Place { x, y, sub } = place;
    let (label, number) = match kind {
        BlockKind::Logic => {
            let spec = arch.pins.as_slice().get(pin as usize)?;
            (Label::Class, spec.class)
        }
        BlockKind::Input | BlockKind::Output => (Label::Pad, sub),
    };
    Some(Terminal {
        x,
        y,
        label,
        number,
    })
}
