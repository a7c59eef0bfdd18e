//! A placed netlist, lent, and the cells that the terminals of its nets touch.
ghost use Rattle.std.specs.Prelude.{◌≡◌, IfOk, Option, option_map, slice_get};
ghost use Rattle.fpga_types.specs.Terminals.{terminal_at, terminal_in};
ghost use Rattle.route_bound.specs.Placed.{placed_netlist};
ghost use Rattle.route_bound.specs.Reaches.{reach_of};

use crate::reach::{Reach, pad_sides, sides_by_pin};
use fpga_types::{Arch, BlockKind, Net, Netlist, PinRef, Place, Placement, SideSet};
use std::alloc::{AllocError, Global};
use std::marker::Model;

/// An architecture, a netlist and its placement, and for each pin of a logic block the sides that
/// its class has pins on which take ordinary nets. Contracts see the three values.
#[derive(Drop)]
pub(crate) struct PlacedNets<'a> {
    pub arch: &'a Arch,
    pub netlist: &'a Netlist,
    pub placement: &'a Placement,
    sides: Vec<SideSet>,
}

impl<'a> Model for PlacedNets<'a> {
    ghost use Rattle.std.specs.Prelude.{◌≡◌, map};
    ghost use Rattle.fpga_types.specs.Problem.{PlacedNetlist};
    ghost use Rattle.fpga_types.specs.declared.arch.PinSpec.{PinSpec};
    ghost use Rattle.route_bound.specs.Placed.{placed_netlist};
    ghost use Rattle.route_bound.specs.Reaches.{class_sides};

    ghost Value = { PlacedNetlist };

    ghost view = { λ p. placed_netlist p.arch.now p.netlist.now p.placement.now };

    ghost invariant = { λ p. p.sides.items
        ≡ map (λ (spec : PinSpec). class_sides p.arch.now.pins spec.class) p.arch.now.pins };
}

impl<'a> PlacedNets<'a> {
    /// These three values.
    ///
    /// # Errors
    /// Where memory is short.
    pub fn of(
        alloc: Global,
        arch: &'a Arch,
        netlist: &'a Netlist,
        placement: &'a Placement,
    ) -> Result<PlacedNets<'a>, AllocError>
        ensures { IfOk result (λ p. p ≡ placed_netlist arch.now netlist.now placement.now) }
    {
        let sides = sides_by_pin(alloc, arch.pins.as_slice())?;
        Ok(PlacedNets {
            arch,
            netlist,
            placement,
            sides,
        })
    }

    /// The cells that the driver of a net touches; None of a global net, and where it has none.
    pub fn driver_reach(&self, net: &Net) -> Option<Reach> {
        if net.global {
            return None;
        }
        let pin = net.driver?;
        self.reach(pin)
    }

    /// The cells that the terminal of a pin touches; None where block or pin are not there.
    pub fn reach(&self, pin: PinRef) -> Option<Reach>
        ensures { result ≡ option_map (reach_of self.now.arch self.now.placement.grid)
            (terminal_in self.now pin) }
    {
        let block = self.netlist.blocks.as_slice().get(pin.block as usize)?;
        let place = self.placement.places.as_slice().get(pin.block as usize)?;
        self.reach_at(block.kind, pin.pin, *place)
    }

    /// The cells that the terminal of a pin of a block of this kind touches which stands there.
    fn reach_at(&self, kind: BlockKind, pin: u32, place: Place) -> Option<Reach>
        ensures { result ≡ option_map (reach_of self.now.arch self.now.placement.grid)
            (terminal_at self.now.arch kind pin place) }
    {
        let Place { x, y, .. } = place;
        let grid = self.placement.grid;
        let sides = match kind {
            BlockKind::Logic => *self.sides.get(pin as usize)?,
            BlockKind::Input | BlockKind::Output => pad_sides(grid, x, y),
        };
        Some(Reach::along(grid, x, y, sides))
    }
}
