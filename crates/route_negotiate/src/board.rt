//! The wires, pins and nets of a placed netlist at a width.
ghost use Rattle.std.specs.Prelude.{◌≡◌, ◌≤◌, IfOk};
ghost use Rattle.fpga_types.specs.declared.limits.TheConstants.{WIDTH_LIMIT};

use crate::fabric::Fabric;
use crate::nets::Nets;
use crate::pins::Pins;
use crate::sites::pin_at;
use fpga_types::{Arch, Netlist, PinAt, Placement};
use std::alloc::{AllocError, Global};

/// The wires, pins and nets of a placed netlist at a width.
#[derive(Drop)]
pub(crate) struct Board<'a> {
    pub arch: &'a Arch,
    pub netlist: &'a Netlist,
    pub placement: &'a Placement,
    pub fabric: Fabric,
    pub pins: Pins,
    pub nets: Nets,
}

impl<'a> Board<'a> {
    /// The wires, pins and nets of a placed netlist in channels of so many tracks.
    pub(crate) fn new(
        alloc: Global,
        arch: &'a Arch,
        netlist: &'a Netlist,
        placement: &'a Placement,
        width: u32,
    ) -> Result<Board<'a>, AllocError>
        requires { (1 ≤ width) × (width ≤ WIDTH_LIMIT) }
        ensures netlist { IfOk result (λ board. board.netlist.now ≡ netlist.now) }
        ensures placement { IfOk result (λ board. board.placement.now ≡ placement.now) }
    {
        let fabric = Fabric::new(alloc, arch, placement.grid, width)?;
        let pins = Pins::new(alloc, arch, netlist, placement, fabric.cells())?;
        let nets = Nets::new(alloc, arch, netlist, placement, &pins, width)?;
        Ok(Board {
            arch,
            netlist,
            placement,
            fabric,
            pins,
            nets,
        })
    }

    /// The pin with this number.
    pub(crate) fn pin_at(&self, number: u32) -> Option<PinAt> {
        let block = self.pins.block_of(number) as usize;
        let blocks = self.netlist.blocks.as_slice();
        let places = self.placement.places.as_slice();
        if block >= blocks.len() || block >= places.len() {
            return None;
        }
        let pin = self.pins.pin_in_block(number);
        pin_at(self.arch, blocks[block].kind, places[block], pin)
    }
}
