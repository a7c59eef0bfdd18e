//! A placed netlist, lent, and the terminals of its nets.
ghost use Rattle.std.specs.Prelude.{◌≡◌};
ghost use Rattle.fpga_types.specs.Terminals.{driver_in, terminal_at as placed_terminal, terminal_in};
ghost use Rattle.route_parts.specs.Marks.{placed_of};

use fpga_types::{Arch, BlockKind, Label, Net, Netlist, PinRef, Place, Placement, Terminal};

/// An architecture, a netlist and its placement.
#[derive(Drop)]
pub(crate) struct PlacedNets<'a> {
    pub arch: &'a Arch,
    pub netlist: &'a Netlist,
    pub placement: &'a Placement,
}

impl<'a> PlacedNets<'a> {
    /// The terminal that drives a net; None where there is none.
    pub fn driver(&self, net: &Net) -> Option<Terminal>
        ensures { result ≡ driver_in (placed_of self.now) net.now }
    {
        self.terminal(net.driver?)
    }

    /// The terminal of a pin; None where block or pin are not there.
    pub fn terminal(&self, pin: PinRef) -> Option<Terminal>
        ensures { result ≡ terminal_in (placed_of self.now) pin }
    {
        let block = self.netlist.blocks.as_slice().get(pin.block as usize)?;
        let place = self.placement.places.as_slice().get(pin.block as usize)?;
        terminal_at(self.arch, block.kind, pin.pin, *place)
    }
}

/// The terminal of a pin of a block of this kind that stands there: the pin's class, or the pad.
fn terminal_at(arch: &Arch, kind: BlockKind, pin: u32, place: Place) -> Option<Terminal>
    ensures { result ≡ placed_terminal arch.now kind pin place }
{
    let Place { x, y, sub } = place;
    let (label, number) = match kind {
        BlockKind::Logic => {
            let spec = arch.pins.as_slice().get(pin as usize)?;
            (Label::Class, spec.class)
        }
        BlockKind::Input | BlockKind::Output => (Label::Pad, sub),
    };
    Some(Terminal {
        x,
        y,
        label,
        number,
    })
}
