//! A placed netlist, lent, and the terminals of its nets.
ghost use Rattle.std.specs.Prelude.{◌≡◌};
ghost use Rattle.fpga_types.specs.Terminals.{terminal_at as placed_terminal, terminal_in};
ghost use Rattle.cell_clauses.specs.Held.{placed_of};

use fpga_types::{Arch, BlockKind, Label, Netlist, PinRef, Place, Placement, Terminal};

/// An architecture, a netlist and its placement.
#[derive(Drop)]
pub(crate) struct Placed<'a> {
    pub arch: &'a Arch,
    pub netlist: &'a Netlist,
    pub placement: &'a Placement,
}

impl<'a> Placed<'a> {
    /// The terminal of a pin; None where block or pin are not there.
    pub fn terminal(&self, pin: PinRef) -> Option<Terminal>
        ensures { result ≡ terminal_in (placed_of self.now) pin }
    {
        let block = self.netlist.blocks.as_slice().get(pin.block as usize)?;
        let place = self.placement.places.as_slice().get(pin.block as usize)?;
        terminal_at(self.arch, block.kind, pin.pin, *place)
    }
}

/// The terminal of a pin of a block of this kind that stands there: the pin's class, or the pad.
fn terminal_at(arch: &Arch, kind: BlockKind, pin: u32, place: Place) -> Option<Terminal>
    ensures { result ≡ placed_terminal arch.now kind pin place }
{
    let Place { x, y, sub } = place;
    let (label, number) = match kind {
        BlockKind::Logic => {
            let spec = arch.pins.as_slice().get(pin as usize)?;
            (Label::Class, spec.class)
        }
        BlockKind::Input | BlockKind::Output => (Label::Pad, sub),
    };
    Some(Terminal {
        x,
        y,
        label,
        number,
    })
}
