//! Nets on the pins of a block.
ghost use Rattle.std.specs.Prelude.{◌≡◌, ◌&&◌, List, ℕ, map, IfOk, length};
ghost use Rattle.std.specs.Borrow.{Bor};
ghost use Rattle.std.specs.List.{list_any};
ghost use Rattle.fpga_text.specs.Said.{has_text};
ghost use Rattle.fpga_net.specs.Codes as spec;
ghost use Rattle.fpga_net.specs.Codes.{has_pair, share_class};
ghost use Rattle.fpga_net.specs.NetUses.{use_said};
ghost use Rattle.fpga_net.specs.Uses as pinlist;
ghost use Rattle.fpga_net.specs.Uses.{uses_on};

use crate::names::NameTable;
use fpga_text::is_text;
use fpga_types::{Arch, BlockKind, PinRef, PinSpec, SideSet};
use std::alloc::{AllocError, Global};

/// A net on a pin of a block: the block and the pin by number, what the pin is, and the net by
/// name.
#[derive(Clone, Copy)]
pub struct NetUse<'a> {
    pub at: PinRef,
    pub pin: PinSpec,
    pub net: &'a [u8],
}

const NO_SIDES: SideSet = SideSet {
    left: false,
    right: false,
    bottom: false,
    top: false,
};

/// The pin of an input pad.
static INPUT_PINS: [PinSpec; 1] = [PinSpec {
    class: 0,
    output: true,
    global: false,
    sides: NO_SIDES,
}];

/// The pin of an output pad.
static OUTPUT_PINS: [PinSpec; 1] = [PinSpec {
    class: 0,
    output: false,
    global: false,
    sides: NO_SIDES,
}];

/// The pins of a block of this kind.
pub fn pins_of<'a>(arch: &'a Arch, kind: BlockKind) -> &'a [PinSpec]
    ensures { result.now ≡ pinlist.pins_of arch.now kind }
{
    match kind {
        BlockKind::Input => &INPUT_PINS,
        BlockKind::Output => &OUTPUT_PINS,
        BlockKind::Logic => arch.pins.as_slice(),
    }
}

/// Whether a word of a pinlist means no net.
pub fn is_open(word: &[u8]) -> bool
    ensures { result ≡ pinlist.is_open word.now }
{
    is_text(word, b"open")
}

/// The nets that these words name on these pins of the block with this number.
pub fn net_uses<'a>(
    alloc: Global,
    block: u32,
    pins: &[PinSpec],
    words: &[&'a [u8]],
) -> Result<Vec<NetUse<'a>>, AllocError>
    requires { length words.now ≡ length pins.now }
    ensures { IfOk result (λ uses. map use_said uses.items
        ≡ uses_on block pins.now (map (λ word. word.now) words.now)) }
{
    let mut uses = Vec::with_capacity(alloc, words.len())?;
    for (i, net) in words.iter().enumerate() {
        let pin = pins[i];
        if is_open(net) {
            continue;
        }
        // A block with more pins than that has no numbers for them: its pinlist asks for more
        // memory than there is.
        let Ok(number) = u32::try_from(i) else {
            return Err(AllocError);
        };
        let at = PinRef { block, pin: number };
        uses.push(NetUse { at, pin, net })?;
    }
    Ok(uses)
}

/// Whether one of these pins is for global nets, and its net is ordinary.
pub fn takes_ordinary<'a>(uses: &[NetUse<'a>], globals: &NameTable<'a>) -> bool
    ensures { result ≡ spec.takes_ordinary (has_text globals.now) (map use_said uses.now) }
{
    for used in uses {
        if used.pin.global && !globals.contains(used.net) {
            return true;
        }
    }
    false
}

/// Whether two of these pins are of one class and on one net, which is ordinary.
pub fn shares_class<'a>(uses: &[NetUse<'a>], globals: &NameTable<'a>) -> bool
    ensures { result ≡ has_pair (share_class (has_text globals.now)) (map use_said uses.now) }
{
    for (i, first) in uses.iter().enumerate() {
        if shares_with(first, &uses[i + 1..], globals) {
            return true;
        }
    }
    false
}

/// Whether one of the other pins is of the class of this one and on its net, which is ordinary.
fn shares_with<'a>(first: &NetUse<'a>, others: &[NetUse<'a>], globals: &NameTable<'a>) -> bool
    ensures { result ≡ list_any (share_class (has_text globals.now) (use_said first.now))
        (map use_said others.now) }
{
    for other in others {
        if first.pin.class == other.pin.class
            && is_text(first.net, other.net)
            && !globals.contains(first.net)
        {
            return true;
        }
    }
    false
}
