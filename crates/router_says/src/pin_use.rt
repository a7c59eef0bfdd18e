//! The nets on the pins of a logic block, by the words of its pinlist.
ghost use Rattle.std.specs.Prelude.{◌≡◌, ◌++◌, [], IfOk, OnOk, find, map, option_map, string_bytes};
ghost use Rattle.std.specs.Option.{option_map_or};
ghost use Rattle.router_says.specs.AtFault as spec;
ghost use Rattle.router_says.specs.AtFault.{first_pair, global_pin_said, is_made_global, is_on_global_pin, ordinary_uses, pair_said, same_class, use_here, use_said};
ghost use Rattle.fpga_text.specs.Said.{has_text};

use crate::phrases::{AND, FAULT_NET, FAULT_PIN, FAULT_PINS};
use fault_names::append_name;
use fpga_text::{Line, Lines, Style, is_text};
use fpga_types::PinSpec;
use std::alloc::{AllocError, Global};

/// A net on a pin: the pin by number, what it is, and the net by name.
#[derive(Clone, Copy)]
pub(crate) struct PinUse<'a> {
    number: usize,
    pin: PinSpec,
    net: &'a [u8],
}

/// The ordinary nets that the words of a pinlist name, on these pins.
pub(crate) fn ordinary_uses<'a>(
    alloc: Global,
    pins: &[PinSpec],
    text: &[u8],
    line: &mut Line<'a>,
) -> Result<Vec<PinUse<'a>>, AllocError>
    ensures { IfOk result (λ uses. map use_said uses.items
        ≡ ordinary_uses text.now 0 pins.now line.old.words) }
{
    let mut uses = Vec::new(alloc);
    for (number, pin) in pins.iter().enumerate() {
        let Some(word) = line.next_word() else {
            return Ok(uses);
        };
        add_use(
            &mut uses,
            text,
            PinUse {
                number,
                pin: *pin,
                net: word.text,
            },
        )?;
    }
    Ok(uses)
}

// Adds a net on a pin, where it is an ordinary one.
fn add_use<'a>(uses: &mut Vec<PinUse<'a>>, text: &[u8], used: PinUse<'a>) -> Result<(), AllocError>
    ensures { OnOk result (map use_said uses.new.items
        ≡ map use_said uses.old.items ++ use_here text.now (use_said used.entry)) }
{
    if is_text(used.net, b"open") {
        return Ok(());
    }
    if is_made_global(text, used.net) {
        return Ok(());
    }
    uses.push(used)?;
    Ok(())
}

// Whether a line of the text makes a net global.
fn is_made_global(text: &[u8], name: &[u8]) -> bool
    ensures { result ≡ is_made_global text.now name.now }
{
    let mut lines = Lines::new(text, Style::Joined);
    while let Some(mut line) = lines.next_line() {
        if makes_global(&mut line, name) {
            return true;
        }
    }
    false
}

// Whether a line, of which no word was taken yet, makes a net global.
fn makes_global(line: &mut Line<'_>, name: &[u8]) -> bool
    ensures { result ≡ spec.makes_global name.now line.old.words }
{
    line.next_is(b".global") && has_text(line, name)
}

// Whether one of the next words of a line is a name.
fn has_text(line: &mut Line<'_>, name: &[u8]) -> bool
    ensures { result ≡ has_text line.old.words name.now }
{
    while let Some(word) = line.next_word() {
        if is_text(word.text, name) {
            return true;
        }
    }
    false
}

/// Appends the first of these nets that is on a pin for global nets, and the pin.
pub(crate) fn append_global_pin(out: &mut String, uses: &[PinUse<'_>]) -> Result<(), AllocError>
    ensures { OnOk result (string_bytes out.new ≡ string_bytes out.old
        ++ option_map_or global_pin_said (find is_on_global_pin (map use_said uses.now)) []) }
{
    for used in uses {
        if used.pin.global {
            return append_pin(out, *used);
        }
    }
    Ok(())
}

fn append_pin(out: &mut String, used: PinUse<'_>) -> Result<(), AllocError>
    ensures { OnOk result
        (string_bytes out.new ≡ string_bytes out.old ++ global_pin_said (use_said used.entry)) }
{
    out.push_str(FAULT_NET)?;
    append_name(out, used.net)?;
    let number = used.number;
    write!(out, "{FAULT_PIN}{number}")
}

/// Appends the first of these nets that is on two pins of a class, and the pins.
pub(crate) fn append_shared_class(out: &mut String, uses: &[PinUse<'_>]) -> Result<(), AllocError>
    ensures { OnOk result (string_bytes out.new ≡ string_bytes out.old
        ++ option_map_or pair_said (first_pair (map use_said uses.now)) []) }
{
    for (i, used) in uses.iter().enumerate() {
        if let Some(other) = shared_with(*used, &uses[i + 1..]) {
            return append_pins(out, *used, other);
        }
    }
    Ok(())
}

// The first of these that is on the net of another, and of its class.
fn shared_with<'a>(used: PinUse<'a>, others: &[PinUse<'a>]) -> Option<PinUse<'a>>
    ensures { option_map use_said result
        ≡ find (same_class (use_said used.entry)) (map use_said others.now) }
{
    for other in others {
        if used.pin.class == other.pin.class && is_text(used.net, other.net) {
            return Some(*other);
        }
    }
    None
}

fn append_pins(out: &mut String, first: PinUse<'_>, second: PinUse<'_>) -> Result<(), AllocError>
    ensures { OnOk result (string_bytes out.new ≡ string_bytes out.old
        ++ pair_said (use_said first.entry, use_said second.entry)) }
{
    out.push_str(FAULT_NET)?;
    append_name(out, first.net)?;
    let one = first.number;
    let other = second.number;
    write!(out, "{FAULT_PINS}{one}{AND}{other}")
}
