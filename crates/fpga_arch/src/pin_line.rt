//! What a pin line says.
ghost use Rattle.std.specs.Prelude.{◌≡◌, ◌≤◌, true, false, length, IfOk, IfErr, IfSome, IfNone};
ghost use Rattle.std.specs.List.{list_any};
ghost use Rattle.fpga_text.specs.FirstFault.{IsFaultOf};
ghost use Rattle.fpga_types.specs.ArchSound.{has_side as has_side_of};
ghost use Rattle.fpga_arch.specs.PinLines.{IsNextPin, pin_fault};
ghost use Rattle.fpga_arch.specs.Pins.{
  is_global,
  is_opposed,
  lacks_sides,
  side_set,
  side_words,
  with_sides,
};

use crate::cause::Cause;
use crate::words::side_of;
use fpga_text::{Coded, Line, TextFault};
use fpga_types::{CLASS_LIMIT, PIN_LIMIT, PinSpec, SideSet};

/// What stands behind the class of a pin.
#[derive(Clone, Copy)]
struct PinRest {
    /// Whether the pin takes global nets alone.
    global: bool,
    /// Its sides, unless there is none or another word among them.
    sides: Option<SideSet>,
}

/// The pin that the words behind the keyword say, or what is wrong with them behind these pins.
pub fn read_pin(pins: &[PinSpec], output: bool, line: &mut Line<'_>) -> Result<PinSpec, TextFault>
    requires { length pins.now ≤ PIN_LIMIT }
    ensures ok { IfOk result (IsNextPin pins.now output line.old.words) }
    ensures err { IfErr result
        (IsFaultOf (pin_fault pins.now output line.old.number line.old.words)) }
{
    let number = line.number();
    let has_class = line.next_is(b"class:");
    let class = line.next_whole();
    if !has_class {
        return Err(Cause::PinForm.at(number));
    }
    let Some(class) = class else {
        return Err(Cause::NoNumber.at(number));
    };
    let rest = read_rest(line);
    let Some(sides) = rest.sides else {
        return Err(Cause::PinForm.at(number));
    };
    if opposes(pins, class, output) {
        return Err(Cause::MixedClass.at(number));
    }
    if pins.len() == PIN_LIMIT {
        return Err(Cause::PastLimit.past(PIN_LIMIT as u64 + 1));
    }
    if class > u64::from(CLASS_LIMIT) {
        return Err(Cause::PastLimit.past(class));
    }
    Ok(PinSpec {
        class: class as u32,
        output,
        global: rest.global,
        sides,
    })
}

/// Whether one of the pins has this class and another direction.
fn opposes(pins: &[PinSpec], class: u64, output: bool) -> bool
    ensures { result ≡ list_any (is_opposed class output) pins.now }
{
    pins.iter().any(|pin| u64::from(pin.class) == class && pin.output != output)
}

/// The words of a line behind its class.
fn read_rest(line: &mut Line<'_>) -> PinRest
    ensures global { result.global ≡ is_global line.old.words }
    ensures some { IfSome result.sides (λ sides. sides ≡ side_set (side_words line.old.words)) }
    ensures clean { IfSome result.sides (λ _. lacks_sides (side_words line.old.words) ≡ false) }
    ensures sided { IfSome result.sides (λ sides. has_side_of sides ≡ true) }
    ensures none { IfNone result.sides (lacks_sides (side_words line.old.words) ≡ true) }
{
    let mut behind = line.again();
    if behind.next_is(b"global") {
        return PinRest {
            global: true,
            sides: read_sides(&mut behind),
        };
    }
    PinRest {
        global: false,
        sides: read_sides(line),
    }
}

/// The sides that the words of a line name, unless there is none or another word among them.
fn read_sides(line: &mut Line<'_>) -> Option<SideSet>
    ensures some { IfSome result (λ sides. sides ≡ side_set line.old.words) }
    ensures clean { IfSome result (λ _. lacks_sides line.old.words ≡ false) }
    ensures sided { IfSome result (λ sides. has_side_of sides ≡ true) }
    ensures none { IfNone result (lacks_sides line.old.words ≡ true) }
{
    let Some(first) = line.next_word() else {
        return None;
    };
    let mut sides = side_of(first);
    if !has_side(sides) {
        return None;
    }
    while let Some(word) = line.next_word() {
        let side = side_of(word);
        if !has_side(side) {
            return None;
        }
        sides = with_sides(sides, side);
    }
    Some(sides)
}

/// Whether there is a side.
fn has_side(sides: SideSet) -> bool
    ensures { result ≡ has_side_of sides }
{
    sides.left || sides.right || sides.bottom || sides.top
}

/// The sides of both.
fn with_sides(a: SideSet, b: SideSet) -> SideSet
    ensures { result ≡ with_sides a b }
{
    SideSet {
        left: a.left || b.left,
        right: a.right || b.right,
        bottom: a.bottom || b.bottom,
        top: a.top || b.top,
    }
}
