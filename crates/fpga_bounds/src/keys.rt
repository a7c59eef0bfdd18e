//! Sets of elements and of pins.
ghost use Rattle.std.specs.Prelude.{◌≡◌, IfOk, OnOk};
ghost use Rattle.fpga_bounds.specs.Keys as spec;
ghost use Rattle.fpga_bounds.specs.Keys.{GainsElem, GainsPin, GainsPins};

use fpga_types::{Elem, ElemKind, Label};
use std::alloc::AllocError;
use std::collections::BTreeSet;

/// What two equal elements, or two elements at one pin, have in common.
#[derive(Clone, Copy, PartialEq, Eq, PartialOrd, Ord)]
pub struct ElemKey {
    pub kind: ElemKind,
    pub x: u32,
    pub y: u32,
    pub label: Label,
    pub number: u32,
}

/// The key by which equal elements are one.
fn elem_key(e: Elem) -> ElemKey
    ensures { result ≡ spec.elem_key e }
{
    ElemKey {
        kind: e.kind,
        x: e.x,
        y: e.y,
        label: e.label,
        number: if e.kind.is_channel() { 0 } else { e.number },
    }
}

/// The key by which elements at one pin are one.
fn pin_key(e: Elem) -> ElemKey
    ensures { result ≡ spec.pin_key e }
{
    ElemKey {
        kind: ElemKind::Ipin,
        x: e.x,
        y: e.y,
        label: e.label,
        number: e.number,
    }
}

/// Whether the set has an element that equals this one.
pub fn has_elem(seen: &BTreeSet<ElemKey>, e: Elem) -> bool
    ensures { result ≡ spec.has_elem seen.now e }
{
    seen.contains(&elem_key(e))
}

/// Puts an element into the set.
///
/// # Errors
/// Where memory is short.
pub fn see(seen: &mut BTreeSet<ElemKey>, e: Elem) -> Result<(), AllocError>
    ensures { OnOk result (GainsElem seen.old e seen.new) }
{
    seen.insert(elem_key(e))?;
    Ok(())
}

/// Puts an element into the set, and says whether the set had one that equals it.
///
/// # Errors
/// Where memory is short.
pub(crate) fn see_again(seen: &mut BTreeSet<ElemKey>, e: Elem) -> Result<bool, AllocError>
    ensures again { IfOk result (λ again. again ≡ spec.has_elem seen.old e) }
    ensures gains { OnOk result (GainsElem seen.old e seen.new) }
{
    let is_new = seen.insert(elem_key(e))?;
    Ok(!is_new)
}

/// Whether the element is a pin that the set has, as one that drives a net or as one that ends it.
pub(crate) fn has_pin(pins: &BTreeSet<ElemKey>, e: Elem) -> bool
    ensures { result ≡ spec.has_pin pins.now e }
{
    e.kind.is_pin() && pins.contains(&pin_key(e))
}

/// Puts the pins among these elements of a net into the set.
///
/// # Errors
/// Where memory is short.
pub(crate) fn take_pins(pins: &mut BTreeSet<ElemKey>, elems: &[Elem]) -> Result<(), AllocError>
    ensures { OnOk result (GainsPins pins.old elems.now pins.new) }
{
    for e in elems {
        take_pin(pins, *e)?;
    }
    Ok(())
}

/// Puts the element into the set, if it is a pin.
fn take_pin(pins: &mut BTreeSet<ElemKey>, e: Elem) -> Result<(), AllocError>
    ensures { OnOk result (GainsPin pins.old e pins.new) }
{
    if !e.kind.is_pin() {
        return Ok(());
    }
    pins.insert(pin_key(e))?;
    Ok(())
}
