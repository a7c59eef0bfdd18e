//! The pins of a terminal.
ghost use Rattle.std.specs.Prelude.{◌≡◌, ◌+◌, ◌<◌, ◌≤◌, ◌&&◌, ◌↔◌, [], ◌∷◌, ◌++◌, All, IfOk, IsTrue, OnOk, filter, length};
ghost use Rattle.cell_clauses.specs.Places.{pin_number as number_of};
ghost use Rattle.fpga_types.specs.Pins.{HasPin};
ghost use Rattle.fpga_types.specs.Placed.{is_terminal_pin as is_pin_of};
ghost use Rattle.fpga_types.specs.Terminals.{is_number_of as is_numbered, is_ordinary as takes_ordinary, same_terminal as same};
ghost use Rattle.fpga_types.specs.Kinds.{same_label as same_kind_of};
ghost use Rattle.fpga_types.specs.Touching.{touches as touches_of};
ghost use Rattle.fpga_types.specs.declared.grid.PinAt.{PinAt as PinOf};
ghost use Rattle.fpga_types.specs.declared.limits.TheConstants.{PIN_LIMIT};
ghost use Rattle.fpga_types.specs.declared.route.Label.TheVariants.{Pin};
ghost use Rattle.route_bound.specs.Lying.{pins_at as pins_of};

use fpga_fabric::touches;
use fpga_types::{Arch, Cell, Grid, Label, PinAt, Terminal};
use std::alloc::{AllocError, Global};

/// The pins of a terminal that take ordinary nets: its pad, or those of its class.
///
/// # Errors
/// Where memory is short.
pub(crate) fn pins_at(alloc: Global, arch: &Arch, at: Terminal) -> Result<Vec<PinAt>, AllocError>
    requires { length arch.now.pins ≤ PIN_LIMIT }
    ensures pins { IfOk result (λ pins. pins.items ≡ pins_of arch.now at) }
    ensures low { IfOk result
        (λ pins. All (λ pin. number_of pin < length arch.now.pins + 1) pins.items) }
{
    let mut pins = Vec::new(alloc);
    let pad = PinAt::Pad {
        x: at.x,
        y: at.y,
        sub: at.number,
    };
    add_pin(&mut pins, arch, at, pad)?;
    for pin in 0..arch.pins.as_slice().len() as u32 {
        let pin = PinAt::Pin {
            x: at.x,
            y: at.y,
            pin,
        };
        add_pin(&mut pins, arch, at, pin)?;
    }
    Ok(pins)
}

/// Adds a pin, if it is one of the terminal.
fn add_pin(pins: &mut Vec<PinAt>, arch: &Arch, at: Terminal, pin: PinAt) -> Result<(), AllocError>
    ensures { OnOk result
        (pins.new.items ≡ pins.old.items ++ filter (is_pin_of arch.now at) (pin ∷ [])) }
{
    if !is_terminal_pin(arch, at, pin) {
        return Ok(());
    }
    pins.push(pin)?;
    Ok(())
}

/// Whether the pin is one of the terminal and takes ordinary nets.
fn is_terminal_pin(arch: &Arch, at: Terminal, pin: PinAt) -> bool
    ensures { result ≡ is_pin_of arch.now at pin }
{
    match pin {
        PinAt::Pad { x, y, sub } => {
            x == at.x && y == at.y && same_label(at.label, Label::Pad) && at.number == sub
        }
        PinAt::Pin { x, y, pin } => {
            x == at.x && y == at.y && is_open_pin(arch, at.label, at.number, pin)
        }
    }
}

/// Whether the pin is one of the class, if it is one, and takes ordinary nets.
fn is_open_pin(arch: &Arch, label: Label, number: u32, pin: u32) -> bool
    ensures { result
        ≡ (is_numbered arch.now label number Pin pin && takes_ordinary arch.now Pin pin) }
{
    let Some(spec) = arch.pins.as_slice().get(pin as usize) else {
        return false;
    };
    same_label(label, Label::Class) && spec.class == number && !spec.global
}

/// The number of a pin at its place; that of a pad is 0.
pub(crate) fn pin_number(pin: PinAt) -> u32
    ensures { result ≡ number_of pin }
{
    match pin {
        PinAt::Pad { .. } => 0,
        PinAt::Pin { pin, .. } => pin,
    }
}

/// Whether the pin touches the cell; one that the architecture does not have touches none.
pub(crate) fn is_touched(arch: &Arch, grid: Grid, pin: PinAt, cell: Cell) -> bool
    ensures { result ≡ touches_of arch.now grid pin cell }
{
    if !has_pin(arch, pin) {
        return false;
    }
    touches(arch, grid, pin, cell)
}

/// Whether the architecture has the pin.
fn has_pin(arch: &Arch, pin: PinAt) -> bool
    ensures { IsTrue result ↔ HasPin arch.now pin }
{
    match pin {
        PinAt::Pad { .. } => true,
        PinAt::Pin { pin, .. } => (pin as usize) < arch.pins.as_slice().len(),
    }
}

/// Whether two terminals are one.
pub(crate) fn same_terminal(a: Terminal, b: Terminal) -> bool
    ensures { result ≡ same a b }
{
    a.x == b.x && a.y == b.y && same_label(a.label, b.label) && a.number == b.number
}

/// Whether two labels are one.
fn same_label(a: Label, b: Label) -> bool
    ensures { result ≡ same_kind_of a b }
{
    match (a, b) {
        (Label::Class, Label::Class) => true,
        (Label::Pin, Label::Pin) => true,
        (Label::Pad, Label::Pad) => true,
        (Label::Track, Label::Track) => true,
        _ => false,
    }
}
