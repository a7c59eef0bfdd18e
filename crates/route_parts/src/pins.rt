//! The pins of a terminal, and the wires that a pin opens.
ghost use Rattle.std.specs.Prelude.{◌≡◌, ◌≤◌, [], ◌∷◌, ◌++◌, ℕ, All, IfOk, OnOk, false, filter, length, map, slice_index_or};
ghost use Rattle.std.specs.List.{range_with_len};
ghost use Rattle.fpga_graph.specs.Beside.{opened_along};
ghost use Rattle.fpga_graph.specs.Wires.{IsWire, opened_wires, wire_in};
ghost use Rattle.fpga_types.specs.Boxes.{opens};
ghost use Rattle.fpga_types.specs.Pins.{HasPin};
ghost use Rattle.fpga_types.specs.declared.limits.TheConstants.{PIN_LIMIT};
ghost use Rattle.route_parts.specs.Links.{graph_of};
ghost use Rattle.route_parts.specs.Opening.{class_pins as pins_of_class, is_open_pin as is_open, terminal_pins as pins_of};

use crate::wires::Wires;
use fpga_graph::{MOST_TRACKS, cell_beside};
use fpga_types::{Arch, Cell, Label, PinAt, Side, Terminal, Wire};
use std::alloc::{AllocError, Global};

/// The pins of a terminal that take ordinary nets: its pad, or those of its class.
///
/// # Errors
/// Where memory is short.
pub(crate) fn terminal_pins(
    alloc: Global,
    arch: &Arch,
    at: Terminal,
) -> Result<Vec<PinAt>, AllocError>
    requires { length arch.now.pins ≤ PIN_LIMIT }
    ensures pins { IfOk result
        (λ pins. pins.items ≡ pins_of arch.now at.x at.y at.label at.number) }
    ensures there { IfOk result (λ pins. All (HasPin arch.now) pins.items) }
{
    let Terminal {
        x,
        y,
        label,
        number,
    } = at;
    match label {
        Label::Class => class_pins(alloc, arch, x, y, number),
        Label::Pad => one_pad(alloc, x, y, number),
        Label::Pin | Label::Track => Ok(Vec::new(alloc)),
    }
}

/// The pad.
fn one_pad(alloc: Global, x: u32, y: u32, sub: u32) -> Result<Vec<PinAt>, AllocError>
    ensures { IfOk result (λ pins. pins.items ≡ PinAt.Pad x y sub ∷ []) }
{
    let mut pins = Vec::new(alloc);
    pins.push(PinAt::Pad { x, y, sub })?;
    Ok(pins)
}

/// The pins of a class at a place that take ordinary nets.
fn class_pins(
    alloc: Global,
    arch: &Arch,
    x: u32,
    y: u32,
    class: u32,
) -> Result<Vec<PinAt>, AllocError>
    requires { length arch.now.pins ≤ PIN_LIMIT }
    ensures { IfOk result (λ pins. pins.items ≡ pins_of_class arch.now x y class) }
{
    let mut pins = Vec::new(alloc);
    for pin in 0..arch.pins.as_slice().len() as u32 {
        if is_open_pin(arch, class, pin) {
            pins.push(PinAt::Pin { x, y, pin })?;
        }
    }
    Ok(pins)
}

/// Whether the pin is one of the class and takes ordinary nets.
fn is_open_pin(arch: &Arch, class: u32, pin: u32) -> bool
    ensures { result ≡ is_open arch.now class pin }
{
    let Some(spec) = arch.pins.as_slice().get(pin as usize) else {
        return false;
    };
    spec.class == class && !spec.global
}

impl<'a> Wires<'a> {
    /// The wires whose cell the pin touches and whose track it opens. A pin of a logic block is to
    /// be one of the architecture. Takes time for each track of the four sides.
    ///
    /// # Errors
    /// Where memory is short.
    pub fn opened(&self, alloc: Global, pin: PinAt) -> Result<Vec<Wire>, AllocError>
        requires { HasPin self.now.arch.now pin }
        ensures wires { IfOk result (λ wires. wires.items ≡ opened_wires (graph_of self.now) pin) }
        ensures there { IfOk result (λ wires. All (IsWire (graph_of self.now)) wires.items) }
    {
        let tracks = self.graph().opened(pin);
        // In the order of the numbers of the cells along the sides.
        let mut wires = Vec::new(alloc);
        self.add_along(&mut wires, &tracks, pin, Side::Bottom)?;
        self.add_along(&mut wires, &tracks, pin, Side::Top)?;
        self.add_along(&mut wires, &tracks, pin, Side::Left)?;
        self.add_along(&mut wires, &tracks, pin, Side::Right)?;
        Ok(wires)
    }

    /// Adds the wires that the pin opens along this side of its place, by the tracks that it opens.
    fn add_along(
        &self,
        wires: &mut Vec<Wire>,
        tracks: &[bool; MOST_TRACKS],
        pin: PinAt,
        side: Side,
    ) -> Result<(), AllocError>
        requires pin { HasPin self.now.arch.now pin }
        requires tracks { (track : ℕ) → slice_index_or tracks.now track false
            ≡ opens self.now.arch.now self.now.width pin track }
        ensures { OnOk result
            (wires.new.items ≡ wires.old.items ++ opened_along (graph_of self.now) pin side) }
    {
        let Some(cell) = cell_beside(pin, side) else {
            return Ok(());
        };
        if !self.graph().touches(pin, cell) {
            return Ok(());
        }
        add_tracks(wires, tracks, self.width, cell)
    }
}

/// Adds the wires of a cell with these tracks, of so many.
fn add_tracks(
    wires: &mut Vec<Wire>,
    tracks: &[bool; MOST_TRACKS],
    width: u32,
    cell: Cell,
) -> Result<(), AllocError>
    requires { width ≤ MOST_TRACKS }
    ensures { OnOk result (wires.new.items ≡ wires.old.items ++ map (wire_in cell)
        (filter (λ track. slice_index_or tracks.now track false) (range_with_len 0 width))) }
{
    for track in 0..width {
        if tracks[track as usize] {
            wires.push(Wire { cell, track })?;
        }
    }
    Ok(())
}
