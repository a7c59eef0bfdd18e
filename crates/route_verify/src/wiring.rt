//! Which lines of a detailed route are joined by the fabric.
ghost use Rattle.std.specs.Prelude.{◌≡◌, ◌<◌, ◌≤◌, Some};
ghost use Rattle.route_verify.specs.Wiring as spec;
ghost use Rattle.route_verify.specs.Wiring.{misses, reaches, same_wire};

use fpga_fabric::{joined_track, meet, opens, touches};
use fpga_types::{Arch, Elem, Grid, PinAt, WIDTH_LIMIT, Wire};
use std::marker::Model;

/// The switch blocks and connection boxes of an architecture in an array, with so many tracks a
/// channel.
#[derive(Drop)]
pub struct Wiring<'a> {
    arch: &'a Arch,
    grid: Grid,
    width: u32,
}

impl<'a> Model for Wiring<'a> {
    ghost use Rattle.fpga_graph.specs.GraphOf.{GraphOf, IsWidth};

    ghost Value = { GraphOf };

    ghost view = { λ w. record { arch = w.arch.now; grid = w.grid; width = w.width } };

    ghost invariant = { λ w. IsWidth w.width };
}

impl<'a> Wiring<'a> {
    /// With the blocks and boxes of this architecture in this array, at this width.
    pub fn new(arch: &'a Arch, grid: Grid, width: u32) -> Wiring<'a>
        requires { (1 ≤ width) × (width ≤ WIDTH_LIMIT) }
        ensures { result ≡ record { arch = arch.now; grid = grid; width = width } }
    {
        Wiring { arch, grid, width }
    }

    /// The architecture.
    pub fn arch(&self) -> &'a Arch
        ensures { result.now ≡ self.now.arch }
    {
        self.arch
    }

    /// Whether of two lines next to each other in one net two channel lines are not joined, or a
    /// pin line and a channel line, in either order, are not.
    pub fn are_unconnected(&self, first: Elem, second: Elem) -> bool
        ensures { result ≡ spec.are_unconnected self.now (Some first) (Some second) }
    {
        let from = wire_of(first);
        let to = wire_of(second);
        self.are_parted(from, to) || self.misses(first.pin(), to) || self.misses(second.pin(), from)
    }

    /// Whether the line is a channel line of a track that is not below the width.
    pub fn is_past_width(&self, line: Elem) -> bool
        ensures { result ≡ spec.is_past_width self.now (Some line) }
    {
        match wire_of(line) {
            Some(wire) => !(wire.track < self.width),
            None => false,
        }
    }

    /// Whether there are two wires, both of tracks below the width, and they are not joined.
    fn are_parted(&self, from: Option<Wire>, to: Option<Wire>) -> bool
        ensures { result ≡ spec.are_parted self.now from to }
    {
        let Some(from) = from else {
            return false;
        };
        let Some(to) = to else {
            return false;
        };
        let width = self.width;
        from.track < width && to.track < width && !self.are_joined(from, to)
    }

    /// Whether a switch block joins the two wires.
    fn are_joined(&self, from: Wire, to: Wire) -> bool
        requires { from.track < self.now.width }
        ensures { result ≡ spec.are_joined self.now from to }
    {
        if !self.grid.has_cell(from.cell) || !self.grid.has_cell(to.cell) {
            return false;
        }
        let Some((_, side, other)) = meet(self.grid, from.cell, to.cell) else {
            return false;
        };
        joined_track(self.arch.pattern, self.width, side, other, from.track) == to.track
    }

    /// Whether there are a pin and a wire of a track below the width, and the pin does not reach
    /// it.
    fn misses(&self, pin: Option<PinAt>, wire: Option<Wire>) -> bool
        ensures { result ≡ misses self.now pin wire }
    {
        let Some(pin) = pin else {
            return false;
        };
        let Some(wire) = wire else {
            return false;
        };
        wire.track < self.width && !self.reaches(pin, wire)
    }

    /// Whether the pin touches the cell of the wire and opens its track. A pin that the
    /// architecture does not have touches none.
    fn reaches(&self, pin: PinAt, wire: Wire) -> bool
        ensures { result ≡ reaches self.now pin wire }
    {
        if !has_pin(self.arch, pin) {
            return false;
        }
        touches(self.arch, self.grid, pin, wire.cell)
            && opens(self.arch, self.width, pin, wire.track)
    }
}

/// Whether the architecture has the pin. It has all pads.
fn has_pin(arch: &Arch, pin: PinAt) -> bool
    ensures { result ≡ spec.has_pin arch.now pin }
{
    match pin {
        PinAt::Pad { .. } => true,
        PinAt::Pin { pin, .. } => (pin as usize) < arch.pins.as_slice().len(),
    }
}

/// The wire of a channel line, or None of another line.
pub(crate) fn wire_of(line: Elem) -> Option<Wire>
    ensures { result ≡ spec.elem_wire line }
{
    let cell = line.cell()?;
    Some(Wire {
        cell,
        track: line.number,
    })
}
