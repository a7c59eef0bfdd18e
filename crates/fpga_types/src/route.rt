//! The value of a route text.
ghost use Rattle.std.specs.Prelude.{◌≡◌};

use crate::grid::{Axis, Cell, Grid, PinAt};
use crate::items::Items;
use crate::problem::Slot;
use std::marker::Model;

/// A name, or a line that is kept as it stood. Contracts see the list of its bytes.
#[derive(Drop)]
pub struct Name {
    pub bytes: Items<u8>,
}

impl Model for Name {
    ghost use Rattle.std.specs.Prelude.{List, ℕ};

    ghost Value = { List ℕ };

    ghost view = { λ n. n.bytes };
}

/// What an element line speaks of.
#[derive(Clone, Copy, PartialEq, Eq, PartialOrd, Ord)]
pub enum ElemKind {
    Source,
    Opin,
    ChanX,
    ChanY,
    Ipin,
    Sink,
}

impl ElemKind {
    ghost use Rattle.fpga_types.specs.Kinds as spec;
    ghost use Rattle.fpga_types.specs.Slots.{channel_at};

    /// Whether it is a channel.
    pub fn is_channel(self) -> bool
        ensures { result ≡ spec.is_channel self }
    {
        matches!(self, ElemKind::ChanX | ElemKind::ChanY)
    }

    /// Whether it is a pin.
    pub fn is_pin(self) -> bool
        ensures { result ≡ spec.is_pin self }
    {
        matches!(self, ElemKind::Opin | ElemKind::Ipin)
    }

    /// Whether an element of this kind takes this label.
    pub fn takes(self, label: Label) -> bool
        ensures { result ≡ spec.takes self label }
    {
        match self {
            ElemKind::Source | ElemKind::Sink => matches!(label, Label::Class | Label::Pad),
            ElemKind::Opin | ElemKind::Ipin => matches!(label, Label::Pin | Label::Pad),
            ElemKind::ChanX | ElemKind::ChanY => matches!(label, Label::Track),
        }
    }

    /// Whether an element of the next kind may stand after one of this.
    pub fn may_precede(self, next: ElemKind) -> bool
        ensures { result ≡ spec.may_follow self next }
    {
        match self {
            ElemKind::Source => matches!(next, ElemKind::Opin),
            ElemKind::Opin => next.is_channel(),
            ElemKind::ChanX | ElemKind::ChanY => {
                next.is_channel() || matches!(next, ElemKind::Ipin)
            }
            ElemKind::Ipin => matches!(next, ElemKind::Sink),
            ElemKind::Sink => {
                matches!(next, ElemKind::Source | ElemKind::Opin) || next.is_channel()
            }
        }
    }

    /// The cell of a channel at this place, or None of another kind.
    pub fn channel_at(self, x: u32, y: u32) -> Option<Cell>
        ensures { result ≡ channel_at self x y }
    {
        let axis = match self {
            ElemKind::ChanX => Axis::X,
            ElemKind::ChanY => Axis::Y,
            _ => return None,
        };
        Some(Cell { axis, x, y })
    }
}

impl Grid {
    ghost use Rattle.fpga_types.specs.Sound.{has_place as is_place};

    /// Whether an element of this kind may stand at a place: a channel on a cell of the array, and
    /// any other at most one place beyond the array.
    pub fn has_place(self, kind: ElemKind, x: u32, y: u32) -> bool
        ensures { result ≡ is_place self kind x y }
    {
        match kind.channel_at(x, y) {
            Some(cell) => self.has_cell(cell),
            None => x <= self.nx + 1 && y <= self.ny + 1,
        }
    }
}

/// What the number of an element line counts.
#[derive(Clone, Copy, PartialEq, Eq, PartialOrd, Ord)]
pub enum Label {
    Class,
    Pin,
    Pad,
    Track,
}

/// An element line, and the number of its line.
#[derive(Clone, Copy)]
pub struct Elem {
    pub kind: ElemKind,
    pub x: u32,
    pub y: u32,
    pub label: Label,
    pub number: u32,
    pub line: u64,
}

impl Elem {
    ghost use Rattle.fpga_types.specs.Slots.{elem_cell, elem_pin, elem_slot};

    /// The cell of a channel line, or None of another.
    pub fn cell(self) -> Option<Cell>
        ensures { result ≡ elem_cell self }
    {
        self.kind.channel_at(self.x, self.y)
    }

    /// The pin of a pin line, or None of another line.
    pub fn pin(self) -> Option<PinAt>
        ensures { result ≡ elem_pin self }
    {
        if !self.kind.is_pin() {
            return None;
        }
        let Elem { x, y, number, .. } = self;
        match self.label {
            Label::Pad => Some(PinAt::Pad { x, y, sub: number }),
            Label::Pin => Some(PinAt::Pin { x, y, pin: number }),
            Label::Class | Label::Track => None,
        }
    }

    /// The slot of a channel line of the net at this position, or None of another line.
    pub fn slot(self, net: u32) -> Option<Slot>
        ensures { result ≡ elem_slot net self }
    {
        let cell = self.cell()?;
        Some(Slot { net, cell })
    }
}

/// A net of a route: its elements in line order or, of a global net, its kept lines.
#[derive(Drop)]
pub struct RouteNet {
    pub k: u64,
    pub name: Name,
    pub global: bool,
    pub line: u64,
    pub elems: Items<Elem>,
    pub kept: Items<Name>,
}

/// A route text: its array, its number of lines, and its nets in line order.
#[derive(Drop)]
pub struct RouteText {
    pub grid: Grid,
    pub grid_line: u64,
    pub lines: u64,
    pub nets: Items<RouteNet>,
}
