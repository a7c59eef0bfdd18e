//! The parts of a routing problem.
use crate::grid::{Cell, PinAt};
use crate::route::Label;

/// A cell that a net takes. The net is named by its position in the route text.
#[derive(Clone, Copy, PartialEq, Eq, PartialOrd, Ord)]
pub struct Slot {
    pub net: u32,
    pub cell: Cell,
}

/// Two slots, by number, whose channel lines stand next to each other in one net.
#[derive(Clone, Copy)]
pub struct RouteStep {
    pub from: u32,
    pub to: u32,
}

/// A pin and a slot, by number, whose lines stand next to each other in one net.
#[derive(Clone, Copy)]
pub struct PinStep {
    pub pin: PinAt,
    pub slot: u32,
}

/// Where a net begins or ends, as SOURCE and SINK lines name it: a class of pins of a place, or a
/// pad by its place and subblock number.
#[derive(Clone, Copy)]
pub struct Terminal {
    pub x: u32,
    pub y: u32,
    pub label: Label,
    pub number: u32,
}
