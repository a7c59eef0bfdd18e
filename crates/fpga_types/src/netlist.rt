//! The value of a netlist text.
use crate::items::Items;
use crate::route::Name;

/// What a block is.
#[derive(Clone, Copy)]
pub enum BlockKind {
    /// A pad that drives its net.
    Input,
    /// A pad that is a sink of its net.
    Output,
    /// A logic block.
    Logic,
}

/// A block: its name, its kind and, for each of its pins, the number of the net there, if there is
/// one. A pad has one pin.
#[derive(Drop)]
pub struct Block {
    pub name: Name,
    pub kind: BlockKind,
    pub pins: Items<Option<u32>>,
}

/// A pin of a block, both by number. The pin of a pad is 0.
#[derive(Clone, Copy)]
pub struct PinRef {
    pub block: u32,
    pub pin: u32,
}

/// A net: its name, whether it has dedicated wiring, the first pin that drives it, if there is one,
/// and its sinks.
#[derive(Drop)]
pub struct Net {
    pub name: Name,
    pub global: bool,
    pub driver: Option<PinRef>,
    pub sinks: Items<PinRef>,
}

/// Nets and blocks. Their numbers are their positions.
#[derive(Drop)]
pub struct Netlist {
    pub nets: Items<Net>,
    pub blocks: Items<Block>,
}
