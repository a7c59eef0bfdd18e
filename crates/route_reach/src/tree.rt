//! The trees of wires by which the sources of nets lead to their sinks.
ghost use Rattle.std.specs.Prelude.{◌≡◌, ◌+◌, ◌*◌, ◌/◌, ◌%◌, ◌^◌, ◌<◌, ◌≤◌, length, replicate, IfOk, OnOk, None};
ghost use Rattle.route_reach.specs.Tree.{reached_at, tree_slot, tree_track, with_new, with_reached};

use fpga_types::Elem;
use std::alloc::{AllocError, Global};
use std::marker::Model;

/// What leads to a wire of a net.
#[derive(Clone, Copy)]
pub(crate) enum Lead {
    /// An OPIN line of the net, whose pin touches the wire's cell and opens its track.
    Pin(Elem),
    /// A wire that is joined to it, by its number among the net's wires.
    Wire(usize),
}

/// A wire that is reached: over so many joins, and from there.
#[derive(Clone, Copy)]
pub(crate) struct Reached {
    pub depth: u32,
    pub lead: Lead,
}

/// The wires of one net, by slot and then by track, each with how it is reached if it is. Contracts
/// see the number of the net's first slot among all, the number of tracks, and the list of wires.
#[derive(Drop)]
pub(crate) struct NetTree {
    first: usize,
    width: u32,
    wires: Vec<Option<Reached>>,
}

impl Model for NetTree {
    ghost use Rattle.std.specs.Prelude.{◌+◌, ◌^◌, ◌<◌, ◌≤◌, length};
    ghost use Rattle.route_reach.specs.Tree.{TreeOf};

    ghost Value = { TreeOf };

    ghost view = { λ t. record { first = t.first; width = t.width; wires = t.wires.items } };

    ghost invariant = { λ t. (1 ≤ t.width) × (t.first + length t.wires.items < 2 ^ 63) };
}

impl NetTree {
    /// The wires of so many slots, from this one on, of which none is reached yet.
    pub(crate) fn new(
        alloc: Global,
        first: usize,
        slots: usize,
        width: u32,
    ) -> Result<NetTree, AllocError>
        requires width { 1 ≤ width }
        requires few { first + slots * width < 2 ^ 63 }
        ensures { IfOk result (λ tree. tree
            ≡ record { first = first; width = width; wires = replicate (slots * width) None }) }
    {
        let wires = vec![in alloc; None; slots * width as usize]?;
        Ok(NetTree {
            first,
            width,
            wires,
        })
    }

    /// How many wires there are.
    pub(crate) fn len(&self) -> usize
        ensures { result ≡ length self.now.wires }
    {
        self.wires.len()
    }

    /// The number of the first slot among all.
    pub(crate) fn first(&self) -> usize
        ensures { result ≡ self.now.first }
    {
        self.first
    }

    /// How many tracks there are.
    pub(crate) fn width(&self) -> u32
        ensures { result ≡ self.now.width }
    {
        self.width
    }

    /// The number of a wire's slot among all.
    pub(crate) fn slot(&self, wire: usize) -> usize
        requires { wire < length self.now.wires }
        ensures { result ≡ tree_slot self.now wire }
    {
        self.first + wire / self.width as usize
    }

    /// The track of a wire.
    pub(crate) fn track(&self, wire: usize) -> u32
        ensures { result ≡ tree_track self.now wire }
    {
        (wire % self.width as usize) as u32
    }

    /// How the wire of a number is reached, if it is.
    pub(crate) fn reached(&self, wire: usize) -> Option<Reached>
        ensures { result ≡ reached_at self.now wire }
    {
        match self.wires.get(wire) {
            Some(reached) => *reached,
            None => None,
        }
    }

    /// Says how a wire is reached, and puts it at the end of a list, unless it was reached before.
    pub(crate) fn reach(
        &mut self,
        level: &mut Vec<usize>,
        wire: usize,
        how: Reached,
    ) -> Result<(), AllocError>
        requires { wire < length self.old.wires }
        ensures tree { OnOk result (self.new ≡ with_reached self.old wire how) }
        ensures level { OnOk result (level.new.items ≡ with_new self.old level.old.items wire) }
    {
        if self.reached(wire).is_some() {
            return Ok(());
        }
        level.push(wire)?;
        self.wires[wire] = Some(how);
        Ok(())
    }
}
