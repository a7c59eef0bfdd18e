//! The first ordinary net one of whose sinks no wires reach.
ghost use Rattle.std.specs.Prelude.{◌≡◌, ◌≤◌, ◌++◌, ◌+◌, [], ℕ, List, All, IfOk, MatchOption, OnOk, false, length};
ghost use Rattle.std.specs.List.{list_any};
ghost use Rattle.fpga_graph.specs.Wires.{IsWire, opened_wires};
ghost use Rattle.fpga_types.specs.Pins.{HasPin};
ghost use Rattle.fpga_types.specs.declared.grid.Wire.{Wire as WireValue};
ghost use Rattle.fpga_types.specs.declared.limits.TheConstants.{PIN_LIMIT, WIDTH_LIMIT};
ghost use Rattle.route_parts.specs.Marks.{AreMarked, IsParted, graph_in, is_marked, is_reached_by, is_sink_reached_by, parted_of, placed_in};
ghost use Rattle.route_parts.specs.Opening.{driven_wires, terminal_wires};
ghost use Rattle.route_parts.specs.Unreached.{AreNetsReached, AreSinksReached, IsFirstNet, IsFirstSink, placed_netlist};

use crate::parts::WireParts;
use crate::pins::terminal_pins;
use crate::terminals::PlacedNets;
use crate::wires::Wires;
use fpga_types::{Arch, Net, Netlist, PinAt, PinRef, Placement, Terminal, Wire};
use std::alloc::{AllocError, Global};

/// A sink that no wires reach: its net, by its place in the netlist, and its own place among the
/// sinks of the net.
#[derive(Clone, Copy)]
pub struct Unreached {
    pub net: usize,
    pub sink: usize,
}

/// The first ordinary net with a sink that no wires reach from its driver in channels of `width`
/// tracks, from 1 to 64, whatever the other nets have, and the first such sink of it: no pin of the
/// driver and no pin of the sink open wires that switch blocks join, over whatever wires between,
/// or the net has no driver. A sink whose pin or block is not there does not count. None where a
/// way leads to each sink of each ordinary net.
///
/// Takes time for each wire and what it is joined to, and for each pin of a terminal that of the
/// tracks along its sides; memory for at most some 50 bytes a wire.
///
/// # Errors
/// Where memory is short.
pub fn unreached_net(
    alloc: Global,
    arch: &Arch,
    netlist: &Netlist,
    placement: &Placement,
    width: u32,
) -> Result<Option<Unreached>, AllocError>
    requires width { (1 ≤ width) × (width ≤ WIDTH_LIMIT) }
    requires pins { length arch.now.pins ≤ PIN_LIMIT }
    ensures { let placed = placed_netlist arch.now netlist.now placement.now in
        IfOk result (λ found. MatchOption found (AreNetsReached placed width)
        (IsFirstNet placed width)) }
{
    let wires = Wires {
        arch,
        grid: placement.grid,
        width,
    };
    let parts = WireParts::of(alloc, &wires)?;
    let nets = PartedNets {
        placed: PlacedNets {
            arch,
            netlist,
            placement,
        },
        wires,
        parts,
    };
    nets.first_net(alloc)
}

/// A placed netlist, lent, and the parts of its wires at a width.
#[derive(Drop)]
pub(crate) struct PartedNets<'a> {
    pub placed: PlacedNets<'a>,
    pub wires: Wires<'a>,
    pub parts: WireParts,
}

impl<'a> PartedNets<'a> {
    /// The first ordinary net with a sink that is not reached.
    fn first_net(&self, alloc: Global) -> Result<Option<Unreached>, AllocError>
        requires parted { IsParted (parted_of self.now) }
        ensures { IfOk result (λ found. MatchOption found
            (AreNetsReached (placed_in self.now) (graph_in self.now).width)
            (IsFirstNet (placed_in self.now) (graph_in self.now).width)) }
    {
        for (net, value) in self.placed.netlist.nets.as_slice().iter().enumerate() {
            let Some(sink) = self.first_sink_of(alloc, value)? else {
                continue;
            };
            return Ok(Some(Unreached { net, sink }));
        }
        Ok(None)
    }

    /// The first sink of a net that is not reached, if the net is an ordinary one.
    fn first_sink_of(&self, alloc: Global, net: &Net) -> Result<Option<usize>, AllocError>
        requires parted { IsParted (parted_of self.now) }
        ensures { IfOk result (λ found. MatchOption found
            (net.now.global ≡ false
            → AreSinksReached (placed_in self.now) (graph_in self.now).width net.now)
            (λ sink. (net.now.global ≡ false)
            × IsFirstSink (placed_in self.now) (graph_in self.now).width net.now sink)) }
    {
        if net.global {
            return Ok(None);
        }
        let marks = self.driven_parts(alloc, net)?;
        self.first_sink(alloc, marks.as_slice(), net)
    }

    /// The first sink of a net that is not reached, by marks at the parts that its driver opens.
    fn first_sink(
        &self,
        alloc: Global,
        marks: &[bool],
        net: &Net,
    ) -> Result<Option<usize>, AllocError>
        requires parted { IsParted (parted_of self.now) }
        requires each { length marks.now ≡ self.now.parts.count + 1 }
        requires marked { AreMarked (graph_in self.now) self.now.parts.table.items
            (driven_wires (placed_in self.now) (graph_in self.now) net.now) marks.now }
        ensures { IfOk result (λ found. MatchOption found
            (AreSinksReached (placed_in self.now) (graph_in self.now).width net.now)
            (IsFirstSink (placed_in self.now) (graph_in self.now).width net.now)) }
    {
        for (number, pin) in net.sinks.as_slice().iter().enumerate() {
            if !self.is_sink_reached(alloc, marks, *pin)? {
                return Ok(Some(number));
            }
        }
        Ok(None)
    }

    /// Whether the sink at this pin opens a marked part, if it is there.
    fn is_sink_reached(
        &self,
        alloc: Global,
        marks: &[bool],
        pin: PinRef,
    ) -> Result<bool, AllocError>
        requires parted { IsParted (parted_of self.now) }
        requires marks { length marks.now ≡ self.now.parts.count + 1 }
        ensures { IfOk result (λ is. is ≡ is_sink_reached_by (parted_of self.now) marks.now pin) }
    {
        let Some(at) = self.placed.terminal(pin) else {
            return Ok(true);
        };
        self.is_reached(alloc, marks, at)
    }

    /// Whether the terminal opens a marked part.
    fn is_reached(&self, alloc: Global, marks: &[bool], at: Terminal) -> Result<bool, AllocError>
        requires parted { IsParted (parted_of self.now) }
        requires marks { length marks.now ≡ self.now.parts.count + 1 }
        ensures { IfOk result (λ is. is ≡ is_reached_by (parted_of self.now) marks.now at) }
    {
        let pins = terminal_pins(alloc, self.wires.arch, at)?;
        for pin in pins.as_slice() {
            if self.opens_marked(alloc, marks, *pin)? {
                return Ok(true);
            }
        }
        Ok(false)
    }

    /// Whether the pin opens a marked part.
    fn opens_marked(&self, alloc: Global, marks: &[bool], pin: PinAt) -> Result<bool, AllocError>
        requires parted { IsParted (parted_of self.now) }
        requires marks { length marks.now ≡ self.now.parts.count + 1 }
        requires pin { HasPin self.now.wires.arch.now pin }
        ensures { IfOk result (λ is. is ≡ list_any
            (is_marked (graph_in self.now) self.now.parts.table.items marks.now)
            (opened_wires (graph_in self.now) pin)) }
    {
        let wires = self.wires.opened(alloc, pin)?;
        Ok(self.has_marked(marks, wires.as_slice()))
    }

    /// Whether one of the wires is of a marked part.
    fn has_marked(&self, marks: &[bool], wires: &[Wire]) -> bool
        requires parted { IsParted (parted_of self.now) }
        requires marks { length marks.now ≡ self.now.parts.count + 1 }
        requires wires { All (IsWire (graph_in self.now)) wires.now }
        ensures { result ≡ list_any
            (is_marked (graph_in self.now) self.now.parts.table.items marks.now) wires.now }
    {
        for wire in wires {
            if marks[self.parts.part(&self.wires, *wire) as usize] {
                return true;
            }
        }
        false
    }

    /// Marks at the parts that the driver of a net opens, and at no other.
    fn driven_parts(&self, alloc: Global, net: &Net) -> Result<Vec<bool>, AllocError>
        requires parted { IsParted (parted_of self.now) }
        ensures each { IfOk result (λ marks. length marks.items ≡ self.now.parts.count + 1) }
        ensures marked { IfOk result (λ marks. AreMarked (graph_in self.now)
            self.now.parts.table.items
            (driven_wires (placed_in self.now) (graph_in self.now) net.now) marks.items) }
    {
        let mut marks = vec![in alloc; false; self.parts.count as usize + 1]?;
        let Some(driver) = self.placed.driver(net) else {
            return Ok(marks);
        };
        self.mark_terminal(alloc, &mut marks, driver)?;
        Ok(marks)
    }

    /// Marks the parts that a terminal opens, where none is marked yet.
    fn mark_terminal(
        &self,
        alloc: Global,
        marks: &mut Vec<bool>,
        at: Terminal,
    ) -> Result<(), AllocError>
        requires parted { IsParted (parted_of self.now) }
        requires each { length marks.old.items ≡ self.now.parts.count + 1 }
        requires none { AreMarked (graph_in self.now) self.now.parts.table.items []
            marks.old.items }
        ensures each { length marks.new.items ≡ length marks.old.items }
        ensures marked { OnOk result (AreMarked (graph_in self.now) self.now.parts.table.items
            (terminal_wires (graph_in self.now) at) marks.new.items) }
    {
        let pins = terminal_pins(alloc, self.wires.arch, at)?;
        for pin in pins.as_slice() {
            self.mark_pin(alloc, marks, *pin)?;
        }
        Ok(())
    }

    /// Marks the parts that a pin opens too.
    fn mark_pin(&self, alloc: Global, marks: &mut Vec<bool>, pin: PinAt) -> Result<(), AllocError>
        requires parted { IsParted (parted_of self.now) }
        requires each { length marks.old.items ≡ self.now.parts.count + 1 }
        requires pin { HasPin self.now.wires.arch.now pin }
        ensures each { length marks.new.items ≡ length marks.old.items }
        ensures marked { OnOk result ((others : List WireValue)
            → AreMarked (graph_in self.now) self.now.parts.table.items others marks.old.items
            → AreMarked (graph_in self.now) self.now.parts.table.items
            (others ++ opened_wires (graph_in self.now) pin) marks.new.items) }
    {
        let wires = self.wires.opened(alloc, pin)?;
        self.mark_wires(marks, wires.as_slice());
        Ok(())
    }

    /// Marks the parts of wires too.
    fn mark_wires(&self, marks: &mut Vec<bool>, wires: &[Wire])
        requires parted { IsParted (parted_of self.now) }
        requires each { length marks.old.items ≡ self.now.parts.count + 1 }
        requires wires { All (IsWire (graph_in self.now)) wires.now }
        ensures each { length marks.new.items ≡ length marks.old.items }
        ensures marked { (others : List WireValue)
            → AreMarked (graph_in self.now) self.now.parts.table.items others marks.old.items
            → AreMarked (graph_in self.now) self.now.parts.table.items (others ++ wires.now)
            marks.new.items }
    {
        for wire in wires {
            marks[self.parts.part(&self.wires, *wire) as usize] = true;
        }
    }
}
