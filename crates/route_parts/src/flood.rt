//! The parts of the wires of an array, found by going from wire to wire.
ghost use Rattle.std.specs.Prelude.{◌≡◌, ◌≢◌, ◌+◌, ◌-◌, ◌<◌, ◌≤◌, [], ◌∷◌, IfOk, OnOk, length, slice_index};
ghost use Rattle.fpga_graph.specs.Wires.{IsWire};
ghost use Rattle.route_parts.specs.Flooding.{IsFlooding, Keeps, Takes, open_count};
ghost use Rattle.route_parts.specs.Links.{AreParts, graph_of, part_in, wire_count};

use crate::wires::Wires;
use fpga_types::Wire;
use std::alloc::AllocError;

/// Wires with their parts, as far as these are found.
#[derive(Drop)]
pub(crate) struct Flood {
    /// For each wire, by number, its part, from 1 on; 0 where it has none yet.
    pub table: Vec<u32>,
    /// Wires of the newest part from which no one has gone on yet.
    pub ahead: Vec<Wire>,
}

impl Flood {
    /// Gives each wire its part, from one that has none on to all that it is linked to, and then
    /// from the next one. Says how many parts there are.
    ///
    /// # Errors
    /// Where memory is short.
    pub fn fill(&mut self, wires: &Wires<'_>) -> Result<u32, AllocError>
        requires flooding { IsFlooding (graph_of wires.now) 0 self.old.table.items
            self.old.ahead.items }
        requires none { self.old.ahead.items ≡ [] }
        ensures { IfOk result
            (λ count. AreParts (graph_of wires.now) count self.new.table.items) }
    {
        let mut count = 0;
        for number in 0..wires.count() {
            count = self.reach(wires, number, count)?;
        }
        Ok(count)
    }

    /// Gives the wire with this number, if it has none, a part behind so many, and all that it is
    /// linked to. Says how many parts there are then.
    fn reach(&mut self, wires: &Wires<'_>, number: u32, count: u32) -> Result<u32, AllocError>
        requires number { number < wire_count (graph_of wires.now) }
        requires room { count < u32.MAX }
        requires flooding { IsFlooding (graph_of wires.now) count self.old.table.items
            self.old.ahead.items }
        requires none { self.old.ahead.items ≡ [] }
        ensures flooding { IfOk result
            (λ parts. IsFlooding (graph_of wires.now) parts self.new.table.items
            self.new.ahead.items) }
        ensures none { OnOk result (self.new.ahead.items ≡ []) }
        ensures more { IfOk result (λ parts. parts ≤ count + 1) }
        ensures taken { OnOk result (slice_index self.new.table.items number ≢ 0) }
        ensures keeps { OnOk result (Keeps self.old.table.items self.new.table.items) }
    {
        if self.table[number as usize] != 0 {
            return Ok(count);
        }
        let part = count + 1;
        self.begin(wires, wires.wire(number), part)?;
        Ok(part)
    }

    /// Gives a new part to a wire that has none, and to all that it is linked to.
    fn begin(&mut self, wires: &Wires<'_>, wire: Wire, part: u32) -> Result<(), AllocError>
        requires wire { IsWire (graph_of wires.now) wire }
        requires open { part_in (graph_of wires.now) self.old.table.items wire ≡ 0 }
        requires part { 1 ≤ part }
        requires flooding { IsFlooding (graph_of wires.now) (part - 1) self.old.table.items
            self.old.ahead.items }
        requires none { self.old.ahead.items ≡ [] }
        ensures flooding { OnOk result
            (IsFlooding (graph_of wires.now) part self.new.table.items self.new.ahead.items) }
        ensures none { OnOk result (self.new.ahead.items ≡ []) }
        ensures taken { OnOk result (part_in (graph_of wires.now) self.new.table.items wire ≢ 0) }
        ensures keeps { OnOk result (Keeps self.old.table.items self.new.table.items) }
    {
        self.take(wires, wire, part)?;
        self.go_on(wires, part)?;
        Ok(())
    }

    /// Goes on from the wires ahead, until there are none.
    fn go_on(&mut self, wires: &Wires<'_>, part: u32) -> Result<(), AllocError>
        requires part { 1 ≤ part }
        requires flooding { IsFlooding (graph_of wires.now) part self.old.table.items
            self.old.ahead.items }
        ensures flooding { OnOk result
            (IsFlooding (graph_of wires.now) part self.new.table.items self.new.ahead.items) }
        ensures none { OnOk result (self.new.ahead.items ≡ []) }
        ensures keeps { OnOk result (Keeps self.old.table.items self.new.table.items) }
    {
        while let Some(wire) = self.ahead.pop() {
            self.spread(wires, wire, part)?;
        }
        Ok(())
    }

    /// Gives the part of a wire to those that it is joined to and that have none.
    fn spread(&mut self, wires: &Wires<'_>, wire: Wire, part: u32) -> Result<(), AllocError>
        requires part { 1 ≤ part }
        requires flooding { IsFlooding (graph_of wires.now) part self.old.table.items
            (wire ∷ self.old.ahead.items) }
        ensures flooding { OnOk result
            (IsFlooding (graph_of wires.now) part self.new.table.items self.new.ahead.items) }
        ensures keeps { OnOk result (Keeps self.old.table.items self.new.table.items) }
        ensures left { OnOk result
            (open_count self.new.table.items + length self.new.ahead.items
            ≡ open_count self.old.table.items + length self.old.ahead.items) }
    {
        for joint in wires.graph().joints(wire).as_slice() {
            self.take(wires, joint.wire, part)?;
        }
        Ok(())
    }

    /// Gives a part to a wire that has none, from which to go on.
    fn take(&mut self, wires: &Wires<'_>, wire: Wire, part: u32) -> Result<(), AllocError>
        requires wire { IsWire (graph_of wires.now) wire }
        requires size { length self.old.table.items ≡ wire_count (graph_of wires.now) }
        ensures { OnOk result (Takes (graph_of wires.now) part wire self.old.table.items
            self.old.ahead.items self.new.table.items self.new.ahead.items) }
    {
        let number = wires.number(wire) as usize;
        if self.table[number] != 0 {
            return Ok(());
        }
        self.table[number] = part;
        self.ahead.push(wire)?;
        Ok(())
    }
}
