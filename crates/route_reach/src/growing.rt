//! The tree of a net: breadth first from the wires that its source reaches.
ghost use Rattle.std.specs.Prelude.{◌≡◌, ◌≢◌, ◌<◌, ◌≤◌, ℕ, length};
ghost use Rattle.fpga_types.specs.Slots.{slot_at};
ghost use Rattle.route_reach.specs.Modelled.{IsNetOf, net_given};

use crate::reach_model::ReachModel;
use crate::tree::{Lead, NetTree, Reached};
use fpga_types::{RouteNet, Slot};
use std::alloc::{AllocError, Global};

/// Where the slots of a net end that begin here.
fn slots_end(slots: &[Slot], first: usize, net: u32) -> usize
    requires { first ≤ length slots.now }
    ensures within { (first ≤ result) × (result ≤ length slots.now) }
    ensures own { (s : ℕ) → first ≤ s → s < result → (slot_at slots.now s).net ≡ net }
    ensures other { result < length slots.now → (slot_at slots.now result).net ≢ net }
{
    for s in first..slots.len() {
        if slots[s].net != net {
            return s;
        }
    }
    slots.len()
}

/// A net of a problem with values that satisfy its clauses: its position among the nets, and its
/// slots, from the first up to the end.
#[derive(Drop)]
pub(crate) struct ModelNet<'a> {
    pub model: &'a ReachModel<'a>,
    pub net: &'a RouteNet,
    pub number: u32,
    pub first: usize,
    pub end: usize,
    ghost is: { IsNetOf (net_given model.now number net.now first end) },
}

impl<'a> ModelNet<'a> {
    ghost use Rattle.std.specs.Prelude.{◌≡◌, ◌+◌, ◌-◌, ◌*◌, ◌<◌, ◌≤◌, true, All, Contains, IfOk, OnOk, Some, length, slice_get};
    ghost use Rattle.route_reach.specs.Growth.{Grows, HasBegun, IsGrown, IsReachedOver, IsReachedWithin, IsSpreadFrom, IsSpreadTo};
    ghost use Rattle.route_reach.specs.ModelNets.{net_of};
    ghost use Rattle.route_reach.specs.Modelled.{IsStart, graph_in, is_begun, places_beside, slots_in_model};
    ghost use Rattle.route_reach.specs.Tree.{IsTree, IsUsed, Serves, tree_slot, tree_track};

    /// The net at a position, whose slots begin here. The time is that of its slots.
    pub(crate) fn at(model: &'a ReachModel<'a>, number: u32, first: usize) -> ModelNet<'a>
        requires number { number < length model.now.problem.route.nets }
        requires first { IsStart (slots_in_model model.now) number first }
        ensures model { result.model.now ≡ model.now }
        ensures number { result.number ≡ number }
        ensures net { slice_get model.now.problem.route.nets number ≡ Some result.net.now }
        ensures next { IsStart (slots_in_model model.now) (number + 1) result.end }
    {
        ModelNet {
            model,
            net: model.net(number),
            number,
            first,
            end: slots_end(model.slots(), first, number),
        }
    }

    /// The wires of the net that are reached from its source within the reach, and each of its
    /// sinks by one of them.
    pub(crate) fn tree(&self, alloc: Global) -> Result<NetTree, AllocError>
        ensures tree { IfOk result (IsTree (graph_in self.now.model.now) self.now.model.now.reach
            (slots_in_model self.now.model.now) self.now.number self.now.net.now) }
        ensures used { IfOk result (IsUsed self.now.model.now.values) }
        ensures serves { IfOk result (Serves (graph_in self.now.model.now)
            (slots_in_model self.now.model.now) self.now.net.now) }
    {
        let slots = self.end - self.first;
        let mut tree = NetTree::new(alloc, self.first, slots, self.model.width())?;
        let mut level = Vec::new(alloc);
        self.begin(&mut tree, &mut level)?;
        for joins in 0..self.model.reach() {
            let mut next = Vec::new(alloc);
            self.spread(&mut tree, level.as_slice(), joins, &mut next)?;
            level = next;
        }
        Ok(tree)
    }

    /// Reaches the wires that the source reaches.
    fn begin(&self, tree: &mut NetTree, level: &mut Vec<usize>) -> Result<(), AllocError>
        requires { IsGrown (net_of self.now) 0 tree.old level.old.items }
        ensures grown { OnOk result (Grows (net_of self.now) 0 tree.old tree.new level.new.items) }
        ensures begun { OnOk result (HasBegun (net_of self.now) tree.new 0
            ((self.now.end - self.now.first) * self.now.model.now.width)) }
    {
        for slot in self.first..self.end {
            self.begin_slot(tree, level, slot as u32)?;
        }
        Ok(())
    }

    /// Reaches the wires of a slot that the source reaches.
    fn begin_slot(
        &self,
        tree: &mut NetTree,
        level: &mut Vec<usize>,
        slot: u32,
    ) -> Result<(), AllocError>
        requires slot { (self.now.first ≤ slot) × (slot < self.now.end) }
        requires grown { IsGrown (net_of self.now) 0 tree.old level.old.items }
        ensures grown { OnOk result (Grows (net_of self.now) 0 tree.old tree.new level.new.items) }
        ensures begun { OnOk result (HasBegun (net_of self.now) tree.new
            ((slot - self.now.first) * self.now.model.now.width)
            ((slot + 1 - self.now.first) * self.now.model.now.width)) }
    {
        let row = self.model.source_row(slot);
        for track in 0..self.model.width() {
            if !row[track as usize] {
                continue;
            }
            self.begin_wire(tree, level, slot, track)?;
        }
        Ok(())
    }

    /// Reaches a wire that the source reaches, if it is used.
    fn begin_wire(
        &self,
        tree: &mut NetTree,
        level: &mut Vec<usize>,
        slot: u32,
        track: u32,
    ) -> Result<(), AllocError>
        requires slot { (self.now.first ≤ slot) × (slot < self.now.end) }
        requires track { track < self.now.model.now.width }
        requires begun { is_begun self.now.model.now slot track ≡ true }
        requires grown { IsGrown (net_of self.now) 0 tree.old level.old.items }
        ensures grown { OnOk result (Grows (net_of self.now) 0 tree.old tree.new level.new.items) }
        ensures begun { OnOk result (HasBegun (net_of self.now) tree.new
            ((slot - self.now.first) * self.now.model.now.width + track)
            ((slot - self.now.first) * self.now.model.now.width + track + 1)) }
    {
        let width = self.model.width();
        if !self.model.is_used(slot * width + track) {
            return Ok(());
        }
        let Some(line) = self.model.source_line(slot, track) else {
            return Ok(());
        };
        let wire = (slot as usize - self.first) * width as usize + track as usize;
        let begun = Reached {
            depth: 0,
            lead: Lead::Pin(line),
        };
        tree.reach(level, wire, begun)?;
        Ok(())
    }

    /// Reaches the wires near those of a level, which are reached over so many joins.
    fn spread(
        &self,
        tree: &mut NetTree,
        level: &[usize],
        joins: u32,
        next: &mut Vec<usize>,
    ) -> Result<(), AllocError>
        requires joins { joins < self.now.model.now.reach }
        requires level { All (IsReachedOver tree.old joins) level.now }
        requires grown { IsGrown (net_of self.now) (joins + 1) tree.old next.old.items }
        ensures grown { OnOk result
            (Grows (net_of self.now) (joins + 1) tree.old tree.new next.new.items) }
        ensures spread { OnOk result
            (All (IsSpreadFrom (net_of self.now) tree.new (joins + 1)) level.now) }
    {
        for wire in level {
            self.spread_wire(tree, *wire, joins, next)?;
        }
        Ok(())
    }

    /// Reaches the wires near one that is reached over so many joins.
    fn spread_wire(
        &self,
        tree: &mut NetTree,
        wire: usize,
        joins: u32,
        next: &mut Vec<usize>,
    ) -> Result<(), AllocError>
        requires joins { joins < self.now.model.now.reach }
        requires wire { IsReachedOver tree.old joins wire }
        requires grown { IsGrown (net_of self.now) (joins + 1) tree.old next.old.items }
        ensures grown { OnOk result
            (Grows (net_of self.now) (joins + 1) tree.old tree.new next.new.items) }
        ensures spread { OnOk result (IsSpreadFrom (net_of self.now) tree.new (joins + 1) wire) }
    {
        let beside = self.model.beside(tree.slot(wire) as u32, tree.track(wire));
        for place in beside.as_slice() {
            self.spread_to(tree, wire, joins, *place, next)?;
        }
        Ok(())
    }

    /// Reaches the wire at a place among all, which is near one that is reached over so many joins,
    /// if it is used.
    fn spread_to(
        &self,
        tree: &mut NetTree,
        wire: usize,
        joins: u32,
        place: u32,
        next: &mut Vec<usize>,
    ) -> Result<(), AllocError>
        requires joins { joins < self.now.model.now.reach }
        requires wire { IsReachedOver tree.old joins wire }
        requires place { Contains (places_beside self.now.model.now (tree_slot tree.old wire)
            (tree_track tree.old wire)) place }
        requires grown { IsGrown (net_of self.now) (joins + 1) tree.old next.old.items }
        ensures grown { OnOk result
            (Grows (net_of self.now) (joins + 1) tree.old tree.new next.new.items) }
        ensures spread { OnOk result (IsSpreadTo (net_of self.now) tree.new (joins + 1) place) }
    {
        if !self.model.is_used(place) {
            return Ok(());
        }
        let other = place as usize - self.first * self.model.width() as usize;
        let behind = Reached {
            depth: joins + 1,
            lead: Lead::Wire(wire),
        };
        tree.reach(next, other, behind)?;
        Ok(())
    }
}
