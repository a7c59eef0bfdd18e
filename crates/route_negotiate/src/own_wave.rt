//! The tree of wires of one net within its own cells.

use crate::fabric::{Fabric, Joint};
use crate::heap::Heap;
use crate::own_field::{BEGIN, Grown, OwnField};
use crate::own_nets::{OwnNet, OwnNets};
use crate::row::{at, put};
use crate::sites::has_track;
use std::alloc::{AllocError, Global};

/// What paths of a tree cost.
#[derive(Clone, Copy, PartialEq, Eq)]
pub(crate) enum Price {
    /// What their wires cost now.
    Wires,
    /// How many joins there are from the driver on: a sink that is not reached so is not reached at
    /// all.
    Joins,
}

/// The wires that a wave has still to leave, and the tree that it grows.
#[derive(Drop)]
pub(crate) struct OwnWave {
    heap: Heap,
    /// The wires of the tree.
    pub grown: Vec<Grown>,
    /// The path that is to be put into the tree, the last wire first.
    path: Vec<u32>,
    /// For each slot of the net in hand that was last in each cell.
    slots: Vec<u32>,
    /// For each sink the tree that reached it last.
    reached: Vec<u32>,
    net: OwnNet,
    left: u32,
    price: Price,
    /// How many joins there may be from the driver to a wire.
    reach: u32,
}

/// A wire that the wave leaves, how far it is, and over how many joins.
#[derive(Clone, Copy)]
struct Leaving {
    track: u32,
    wire: u32,
    dist: u32,
    joins: u32,
}

/// The key of a wire in the heap: the nearest first, and of equal ones the first wire.
fn key_of(dist: u32, wire: u32) -> u64 {
    ((dist as u64) << 24) | (wire & 0xff_ffff) as u64
}

impl OwnWave {
    /// A wave for nets on so many cells, with so many sinks together, within a reach.
    pub(crate) fn new(
        alloc: Global,
        cells: u32,
        sinks: u32,
        reach: u32,
    ) -> Result<OwnWave, AllocError> {
        Ok(OwnWave {
            heap: Heap::new(alloc),
            grown: Vec::new(alloc),
            path: Vec::new(alloc),
            slots: vec![in alloc; 0; cells as usize]?,
            reached: vec![in alloc; 0; sinks as usize]?,
            net: OwnNet {
                slots_from: 0,
                slots_to: 0,
                sinks_from: 0,
                sinks_to: 0,
            },
            left: 0,
            price: Price::Wires,
            reach,
        })
    }

    /// Routes a net: whether its tree reaches each sink.
    pub(crate) fn route(
        &mut self,
        fabric: &Fabric,
        nets: &OwnNets,
        field: &mut OwnField,
        net: OwnNet,
        price: Price,
    ) -> Result<bool, AllocError> {
        self.begin(nets, field, net, price);
        self.enter(nets, field, fabric.width)?;
        for _ in net.sinks_from..net.sinks_to {
            if self.left == 0 {
                break;
            }
            let Some(last) = self.spread(fabric, nets, field)? else {
                return Ok(false);
            };
            if !self.follow_back(field, last)? {
                return Ok(false);
            }
            self.join(nets, field, fabric.width)?;
        }
        Ok(self.left == 0)
    }

    /// Begins the tree of a net.
    fn begin(&mut self, nets: &OwnNets, field: &mut OwnField, net: OwnNet, price: Price) {
        field.next_tree();
        if field.tree == 1 {
            self.reached.fill(0);
        }
        self.net = net;
        self.price = price;
        self.left = net.sinks_to.saturating_sub(net.sinks_from);
        self.grown.clear();
        self.heap.clear();
        for slot in net.slots_from..net.slots_to {
            put(&mut self.slots, nets.cell(slot) as usize, slot);
        }
    }

    /// The number of a wire among those of the net in hand.
    fn wire_of(&self, slot: u32, track: u32, width: u32) -> u32 {
        slot.saturating_sub(self.net.slots_from)
            .saturating_mul(width)
            .saturating_add(track)
    }

    /// The slot of a wire.
    fn slot_of(&self, wire: u32, width: u32) -> u32 {
        if width == 0 {
            return self.net.slots_from;
        }
        self.net.slots_from.saturating_add(wire / width)
    }

    /// What it costs to go on to a wire.
    fn cost(&self, field: &OwnField, cell: u32, track: u32) -> u32 {
        match self.price {
            Price::Wires => field.held(cell, track).cost,
            Price::Joins => 1,
        }
    }

    /// Lets the wave begin at the wires that pins of the driver open.
    fn enter(
        &mut self,
        nets: &OwnNets,
        field: &mut OwnField,
        width: u32,
    ) -> Result<(), AllocError> {
        for slot in self.net.slots_from..self.net.slots_to {
            let opened = nets.starts(slot);
            for track in 0..width {
                if has_track(opened, track) {
                    let wire = self.wire_of(slot, track, width);
                    let dist = self.cost(field, nets.cell(slot), track);
                    field.see(wire, BEGIN, dist, 0);
                    self.heap.push(key_of(dist, wire))?;
                }
            }
        }
        Ok(())
    }

    /// Lets the wave run to the nearest wire that opens a sink which is left.
    fn spread(
        &mut self,
        fabric: &Fabric,
        nets: &OwnNets,
        field: &mut OwnField,
    ) -> Result<Option<u32>, AllocError> {
        for _ in 0..u64::MAX {
            let Some(key) = self.heap.pop() else {
                break;
            };
            let wire = (key & 0xff_ffff) as u32;
            let step = field.step(wire);
            // The wave came to this wire by a better way before.
            if key >> 24 > step.dist as u64 {
                continue;
            }
            let slot = self.slot_of(wire, fabric.width);
            let track = track_of(wire, fabric.width);
            if self.opens_sink(nets, field, slot, track) {
                return Ok(Some(wire));
            }
            if step.joins < self.reach {
                let leaving = Leaving {
                    track,
                    wire,
                    dist: step.dist,
                    joins: step.joins.saturating_add(1),
                };
                for joint in fabric.joints_of(nets.cell(slot)) {
                    self.go_on(fabric, nets, field, leaving, *joint)?;
                }
            }
        }
        Ok(None)
    }

    /// Lets the wave go from a wire to a cell that its cell meets, if it is one of the net's own.
    fn go_on(
        &mut self,
        fabric: &Fabric,
        nets: &OwnNets,
        field: &mut OwnField,
        leaving: Leaving,
        joint: Joint,
    ) -> Result<(), AllocError> {
        let slot = at(&self.slots, joint.cell as usize);
        let is_own = slot >= self.net.slots_from
            && slot < self.net.slots_to
            && nets.cell(slot) == joint.cell;
        if !is_own {
            return Ok(());
        }
        let track = fabric.across(joint, leaving.track);
        let wire = self.wire_of(slot, track, fabric.width);
        let cost = self.cost(field, joint.cell, track);
        let dist = leaving.dist.saturating_add(cost);
        let step = field.step(wire);
        if step.tree == field.tree || step.seen == field.tree && step.dist <= dist {
            return Ok(());
        }
        field.see(wire, leaving.wire, dist, leaving.joins);
        self.heap.push(key_of(dist, wire))
    }

    /// Whether a wire opens a sink that is left.
    fn opens_sink(&self, nets: &OwnNets, field: &OwnField, slot: u32, track: u32) -> bool {
        for number in nets.entries_of(slot) {
            let entry = nets.entry(*number);
            if has_track(entry.tracks, track) && self.is_left(field, entry.sink) {
                return true;
            }
        }
        false
    }

    /// Whether the tree has still to reach a sink.
    fn is_left(&self, field: &OwnField, sink: u32) -> bool {
        let place = sink as usize;
        place < self.reached.len() && self.reached[place] != field.tree
    }

    /// Makes the path that of the wave to a wire, the last wire first: whether it is within the
    /// reach.
    fn follow_back(&mut self, field: &OwnField, last: u32) -> Result<bool, AllocError> {
        self.path.clear();
        let mut wire = last;
        for _ in 0..=self.reach {
            self.path.push(wire)?;
            let from = field.step(wire).from;
            if from == BEGIN {
                let joins = field.step(wire).joins as usize;
                return Ok(joins.saturating_add(self.path.len()) <= self.reach as usize + 1);
            }
            wire = from;
        }
        Ok(false)
    }

    /// Puts the path into the tree, so that the wave goes on from it, and takes off what is left
    /// the sinks along it.
    fn join(&mut self, nets: &OwnNets, field: &mut OwnField, width: u32) -> Result<(), AllocError> {
        let mut joins: u32 = 0;
        for k in (0..self.path.len()).rev() {
            let wire = at(&self.path, k);
            if field.is_grown(wire) {
                joins = field.step(wire).joins;
            } else {
                let dist = match self.price {
                    Price::Wires => 0,
                    Price::Joins => joins.saturating_add(1),
                };
                field.see(wire, BEGIN, dist, joins);
                field.grow(wire);
                self.grown.push(Grown { wire, joins })?;
                self.heap.push(key_of(dist, wire))?;
            }
            joins = joins.saturating_add(1);
            self.reach_sinks(nets, field, wire, width);
        }
        Ok(())
    }

    /// Takes off what is left the sinks that a wire opens.
    fn reach_sinks(&mut self, nets: &OwnNets, field: &OwnField, wire: u32, width: u32) {
        let slot = self.slot_of(wire, width);
        for number in nets.entries_of(slot) {
            let entry = nets.entry(*number);
            if has_track(entry.tracks, track_of(wire, width)) && self.is_left(field, entry.sink) {
                put(&mut self.reached, entry.sink as usize, field.tree);
                self.left = self.left.saturating_sub(1);
            }
        }
    }
}

/// The track of a wire.
fn track_of(wire: u32, width: u32) -> u32 {
    if width == 0 { 0 } else { wire % width }
}
