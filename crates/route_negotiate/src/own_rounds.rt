//! Rounds of routing within own cells, until no wire is taken by two nets.

use crate::costs::PRESENT_FIRST;
use crate::fabric::Fabric;
use crate::own_field::{Grown, OwnField};
use crate::own_nets::{OwnNet, OwnNets};
use crate::own_wave::{OwnWave, Price};
use crate::progress::End;
use patience::Patience;
use std::alloc::{AllocError, Global};

/// After so many rounds that brought no gain the search gives up.
const STALL_MOST: u32 = 40;
/// After so many rounds most nets that can be routed share nothing.
const ROUNDS_SOON: u32 = 16;
/// The factor for each net too many is no more.
const PRESENT_MOST: u64 = 64_000;

/// How what a net too many costs rises: the factor in the first round, and by how many 64ths each
/// round behind the second multiplies it.
#[derive(Clone, Copy)]
struct Pressure {
    first: u64,
    growth: u64,
}

/// How often the search begins anew where few nets share something.
const PRESSURES: [Pressure; 3] = [
    Pressure {
        first: 0,
        growth: 83,
    },
    Pressure {
        first: 0,
        growth: 74,
    },
    Pressure {
        first: PRESENT_FIRST,
        growth: 74,
    },
];

/// A search: the nets' trees so far, and what they take.
#[derive(Drop)]
pub(crate) struct OwnSearch<'a> {
    fabric: &'a Fabric,
    pub nets: &'a OwnNets,
    field: OwnField,
    wave: OwnWave,
    trees: Vec<Vec<Grown>>,
}

/// How far rounds have come: the least excess of nets so far, and for how many rounds it was not
/// bettered.
#[derive(Clone, Copy)]
struct Gain {
    least: u64,
    stall: u32,
}

impl<'a> OwnSearch<'a> {
    /// A search in which no net has a tree yet.
    pub(crate) fn new(
        alloc: Global,
        fabric: &'a Fabric,
        nets: &'a OwnNets,
        reach: u32,
    ) -> Result<OwnSearch<'a>, AllocError> {
        let mut trees = Vec::with_capacity(alloc, nets.count())?;
        for _ in 0..nets.count() {
            trees.push(Vec::new(alloc))?;
        }
        let cells = fabric.cells();
        Ok(OwnSearch {
            fabric,
            nets,
            field: OwnField::new(alloc, cells, nets.most_slots(), fabric.width)?,
            wave: OwnWave::new(alloc, cells, nets.sinks, reach)?,
            trees,
        })
    }

    /// The tree of a net.
    pub(crate) fn tree(&self, net: usize) -> &[Grown] {
        if net < self.trees.len() {
            &self.trees[net]
        } else {
            &[]
        }
    }

    /// Goes on from round to round, and begins anew under another pressure where that may lead
    /// further: whether no wire is taken by two nets behind a round.
    pub(crate) fn run<P: Patience>(
        &mut self,
        rounds: u32,
        patience: &mut P,
    ) -> Result<bool, AllocError> {
        for pressure in PRESSURES {
            self.field.clear(pressure.first);
            match self.under(pressure, rounds, patience)? {
                End::Routed => return Ok(true),
                End::Hopeless | End::Stopped => return Ok(false),
                End::Stalled | End::Spent => {}
            }
        }
        Ok(false)
    }

    /// Goes on from round to round under a pressure: how the rounds end.
    fn under<P: Patience>(
        &mut self,
        pressure: Pressure,
        rounds: u32,
        patience: &mut P,
    ) -> Result<End, AllocError> {
        let mut gain = Gain {
            least: u64::MAX,
            stall: 0,
        };
        for round in 0..rounds {
            if !patience.goes_on() {
                return Ok(End::Stopped);
            }
            if !self.round(round)? {
                return Ok(End::Hopeless);
            }
            gain = gain.after(self.field.excess());
            if let Some(end) = gain.end(round, self.trees.len()) {
                return Ok(end);
            }
            let present = present_after(round, self.field.present(), pressure.growth);
            self.field.end_round(present);
        }
        Ok(End::Spent)
    }

    /// Routes nets in turn, all in the first round, and then those that share something: whether
    /// each reaches its sinks.
    fn round(&mut self, round: u32) -> Result<bool, AllocError> {
        for number in 0..self.trees.len() {
            if round > 0 {
                if !self.is_contested(number) {
                    continue;
                }
                self.give(number);
            }
            if !self.again(number)? {
                return Ok(false);
            }
            self.take(number);
        }
        Ok(true)
    }

    /// Routes a net, by the cheapest paths or else by the shortest: whether it reaches its sinks.
    fn again(&mut self, number: usize) -> Result<bool, AllocError> {
        let net = self.nets.net(number);
        if !self.route(net, Price::Wires)? && !self.route(net, Price::Joins)? {
            return Ok(false);
        }
        if number < self.trees.len() {
            self.trees[number].clear();
            self.trees[number].extend_from_slice(&self.wave.grown)?;
        }
        Ok(true)
    }

    fn route(&mut self, net: OwnNet, price: Price) -> Result<bool, AllocError> {
        self.wave
            .route(self.fabric, self.nets, &mut self.field, net, price)
    }

    /// Lets a net take the wires of its tree.
    fn take(&mut self, number: usize) {
        let net = self.nets.net(number);
        if number < self.trees.len() {
            for grown in self.trees[number].as_slice() {
                let (cell, track) = place_of(self.fabric, self.nets, net, *grown);
                self.field.take(cell, track);
            }
        }
    }

    /// Takes from a net the wires of its tree.
    fn give(&mut self, number: usize) {
        let net = self.nets.net(number);
        if number < self.trees.len() {
            for grown in self.trees[number].as_slice() {
                let (cell, track) = place_of(self.fabric, self.nets, net, *grown);
                self.field.give(cell, track);
            }
        }
    }

    /// Whether the tree of a net has a wire that another one takes too.
    fn is_contested(&self, number: usize) -> bool {
        let net = self.nets.net(number);
        for grown in self.tree(number) {
            let (cell, track) = place_of(self.fabric, self.nets, net, *grown);
            if self.field.held(cell, track).taken > 1 {
                return true;
            }
        }
        false
    }
}

impl Gain {
    /// The same after a round with this excess.
    fn after(self, excess: u64) -> Gain {
        if excess < self.least {
            return Gain {
                least: excess,
                stall: 0,
            };
        }
        Gain {
            stall: self.stall.saturating_add(1),
            ..self
        }
    }

    /// Whether the rounds of so many nets end behind this one, and how.
    fn end(self, round: u32, nets: usize) -> Option<End> {
        if self.least == 0 {
            return Some(End::Routed);
        }
        let many = nets as u64 / 20 + 4;
        if round >= ROUNDS_SOON && self.least > (nets as u64 / 2).saturating_add(many) {
            return Some(End::Hopeless);
        }
        if self.stall <= STALL_MOST {
            return None;
        }
        if self.least > many {
            return Some(End::Hopeless);
        }
        Some(End::Stalled)
    }
}

/// The factor for each net too many in the round behind one with this factor.
fn present_after(round: u32, present: u64, growth: u64) -> u64 {
    if round == 0 {
        return PRESENT_FIRST;
    }
    (present.saturating_mul(growth) / 64).min(PRESENT_MOST)
}

/// The slot of a wire of a net, and its track.
pub(crate) fn slot_and_track(net: OwnNet, wire: u32, width: u32) -> (u32, u32) {
    if width == 0 {
        return (net.slots_from, 0);
    }
    (net.slots_from.saturating_add(wire / width), wire % width)
}

/// The cell of a wire of a net, and its track.
fn place_of(fabric: &Fabric, nets: &OwnNets, net: OwnNet, grown: Grown) -> (u32, u32) {
    let (slot, track) = slot_and_track(net, grown.wire, fabric.width);
    (nets.cell(slot), track)
}
