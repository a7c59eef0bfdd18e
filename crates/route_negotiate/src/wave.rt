//! The cheapest path from the tree of a net to one of the classes that it has still to reach.

use crate::board::Board;
use crate::costs::{FAR, PIN};
use crate::fabric::Joint;
use crate::field::{DRIVER, Field, ROOT};
use crate::front::{Front, cost_ahead};
use crate::nets::Start;
use crate::sites::has_track;
use crate::wires::{cell_of, track_of, wire_of};
use std::alloc::AllocError;

/// The end of a path: its last wire, its pin and its cost.
#[derive(Clone, Copy)]
pub(crate) struct Goal {
    pub cost: u64,
    pub wire: u32,
    pub pin: u32,
}

/// A wire that the wave leaves, and how far it is.
#[derive(Clone, Copy)]
struct Leaving {
    wire: u32,
    dist: u32,
}

/// The key of a wire in the heap: the least first, and of equal ones the first wire.
fn key_of(far: u64, wire: u32) -> u64 {
    (far.min(FAR) << 24) | (wire & 0xff_ffff) as u64
}

impl Front {
    /// Begins a wave at the wires of the tree.
    pub(crate) fn enter_tree(&mut self, field: &mut Field) -> Result<(), AllocError> {
        field.next_wave();
        self.heap.clear();
        for k in 0..self.grown.len() {
            let wire = self.grown[k];
            field.see(wire, 0, ROOT);
            let ahead = cost_ahead(self.steps_ahead(field, cell_of(wire)));
            self.heap.push(key_of(ahead, wire))?;
        }
        Ok(())
    }

    /// Lets the wave begin at some tracks of a cell along a pin of the driver, too.
    pub(crate) fn enter_start(
        &mut self,
        field: &mut Field,
        start: Start,
        tracks: u64,
        width: u32,
    ) -> Result<(), AllocError> {
        if self.is_strict && field.cell(start.cell).tree == field.tree {
            return Ok(());
        }
        let ahead = cost_ahead(self.steps_ahead(field, start.cell));
        let leaving = start_cost(field, start);
        for track in 0..width {
            if has_track(tracks, track) {
                let wire = wire_of(start.cell, track);
                let spot = field.spot(wire);
                let dist = leaving.saturating_add(spot.held.cost);
                if spot.seen != field.wave || spot.dist > dist {
                    field.see(wire, dist, DRIVER);
                    self.heap
                        .push(key_of(ahead.saturating_add(dist as u64), wire))?;
                }
            }
        }
        Ok(())
    }

    /// Lets the wave run until no path can be better than the best, or than the bound for all that
    /// is left.
    pub(crate) fn spread(
        &mut self,
        board: &Board<'_>,
        field: &mut Field,
        bound: u64,
    ) -> Result<Option<Goal>, AllocError> {
        let rest = (self.left_count() as u64).saturating_mul(PIN);
        let mut best = Goal {
            cost: FAR,
            wire: 0,
            pin: u32::MAX,
        };
        for _ in 0..u64::MAX {
            let Some(key) = self.heap.pop() else {
                break;
            };
            let far = key >> 24;
            if far.saturating_add(PIN) >= best.cost || far.saturating_add(rest) >= bound {
                break;
            }
            let wire = (key & 0xff_ffff) as u32;
            best = self.leave(board, field, wire, far, best)?;
        }
        if best.pin == u32::MAX || best.cost.saturating_add(rest.saturating_sub(PIN)) >= bound {
            return Ok(None);
        }
        Ok(Some(best))
    }

    /// Lets the wave go on from a wire: the best path so far.
    fn leave(
        &mut self,
        board: &Board<'_>,
        field: &mut Field,
        wire: u32,
        far: u64,
        best: Goal,
    ) -> Result<Goal, AllocError> {
        let cell = cell_of(wire);
        let dist = field.spot(wire).dist;
        let steps = self.steps_ahead(field, cell);
        // The wave came to this wire by a better way before.
        if far > cost_ahead(steps).saturating_add(dist as u64) {
            return Ok(best);
        }
        let leaving = Leaving { wire, dist };
        for joint in board.fabric.joints_of(cell) {
            self.step(board, field, leaving, *joint)?;
        }
        if steps > 1 {
            return Ok(best);
        }
        Ok(best_pin(board, field, leaving, best))
    }

    /// Lets the wave go from a wire to a cell that its cell meets.
    fn step(
        &mut self,
        board: &Board<'_>,
        field: &mut Field,
        leaving: Leaving,
        joint: Joint,
    ) -> Result<(), AllocError> {
        let cell = field.cell(joint.cell);
        if self.is_strict && cell.tree == field.tree || !self.frame.has(cell.at) {
            return Ok(());
        }
        let track = board.fabric.across(joint, track_of(leaving.wire));
        let next = wire_of(joint.cell, track);
        let spot = field.spot(next);
        let dist = leaving.dist.saturating_add(spot.held.cost);
        if spot.seen == field.wave && spot.dist <= dist {
            return Ok(());
        }
        // Where the wave did not come to the cell yet, no path of it has a wire there.
        let may_return = self.is_strict && cell.seen == field.wave;
        if may_return && is_on_path(field, leaving.wire, joint.cell) {
            return Ok(());
        }
        field.see(next, dist, leaving.wire);
        let ahead = cost_ahead(self.steps_ahead(field, joint.cell));
        self.heap
            .push(key_of(ahead.saturating_add(dist as u64), next))
    }
}

/// What it costs to leave the driver by a pin, above the least.
fn start_cost(field: &Field, start: Start) -> u32 {
    let pin = field.pin(start.pin).held.cost;
    pin.saturating_sub(PIN as u32).saturating_add(start.extra)
}

/// The best path so far, or one that ends at a pin along a wire.
fn best_pin(board: &Board<'_>, field: &Field, leaving: Leaving, best: Goal) -> Goal {
    let mut best = best;
    for number in board.pins.along(cell_of(leaving.wire)) {
        let pin = field.pin(*number);
        let cost = (leaving.dist as u64).saturating_add(pin.held.cost as u64);
        if cost < best.cost
            && field.is_wanted(pin.class)
            && has_track(pin.opened, track_of(leaving.wire))
        {
            best = Goal {
                cost,
                wire: leaving.wire,
                pin: *number,
            };
        }
    }
    best
}

/// Whether the path of a wave to this wire has a wire of the cell.
fn is_on_path(field: &Field, wire: u32, cell: u32) -> bool {
    let mut on = wire;
    for _ in 0..field.cells.len() {
        if cell_of(on) == cell {
            return true;
        }
        on = field.spot(on).from;
        if on >= DRIVER {
            return false;
        }
    }
    false
}
