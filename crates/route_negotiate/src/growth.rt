//! A tree that grows from path to path, until each class of the net is reached.

use crate::board::Board;
use crate::field::{DRIVER, Field};
use crate::front::Front;
use crate::row::{at, short};
use crate::sites::has_track;
use crate::tree::{Step, Tree};
use crate::wave::Goal;
use crate::wires::{cell_of, track_of};
use std::alloc::AllocError;

/// How a net is to be routed: from these tracks on, so many blocks round its pins, and for less
/// than so much.
#[derive(Clone, Copy)]
pub(crate) struct Attempt {
    pub net: usize,
    pub tracks: u64,
    pub slack: u32,
    pub bound: u64,
}

impl Front {
    /// Routes a net into an empty tree: its cost, or none where there is no way so.
    pub(crate) fn route(
        &mut self,
        board: &Board<'_>,
        field: &mut Field,
        tree: &mut Tree,
        attempt: Attempt,
    ) -> Result<Option<u64>, AllocError> {
        self.begin(board, field, attempt.net, attempt.slack)?;
        let mut total: u64 = 0;
        for _ in 0..self.left_count() {
            self.enter(board, field, tree, attempt)?;
            let bound = attempt.bound.saturating_sub(total);
            let Some(goal) = self.spread(board, field, bound)? else {
                return Ok(None);
            };
            total = total.saturating_add(goal.cost);
            self.join(board, field, tree, attempt.net, goal)?;
        }
        Ok(Some(total))
    }

    /// Begins a wave at the tree and at the driver.
    fn enter(
        &mut self,
        board: &Board<'_>,
        field: &mut Field,
        tree: &Tree,
        attempt: Attempt,
    ) -> Result<(), AllocError> {
        self.enter_tree(field)?;
        for start in board.nets.starts_of(attempt.net) {
            let mut tracks = start.opened;
            if tree.is_empty() {
                tracks &= attempt.tracks;
            } else if start.pin != tree.leaves {
                continue;
            }
            self.enter_start(field, *start, tracks, board.fabric.width)?;
        }
        Ok(())
    }

    /// Puts the path to a goal into the tree, and takes its class off what is left.
    fn join(
        &mut self,
        board: &Board<'_>,
        field: &mut Field,
        tree: &mut Tree,
        net: usize,
        goal: Goal,
    ) -> Result<(), AllocError> {
        let begin = tree.path.len();
        let fresh = trace(field, tree, goal.wire)?;
        if fresh && tree.is_empty() {
            tree.leaves = leaving_pin(board, field, net, at(&tree.path, begin));
        }
        for k in begin..tree.path.len() {
            let wire = at(&tree.path, k);
            if field.grow(wire) {
                self.grown.push(wire)?;
            }
        }
        tree.steps.push(Step {
            begin: short(begin),
            pin: goal.pin,
            fresh,
        })?;
        let class = field.pin(goal.pin).class;
        self.reach(field, class);
        Ok(())
    }
}

/// Adds the wires of a wave's path to this wire, the first one first: whether the path begins at
/// the driver.
fn trace(field: &Field, tree: &mut Tree, last: u32) -> Result<bool, AllocError> {
    let begin = tree.path.len();
    let mut fresh = false;
    let mut wire = last;
    for _ in 0..field.spots.len() {
        tree.path.push(wire)?;
        let from = field.spot(wire).from;
        if from >= DRIVER {
            fresh = from == DRIVER;
            break;
        }
        wire = from;
    }
    if begin <= tree.path.len() {
        tree.path[begin..].reverse();
    }
    Ok(fresh)
}

/// The cheapest pin of the driver that opens the wire.
fn leaving_pin(board: &Board<'_>, field: &Field, net: usize, wire: u32) -> u32 {
    let mut least = u32::MAX;
    let mut leaves = u32::MAX;
    for start in board.nets.starts_of(net) {
        let cost = field.pin(start.pin).held.cost.saturating_add(start.extra);
        if start.cell == cell_of(wire) && has_track(start.opened, track_of(wire)) && cost < least {
            least = cost;
            leaves = start.pin;
        }
    }
    leaves
}
