//! Trees along the cells of a route that is given.

use crate::board::Board;
use crate::field::Field;
use crate::routing::tree_places;
use crate::row::{at, short};
use crate::sites::has_track;
use crate::tree::{Step, Tree};
use crate::wires::{cell_of, track_of, wire_of};
use fpga_types::{Elem, ElemKind, Net, PinAt, RouteNet, RouteText, cell_number, number_name};
use std::alloc::{AllocError, Global};
use std::collections::BTreeMap;

/// What stands before an element of a net.
#[derive(Clone, Copy)]
enum Before {
    /// A pin of the driver.
    Driver,
    /// A channel, on this wire.
    Wire(u32),
    /// The end of a path.
    End,
}

/// How far a net was followed: what stands before, where its path begins and whether at the driver,
/// on which track one from the driver does, the pin that the path comes to, and how often other
/// nets take what it takes.
#[derive(Clone, Copy)]
struct Follower {
    before: Before,
    begin: u32,
    track: u32,
    fresh: bool,
    pin: u32,
    shared: u64,
}

/// Makes a tree along the elements of a net, whose first path leaves the driver on the tree's start
/// track, and each later one that leaves it on the track on which that path shares least: how often
/// other nets take what the tree takes. None where these tracks do not lead through all pins.
pub(crate) fn follow(
    board: &Board<'_>,
    field: &mut Field,
    tree: &mut Tree,
    net: usize,
    elems: &[Elem],
) -> Result<Option<u64>, AllocError> {
    field.next_tree();
    let mut follower = Follower {
        before: Before::End,
        begin: 0,
        track: tree.start,
        fresh: false,
        pin: u32::MAX,
        shared: 0,
    };
    for (k, e) in elems.iter().enumerate() {
        let ahead = &elems[k + 1..];
        if !follower.go_on(board, field, tree, net, *e, ahead)? {
            return Ok(None);
        }
    }
    Ok(Some(follower.shared))
}

impl Follower {
    /// Takes the next element, with those ahead of it: whether the net can be followed so far.
    fn go_on(
        &mut self,
        board: &Board<'_>,
        field: &mut Field,
        tree: &mut Tree,
        net: usize,
        e: Elem,
        ahead: &[Elem],
    ) -> Result<bool, AllocError> {
        match e.kind {
            ElemKind::Source => Ok(true),
            ElemKind::Opin => Ok(self.leave(board, field, tree, net, e, ahead)),
            ElemKind::ChanX | ElemKind::ChanY => self.pass(board, field, tree, net, e),
            ElemKind::Ipin => Ok(self.enter(board, field, e)),
            ElemKind::Sink => self.end(tree),
        }
    }

    /// Begins a path at a pin of the driver.
    fn leave(
        &mut self,
        board: &Board<'_>,
        field: &Field,
        tree: &mut Tree,
        net: usize,
        e: Elem,
        ahead: &[Elem],
    ) -> bool {
        for start in board.nets.starts_of(net) {
            if is_pin(board, start.pin, e) {
                let stays = tree.leaves == u32::MAX || tree.leaves == start.pin;
                if !tree.is_empty() {
                    self.track = least_track(board, field, net, start.pin, ahead);
                }
                tree.leaves = start.pin;
                self.before = Before::Driver;
                self.begin = short(tree.path.len());
                self.fresh = true;
                return stays;
            }
        }
        false
    }

    /// Goes on to a channel.
    fn pass(
        &mut self,
        board: &Board<'_>,
        field: &mut Field,
        tree: &mut Tree,
        net: usize,
        e: Elem,
    ) -> Result<bool, AllocError> {
        let Some(cell) = channel_number(board, e) else {
            return Ok(false);
        };
        let wire = match self.before {
            Before::Driver => first_wire(board, net, tree.leaves, cell, self.track),
            Before::Wire(last) => next_wire(board, last, cell),
            Before::End => return self.branch(board, field, tree, cell),
        };
        let Some(wire) = wire else {
            return Ok(false);
        };
        if field.cell(cell).tree == field.tree {
            return Ok(false);
        }
        field.grow(wire);
        self.shared = self
            .shared
            .saturating_add(field.spot(wire).held.taken as u64);
        self.before = Before::Wire(wire);
        tree.path.push(wire)?;
        Ok(true)
    }

    /// Begins a path at a wire of the tree.
    fn branch(
        &mut self,
        board: &Board<'_>,
        field: &Field,
        tree: &mut Tree,
        cell: u32,
    ) -> Result<bool, AllocError> {
        for track in 0..board.fabric.width {
            let wire = wire_of(cell, track);
            if field.spot(wire).tree == field.tree {
                self.before = Before::Wire(wire);
                self.begin = short(tree.path.len());
                self.fresh = false;
                tree.path.push(wire)?;
                return Ok(true);
            }
        }
        Ok(false)
    }

    /// Comes to a pin.
    fn enter(&mut self, board: &Board<'_>, field: &Field, e: Elem) -> bool {
        let Before::Wire(wire) = self.before else {
            return false;
        };
        let Some(number) = entered_pin(board, field, wire, e) else {
            return false;
        };
        self.pin = number;
        self.shared = self
            .shared
            .saturating_add(field.pin(number).held.taken as u64);
        true
    }

    /// Ends a path.
    fn end(&mut self, tree: &mut Tree) -> Result<bool, AllocError> {
        tree.steps.push(Step {
            begin: self.begin,
            pin: self.pin,
            fresh: self.fresh,
        })?;
        self.before = Before::End;
        Ok(true)
    }
}

/// The number of the cell of a channel.
fn channel_number(board: &Board<'_>, e: Elem) -> Option<u32> {
    let grid = board.placement.grid;
    let cell = e.cell()?;
    if !grid.has_cell(cell) {
        return None;
    }
    Some(cell_number(grid, cell))
}

/// The pin that a line names, if it lies along a wire and opens it.
fn entered_pin(board: &Board<'_>, field: &Field, wire: u32, e: Elem) -> Option<u32> {
    for number in board.pins.along(cell_of(wire)) {
        let opened = field.pin(*number).opened;
        if is_pin(board, *number, e) && has_track(opened, track_of(wire)) {
            return Some(*number);
        }
    }
    None
}

/// The track on which the path ahead shares least that leaves the driver by this pin.
fn least_track(board: &Board<'_>, field: &Field, net: usize, pin: u32, ahead: &[Elem]) -> u32 {
    let mut least = u64::MAX;
    let mut best = 0;
    for track in 0..board.fabric.width {
        if let Some(shared) = shared_on(board, field, net, pin, track, ahead)
            && shared < least
        {
            least = shared;
            best = track;
        }
    }
    best
}

/// How often other nets take what the path ahead takes that leaves the driver by this pin on this
/// track. None where the track does not lead to its end.
fn shared_on(
    board: &Board<'_>,
    field: &Field,
    net: usize,
    pin: u32,
    track: u32,
    ahead: &[Elem],
) -> Option<u64> {
    let mut shared: u64 = 0;
    let mut last = None;
    for e in ahead {
        if let Some(cell) = channel_number(board, *e) {
            let wire = match last {
                None => first_wire(board, net, pin, cell, track)?,
                Some(wire) => next_wire(board, wire, cell)?,
            };
            shared = shared.saturating_add(field.spot(wire).held.taken as u64);
            last = Some(wire);
            continue;
        }
        let entered = entered_pin(board, field, last?, *e)?;
        return Some(shared.saturating_add(field.pin(entered).held.taken as u64));
    }
    None
}

/// The wire of a cell along a pin of the driver on a track, if the pin opens it.
fn first_wire(board: &Board<'_>, net: usize, pin: u32, cell: u32, track: u32) -> Option<u32> {
    for start in board.nets.starts_of(net) {
        if start.pin == pin && start.cell == cell && has_track(start.opened, track) {
            return Some(wire_of(cell, track));
        }
    }
    None
}

/// The wire of a cell that a wire is joined to.
fn next_wire(board: &Board<'_>, last: u32, cell: u32) -> Option<u32> {
    for joint in board.fabric.joints_of(cell_of(last)) {
        if joint.cell == cell {
            return Some(wire_of(cell, board.fabric.across(*joint, track_of(last))));
        }
    }
    None
}

/// Whether a pin line speaks of the pin with this number.
fn is_pin(board: &Board<'_>, number: u32, e: Elem) -> bool {
    match (board.pin_at(number), e.pin()) {
        (
            Some(PinAt::Pad { x, y, sub }),
            Some(
                PinAt::Pad {
                    x: u,
                    y: v,
                    sub: other,
                },
            ),
        ) => { x == u && y == v && sub == other }
        (
            Some(PinAt::Pin { x, y, pin }),
            Some(
                PinAt::Pin {
                    x: u,
                    y: v,
                    pin: other,
                },
            ),
        ) => { x == u && y == v && pin == other }
        _ => false,
    }
}

/// For each net of a route the place of its net among those to be routed.
pub(crate) fn given_places(
    alloc: Global,
    board: &Board<'_>,
    route: &RouteText,
) -> Result<Vec<u32>, AllocError> {
    let numbered = tree_places(alloc, board)?;
    places_by(
        alloc,
        board.netlist.nets.as_slice(),
        &numbered,
        route.nets.as_slice(),
    )
}

/// For each net of a route what these have for the number of its net.
fn places_by<'a>(
    alloc: Global,
    nets: &'a [Net],
    numbered: &[u32],
    given: &'a [RouteNet],
) -> Result<Vec<u32>, AllocError> {
    let mut numbers = BTreeMap::new(alloc);
    number_nets(&mut numbers, nets)?;
    places_in(alloc, &numbers, numbered, given)
}

/// Numbers nets by name.
fn number_nets<'a>(
    numbers: &mut BTreeMap<&'a [u8], usize>,
    nets: &'a [Net],
) -> Result<(), AllocError> {
    for (number, net) in nets.iter().enumerate() {
        number_name(numbers, net.name.bytes.as_slice(), number)?;
    }
    Ok(())
}

/// For each net of a route what these have for its number.
fn places_in<'a>(
    alloc: Global,
    numbers: &BTreeMap<&'a [u8], usize>,
    numbered: &[u32],
    given: &'a [RouteNet],
) -> Result<Vec<u32>, AllocError> {
    let mut places = Vec::with_capacity(alloc, given.len())?;
    for net in given {
        places.push(place_in(numbers, numbered, net))?;
    }
    Ok(places)
}

/// What these have for the number of a net.
fn place_in<'a>(numbers: &BTreeMap<&'a [u8], usize>, numbered: &[u32], net: &'a RouteNet) -> u32 {
    match numbers.get(&net.name.bytes.as_slice()) {
        Some(number) if !net.global => at(numbered, *number),
        _ => u32::MAX,
    }
}
