//! The graph of the wires of an array at a width.
ghost use Rattle.std.specs.Prelude.{◌≡◌, ◌≤◌, ◌++◌, ℕ, false, IfOk, IfSome, OnOk, filter_map, slice_index_or};
ghost use Rattle.fpga_graph.specs.Around.{cells_around, joint_in};
ghost use Rattle.fpga_graph.specs.Beside.{opened_along};
ghost use Rattle.fpga_graph.specs.Crossing.{GoesAcross};
ghost use Rattle.fpga_graph.specs.Wires.{AreJoints, AreReached, IsWire, joined_wires, opened_wires};
ghost use Rattle.fpga_types.specs.Boxes.{opens};
ghost use Rattle.fpga_types.specs.Pins.{HasPin};
ghost use Rattle.fpga_types.specs.Touching.{touches as is_touched};

use crate::around::cells_around;
use crate::beside::{add_opened, cell_beside};
use crate::crossing::Crossing;
use crate::joint::Joint;
use crate::opened::{MOST_TRACKS, opened_row};
use arrayvec::ArrayVec;
use fpga_fabric::{meet, touches};
use fpga_types::{Arch, Cell, Grid, PinAt, Side, WIDTH_LIMIT, Wire};
use std::alloc::{AllocError, Global};
use std::marker::Model;

/// The wires of an array at a width from 1 to 64, with the switch blocks and connection boxes of an
/// architecture, which is lent.
#[derive(Drop)]
pub struct Graph<'a> {
    arch: &'a Arch,
    grid: Grid,
    width: u32,
}

impl<'a> Model for Graph<'a> {
    ghost use Rattle.fpga_graph.specs.GraphOf.{GraphOf, IsWidth};

    ghost Value = { GraphOf };

    ghost view = { λ g. record { arch = g.arch.now; grid = g.grid; width = g.width } };

    ghost invariant = { λ g. IsWidth g.width };
}

impl<'a> Graph<'a> {
    /// The graph of the wires of an array, with so many tracks a channel. Takes no memory.
    pub fn new(arch: &'a Arch, grid: Grid, width: u32) -> Graph<'a>
        requires { (1 ≤ width) × (width ≤ WIDTH_LIMIT) }
        ensures { result ≡ record { arch = arch.now; grid = grid; width = width } }
    {
        Graph { arch, grid, width }
    }

    /// The wires that are joined to this one: those at the switch block of its lower coordinates,
    /// and then the others, each in the order left, right, bottom, top. The wire is to be one of
    /// the array.
    ///
    /// Takes constant time and no memory.
    pub fn joints(&self, wire: Wire) -> ArrayVec<Joint, 6>
        requires { IsWire self.now wire }
        ensures listed { result.items ≡ joined_wires self.now wire }
        ensures joints { AreJoints self.now wire result.items }
    {
        self.joints_around(wire)
    }

    /// The same by the cells round the wire's own.
    fn joints_around(&self, wire: Wire) -> ArrayVec<Joint, 6>
        requires { IsWire self.now wire }
        ensures { result.items ≡ filter_map (joint_in self.now wire) (cells_around wire.cell) }
    {
        let mut joints = ArrayVec::new();
        for cell in cells_around(self.grid, wire.cell) {
            if let Some(joint) = self.joint(wire, cell) {
                joints.push(joint);
            }
        }
        joints
    }

    /// The wire of a cell that this wire is joined to, if the cell is one of the array and they
    /// meet.
    fn joint(&self, wire: Wire, cell: Cell) -> Option<Joint>
        requires { IsWire self.now wire }
        ensures { result ≡ joint_in self.now wire cell }
    {
        let Some(crossing) = self.crossing(wire.cell, cell) else {
            return None;
        };
        let track = crossing.track(wire.track);
        Some(Joint {
            wire: Wire { cell, track },
        })
    }

    /// How tracks go from the first cell to the second, if both are cells of the array and they
    /// meet.
    ///
    /// Takes constant time and no memory.
    pub fn crossing(&self, from: Cell, to: Cell) -> Option<Crossing>
        ensures tracks { GoesAcross self.now from to result }
        ensures width { IfSome result (λ c. c.width ≡ self.now.width) }
    {
        if !self.grid.has_cell(from) || !self.grid.has_cell(to) {
            return None;
        }
        let Some((_, from, to)) = meet(self.grid, from, to) else {
            return None;
        };
        Some(Crossing {
            pattern: self.arch.pattern,
            width: self.width,
            from,
            to,
        })
    }

    /// Whether the pin touches the cell. A pin of a logic block is to be one of the architecture.
    ///
    /// Takes constant time and no memory.
    pub fn touches(&self, pin: PinAt, cell: Cell) -> bool
        requires { HasPin self.now.arch pin }
        ensures { result ≡ is_touched self.now.arch self.now.grid pin cell }
    {
        touches(self.arch, self.grid, pin, cell)
    }

    /// For each track, rising, whether the pin opens it in the cells that it touches. A pin of a
    /// logic block is to be one of the architecture.
    ///
    /// Takes constant time and no memory.
    pub fn opened(&self, pin: PinAt) -> [bool; MOST_TRACKS]
        requires { HasPin self.now.arch pin }
        ensures { (track : ℕ) → slice_index_or result track false
            ≡ opens self.now.arch self.now.width pin track }
    {
        opened_row(self.arch, self.width, pin)
    }

    /// The wires whose cell the pin touches and whose track it opens, by cell number and then
    /// track. A pin of a logic block is to be one of the architecture.
    ///
    /// Takes constant time, and memory for the list alone.
    pub fn pin_wires(&self, alloc: Global, pin: PinAt) -> Result<Vec<Wire>, AllocError>
        requires { HasPin self.now.arch pin }
        ensures listed { IfOk result (λ wires. wires.items ≡ opened_wires self.now pin) }
        ensures reached { IfOk result (λ wires. AreReached self.now pin wires.items) }
    {
        // In the order of the numbers of the cells along the sides.
        let mut wires = Vec::new(alloc);
        self.add_along(&mut wires, pin, Side::Bottom)?;
        self.add_along(&mut wires, pin, Side::Top)?;
        self.add_along(&mut wires, pin, Side::Left)?;
        self.add_along(&mut wires, pin, Side::Right)?;
        Ok(wires)
    }

    /// Adds the wires that the pin opens along this side of its place.
    fn add_along(&self, wires: &mut Vec<Wire>, pin: PinAt, side: Side) -> Result<(), AllocError>
        requires { HasPin self.now.arch pin }
        ensures { OnOk result
            (wires.new.items ≡ wires.old.items ++ opened_along self.now pin side) }
    {
        let Some(cell) = cell_beside(pin, side) else {
            return Ok(());
        };
        if !touches(self.arch, self.grid, pin, cell) {
            return Ok(());
        }
        add_opened(wires, self.arch, self.width, pin, cell)
    }
}
