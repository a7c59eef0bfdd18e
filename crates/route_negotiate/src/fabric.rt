//! The cells of an array, and which tracks they join where they meet.
ghost use Rattle.std.specs.Prelude.{◌≡◌, ◌≤◌};
ghost use Rattle.fpga_types.specs.CellNumbers.{cell_count};
ghost use Rattle.fpga_types.specs.declared.limits.TheConstants.{WIDTH_LIMIT};

use crate::frame::Point;
use crate::row::{at, put, short};
use crate::rows::Rows;
use fpga_graph::{Crossing, Graph};
use fpga_types::{Arch, Axis, Cell, Grid, Side, WIDTH_LIMIT, Wire, cell_number, cell_of};
use std::alloc::{AllocError, Global};

/// How many ways lead from a side of a switch block to a side.
const TURNS: usize = 16;

/// A cell that another one meets, and where the row begins of the tracks that they join.
#[derive(Clone, Copy)]
pub(crate) struct Joint {
    pub cell: u32,
    row: u32,
}

/// The cells of an array by number, and for each the cells that it meets.
#[derive(Drop)]
pub(crate) struct Fabric {
    pub width: u32,
    pub points: Vec<Point>,
    joints: Rows<Joint>,
    /// For each way through a switch block, and each track, the track that it is joined to.
    joined: Vec<u32>,
}

impl Fabric {
    /// The cells of an array with so many tracks each. The time is that of the cells.
    pub(crate) fn new(
        alloc: Global,
        arch: &Arch,
        grid: Grid,
        width: u32,
    ) -> Result<Fabric, AllocError>
        requires { (1 ≤ width) × (width ≤ WIDTH_LIMIT) }
    {
        let mut fabric = Fabric {
            width,
            points: Vec::new(alloc),
            joints: Rows::new(alloc)?,
            joined: vec![in alloc; u32::MAX; TURNS * width as usize]?,
        };
        for number in 0..cell_count(grid) {
            fabric.add_cell(arch, grid, cell_of(grid, number))?;
        }
        Ok(fabric)
    }

    /// Adds a cell with its joints.
    fn add_cell(&mut self, arch: &Arch, grid: Grid, cell: Cell) -> Result<(), AllocError> {
        let width = self.width;
        if width == 0 || width > WIDTH_LIMIT || !grid.has_cell(cell) {
            return Ok(());
        }
        let graph = Graph::new(arch, grid, width);
        self.points.push(point_of(cell))?;
        for joint in graph.joints(Wire { cell, track: 0 }).as_slice() {
            let other = joint.wire.cell;
            if !grid.has_cell(other) {
                continue;
            }
            if let Some(crossing) = graph.crossing(cell, other) {
                let row = self.row_of(crossing);
                let cell = cell_number(grid, other);
                self.joints.push(Joint { cell, row })?;
            }
        }
        self.joints.close()
    }

    /// Where the row begins of the tracks that a switch block joins from side to side.
    fn row_of(&mut self, crossing: Crossing) -> u32 {
        let turn = number_of(crossing.from) * 4 + number_of(crossing.to);
        let row = turn.saturating_mul(self.width);
        if at(&self.joined, row as usize) == u32::MAX {
            for track in 0..crossing.width {
                let place = row.saturating_add(track);
                put(&mut self.joined, place as usize, crossing.track(track));
            }
        }
        row
    }

    /// How many wires there are.
    pub(crate) fn wires(&self) -> usize {
        self.points.len().saturating_mul(self.width as usize)
    }

    /// How many cells there are.
    pub(crate) fn cells(&self) -> u32 {
        short(self.points.len())
    }

    /// The cells that a cell meets.
    pub(crate) fn joints_of(&self, cell: u32) -> &[Joint] {
        self.joints.row(cell as usize)
    }

    /// The track that this one is joined to where two cells meet.
    pub(crate) fn across(&self, joint: Joint, track: u32) -> u32 {
        at(&self.joined, joint.row.wrapping_add(track) as usize)
    }
}

/// How many cells an array has.
pub(crate) fn cell_count(grid: Grid) -> u32
    ensures { result ≡ cell_count grid }
{
    let Grid { nx, ny } = grid;
    nx * (ny + 1) + ny * (nx + 1)
}

/// Where a cell lies.
fn point_of(cell: Cell) -> Point {
    let (x, y) = (cell.x.saturating_mul(2), cell.y.saturating_mul(2));
    match cell.axis {
        Axis::X => Point {
            x,
            y: y.saturating_add(1),
        },
        Axis::Y => Point {
            x: x.saturating_add(1),
            y,
        },
    }
}

/// A number for each side.
fn number_of(side: Side) -> u32
    ensures { result ≤ 3 }
{
    match side {
        Side::Left => 0,
        Side::Right => 1,
        Side::Bottom => 2,
        Side::Top => 3,
    }
}
