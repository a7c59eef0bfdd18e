//! The array and what lies in it, numbered as in VPR 4.30.
ghost use Rattle.std.specs.Prelude.{◌≡◌};

use std::marker::Model;

/// A side of a block or of a switch block.
#[derive(Clone, Copy)]
pub enum Side {
    Left,
    Right,
    Bottom,
    Top,
}

/// The direction in which a channel runs.
#[derive(Clone, Copy, PartialEq, Eq, PartialOrd, Ord)]
pub enum Axis {
    X,
    Y,
}

/// An array of `nx` columns and `ny` rows of logic blocks, each from 1 to 100.
#[derive(Clone, Copy)]
pub struct Grid {
    pub nx: u32,
    pub ny: u32,
}

impl Model for Grid {
    ghost use Rattle.fpga_types.specs.Size.{Size, AreLimited};

    ghost Value = { Size };

    ghost view = { λ g. record { nx = g.nx; ny = g.ny } };

    ghost invariant = { λ g. AreLimited g.nx g.ny };

    ghost inverse = { λ s. record { nx = s.nx; ny = s.ny } };
}

impl Grid {
    ghost use Rattle.fpga_types.specs.Fabric.{is_cell};

    /// Whether the cell is one of the array.
    pub fn has_cell(self, cell: Cell) -> bool
        ensures { result ≡ is_cell self cell }
    {
        match cell.axis {
            Axis::X => 1 <= cell.x && cell.x <= self.nx && cell.y <= self.ny,
            Axis::Y => cell.x <= self.nx && 1 <= cell.y && cell.y <= self.ny,
        }
    }
}

/// A cell: one unit of a channel. `X` at (x,y) lies above row y, `Y` to the right of column x.
#[derive(Clone, Copy, PartialEq, Eq, PartialOrd, Ord)]
pub struct Cell {
    pub axis: Axis,
    pub x: u32,
    pub y: u32,
}

/// One track of a cell.
#[derive(Clone, Copy)]
pub struct Wire {
    pub cell: Cell,
    pub track: u32,
}

/// A switch block: the corner above row j and to the right of column i.
#[derive(Clone, Copy)]
pub struct SwitchAt {
    pub i: u32,
    pub j: u32,
}

/// A pin of a placed block: a pad by its place and subblock number, or a pin of a logic block by
/// its place and number.
#[derive(Clone, Copy)]
pub enum PinAt {
    Pad { x: u32, y: u32, sub: u32 },
    Pin { x: u32, y: u32, pin: u32 },
}
