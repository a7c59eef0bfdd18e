//! The cells round a cell.
ghost use Rattle.std.specs.Prelude.{◌≡◌, IsTrue};
ghost use Rattle.fpga_graph.specs.Around.{cells_around};
ghost use Rattle.fpga_graph.specs.Cells.{column_cell, row_cell};
ghost use Rattle.fpga_types.specs.Fabric.{is_cell};

use fpga_types::{Axis, Cell, Grid};

/// The cells across the lower end of a cell of the array, and then those across the upper one, each
/// in the order left, right, bottom, top. Beside the border some are none of the array.
pub(crate) fn cells_around(grid: Grid, cell: Cell) -> [Cell; 6]
    requires { IsTrue (is_cell grid cell) }
    ensures { result ≡ cells_around cell }
{
    // The limits of the array keep all coordinates in range.
    let Grid { nx: _, ny: _ } = grid;
    let Cell { axis, x, y } = cell;
    match axis {
        Axis::X => {
            let before = x.saturating_sub(1);
            [
                row_cell(before, y),
                column_cell(before, y),
                column_cell(before, y + 1),
                row_cell(x + 1, y),
                column_cell(x, y),
                column_cell(x, y + 1),
            ]
        }
        Axis::Y => {
            let below = y.saturating_sub(1);
            [
                row_cell(x, below),
                row_cell(x + 1, below),
                column_cell(x, below),
                row_cell(x, y),
                row_cell(x + 1, y),
                column_cell(x, y + 1),
            ]
        }
    }
}

/// The cell at (x,y) along a row.
pub(crate) fn row_cell(x: u32, y: u32) -> Cell
    ensures { result ≡ row_cell x y }
{
    Cell {
        axis: Axis::X,
        x,
        y,
    }
}

/// The cell at (x,y) along a column.
pub(crate) fn column_cell(x: u32, y: u32) -> Cell
    ensures { result ≡ column_cell x y }
{
    Cell {
        axis: Axis::Y,
        x,
        y,
    }
}
