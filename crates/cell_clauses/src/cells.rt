//! The cells of a window.
ghost use Rattle.std.specs.Prelude.{◌≡◌, ◌+◌, ◌≤◌, ◌++◌, [], ◌∷◌, IfOk, OnOk, filter};
ghost use Rattle.cell_clauses.specs.Sides.{cells_of_row, cells_of_rows};
ghost use Rattle.route_bound.specs.Corners.{has_corner_in};
ghost use Rattle.route_bound.specs.Lying.{cells_in};
ghost use Rattle.route_bound.specs.Ranges.{corners_of};

use crate::span::Span;
use fpga_types::{Axis, Cell, Grid};
use route_bound::CornerRange;
use std::alloc::{AllocError, Global};

/// The cells of an array that have one of these corners, by number.
///
/// # Errors
/// Where memory is short.
pub(crate) fn window_cells(
    alloc: Global,
    grid: Grid,
    range: CornerRange,
) -> Result<Vec<Cell>, AllocError>
    ensures { IfOk result (λ cells. cells.items
        ≡ cells_in grid (has_corner_in (corners_of range))) }
{
    let Grid { nx, ny } = grid;
    let mut cells = Vec::new(alloc);
    let columns = Span {
        first: 1,
        count: nx,
    };
    let rows = Span {
        first: 0,
        count: ny + 1,
    };
    add_rows(&mut cells, range, Axis::X, columns, rows)?;
    let columns = Span {
        first: 0,
        count: nx + 1,
    };
    let rows = Span {
        first: 1,
        count: ny,
    };
    add_rows(&mut cells, range, Axis::Y, columns, rows)?;
    Ok(cells)
}

/// Adds the cells of one direction in some rows that have one of these corners.
fn add_rows(
    cells: &mut Vec<Cell>,
    range: CornerRange,
    axis: Axis,
    columns: Span,
    rows: Span,
) -> Result<(), AllocError>
    ensures { OnOk result (cells.new.items ≡ cells.old.items
        ++ filter (has_corner_in (corners_of range)) (cells_of_rows axis columns rows)) }
{
    for row in 0..rows.count {
        add_row(cells, range, axis, columns, rows.first + row)?;
    }
    Ok(())
}

/// Adds the cells of one direction in a row that have one of these corners.
fn add_row(
    cells: &mut Vec<Cell>,
    range: CornerRange,
    axis: Axis,
    columns: Span,
    y: u32,
) -> Result<(), AllocError>
    ensures { OnOk result (cells.new.items ≡ cells.old.items
        ++ filter (has_corner_in (corners_of range)) (cells_of_row axis columns y)) }
{
    for column in 0..columns.count {
        let x = columns.first + column;
        add_cell(cells, range, Cell { axis, x, y })?;
    }
    Ok(())
}

/// Adds a cell, if it has one of these corners.
fn add_cell(cells: &mut Vec<Cell>, range: CornerRange, cell: Cell) -> Result<(), AllocError>
    ensures { OnOk result (cells.new.items ≡ cells.old.items
        ++ filter (has_corner_in (corners_of range)) (cell ∷ [])) }
{
    if !range.standing(cell).inside {
        return Ok(());
    }
    cells.push(cell)?;
    Ok(())
}
