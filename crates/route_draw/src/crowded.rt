//! The cells that want more tracks than there are.
ghost use Rattle.std.specs.Prelude.{◌≡◌, ◌+◌, ◌*◌, ◌++◌, IfOk, OnOk, ℕ, codes, decimal, if◌then◌else◌, nat_lt, string_bytes};
ghost use Rattle.fpga_types.specs.CellNumbers.{cell_count};
ghost use Rattle.fpga_types.specs.declared.grid.Cell.{Cell as AnyCell};
ghost use Rattle.route_draw.specs.Area.{area};
ghost use Rattle.route_draw.specs.Crowded.{AddsMarks, IsMarkIf, kind_of, mark_title, place_said, wanted_said};
ghost use Rattle.route_draw.specs.Needs.{AreNeeds};
ghost use Rattle.route_draw.specs.Parts.{Adds};
ghost use Rattle.route_draw.specs.declared.scale.TheConstants.{BLOCK, TILE};

use crate::needs::{cell_count, need_at};
use crate::path::append_rectangle;
use crate::scale::{BLOCK, CHANNEL, Point, block_start, channel_start};
use fpga_types::{Axis, Cell, Grid, cell_of};
use std::alloc::AllocError;

/// Appends a mark on each cell of the array that wants more tracks than there are, and answers how
/// many these are. The table has what each cell wants.
pub(crate) fn append_crowded(
    out: &mut String,
    grid: Grid,
    needs: &[u64],
    width: u32,
) -> Result<u32, AllocError>
    ensures { IfOk result (λ crowded. (wants : AnyCell → ℕ) → AreNeeds grid wants needs.now →
        AddsMarks grid wants width (cell_count grid) crowded (string_bytes out.old)
        (string_bytes out.new)) }
{
    let mut crowded = 0u32;
    for number in 0..cell_count(grid) {
        let cell = cell_of(grid, number);
        let want = need_at(needs, grid, cell);
        crowded += append_if_crowded(out, cell, want, width)?;
    }
    Ok(crowded)
}

// Appends a mark on a cell that wants so many tracks, if it is crowded, and answers how many marks
// these are.
fn append_if_crowded(out: &mut String, cell: Cell, want: u64, width: u32) -> Result<u32, AllocError>
    ensures count { IfOk result (λ marks. marks ≡ (if nat_lt width want then 1 else 0)) }
    ensures added { OnOk result (Adds (IsMarkIf (nat_lt width want) cell want width)
        (string_bytes out.old) (string_bytes out.new)) }
{
    if want <= width as u64 {
        return Ok(0);
    }
    append_mark(out, cell, want, width)?;
    Ok(1)
}

// Appends a mark on a cell.
fn append_mark(out: &mut String, cell: Cell, want: u64, width: u32) -> Result<(), AllocError>
    ensures { OnOk result (string_bytes out.new ≡ string_bytes out.old
        ++ (codes "<path class=\"x\" d=\"" ++ area cell.axis cell.x cell.y
        ++ mark_title cell want width)) }
{
    out.push_str("<path class=\"x\" d=\"")?;
    append_cell(out, cell)?;
    append_place(out, kind_of(cell.axis), cell.x, cell.y)?;
    append_wanted(out, want, width)?;
    Ok(())
}

// Appends the first part of the title of a mark: the kind of channel and the place of the cell.
fn append_place(out: &mut String, kind: &str, x: u32, y: u32) -> Result<(), AllocError>
    ensures { OnOk result
        (string_bytes out.new ≡ string_bytes out.old ++ place_said kind.now x y) }
{
    write!(out, "\"><title>{kind} ({x},{y}")
}

// Appends the rest of it: how many tracks are wanted of how many.
fn append_wanted(out: &mut String, want: u64, width: u32) -> Result<(), AllocError>
    ensures { OnOk result
        (string_bytes out.new ≡ string_bytes out.old ++ wanted_said want width) }
{
    write!(out, "): {want} tracks wanted of {width}</title></path>\n")
}

fn kind_of(axis: Axis) -> &'static str
    ensures { result.now ≡ kind_of axis }
{
    match axis {
        Axis::X => "CHANX",
        Axis::Y => "CHANY",
    }
}

/// Appends the rectangle of a cell.
pub(crate) fn append_cell(out: &mut String, cell: Cell) -> Result<(), AllocError>
    ensures { OnOk result
        (string_bytes out.new ≡ string_bytes out.old ++ area cell.axis cell.x cell.y) }
{
    let Cell { axis, x, y } = cell;
    match axis {
        Axis::X => append_rectangle(out, row_cell(x, y), BLOCK, CHANNEL),
        Axis::Y => append_rectangle(out, column_cell(x, y), CHANNEL, BLOCK),
    }
}

// Where a cell along a row begins.
fn row_cell(x: u32, y: u32) -> Point
    ensures x { result.x ≡ x * TILE }
    ensures y { result.y ≡ y * TILE + BLOCK }
{
    Point {
        x: block_start(x),
        y: channel_start(y),
    }
}

// Where a cell along a column begins.
fn column_cell(x: u32, y: u32) -> Point
    ensures x { result.x ≡ x * TILE + BLOCK }
    ensures y { result.y ≡ y * TILE }
{
    Point {
        x: channel_start(x),
        y: block_start(y),
    }
}
