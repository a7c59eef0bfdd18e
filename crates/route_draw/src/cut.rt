//! The cells of a cut.
ghost use Rattle.std.specs.Prelude.{◌≡◌, ◌++◌, IfOk, OnOk, codes, string_bytes};
ghost use Rattle.fpga_types.specs.CellNumbers.{cell_count};
ghost use Rattle.route_bound.specs.Corners.{far_corner as far, is_cut_cell as cut_cell, near_corner as near};
ghost use Rattle.route_bound.specs.Ranges.{corners_of, is_between as between};
ghost use Rattle.route_draw.specs.Area.{area};
ghost use Rattle.route_draw.specs.Cut.{AreBands, IsBand, cut_of};
ghost use Rattle.route_draw.specs.Parts.{Adds};
ghost use Rattle.route_draw.specs.Picture.{IsCutIf};

use crate::crowded::append_cell;
use crate::group::{Label, append_group};
use crate::needs::cell_count;
use fpga_types::{Axis, Cell, Grid, SwitchAt, cell_of};
use route_bound::CornerRange;
use std::alloc::{AllocError, Global};

/// A cut that is to be shown: the corners round which it goes, and the line that says it. Of an
/// array its cells are those with one corner among these and one that is not; where the corners
/// reach past the array, or are none, these may be few or none.
#[derive(Clone, Copy)]
pub struct ShownCut<'a> {
    pub range: CornerRange,
    pub line: &'a [u8],
}

/// Appends the group of a cut, if one is shown: a band over each of its cells.
pub(crate) fn append_cut(
    out: &mut String,
    alloc: Global,
    grid: Grid,
    cut: Option<ShownCut<'_>>,
) -> Result<(), AllocError>
    ensures { OnOk result (Adds (IsCutIf grid (cut_of cut.entry)) (string_bytes out.old)
        (string_bytes out.new)) }
{
    let Some(cut) = cut else {
        return Ok(());
    };
    let bands = bands(alloc, grid, cut.range)?;
    let label = Label {
        mark: "",
        class: "cut\" fill-opacity=\".4\" fill=\"",
        colour: "#8c46ff",
        name: cut.line,
    };
    append_group(out, label, bands.as_str())?;
    Ok(())
}

// The bands over the cells of the cut round these corners.
fn bands(alloc: Global, grid: Grid, range: CornerRange) -> Result<String, AllocError>
    ensures { IfOk result (λ text. AreBands grid range (cell_count grid) (string_bytes text)) }
{
    let mut out = String::new(alloc);
    append_bands(&mut out, grid, range)?;
    Ok(out)
}

fn append_bands(out: &mut String, grid: Grid, range: CornerRange) -> Result<(), AllocError>
    ensures { OnOk result (Adds (AreBands grid range (cell_count grid)) (string_bytes out.old)
        (string_bytes out.new)) }
{
    for number in 0..cell_count(grid) {
        append_if_cut(out, range, cell_of(grid, number))?;
    }
    Ok(())
}

// Appends a band over a cell if it is one of the cut.
fn append_if_cut(out: &mut String, range: CornerRange, cell: Cell) -> Result<(), AllocError>
    ensures { OnOk result
        (Adds (IsBand range cell) (string_bytes out.old) (string_bytes out.new)) }
{
    if !is_cut_cell(range, cell) {
        return Ok(());
    }
    append_band(out, cell)
}

fn append_band(out: &mut String, cell: Cell) -> Result<(), AllocError>
    ensures { OnOk result (string_bytes out.new ≡ string_bytes out.old
        ++ (codes "<path d=\"" ++ area cell.axis cell.x cell.y ++ codes "\"/>")) }
{
    out.push_str("<path d=\"")?;
    append_cell(out, cell)?;
    out.push_str("\"/>")?;
    Ok(())
}

// Whether a cell has one end among the corners, and one that is not.
fn is_cut_cell(range: CornerRange, cell: Cell) -> bool
    ensures { result ≡ cut_cell (corners_of range) cell }
{
    let near = has(range, near_corner(cell));
    let far = has(range, far_corner(cell));
    (near || far) && (!near || !far)
}

fn has(range: CornerRange, at: SwitchAt) -> bool
    ensures { result ≡ corners_of range at }
{
    let CornerRange { low, high } = range;
    is_between(low.i, high.i, at.i) && is_between(low.j, high.j, at.j)
}

fn is_between(a: u32, b: u32, n: u32) -> bool
    ensures { result ≡ between a b n }
{
    a <= n && n <= b
}

// The corner at the left or lower end of a cell.
fn near_corner(cell: Cell) -> SwitchAt
    ensures { result ≡ near cell.axis cell.x cell.y }
{
    let Cell { axis, x, y } = cell;
    match axis {
        Axis::X => SwitchAt {
            i: x.saturating_sub(1),
            j: y,
        },
        Axis::Y => SwitchAt {
            i: x,
            j: y.saturating_sub(1),
        },
    }
}

// The corner at its right or upper end.
fn far_corner(cell: Cell) -> SwitchAt
    ensures { result ≡ far cell.x cell.y }
{
    SwitchAt {
        i: cell.x,
        j: cell.y,
    }
}
