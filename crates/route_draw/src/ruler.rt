//! The numbers of columns and rows, along the lower and the left edge of the array.
ghost use Rattle.std.specs.Prelude.{◌≡◌, ◌++◌, ◌≤◌, OnOk, string_bytes};
ghost use Rattle.fpga_types.specs.declared.limits.TheConstants.{SIDE_LIMIT};
ghost use Rattle.route_draw.specs.Ruler.{AreRulers, columns, number_at, number_if, rows, ruler_opening, step_of};
ghost use Rattle.route_draw.specs.Parts.{Adds};

use crate::scale::{BLOCK, Point, block_start};
use fpga_types::Grid;
use std::alloc::AllocError;

/// Appends the numbers of columns below the array, and those of rows on its left. Both are given
/// by where the first would stand, were it at the start of its axis.
pub(crate) fn append_rulers(
    out: &mut String,
    grid: Grid,
    below: Point,
    beside: Point,
) -> Result<(), AllocError>
    ensures { OnOk result (Adds (AreRulers grid) (string_bytes out.old) (string_bytes out.new)) }
{
    let Grid { nx, ny } = grid;
    append_opening(out, "r", below)?;
    append_columns(out, nx)?;
    out.push_str("</g>\n")?;
    append_opening(out, "r e", beside)?;
    append_rows(out, ny)?;
    out.push_str("</g>\n")?;
    Ok(())
}

fn append_opening(out: &mut String, class: &str, at: Point) -> Result<(), AllocError>
    ensures { OnOk result (string_bytes out.new
        ≡ string_bytes out.old ++ ruler_opening class.now at.x at.y) }
{
    let Point { x, y } = at;
    write!(
        out,
        "<g class=\"{class}\" transform=\"translate({x} {y})\">\n"
    )
}

// The numbers of columns, from that of the pads on the left on.
fn append_columns(out: &mut String, count: u32) -> Result<(), AllocError>
    requires few { count ≤ SIDE_LIMIT }
    ensures { OnOk result (string_bytes out.new ≡ string_bytes out.old ++ columns count) }
{
    let step = step(count);
    for column in 0..count + 1 {
        append_if(out, step, "x", block_start(column) + BLOCK / 2, column)?;
    }
    Ok(())
}

// The numbers of rows, from that of the pads below on.
fn append_rows(out: &mut String, count: u32) -> Result<(), AllocError>
    requires few { count ≤ SIDE_LIMIT }
    ensures { OnOk result (string_bytes out.new ≡ string_bytes out.old ++ rows count) }
{
    let step = step(count);
    for row in 0..count + 1 {
        let above = (count + 1).saturating_sub(row);
        append_if(out, step, "y", block_start(above) + BLOCK / 2, row)?;
    }
    Ok(())
}

// From one number to the next: on a long side most are left out.
fn step(count: u32) -> u32
    ensures of { result ≡ step_of count }
    ensures some { 1 ≤ result }
{
    match count {
        0..=12 => 1,
        13..=60 => 5,
        _ => 10,
    }
}

// Appends a number if the step divides it.
fn append_if(
    out: &mut String,
    step: u32,
    axis: &str,
    at: u64,
    number: u32,
) -> Result<(), AllocError>
    requires step { 1 ≤ step }
    ensures { OnOk result (string_bytes out.new
        ≡ string_bytes out.old ++ number_if step axis.now at number) }
{
    if number % step != 0 {
        return Ok(());
    }
    append_number(out, axis, at, number)
}

fn append_number(out: &mut String, axis: &str, at: u64, number: u32) -> Result<(), AllocError>
    ensures { OnOk result
        (string_bytes out.new ≡ string_bytes out.old ++ number_at axis.now at number) }
{
    write!(out, "<text {axis}=\"{at}\">{number}</text>\n")
}
