//! Parts of the data of a path of SVG. Each begins with a move, so that they stand in any order.
ghost use Rattle.std.specs.Prelude.{◌≡◌, ◌++◌, OnOk, codes, decimal, string_bytes};
ghost use Rattle.route_draw.specs.Area.{rectangle};

use crate::scale::Point;
use std::alloc::AllocError;

/// Appends a line to the right.
pub(crate) fn append_across(out: &mut String, from: Point, length: u64) -> Result<(), AllocError>
    ensures { OnOk result (string_bytes out.new ≡ string_bytes out.old ++ (codes "M"
        ++ decimal from.x ++ codes " " ++ decimal from.y ++ codes "h" ++ decimal length)) }
{
    let Point { x, y } = from;
    write!(out, "M{x} {y}h{length}")
}

/// Appends a line upwards.
pub(crate) fn append_up(out: &mut String, from: Point, length: u64) -> Result<(), AllocError>
    ensures { OnOk result (string_bytes out.new ≡ string_bytes out.old ++ (codes "M"
        ++ decimal from.x ++ codes " " ++ decimal from.y ++ codes "v" ++ decimal length)) }
{
    let Point { x, y } = from;
    write!(out, "M{x} {y}v{length}")
}

/// Appends a line from one point to another.
pub(crate) fn append_line(out: &mut String, from: Point, to: Point) -> Result<(), AllocError> {
    let Point { x, y } = from;
    let Point { x: u, y: v } = to;
    write!(out, "M{x} {y}L{u} {v}")
}

/// Appends a line so short that it is a dot.
pub(crate) fn append_dot(out: &mut String, at: Point) -> Result<(), AllocError> {
    append_across(out, at, 1)
}

/// Appends a rectangle from its lower left corner on.
pub(crate) fn append_rectangle(
    out: &mut String,
    at: Point,
    width: u64,
    height: u64,
) -> Result<(), AllocError>
    ensures { OnOk result (string_bytes out.new ≡ string_bytes out.old
        ++ rectangle at.x at.y width height) }
{
    let Point { x, y } = at;
    write!(out, "M{x} {y}h{width}v{height}h-{width}z")
}
