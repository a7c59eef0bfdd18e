//! The tracks on which the source of a net reaches a cell.
ghost use Rattle.std.specs.Prelude.{◌≡◌, ◌||◌, ◌&&◌, ℕ, false, filter_map, slice_get, slice_index_or};
ghost use Rattle.std.specs.List.{list_any};
ghost use Rattle.fpga_graph.specs.Wires.{wire_in};
ghost use Rattle.fpga_types.specs.Pins.{HasPin};
ghost use Rattle.fpga_types.specs.Touching.{all_sides};
ghost use Rattle.route_reach.specs.Encoding.{reaches};
ghost use Rattle.route_reach.specs.Ends.{opin_of};
ghost use Rattle.route_reach.specs.Pins.{AreTogether, is_along};

use crate::ends::opin_of;
use fpga_graph::{Graph, MOST_TRACKS, cell_beside};
use fpga_types::{Cell, Elem, PinAt, Side};

/// For each track whether the pin of some OPIN line among these reaches the cell's wire of it. The
/// time is that of the lines where the cell is beside the place of the pins, and else that to the
/// first OPIN line.
pub(crate) fn source_row(graph: &Graph<'_>, elems: &[Elem], cell: Cell) -> [bool; MOST_TRACKS]
    requires { AreTogether graph.now.arch (filter_map opin_of elems.now) }
    ensures { (t : ℕ) → slice_index_or result t false
        ≡ list_any (λ out. reaches graph.now out (wire_in cell t)) (filter_map opin_of elems.now) }
{
    let Some(first) = first_out(elems) else {
        return [false; MOST_TRACKS];
    };
    if !is_beside(first, cell) {
        return [false; MOST_TRACKS];
    }
    row_of_outs(graph, elems, cell)
}

/// The same, always in the time of the lines.
fn row_of_outs(graph: &Graph<'_>, elems: &[Elem], cell: Cell) -> [bool; MOST_TRACKS]
    requires { AreTogether graph.now.arch (filter_map opin_of elems.now) }
    ensures { (t : ℕ) → slice_index_or result t false
        ≡ list_any (λ out. reaches graph.now out (wire_in cell t)) (filter_map opin_of elems.now) }
{
    let mut row = [false; MOST_TRACKS];
    for e in elems {
        if let Some(out) = opin_of(*e) {
            mark_reached(&mut row, graph, out, cell);
        }
    }
    row
}

/// Marks the tracks of the cell's wires that the pin reaches.
fn mark_reached(row: &mut [bool; MOST_TRACKS], graph: &Graph<'_>, out: PinAt, cell: Cell)
    requires { HasPin graph.now.arch out }
    ensures { (t : ℕ) → slice_index_or row.new t false
        ≡ (slice_index_or row.old t false || reaches graph.now out (wire_in cell t)) }
{
    if !graph.touches(out, cell) {
        return;
    }
    let opened = graph.opened(out);
    mark_all(row, &opened);
}

/// Marks what is marked in the other row.
fn mark_all(row: &mut [bool; MOST_TRACKS], other: &[bool; MOST_TRACKS])
    ensures { (t : ℕ) → slice_index_or row.new t false
        ≡ (slice_index_or row.old t false || slice_index_or other.now t false) }
{
    for t in 0..MOST_TRACKS {
        if other[t] {
            row[t] = true;
        }
    }
}

/// The pin of the first OPIN line.
fn first_out(elems: &[Elem]) -> Option<PinAt>
    ensures { result ≡ slice_get (filter_map opin_of elems.now) 0 }
{
    for e in elems {
        if let Some(out) = opin_of(*e) {
            return Some(out);
        }
    }
    None
}

/// Whether the cell lies along a side of the pin's place.
fn is_beside(pin: PinAt, cell: Cell) -> bool
    ensures { result ≡ list_any (is_along pin cell) all_sides }
{
    is_along(pin, Side::Left, cell)
        || is_along(pin, Side::Right, cell)
        || is_along(pin, Side::Bottom, cell)
        || is_along(pin, Side::Top, cell)
}

/// Whether the cell lies along this side of the pin's place.
fn is_along(pin: PinAt, side: Side, cell: Cell) -> bool
    ensures { result ≡ is_along pin cell side }
{
    match cell_beside(pin, side) {
        Some(other) => other.axis == cell.axis && other.x == cell.x && other.y == cell.y,
        None => false,
    }
}
