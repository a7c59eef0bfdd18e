//! The wires of a net, in their cells and on their tracks.
ghost use Rattle.std.specs.Prelude.{◌≡◌, ◌++◌, ◌≤◌, OnOk, string_bytes};
ghost use Rattle.fpga_types.specs.Kinds.{is_sink};
ghost use Rattle.route_draw.specs.Parts.{Adds, AreParts};
ghost use Rattle.route_draw.specs.Wires.{AreLanes, IsWire, Layout, path_along, wire_line, wires_of};
ghost use Rattle.route_draw.specs.declared.scale.TheConstants.{CHANNEL};

use crate::lanes::Lanes;
use crate::path::{append_across, append_up};
use crate::scale::{BLOCK, Point, block_start, channel_start};
use fpga_types::{Axis, Cell, Elem, ElemKind};
use std::alloc::AllocError;

/// Appends the wires of a net with these lines, each once.
pub(crate) fn append_wires(
    out: &mut String,
    lanes: &Lanes,
    elems: &[Elem],
) -> Result<(), AllocError>
    ensures { OnOk result ((layout : Layout) → AreLanes layout lanes.now →
        Adds (AreParts (IsWire layout) (wires_of elems.now)) (string_bytes out.old)
        (string_bytes out.new)) }
{
    let mut behind_sink = false;
    for elem in elems {
        append_line(out, lanes, *elem, behind_sink)?;
        behind_sink = is_sink(elem.kind);
    }
    Ok(())
}

fn is_sink(kind: ElemKind) -> bool
    ensures { result ≡ is_sink kind }
{
    matches!(kind, ElemKind::Sink)
}

// Appends the wire of a line, if it is a channel line that stands behind no SINK.
fn append_line(
    out: &mut String,
    lanes: &Lanes,
    elem: Elem,
    behind_sink: bool,
) -> Result<(), AllocError>
    ensures { OnOk result ((layout : Layout) → AreLanes layout lanes.now →
        Adds (AreParts (IsWire layout) (wire_line behind_sink elem)) (string_bytes out.old)
        (string_bytes out.new)) }
{
    if behind_sink {
        return Ok(());
    }
    let Some(cell) = elem.cell() else {
        return Ok(());
    };
    append_wire(out, cell, lanes.across(cell, elem.number))?;
    Ok(())
}

// Appends a wire that is so far from the start of its channel.
fn append_wire(out: &mut String, cell: Cell, across: u64) -> Result<(), AllocError>
    requires { across ≤ CHANNEL }
    ensures { OnOk result (string_bytes out.new
        ≡ string_bytes out.old ++ path_along cell.axis cell.x cell.y across) }
{
    let Cell { axis, x, y } = cell;
    match axis {
        Axis::X => {
            let from = Point {
                x: block_start(x),
                y: channel_start(y) + across,
            };
            append_across(out, from, BLOCK)
        }
        Axis::Y => {
            let from = Point {
                x: channel_start(x) + across,
                y: block_start(y),
            };
            append_up(out, from, BLOCK)
        }
    }
}
