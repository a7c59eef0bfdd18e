//! The OPIN line that leads to a wire.
ghost use Rattle.std.specs.Prelude.{◌≡◌, ◌<◌, false, true, All, Contains, IfNone, IfSome, Some, filter_map, length, slice_get};
ghost use Rattle.std.specs.List.{list_any};
ghost use Rattle.fpga_types.specs.Pins.{HasPin};
ghost use Rattle.fpga_types.specs.Slots.{slot_at, slots};
ghost use Rattle.fpga_types.specs.declared.route.RouteNet.{RouteNet as Net};
ghost use Rattle.route_reach.specs.Encoding.{reaches, wire_at};
ghost use Rattle.route_reach.specs.Ends.{opin_of, outs_at};
ghost use Rattle.route_reach.specs.Modelled.{IsSourceOf, is_source_of};

use crate::ends::opin_of;
use fpga_bounds::PlacedProblem;
use fpga_graph::{Graph, MOST_TRACKS};
use fpga_types::{Elem, Slot, Wire};

/// An OPIN line of the slot's net whose pin reaches the slot's wire of a track. The time is that of
/// the lines up to the first one.
pub(crate) fn source_line_of(
    problem: &PlacedProblem,
    graph: &Graph<'_>,
    slot: u32,
    track: u32,
) -> Option<Elem>
    requires arch { graph.now.arch ≡ problem.now.arch }
    requires slot { slot < length (slots problem.now.route) }
    requires track { track < MOST_TRACKS }
    ensures begins { IfSome result (λ line. (net : Net) → slice_get problem.now.route.nets
        (slot_at (slots problem.now.route) slot).net ≡ Some net
        → IsSourceOf graph.now net (wire_at (slots problem.now.route) slot track) line) }
    ensures none { IfNone result
        (list_any (λ out. reaches graph.now out (wire_at (slots problem.now.route) slot track))
        (outs_at problem.now.route (slot_at (slots problem.now.route) slot).net) ≡ false) }
{
    let Slot { net, cell } = problem.slots()[slot as usize];
    let net = &problem.route().nets.as_slice()[net as usize];
    if net.global {
        return None;
    }
    source_line(graph, net.elems.as_slice(), Wire { cell, track })
}

/// The first OPIN line among these whose pin reaches the wire.
fn source_line(graph: &Graph<'_>, elems: &[Elem], wire: Wire) -> Option<Elem>
    requires track { wire.track < MOST_TRACKS }
    requires pins { All (HasPin graph.now.arch) (filter_map opin_of elems.now) }
    ensures begins { IfSome result (λ line. Contains elems.now line
        × (is_source_of graph.now wire line ≡ true)) }
    ensures none { IfNone result (list_any (is_source_of graph.now wire) elems.now ≡ false) }
{
    for e in elems {
        if is_source_of(graph, wire, *e) {
            return Some(*e);
        }
    }
    None
}

/// Whether the line is an OPIN whose pin reaches the wire.
fn is_source_of(graph: &Graph<'_>, wire: Wire, e: Elem) -> bool
    requires track { wire.track < MOST_TRACKS }
    requires pin { IfSome (opin_of e) (HasPin graph.now.arch) }
    ensures { result ≡ is_source_of graph.now wire e }
{
    let Some(out) = opin_of(e) else {
        return false;
    };
    if !graph.touches(out, wire.cell) {
        return false;
    }
    graph.opened(out)[wire.track as usize]
}
