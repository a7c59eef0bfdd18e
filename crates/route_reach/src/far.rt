//! The wires of slots that the source of their net reaches.
ghost use Rattle.std.specs.Prelude.{◌≡◌, ◌<◌, ℕ, false, length, slice_index_or};
ghost use Rattle.std.specs.List.{list_any};
ghost use Rattle.fpga_types.specs.Slots.{slot_at, slots};
ghost use Rattle.route_encode.specs.Added.{graph_of};
ghost use Rattle.route_reach.specs.Encoding.{reaches, wire_at};
ghost use Rattle.route_reach.specs.Ends.{outs_at};

use crate::source::source_row;
use fpga_bounds::PlacedProblem;
use fpga_graph::{Graph, MOST_TRACKS};

/// For each track whether a pin of the source of the slot's net reaches the slot's wire of it. The
/// time is that of the net's lines for the slots beside its source, and constant for the others.
pub(crate) fn source_row_of(
    problem: &PlacedProblem,
    graph: &Graph<'_>,
    slot: u32,
) -> [bool; MOST_TRACKS]
    requires arch { graph.now.arch ≡ problem.now.arch }
    requires slot { slot < length (slots problem.now.route) }
    ensures { (t : ℕ) → slice_index_or result t false
        ≡ list_any (λ out. reaches graph.now out (wire_at (slots problem.now.route) slot t))
        (outs_at problem.now.route (slot_at (slots problem.now.route) slot).net) }
{
    let slot = problem.slots()[slot as usize];
    let net = &problem.route().nets.as_slice()[slot.net as usize];
    if net.global {
        return [false; MOST_TRACKS];
    }
    source_row(graph, net.elems.as_slice(), slot.cell)
}
