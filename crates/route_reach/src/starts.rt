//! The clauses of wires that the source of their net does not reach.
ghost use Rattle.std.specs.Prelude.{◌≡◌, ◌+◌, ◌*◌, ◌<◌, ◌≤◌, false, flat_map, length, slice_index_or};
ghost use Rattle.fpga_types.specs.Slots.{slots};
ghost use Rattle.route_encode.specs.Added.{graph_of};
ghost use Rattle.route_encode.specs.Adding.{Adds, HasRoom};
ghost use Rattle.route_encode.specs.Encoding.{below};
ghost use Rattle.route_reach.specs.Encoding.{frame_of, starts_at_source};
ghost use Rattle.route_reach.specs.WireClauses.{HasWires, unmarked_clauses};

use crate::far::source_row_of;
use crate::variables::WireVariables;
use fpga_bounds::PlacedProblem;
use fpga_graph::{Graph, MOST_TRACKS};
use fpga_types::WIDTH_LIMIT;
use route_encode::add_clause;
use sat_clause::Formula;

/// Adds for each wire that no pin of its net's source reaches that it is not reached without joins.
pub(crate) fn add_starts(
    formula: &mut Formula,
    variables: WireVariables,
    problem: &PlacedProblem,
    graph: &Graph<'_>,
    width: u32,
)
    requires width { width ≤ WIDTH_LIMIT }
    requires graph { graph.now ≡ graph_of width problem.now }
    requires wires { variables.wires ≡ length (slots problem.now.route) * width }
    requires vars { HasWires variables.wires variables.reach formula.old }
    requires room { HasRoom formula.old
        (flat_map (starts_at_source (frame_of width variables.reach problem.now) problem.now.route)
        (below (length (slots problem.now.route)))) }
    ensures { Adds formula.old
        (flat_map (starts_at_source (frame_of width variables.reach problem.now) problem.now.route)
        (below (length (slots problem.now.route)))) formula.new }
{
    for slot in 0..problem.slots().len() as u32 {
        let row = source_row_of(problem, graph, slot);
        add_unmarked(formula, variables, slot, width, &row);
    }
}

/// Adds for each wire of the slot whose track is not marked that it is not reached without joins.
fn add_unmarked(
    formula: &mut Formula,
    variables: WireVariables,
    slot: u32,
    width: u32,
    row: &[bool; MOST_TRACKS],
)
    requires width { width ≤ WIDTH_LIMIT }
    requires wires { slot * width + width ≤ variables.wires }
    requires vars { HasWires variables.wires variables.reach formula.old }
    requires room { HasRoom formula.old
        (unmarked_clauses variables.wires variables.reach width slot row.now) }
    ensures { Adds formula.old
        (unmarked_clauses variables.wires variables.reach width slot row.now) formula.new }
{
    for track in 0..width {
        if !row[track as usize] {
            add_clause(formula, &[variables.unreached(slot * width + track, 0)]);
        }
    }
}
