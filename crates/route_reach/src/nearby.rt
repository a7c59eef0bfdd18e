//! The clauses that say from where a wire is reached.
ghost use Rattle.std.specs.Prelude.{◌≡◌, ◌+◌, ◌*◌, ◌^◌, ◌<◌, ◌≤◌, All, length, map};
ghost use Rattle.fpga_types.specs.Slots.{slots};
ghost use Rattle.route_encode.specs.Added.{graph_of};
ghost use Rattle.route_encode.specs.Adding.{Adds, HasRoom};
ghost use Rattle.route_encode.specs.Encoding.{below};
ghost use Rattle.route_reach.specs.Encoding.{comes_from_near, each_wire, frame_of};
ghost use Rattle.route_reach.specs.Near.{near_of, rows_of};
ghost use Rattle.route_reach.specs.WireClauses.{HasWires, comes_clause, comes_clauses, slot_comes, wires_beside};
ghost use Rattle.sat_clause.specs.Literal.{IsWithin};

use crate::clause_row::ClauseRow;
use crate::rising::MOST_NEAR;
use crate::variables::WireVariables;
use arrayvec::ArrayVec;
use fpga_bounds::PlacedProblem;
use fpga_graph::Graph;
use fpga_types::Slot;
use route_encode::add_clause;
use sat_clause::Formula;

/// Adds for each wire that it is reached within one join more only where it is so within the
/// others, or a wire near it is. The rows are the slots near each slot.
pub(crate) fn add_nearby(
    formula: &mut Formula,
    variables: WireVariables,
    problem: &PlacedProblem,
    graph: &Graph<'_>,
    width: u32,
    table: &[ArrayVec<u32, MOST_NEAR>],
)
    requires graph { graph.now ≡ graph_of width problem.now }
    requires wires { variables.wires ≡ length (slots problem.now.route) * width }
    requires table { rows_of table.now
        ≡ map (near_of problem.now.route) (below (length (slots problem.now.route))) }
    requires vars { HasWires variables.wires variables.reach formula.old }
    requires room { HasRoom formula.old (each_wire (frame_of width variables.reach problem.now)
        (comes_from_near (frame_of width variables.reach problem.now))) }
    ensures { Adds formula.old (each_wire (frame_of width variables.reach problem.now)
        (comes_from_near (frame_of width variables.reach problem.now))) formula.new }
{
    let mut row = ClauseRow::new();
    for slot in 0..problem.slots().len() as u32 {
        let near = table[slot as usize].as_slice();
        add_slot_nearby(
            formula,
            &mut row,
            variables,
            graph,
            problem.slots(),
            width,
            near,
            slot,
        );
    }
}

/// Adds this for the wires of a slot, of which these are the slots near it.
fn add_slot_nearby(
    formula: &mut Formula,
    row: &mut ClauseRow,
    variables: WireVariables,
    graph: &Graph<'_>,
    slots: &[Slot],
    width: u32,
    near: &[u32],
    slot: u32,
)
    requires width { graph.now.width ≡ width }
    requires wires { variables.wires ≡ length slots.now * width }
    requires slot { slot < length slots.now }
    requires few { length near.now ≤ MOST_NEAR }
    requires near { All (λ r. r < length slots.now) near.now }
    requires vars { HasWires variables.wires variables.reach formula.old }
    requires room { HasRoom formula.old (slot_comes variables.wires variables.reach graph.now
        slots.now near.now slot) }
    ensures { Adds formula.old (slot_comes variables.wires variables.reach graph.now
        slots.now near.now slot) formula.new }
{
    for track in 0..width {
        let beside = wires_beside(graph, slots, width, near, slot, track);
        add_comes(
            formula,
            row,
            variables,
            slot * width + track,
            beside.as_slice(),
        );
    }
}

/// The wires of these slots that the wire of a slot and a track is joined to.
pub(crate) fn wires_beside(
    graph: &Graph<'_>,
    slots: &[Slot],
    width: u32,
    near: &[u32],
    slot: u32,
    track: u32,
) -> ArrayVec<u32, MOST_NEAR>
    requires width { graph.now.width ≡ width }
    requires wires { length slots.now * width < 2 ^ 32 }
    requires slot { slot < length slots.now }
    requires track { track < width }
    requires few { length near.now ≤ MOST_NEAR }
    requires near { All (λ r. r < length slots.now) near.now }
    ensures listed { result.items ≡ wires_beside graph.now slots.now near.now slot track }
    ensures few { length result.items ≤ MOST_NEAR }
    ensures within { All (λ b. b < length slots.now * width) result.items }
{
    let from = slots[slot as usize].cell;
    let mut beside = ArrayVec::new();
    for other in near {
        if let Some(crossing) = graph.crossing(from, slots[*other as usize].cell) {
            beside.push(*other * width + crossing.track(track));
        }
    }
    beside
}

/// Adds that the wire is reached within one join more only where it is so within the others, or one
/// of these wires is.
pub(crate) fn add_comes(
    formula: &mut Formula,
    row: &mut ClauseRow,
    variables: WireVariables,
    wire: u32,
    beside: &[u32],
)
    requires wire { wire < variables.wires }
    requires few { length beside.now ≤ MOST_NEAR }
    requires beside { All (λ b. b < variables.wires) beside.now }
    requires vars { HasWires variables.wires variables.reach formula.old }
    requires room { HasRoom formula.old
        (comes_clauses variables.wires variables.reach wire beside.now) }
    ensures { Adds formula.old
        (comes_clauses variables.wires variables.reach wire beside.now) formula.new }
{
    for joins in 0..variables.reach {
        fill_comes(row, variables, wire, beside, joins);
        add_clause(formula, row.as_slice());
    }
}

/// Makes the clause that says this of so many joins.
fn fill_comes(row: &mut ClauseRow, variables: WireVariables, wire: u32, beside: &[u32], joins: u32)
    requires wire { wire < variables.wires }
    requires few { length beside.now ≤ MOST_NEAR }
    requires beside { All (λ b. b < variables.wires) beside.now }
    requires joins { joins < variables.reach }
    ensures clause { row.new ≡ comes_clause variables.wires variables.reach wire beside.now joins }
    ensures within { All (IsWithin (variables.wires * (variables.reach + 2))) row.new }
{
    row.clear();
    row.push(variables.unreached(wire, joins + 1));
    row.push(variables.reached(wire, joins));
    for near in beside {
        row.push(variables.reached(*near, joins));
    }
}
