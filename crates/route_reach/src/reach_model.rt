//! Truth values that satisfy the clauses for a reach, and what is asked of them wire by wire.
ghost use Rattle.std.specs.Prelude.{◌≡◌, ◌+◌, ◌*◌, ◌<◌, ◌≤◌, ℕ, false, All, IfNone, IfSome, length, map, Some, slice_get, slice_index_or};
ghost use Rattle.fpga_types.specs.Fits.{Fits};
ghost use Rattle.fpga_types.specs.Given.{IsGiven};
ghost use Rattle.fpga_types.specs.Slots.{slot_at, slots};
ghost use Rattle.fpga_types.specs.declared.limits.TheConstants.{REACH_LIMIT, WIDTH_LIMIT};
ghost use Rattle.fpga_types.specs.declared.route.RouteNet.{RouteNet as Net};
ghost use Rattle.sat_clause.specs.Formula.{Satisfies};
ghost use Rattle.route_encode.specs.Added.{graph_of};
ghost use Rattle.route_encode.specs.Encoding.{below};
ghost use Rattle.route_reach.specs.Encoding.{reach_cnf, wire_at};
ghost use Rattle.route_reach.specs.Modelled.{AreNear, IsSourceOf, IsWithinLimits, graph_in, is_begun, places_beside, slots_in_model, wire_count};
ghost use Rattle.route_reach.specs.Near.{near_of, rows_of};
ghost use Rattle.route_reach.specs.WireClauses.{wires_beside};

use crate::far::source_row_of;
use crate::nearby::wires_beside;
use crate::rising::MOST_NEAR;
use crate::source_line::source_line_of;
use arrayvec::ArrayVec;
use fpga_bounds::PlacedProblem;
use fpga_graph::{Graph, MOST_TRACKS};
use fpga_types::{Elem, RouteNet, Slot};
use std::marker::Model;

/// A problem at a width, for a reach, with values that satisfy its clauses. Contracts see these.
#[derive(Drop)]
pub(crate) struct ReachModel<'a> {
    problem: &'a PlacedProblem,
    graph: Graph<'a>,
    slots: &'a [Slot],
    table: &'a [ArrayVec<u32, MOST_NEAR>],
    values: &'a [bool],
    width: u32,
    reach: u32,
}

impl<'a> Model for ReachModel<'a> {
    ghost use Rattle.route_reach.specs.Modelled.{IsReadBy, ModelOf};

    ghost Value = { ModelOf };

    ghost view = { λ m. record {
      width = m.width;
      reach = m.reach;
      problem = m.problem.now;
      values = m.values.now;
    } };

    ghost invariant = { λ m. IsReadBy (record {
      width = m.width;
      reach = m.reach;
      problem = m.problem.now;
      values = m.values.now;
    })
        m.graph m.slots.now m.table.now };
}

impl<'a> ReachModel<'a> {
    /// These values for a problem at a width of 1 to 64 tracks, for a reach. The rows of the table
    /// are the slots near each slot.
    pub(crate) fn new(
        problem: &'a PlacedProblem,
        table: &'a [ArrayVec<u32, MOST_NEAR>],
        values: &'a [bool],
        width: u32,
        reach: u32,
    ) -> ReachModel<'a>
        requires width { (1 ≤ width) × (width ≤ WIDTH_LIMIT) }
        requires reach { reach ≤ REACH_LIMIT }
        requires table { AreNear (record {
          width = width;
          reach = reach;
          problem = problem.now;
          values = values.now;
        }) table.now }
        requires model { Satisfies values.now (reach_cnf width reach problem.now) }
        ensures { result ≡ record {
          width = width;
          reach = reach;
          problem = problem.now;
          values = values.now;
        } }
    {
        let slots = problem.slots();
        ReachModel {
            problem,
            graph: Graph::new(problem.arch(), problem.route().grid, width),
            slots,
            table,
            values,
            width,
            reach,
        }
    }

    /// The problem.
    pub(crate) fn problem(&self) -> &'a PlacedProblem
        ensures value { result.now ≡ self.now.problem }
        ensures given { IsGiven self.now.problem }
        ensures fits { Fits self.now.problem }
    {
        self.problem
    }

    /// The graph of its wires.
    pub(crate) fn graph(&self) -> &Graph<'a>
        ensures { result.now ≡ graph_in self.now }
    {
        &self.graph
    }

    /// How many tracks there are.
    pub(crate) fn width(&self) -> u32
        ensures { result ≡ self.now.width }
    {
        self.width
    }

    /// The greatest number of joins.
    pub(crate) fn reach(&self) -> u32
        ensures value { result ≡ self.now.reach }
        ensures model { Satisfies self.now.values
            (reach_cnf self.now.width self.now.reach self.now.problem) }
    {
        self.reach
    }

    /// The slots of the problem.
    pub(crate) fn slots(&self) -> &'a [Slot]
        ensures value { result.now ≡ slots_in_model self.now }
        ensures limits { IsWithinLimits self.now }
    {
        self.slots
    }

    /// The net at a position.
    pub(crate) fn net(&self, number: u32) -> &'a RouteNet
        requires { number < length self.now.problem.route.nets }
        ensures { slice_get self.now.problem.route.nets number ≡ Some result.now }
    {
        &self.problem.route().nets.as_slice()[number as usize]
    }

    /// Whether the wire at this place among all is used.
    pub(crate) fn is_used(&self, place: u32) -> bool
        requires { place < wire_count self.now }
        ensures { result ≡ slice_index_or self.now.values place false }
    {
        self.values[place as usize]
    }

    /// For each track whether a pin of the source of the slot's net reaches the slot's wire of it.
    pub(crate) fn source_row(&self, slot: u32) -> [bool; MOST_TRACKS]
        requires { slot < length (slots_in_model self.now) }
        ensures { (t : ℕ) → slice_index_or result t false ≡ is_begun self.now slot t }
    {
        source_row_of(self.problem, &self.graph, slot)
    }

    /// An OPIN line of the slot's net whose pin reaches the slot's wire of the track. The time is
    /// that of the lines up to the first one.
    pub(crate) fn source_line(&self, slot: u32, track: u32) -> Option<Elem>
        requires slot { slot < length (slots_in_model self.now) }
        requires track { track < self.now.width }
        ensures begins { IfSome result (λ line. (net : Net)
            → slice_get self.now.problem.route.nets
            (slot_at (slots_in_model self.now) slot).net ≡ Some net
            → IsSourceOf (graph_in self.now) net (wire_at (slots_in_model self.now) slot track)
            line) }
        ensures none { IfNone result (is_begun self.now slot track ≡ false) }
    {
        source_line_of(self.problem, &self.graph, slot, track)
    }

    /// The places among all of the wires near the slot's wire of the track: at most six.
    pub(crate) fn beside(&self, slot: u32, track: u32) -> ArrayVec<u32, MOST_NEAR>
        requires slot { slot < length (slots_in_model self.now) }
        requires track { track < self.now.width }
        ensures listed { result.items ≡ places_beside self.now slot track }
        ensures within { All (λ b. b < wire_count self.now) result.items }
    {
        near_places(
            self.problem,
            &self.graph,
            self.table,
            self.width,
            slot,
            track,
        )
    }
}

/// The places among all of the wires near the wire of a slot and a track. The rows of the table are
/// the slots near each slot.
fn near_places(
    problem: &PlacedProblem,
    graph: &Graph<'_>,
    table: &[ArrayVec<u32, MOST_NEAR>],
    width: u32,
    slot: u32,
    track: u32,
) -> ArrayVec<u32, MOST_NEAR>
    requires width { width ≤ WIDTH_LIMIT }
    requires graph { graph.now ≡ graph_of width problem.now }
    requires table { rows_of table.now
        ≡ map (near_of problem.now.route) (below (length (slots problem.now.route))) }
    requires slot { slot < length (slots problem.now.route) }
    requires track { track < width }
    ensures listed { result.items ≡ wires_beside graph.now (slots problem.now.route)
        (near_of problem.now.route slot) slot track }
    ensures within { All (λ b. b < length (slots problem.now.route) * width) result.items }
{
    let near = table[slot as usize].as_slice();
    wires_beside(graph, problem.slots(), width, near, slot, track)
}
