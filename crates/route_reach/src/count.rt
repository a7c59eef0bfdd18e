//! How many clauses there are for a reach.
ghost use Rattle.std.specs.Prelude.{◌≡◌, ◌+◌, ◌*◌, ◌≤◌, ◌==◌, ℕ, Bool, false, not, filter, filter_map, length, slice_index_or, sum_by};
ghost use Rattle.fpga_graph.specs.GraphOf.{GraphOf};
ghost use Rattle.fpga_types.specs.Slots.{adjacent, pairs, slots};
ghost use Rattle.fpga_types.specs.declared.limits.TheConstants.{NET_LIMIT, REACH_LIMIT, SLOT_LIMIT, STEP_LIMIT, WIDTH_LIMIT};
ghost use Rattle.fpga_types.specs.declared.route.RouteNet.{RouteNet as Net};
ghost use Rattle.route_encode.specs.Added.{graph_of};
ghost use Rattle.route_encode.specs.Encoding.{below};
ghost use Rattle.route_reach.specs.Counts.{far_count, sink_count};
ghost use Rattle.route_reach.specs.Encoding.{far_tracks, frame_of, reach_cnf};
ghost use Rattle.route_reach.specs.Ends.{ins, sink_pin};

use crate::ends::sink_pin;
use crate::far::source_row_of;
use fpga_bounds::PlacedProblem;
use fpga_graph::{Graph, MOST_TRACKS};
use fpga_types::{Elem, RouteNet};

/// The number of clauses of a problem at a width of 1 to 64 tracks, for a reach from 1 to 64.
///
/// Takes no memory. The time is that of the lines of the route, and of so many tracks for each
/// slot.
pub fn reach_count(problem: &PlacedProblem, width: u32, reach: u32) -> u64
    requires width { (1 ≤ width) × (width ≤ WIDTH_LIMIT) }
    requires reach { (1 ≤ reach) × (reach ≤ REACH_LIMIT) }
    ensures { result ≡ length (reach_cnf width reach problem.now).clauses }
{
    let graph = Graph::new(problem.arch(), problem.route().grid, width);
    tally(problem, &graph, width).clauses(reach)
}

/// What the number of clauses and literals is told by.
#[derive(Clone, Copy)]
pub(crate) struct ReachTally {
    /// How many SINK lines the ordinary nets have.
    pub sinks: u64,
    /// How many wires of slots no pin of their net's source reaches.
    pub far: u64,
    /// How many wires of slots there are.
    pub wires: u64,
    /// How many wires two slots of different nets share, counted for each two.
    pub shared: u64,
    ghost few_sinks: { sinks ≤ STEP_LIMIT + NET_LIMIT },
    ghost few_far: { far ≤ wires },
    ghost few_wires: { wires ≤ SLOT_LIMIT * WIDTH_LIMIT },
    ghost few_shared: { shared ≤ SLOT_LIMIT * SLOT_LIMIT * WIDTH_LIMIT },
}

impl ReachTally {
    /// How many clauses there are for a reach.
    pub(crate) fn clauses(self, reach: u32) -> u64
        requires { reach ≤ REACH_LIMIT }
        ensures { result ≡ self.sinks + self.far + self.wires * (3 * reach + 1) + self.shared }
    {
        self.sinks + self.far + self.wires * (3 * reach as u64 + 1) + self.shared
    }

    /// How many literals they have at most together, where so many slots are near slots.
    pub(crate) fn lits(self, width: u32, reach: u32, near: u64) -> u64
        requires width { width ≤ WIDTH_LIMIT }
        requires reach { reach ≤ REACH_LIMIT }
        requires near { near ≤ 6 * SLOT_LIMIT }
        ensures { result ≡ 4 * width * self.sinks + self.far
            + 2 * (self.wires * (3 * reach + 1) + self.shared) + width * reach * near }
    {
        let pairs = self.wires * (3 * reach as u64 + 1) + self.shared;
        let tracks = width as u64;
        4 * tracks * self.sinks + self.far + 2 * pairs + tracks * reach as u64 * near
    }
}

/// The tally of a problem at a width.
pub(crate) fn tally(problem: &PlacedProblem, graph: &Graph<'_>, width: u32) -> ReachTally
    requires width { width ≤ WIDTH_LIMIT }
    requires graph { graph.now ≡ graph_of width problem.now }
    ensures sinks { result.sinks ≡ sink_count problem.now.route }
    ensures far { (reach : ℕ) → result.far
        ≡ far_count (frame_of width reach problem.now) problem.now.route }
    ensures wires { result.wires ≡ length (slots problem.now.route) * width }
    ensures shared { result.shared ≡ length (pairs (slots problem.now.route)) * width }
{
    ReachTally {
        sinks: sink_count(problem),
        far: far_of_all(problem, graph, width),
        wires: problem.slots().len() as u64 * width as u64,
        shared: problem.pairs() * width as u64,
    }
}

/// How many SINK lines the ordinary nets have.
fn sink_count(problem: &PlacedProblem) -> u64
    ensures value { result ≡ sink_count problem.now.route }
    ensures limit { result ≤ STEP_LIMIT + NET_LIMIT }
{
    // There are no more than pin steps, and one more for each net.
    let _few = problem.pin_steps();
    sinks_of_nets(problem.route().nets.as_slice())
}

/// How many SINK lines these nets have, without the global ones.
fn sinks_of_nets(nets: &[RouteNet]) -> u64
    requires { sum_by (λ (net : Net). length (ins net)) nets.now ≤ STEP_LIMIT + NET_LIMIT }
    ensures { result ≡ sum_by (λ (net : Net). length (ins net)) nets.now }
{
    let mut count = 0;
    for net in nets {
        count += sinks_of_net(net);
    }
    count
}

/// How many SINK lines the net has, if it is not global.
fn sinks_of_net(net: &RouteNet) -> u64
    ensures { result ≡ length (ins net.now) }
{
    if net.global {
        return 0;
    }
    sinks_among(net.elems.as_slice())
}

/// How many of these lines are SINK lines behind an IPIN line.
fn sinks_among(elems: &[Elem]) -> u64
    ensures { result ≡ length (filter_map sink_pin (adjacent elems.now)) }
{
    let mut count = 0;
    let mut previous: Option<Elem> = None;
    for e in elems {
        if sink_pin(previous, *e).is_some() {
            count += 1;
        }
        previous = Some(*e);
    }
    count
}

/// How many wires of slots no pin of their net's source reaches.
fn far_of_all(problem: &PlacedProblem, graph: &Graph<'_>, width: u32) -> u64
    requires width { width ≤ WIDTH_LIMIT }
    requires graph { graph.now ≡ graph_of width problem.now }
    ensures value { (reach : ℕ) → result
        ≡ far_count (frame_of width reach problem.now) problem.now.route }
    ensures limit { result ≤ length (slots problem.now.route) * width }
{
    let mut count = 0;
    for slot in 0..problem.slots().len() as u32 {
        count += unmarked(&source_row_of(problem, graph, slot), width);
    }
    count
}

/// How many of the first tracks are not marked.
fn unmarked(row: &[bool; MOST_TRACKS], width: u32) -> u64
    requires { width ≤ WIDTH_LIMIT }
    ensures value { result
        ≡ length (filter (λ t. not (slice_index_or row.now t false)) (below width)) }
    ensures limit { result ≤ width }
{
    let mut count = 0;
    for t in 0..width {
        if !row[t as usize] {
            count += 1;
        }
    }
    count
}
