//! How large clauses, a log and a route are.
ghost use Rattle.std.specs.Prelude.{◌≡◌, ◌≤◌, length};
ghost use Rattle.fpga_types.specs.Kinds.{is_sink};
ghost use Rattle.run_stats.specs.Sizes.{added_by, capped, deleted_by, deleted_count, has_wire_on, hint_count, hinted_by, is_track_used, is_wire_on, named_wires, on_track, step_said, tracks_used, wire_count, wire_length};
ghost use Rattle.sat_clause.specs.Learned.{added_count};

use fpga_types::{Elem, ElemKind, RouteNet, RouteText, WIDTH_LIMIT};
use sat_clause::{Formula, Log, StepView};

/// How large clauses are.
#[derive(Clone, Copy)]
pub struct FormulaSize {
    /// How many variables they have.
    pub variables: u64,
    /// How many there are.
    pub clauses: u64,
}

impl FormulaSize {
    /// The size of these clauses.
    pub fn of(formula: &Formula) -> FormulaSize
        ensures variables { result.variables ≡ formula.now.cnf.vars }
        ensures clauses { result.clauses ≡ length formula.now.cnf.clauses }
    {
        FormulaSize {
            variables: u64::from(formula.vars()),
            clauses: u64::from(formula.len()),
        }
    }
}

/// How large the log of a search is.
#[derive(Clone, Copy)]
pub struct LogSize {
    /// How many clauses it adds: those that were learned, and the lemmas of a refutation.
    pub learned: u64,
    /// How many clauses it deletes, or 2^64 - 1 if these are more.
    pub deleted: u64,
    /// How many hints its clauses have, or 2^64 - 1 if these are more.
    pub hints: u64,
}

impl LogSize {
    /// The size of this log.
    pub fn of(log: &Log) -> LogSize
        ensures learned { result.learned ≡ added_count log.now.steps }
        ensures deleted { result.deleted ≡ capped (deleted_count log.now.steps) }
        ensures hints { result.hints ≡ capped (hint_count log.now.steps) }
    {
        let mut size = LogSize {
            learned: 0,
            deleted: 0,
            hints: 0,
        };
        for at in 0..log.len() {
            let step = log.step(at);
            size.learned += added_by(&step);
            size.deleted = size.deleted.saturating_add(deleted_by(&step));
            size.hints = size.hints.saturating_add(hinted_by(&step));
        }
        size
    }
}

// How many clauses a step adds.
fn added_by(step: &StepView<'_>) -> u64
    ensures value { result ≡ added_by (step_said step.now) }
    ensures one { result ≤ 1 }
{
    if step.erase {
        return 0;
    }
    1
}

// How many clauses a step deletes.
fn deleted_by(step: &StepView<'_>) -> u64
    ensures { result ≡ deleted_by (step_said step.now) }
{
    if step.erase {
        return step.hints.len() as u64;
    }
    0
}

// How many hints the clause has that a step adds.
fn hinted_by(step: &StepView<'_>) -> u64
    ensures { result ≡ hinted_by (step_said step.now) }
{
    if step.erase {
        return 0;
    }
    step.hints.len() as u64
}

/// How large a route is.
#[derive(Clone, Copy)]
pub struct RouteSize {
    /// How many wires its nets take, each net for itself, or 2^64 - 1 if these are more.
    pub wire_length: u64,
    /// How many tracks some wire is on.
    pub tracks_used: u64,
}

impl RouteSize {
    /// The size of this route.
    pub fn of(route: &RouteText) -> RouteSize
        ensures wire_length { result.wire_length ≡ capped (wire_length route.now.nets) }
        ensures tracks_used { result.tracks_used ≡ tracks_used route.now.nets }
    {
        let nets = route.nets.as_slice();
        RouteSize {
            wire_length: wire_length(nets),
            tracks_used: tracks_used(nets),
        }
    }
}

// How many wires the nets take.
fn wire_length(nets: &[RouteNet]) -> u64
    ensures { result ≡ capped (wire_length nets.now) }
{
    let mut length: u64 = 0;
    for net in nets {
        length = length.saturating_add(wire_count(net.elems.as_slice()));
    }
    length
}

// How many wires the lines of a net name. A line right behind a sink says again where a branch
// begins.
fn wire_count(elems: &[Elem]) -> u64
    ensures { result ≡ wire_count elems.now }
{
    let mut count = 0;
    let mut branches = false;
    for elem in elems {
        count += named_wires(branches, elem.kind);
        branches = is_sink(elem.kind);
    }
    count
}

// How many wires a line names anew that stands where a branch begins or does not: 1 or none.
fn named_wires(branches: bool, kind: ElemKind) -> u64
    ensures value { result ≡ named_wires branches kind }
    ensures one { result ≤ 1 }
{
    if kind.is_channel() && !branches {
        return 1;
    }
    0
}

// Whether a line of this kind ends a branch.
fn is_sink(kind: ElemKind) -> bool
    ensures { result ≡ is_sink kind }
{
    matches!(kind, ElemKind::Sink)
}

// How many tracks some wire is on.
fn tracks_used(nets: &[RouteNet]) -> u64
    ensures { result ≡ tracks_used nets.now }
{
    let mut count = 0;
    for track in 0..WIDTH_LIMIT {
        count += on_track(nets, track);
    }
    count
}

// How many tracks with this number some wire is on: 1 or none.
fn on_track(nets: &[RouteNet], track: u32) -> u64
    ensures value { result ≡ on_track nets.now track }
    ensures one { result ≤ 1 }
{
    if is_track_used(nets, track) {
        return 1;
    }
    0
}

// Whether some wire is on this track.
fn is_track_used(nets: &[RouteNet], track: u32) -> bool
    ensures { result ≡ is_track_used nets.now track }
{
    nets.iter().any(|net| has_wire_on(net, track))
}

// Whether some wire of a net is on this track.
fn has_wire_on(net: &RouteNet, track: u32) -> bool
    ensures { result ≡ has_wire_on track net.now }
{
    net.elems
        .as_slice()
        .iter()
        .any(|elem| is_wire_on(*elem, track))
}

// Whether a line names a wire on this track.
fn is_wire_on(elem: Elem, track: u32) -> bool
    ensures { result ≡ is_wire_on track elem }
{
    elem.kind.is_channel() && elem.number == track
}
