//! The causes against an element line, from what they look at.
ghost use Rattle.std.specs.Prelude.{◌≡◌};
ghost use Rattle.fpga_bounds.specs.ElemContext.{context_at};
ghost use Rattle.fpga_text.specs.Codes.{first_code};
ghost use Rattle.route_verify.specs.Lines as spec;
ghost use Rattle.route_verify.specs.Reach as reach_spec;
ghost use Rattle.route_verify.specs.Reach.{causes_within};
ghost use Rattle.route_verify.specs.Rules.{judged_at, reached_at};

use crate::cause::Cause;
use crate::wiring::Wiring;
use fpga_bounds::{
    ElemContext, ProblemContext, comes_again, is_branch, is_other_pin, is_other_sink,
    is_other_source, is_out_of_order,
};
use fpga_text::{Coded, TextFault};
use fpga_types::ElemKind;

/// What is at hand of an element line while its net is read.
#[derive(Clone, Copy)]
pub(crate) struct ElemLine {
    /// What the codes of a route alone look at. How many slots there are is not asked.
    pub route: ElemContext,
    /// Whether it is a channel on a wire of an earlier line of its net.
    pub wire_again: bool,
    /// Whether it is a channel on a wire of an earlier net.
    pub wire_taken: bool,
    /// The depth of the line two before it, if that is a channel with one.
    pub depth: Option<u64>,
}

/// What the causes against an element line look at.
#[derive(Clone, Copy)]
pub struct LineContext {
    /// What the codes of the fit look at. How many slots there are is not asked.
    pub fit: ProblemContext,
    /// Whether it is a channel on a wire of an earlier line of its net.
    pub wire_again: bool,
    /// Whether it is a channel on a wire of an earlier net.
    pub wire_taken: bool,
    /// Whether it is a channel in a cell that is none of its net's in the global route.
    pub stray: bool,
    /// The depth of the line two before it, if that is a channel with one.
    pub depth: Option<u64>,
}

/// The least cause against the line, if there is one, with a reach or without one.
pub(crate) fn line_cause(wiring: &Wiring, reach: Option<u32>, at: LineContext) -> Option<TextFault>
    ensures { result
        ≡ first_code (causes_within reach) wiring.now at.fit.route.elem.line (reached_at at) }
{
    let elem = at.fit.route.elem;
    let line = elem.line;
    if is_unconnected(wiring, at) {
        return Some(Cause::NotConnected.at(line));
    }
    if wiring.is_past_width(elem) {
        return Some(Cause::PastWidth.at(line));
    }
    if at.wire_taken {
        return Some(Cause::SharedWire.at(line));
    }
    if at.stray {
        return Some(Cause::OffTrace.at(line));
    }
    if repeats(reach, at) {
        return Some(Cause::RepeatedCell.at(line));
    }
    if at.fit.lacking {
        return Some(Cause::MissingSink.at(line));
    }
    if is_unfit(wiring, at) {
        return Some(Cause::Unfit.at(line));
    }
    if is_past_reach(reach, at) {
        return Some(Cause::PastReach.at(line));
    }
    None
}

/// Whether the line before and this one are not connected by the fabric.
pub fn is_unconnected(wiring: &Wiring, at: LineContext) -> bool
    ensures { result ≡ spec.is_unconnected wiring.now (judged_at at) }
{
    let route = at.fit.route;
    match route.previous {
        Some(before) => wiring.are_unconnected(before, route.elem),
        None => false,
    }
}

/// Whether a channel comes a second time where it may not: without a reach in its cell, with one on
/// its wire.
fn repeats(reach: Option<u32>, at: LineContext) -> bool
    ensures { result ≡ reach_spec.repeats_by reach (judged_at at) }
{
    match reach {
        None => repeats_cell(at),
        Some(_) => repeats_wire(at),
    }
}

/// Whether a channel is in a cell of an earlier line of its net, unless it is in branch position
/// and names a wire of its net again.
pub fn repeats_cell(at: LineContext) -> bool
    ensures { result ≡ spec.repeats_cell (judged_at at) }
{
    let route = at.fit.route;
    route.elem.kind.is_channel() && route.again && !(is_branch(route) && at.wire_again)
}

/// Whether a channel equals an earlier line of its net where no branch starts.
pub fn repeats_wire(at: LineContext) -> bool
    ensures { result ≡ reach_spec.repeats_wire (judged_at at) }
{
    let route = at.fit.route;
    route.elem.kind.is_channel() && !is_branch(route) && is_again(at)
}

/// Whether a SINK is behind a channel that more joins lead to than the reach, if there is one.
fn is_past_reach(reach: Option<u32>, at: LineContext) -> bool
    ensures { result ≡ reach_spec.is_past_reach_by reach (reached_at at) }
{
    let Some(reach) = reach else {
        return false;
    };
    let Some(depth) = at.depth else {
        return false;
    };
    is_sink_behind_pin(at) && u64::from(reach) < depth
}

/// Whether it is a SINK, and an IPIN stands before it.
fn is_sink_behind_pin(at: LineContext) -> bool
    ensures { result ≡ reach_spec.is_sink_behind_pin (judged_at at) }
{
    let route = at.fit.route;
    let Some(before) = route.previous else {
        return false;
    };
    matches!(route.elem.kind, ElemKind::Sink) && matches!(before.kind, ElemKind::Ipin)
}

/// Whether a code of the fit would hold at the line, one that no other cause stands for.
pub fn is_unfit(wiring: &Wiring, at: LineContext) -> bool
    ensures { result ≡ spec.is_unfit wiring.now (judged_at at) }
{
    let route = at.fit.route;
    is_other_source(at.fit)
        || is_other_sink(at.fit)
        || is_sink_again(route)
        || is_other_pin(wiring.arch(), at.fit)
        || is_other_again(route)
        || branches_loose(at)
        || route.taken
        || is_out_of_order(route)
}

/// Whether it is a SINK that stands earlier in its net.
fn is_sink_again(at: ElemContext) -> bool
    ensures { result ≡ spec.is_sink_again (context_at at) }
{
    matches!(at.elem.kind, ElemKind::Sink) && at.again
}

/// Whether an element that is no channel comes a second time where no branch starts.
fn is_other_again(at: ElemContext) -> bool
    ensures { result ≡ spec.is_other_again (context_at at) }
{
    comes_again(at) && !at.elem.kind.is_channel()
}

/// Whether a branch starts at an element that the net does not have yet, a channel with its track.
fn branches_loose(at: LineContext) -> bool
    ensures { result ≡ spec.branches_loose (judged_at at) }
{
    let route = at.fit.route;
    !matches!(route.elem.kind, ElemKind::Ipin)
        && !matches!(route.elem.kind, ElemKind::Sink)
        && is_branch(route)
        && !is_again(at)
}

/// Whether the element equals an earlier one of its net, a channel with its track.
fn is_again(at: LineContext) -> bool
    ensures { result ≡ spec.is_again (judged_at at) at.fit.route.elem }
{
    let route = at.fit.route;
    route.again && (!route.elem.kind.is_channel() || at.wire_again)
}
