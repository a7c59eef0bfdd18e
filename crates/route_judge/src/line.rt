//! The causes against an element line, from what they look at.
ghost use Rattle.std.specs.Prelude.{◌≡◌};
ghost use Rattle.fpga_text.specs.Codes.{first_code};
ghost use Rattle.route_judge.specs.Judged.{placed_causes, repeats_where};
ghost use Rattle.route_verify.specs.Rules.{judged_at};

use fpga_bounds::ElemContext;
use fpga_text::{Coded, TextFault};
use route_verify::{
    Cause, LineContext, Wiring, is_unconnected, is_unfit, repeats_cell, repeats_wire,
};

/// What is at hand of an element line while its net is read.
#[derive(Clone, Copy)]
pub(crate) struct ElemLine {
    /// What the codes of a route alone look at. How many slots there are is not asked.
    pub route: ElemContext,
    /// Whether it is a channel on a wire of an earlier line of its net.
    pub wire_again: bool,
    /// Whether it is a channel on a wire of an earlier net.
    pub wire_taken: bool,
}

/// The least cause against the line, if there is one. In a strict file a net has one wire of a cell
/// alone.
pub(crate) fn line_cause(wiring: &Wiring, strict: bool, at: LineContext) -> Option<TextFault>
    ensures { result
        ≡ first_code (placed_causes strict) wiring.now at.fit.route.elem.line (judged_at at) }
{
    let elem = at.fit.route.elem;
    let line = elem.line;
    if is_unconnected(wiring, at) {
        return Some(Cause::NotConnected.at(line));
    }
    if wiring.is_past_width(elem) {
        return Some(Cause::PastWidth.at(line));
    }
    if at.wire_taken {
        return Some(Cause::SharedWire.at(line));
    }
    if repeats(strict, at) {
        return Some(Cause::RepeatedCell.at(line));
    }
    if at.fit.lacking {
        return Some(Cause::MissingSink.at(line));
    }
    if is_unfit(wiring, at) {
        return Some(Cause::Unfit.at(line));
    }
    None
}

/// Whether a channel comes a second time where it may not: in a strict file in its cell, else on
/// its wire.
fn repeats(strict: bool, at: LineContext) -> bool
    ensures { result ≡ repeats_where strict (judged_at at) }
{
    if strict {
        repeats_cell(at)
    } else {
        repeats_wire(at)
    }
}
