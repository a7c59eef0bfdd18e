//! What is wrong with an element line, from what the codes look at.
ghost use Rattle.std.specs.Prelude.{◌≡◌, is_none, is_some};
ghost use Rattle.fpga_text.specs.Codes.{first_code};
ghost use Rattle.fpga_bounds.specs.ElemContext.{context_at};
ghost use Rattle.fpga_types.specs.Fabric.{meeting};
ghost use Rattle.fpga_types.specs.Fit as fit;
ghost use Rattle.fpga_types.specs.Fit.{fit_codes, slots_past};

use fpga_fabric::meet;
use fpga_text::{Coded, TextFault};
use fpga_types::{Cell, Elem, ElemKind, FitCause, Grid, SLOT_LIMIT};

/// What the codes of an element line look at.
#[derive(Clone, Copy)]
pub struct ElemContext {
    /// The element.
    pub elem: Elem,
    /// The element before it in its net.
    pub previous: Option<Elem>,
    /// Whether it equals an earlier one of its net.
    pub again: bool,
    /// Whether it is a pin of an earlier net.
    pub taken: bool,
    /// Whether there is no room for a slot more.
    pub full: bool,
    /// Whether it ends its net.
    pub last: bool,
    /// Whether its net is global.
    pub global: bool,
}

/// What is wrong with the line, by the least code of the route alone that holds there.
pub(crate) fn elem_fault(grid: Grid, at: ElemContext) -> Option<TextFault>
    ensures { result ≡ first_code fit_codes grid at.elem.line (context_at at) }
{
    let line = at.elem.line;
    if leaps(grid, at) {
        return Some(FitCause::CellsApart.at(line));
    }
    if comes_again(at) {
        return Some(FitCause::RepeatedElement.at(line));
    }
    if starts_loose(at) {
        return Some(FitCause::LooseBranch.at(line));
    }
    if at.taken {
        return Some(FitCause::SharedPin.at(line));
    }
    if is_out_of_order(at) {
        return Some(FitCause::OutOfOrder.at(line));
    }
    if is_past_limit(at) {
        return Some(FitCause::PastLimit.past(SLOT_LIMIT as u64 + 1));
    }
    None
}

/// Whether a channel stands after a channel whose cell does not meet its own.
fn leaps(grid: Grid, at: ElemContext) -> bool
    ensures { result ≡ fit.leaps grid (context_at at) }
{
    let Some(before) = at.previous else {
        return false;
    };
    let Some(from) = before.cell() else {
        return false;
    };
    let Some(to) = at.elem.cell() else {
        return false;
    };
    are_apart(grid, from, to)
}

/// Whether no switch block of the array has both cells. True too where one is no cell of the array.
fn are_apart(grid: Grid, from: Cell, to: Cell) -> bool
    ensures { result ≡ is_none (meeting grid from to) }
{
    if !grid.has_cell(from) {
        return true;
    }
    if !grid.has_cell(to) {
        return true;
    }
    meet(grid, from, to).is_none()
}

/// Whether the element stands after a SINK: in branch position.
pub fn is_branch(at: ElemContext) -> bool
    ensures { result ≡ fit.is_branch (context_at at) }
{
    match at.previous {
        Some(before) => matches!(before.kind, ElemKind::Sink),
        None => false,
    }
}

/// Whether an element comes a second time where no branch starts.
pub fn comes_again(at: ElemContext) -> bool
    ensures { result ≡ fit.comes_again (context_at at) }
{
    !matches!(at.elem.kind, ElemKind::Sink) && !is_branch(at) && at.again
}

/// Whether a branch starts at an element that the net does not have yet.
fn starts_loose(at: ElemContext) -> bool
    ensures { result ≡ fit.starts_loose (context_at at) }
{
    !matches!(at.elem.kind, ElemKind::Ipin)
        && !matches!(at.elem.kind, ElemKind::Sink)
        && is_branch(at)
        && !at.again
}

/// Whether an element of an ordinary net is out of order, or ends it without being a SINK.
pub fn is_out_of_order(at: ElemContext) -> bool
    ensures { result ≡ fit.is_out_of_order (context_at at) }
{
    if at.global {
        return false;
    }
    let kind = at.elem.kind;
    let in_order = match at.previous {
        Some(before) => before.kind.may_precede(kind),
        None => matches!(kind, ElemKind::Source),
    };
    !in_order || at.last && !matches!(kind, ElemKind::Sink)
}

/// Whether the element would bring one slot more than may be.
fn is_past_limit(at: ElemContext) -> bool
    ensures { result ≡ is_some (slots_past (context_at at)) }
{
    at.elem.kind.is_channel() && !at.again && at.full
}
