//! What is wrong with an element line by its netlist, its placement and the architecture.
ghost use Rattle.std.specs.Prelude.{◌≡◌, Some, false};
ghost use Rattle.std.specs.Option.{option_map_or};
ghost use Rattle.fpga_text.specs.Codes.{first_code};
ghost use Rattle.fpga_bounds.specs.ProblemContext.{problem_context_at};
ghost use Rattle.fpga_types.specs.Fits as fits;
ghost use Rattle.fpga_types.specs.Fits.{problem_codes};
ghost use Rattle.fpga_types.specs.Kinds as kinds;
ghost use Rattle.fpga_types.specs.Size.{Size};
ghost use Rattle.fpga_types.specs.Terminals as spec;
ghost use Rattle.fpga_types.specs.Touching as touching;

use crate::elem_context::ElemContext;
use fpga_text::{Coded, TextFault};
use fpga_types::{Arch, Cell, Elem, ElemKind, FitCause, Grid, Label, PinAt, Terminal};

/// What the codes of an element line look at that are not those of the route alone.
#[derive(Clone, Copy)]
pub struct ProblemContext {
    /// What those of the route alone look at.
    pub route: ElemContext,
    /// The terminal that drives the net.
    pub driver: Option<Terminal>,
    /// Whether the terminal that the line names is a sink of the net.
    pub ends: bool,
    /// Whether the line is at an input pin of a placed logic block or at an output pad.
    pub takes_in: bool,
    /// Whether the line ends its net without each sink.
    pub lacking: bool,
}

/// What is wrong with the line, by the least of these codes that holds there.
pub(crate) fn problem_fault(arch: &Arch, grid: Grid, at: ProblemContext) -> Option<TextFault>
    ensures { result ≡ first_code problem_codes (record { arch = arch.now; grid = grid })
        at.route.elem.line (problem_context_at at) }
{
    let line = at.route.elem.line;
    if is_other_source(at) {
        return Some(FitCause::OtherSource.at(line));
    }
    if is_other_sink(at) {
        return Some(FitCause::OtherSink.at(line));
    }
    if is_sink_not_once(at) {
        return Some(FitCause::SinkNotOnce.at(line));
    }
    if is_other_pin(arch, at) {
        return Some(FitCause::OtherPin.at(line));
    }
    if is_pin_apart(arch, grid, at) {
        return Some(FitCause::PinApart.at(line));
    }
    None
}

/// Whether a SOURCE is not the driver of its net.
pub fn is_other_source(at: ProblemContext) -> bool
    ensures { result ≡ fits.is_other_source (problem_context_at at) }
{
    matches!(at.route.elem.kind, ElemKind::Source) && !is_driver(at.driver, at.route.elem)
}

/// Whether the line names the terminal that drives its net.
fn is_driver(driver: Option<Terminal>, e: Elem) -> bool
    ensures { result ≡ option_map_or (spec.is_terminal e) driver false }
{
    match driver {
        Some(at) => is_terminal(e, at),
        None => false,
    }
}

/// Whether the line names the terminal.
fn is_terminal(e: Elem, at: Terminal) -> bool
    ensures { result ≡ spec.is_terminal e at }
{
    e.x == at.x && e.y == at.y && same_label(e.label, at.label) && e.number == at.number
}

/// Whether they are one label.
fn same_label(a: Label, b: Label) -> bool
    ensures { result ≡ kinds.same_label a b }
{
    match (a, b) {
        (Label::Class, Label::Class) => true,
        (Label::Pin, Label::Pin) => true,
        (Label::Pad, Label::Pad) => true,
        (Label::Track, Label::Track) => true,
        _ => false,
    }
}

/// Whether a SINK is no sink of its net.
pub fn is_other_sink(at: ProblemContext) -> bool
    ensures { result ≡ fits.is_other_sink (problem_context_at at) }
{
    matches!(at.route.elem.kind, ElemKind::Sink) && !at.ends
}

/// Whether a SINK stands earlier in its net, or the net ends without one of its sinks.
fn is_sink_not_once(at: ProblemContext) -> bool
    ensures { result ≡ fits.is_sink_not_once (problem_context_at at) }
{
    matches!(at.route.elem.kind, ElemKind::Sink) && at.route.again || at.lacking
}

/// Whether an OPIN is no pin of the driver, an IPIN no input, or a SINK of another place, class or
/// pad than the IPIN before it.
pub fn is_other_pin(arch: &Arch, at: ProblemContext) -> bool
    ensures { (grid : Size) → result ≡ fits.is_other_pin (record { arch = arch.now; grid = grid })
        (problem_context_at at) }
{
    is_other_opin(arch, at)
        || matches!(at.route.elem.kind, ElemKind::Ipin) && !at.takes_in
        || is_moved_sink(arch, at)
}

/// Whether an OPIN is no pin of the driver's block and class that takes ordinary nets, nor its pad.
fn is_other_opin(arch: &Arch, at: ProblemContext) -> bool
    ensures { (grid : Size) → result ≡ fits.is_other_opin (record { arch = arch.now; grid = grid })
        (problem_context_at at) at.route.elem }
{
    let e = at.route.elem;
    matches!(e.kind, ElemKind::Opin) && !is_driving_pin(arch, at.driver, e)
}

/// Whether the pin line is at the terminal that drives its net, and takes ordinary nets.
fn is_driving_pin(arch: &Arch, driver: Option<Terminal>, e: Elem) -> bool
    ensures { result ≡ option_map_or (λ driver. spec.is_ordinary_pin_at arch.now driver e) driver
        false }
{
    match driver {
        Some(at) => is_pin_at(arch, at, e) && is_ordinary(arch, e.label, e.number),
        None => false,
    }
}

/// Whether the pin line is at the terminal: a pin of its place and class, or its pad.
fn is_pin_at(arch: &Arch, at: Terminal, e: Elem) -> bool
    ensures { result ≡ spec.is_pin_at arch.now at e }
{
    e.x == at.x && e.y == at.y && is_number_of(arch, at, e.label, e.number)
}

/// Whether the number on a pin line is that of a pin of the class, or of the pad.
fn is_number_of(arch: &Arch, at: Terminal, label: Label, number: u32) -> bool
    ensures { result ≡ spec.is_number_of arch.now at.label at.number label number }
{
    match (at.label, label) {
        (Label::Class, Label::Pin) => is_of_class(arch, at.number, number),
        (Label::Pad, Label::Pad) => at.number == number,
        _ => false,
    }
}

/// Whether the pin is one of the class.
fn is_of_class(arch: &Arch, class: u32, pin: u32) -> bool
    ensures { result ≡ spec.is_of_class arch.now class pin }
{
    match arch.pins.as_slice().get(pin as usize) {
        Some(spec) => spec.class == class,
        None => false,
    }
}

/// Whether what a pin line is labelled with takes ordinary nets. A pad does.
fn is_ordinary(arch: &Arch, label: Label, number: u32) -> bool
    ensures { result ≡ spec.is_ordinary arch.now label number }
{
    match label {
        Label::Pin => match arch.pins.as_slice().get(number as usize) {
            Some(spec) => !spec.global,
            None => false,
        },
        _ => true,
    }
}

/// Whether a SINK stands after an IPIN of another place, class or pad.
fn is_moved_sink(arch: &Arch, at: ProblemContext) -> bool
    ensures { (grid : Size) → result ≡ fits.is_moved_sink (record { arch = arch.now; grid = grid })
        (problem_context_at at) at.route.elem }
{
    let Some(before) = at.route.previous else {
        return false;
    };
    let e = at.route.elem;
    matches!(e.kind, ElemKind::Sink)
        && matches!(before.kind, ElemKind::Ipin)
        && !is_pin_at(arch, named_terminal(e), before)
}

/// The terminal that a SOURCE or SINK line names.
fn named_terminal(e: Elem) -> Terminal
    ensures { result ≡ spec.named_terminal e }
{
    Terminal {
        x: e.x,
        y: e.y,
        label: e.label,
        number: e.number,
    }
}

/// Whether a channel stands after an OPIN, or an IPIN after a channel, and the pin does not touch
/// the cell.
fn is_pin_apart(arch: &Arch, grid: Grid, at: ProblemContext) -> bool
    ensures { result ≡ fits.is_pin_apart (record { arch = arch.now; grid = grid })
        (problem_context_at at) }
{
    let Some(before) = at.route.previous else {
        return false;
    };
    let e = at.route.elem;
    matches!(before.kind, ElemKind::Opin) && are_off(arch, grid, before, e)
        || matches!(e.kind, ElemKind::Ipin) && are_off(arch, grid, e, before)
}

/// Whether they are a pin line and a channel line, and the pin does not touch the cell.
fn are_off(arch: &Arch, grid: Grid, pin: Elem, channel: Elem) -> bool
    ensures { result ≡ fits.are_off (record { arch = arch.now; grid = grid }) (Some pin)
        (Some channel) }
{
    let Some(pin) = pin.pin() else {
        return false;
    };
    let Some(cell) = channel.cell() else {
        return false;
    };
    !touches(arch, grid, pin, cell)
}

/// Whether the pin touches the cell. A pin that the architecture does not have touches none.
fn touches(arch: &Arch, grid: Grid, pin: PinAt, cell: Cell) -> bool
    ensures { result ≡ touching.touches arch.now grid pin cell }
{
    if let PinAt::Pin { pin: number, .. } = pin {
        if number as usize >= arch.pins.as_slice().len() {
            return false;
        }
    }
    fpga_fabric::touches(arch, grid, pin, cell)
}
