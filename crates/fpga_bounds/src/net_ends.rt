//! What a netlist and its placement say of a net of a route.
ghost use Rattle.std.specs.Prelude.{◌≡◌, ◌&&◌, not, filter_map, option_and_then, Some, IfOk, OnOk};
ghost use Rattle.std.specs.List.{list_any};
ghost use Rattle.std.specs.Option.{option_to_list};
ghost use Rattle.fpga_bounds.specs.ElemContext.{IsLineOf};
ghost use Rattle.fpga_bounds.specs.NetEnds.{GainsTerminal, HasTerminals, lacks_one, sink_line as sink_at};
ghost use Rattle.fpga_bounds.specs.ProblemContext.{context_by};
ghost use Rattle.fpga_types.specs.Fit.{RouteLine};
ghost use Rattle.fpga_types.specs.Fits.{net_line_fault, problem_fault as refusal};
ghost use Rattle.fpga_types.specs.Terminals.{driver_named, is_terminal, net_named, sinks_named, terminal_of};

use crate::design::Design;
use crate::elem_context::{ElemContext, elem_fault};
use crate::keys::{ElemKey, has_elem, see};
use crate::problem_context::{ProblemContext, problem_fault};
use fpga_text::TextFault;
use fpga_types::{Elem, ElemKind, Net, PinRef, Terminal};
use std::alloc::{AllocError, Global};
use std::collections::BTreeSet;
use std::marker::Model;

/// A net by its name, with the terminals at which it begins and ends.
#[derive(Drop)]
pub struct NetEnds<'a> {
    design: &'a Design<'a>,
    name: &'a [u8],
    net: &'a Net,
    driver: Option<Terminal>,
    sinks: BTreeSet<ElemKey>,
}

impl<'a> Model for NetEnds<'a> {
    ghost use Rattle.fpga_bounds.specs.NetEnds.{AreEnds, NamedNet};

    ghost Value = { NamedNet };

    ghost view = { λ e. record { problem = e.design.now; name = e.name.now } };

    ghost invariant = { λ e. AreEnds (record { problem = e.design.now; name = e.name.now })
        e.net.now e.driver e.sinks };
}

impl<'a> NetEnds<'a> {
    /// The ends of the net with this name, which is the first of that name.
    ///
    /// # Errors
    /// Where memory is short.
    pub fn of(
        alloc: Global,
        design: &'a Design<'a>,
        name: &'a [u8],
        net: &'a Net,
    ) -> Result<NetEnds<'a>, AllocError>
        requires { net_named design.now name.now ≡ Some net.now }
        ensures { IfOk result (λ ends. ends ≡ record { problem = design.now; name = name.now }) }
    {
        let driver = driver_of(design, net.driver);
        let sinks = terminals_of(alloc, design, net.sinks.as_slice())?;
        Ok(NetEnds {
            design,
            name,
            net,
            driver,
            sinks,
        })
    }

    /// The terminal that drives the net.
    fn driver(&self) -> Option<Terminal>
        ensures { result ≡ driver_named self.now.problem self.now.name }
    {
        self.driver
    }

    /// Whether the terminal that the line names is a sink of the net.
    fn is_sink(&self, e: Elem) -> bool
        ensures { result ≡ list_any (is_terminal e) (sinks_named self.now.problem self.now.name) }
    {
        let sink = Elem {
            kind: ElemKind::Sink,
            line: 0,
            ..e
        };
        has_elem(&self.sinks, sink)
    }

    /// Whether a sink of the net has no SINK line among these lines.
    pub fn lacks(&self, seen: &BTreeSet<ElemKey>) -> bool
        ensures { result ≡ lacks_one seen.now (sinks_named self.now.problem self.now.name) }
    {
        lacks_terminal(self.design, self.net.sinks.as_slice(), seen)
    }

    /// Whether a line ends the net, and a sink of the net has no SINK line among these lines.
    fn is_lacking(&self, at: ElemContext, seen: &BTreeSet<ElemKey>) -> bool
        ensures { result ≡ (not at.global && at.last
            && lacks_one seen.now (sinks_named self.now.problem self.now.name)) }
    {
        !at.global && at.last && self.lacks(seen)
    }

    /// What is wrong with a line of the net, by the least code that holds there; the set has the
    /// elements of the net up to the line.
    pub(crate) fn fault(&self, at: ElemContext, seen: &BTreeSet<ElemKey>) -> Option<TextFault>
        ensures { (line : RouteLine) → self.now.name ≡ line.net.name → IsLineOf at seen.now line
            → result ≡ net_line_fault self.now.problem line }
    {
        let design = self.design;
        if let Some(fault) = self.fault_by_ends(at, seen) {
            return Some(fault);
        }
        elem_fault(design.route.grid, at)
    }

    /// What is wrong with a line of the net, by the least code that is not one of the route alone.
    fn fault_by_ends(&self, at: ElemContext, seen: &BTreeSet<ElemKey>) -> Option<TextFault>
        ensures { (line : RouteLine) → self.now.name ≡ line.net.name → IsLineOf at seen.now line
            → result ≡ refusal self.now.problem line }
    {
        let design = self.design;
        problem_fault(design.arch, design.route.grid, self.context(at, seen))
    }

    /// What the codes of the fit look at, of a line of the net; the set has the elements of the net
    /// up to it.
    pub fn context(&self, at: ElemContext, seen: &BTreeSet<ElemKey>) -> ProblemContext
        ensures { result ≡ context_by self.now at seen.now }
    {
        let design = self.design;
        ProblemContext {
            route: at,
            driver: self.driver(),
            ends: self.is_sink(at.elem),
            takes_in: design.is_input(at.elem),
            lacking: self.is_lacking(at, seen),
        }
    }
}

/// The terminal of the pin that drives a net, if there is one.
fn driver_of(design: &Design, driver: Option<PinRef>) -> Option<Terminal>
    ensures { result ≡ option_and_then (terminal_of design.now) driver }
{
    let pin = driver?;
    design.terminal_of(pin)
}

/// The terminals of these pins, as the SINK lines at them.
fn terminals_of(
    alloc: Global,
    design: &Design,
    pins: &[PinRef],
) -> Result<BTreeSet<ElemKey>, AllocError>
    ensures { IfOk result (λ set. HasTerminals set (filter_map (terminal_of design.now) pins.now)) }
{
    let mut terminals = BTreeSet::new(alloc);
    for pin in pins {
        add_terminal(&mut terminals, design.terminal_of(*pin))?;
    }
    Ok(terminals)
}

/// Puts the SINK line at the terminal into the set, if there is one.
fn add_terminal(
    terminals: &mut BTreeSet<ElemKey>,
    terminal: Option<Terminal>,
) -> Result<(), AllocError>
    ensures { OnOk result (GainsTerminal terminals.old terminal terminals.new) }
{
    let Some(at) = terminal else {
        return Ok(());
    };
    see(terminals, sink_line(at))?;
    Ok(())
}

/// The SINK line at a terminal.
fn sink_line(at: Terminal) -> Elem
    ensures { result ≡ sink_at at }
{
    Elem {
        kind: ElemKind::Sink,
        x: at.x,
        y: at.y,
        label: at.label,
        number: at.number,
        line: 0,
    }
}

/// Whether the terminal of one of these pins has no SINK line among these lines.
fn lacks_terminal(design: &Design, pins: &[PinRef], seen: &BTreeSet<ElemKey>) -> bool
    ensures { result ≡ lacks_one seen.now (filter_map (terminal_of design.now) pins.now) }
{
    for pin in pins {
        if is_missing(design.terminal_of(*pin), seen) {
            return true;
        }
    }
    false
}

/// Whether there is a terminal, and no SINK line at it among these lines.
fn is_missing(terminal: Option<Terminal>, seen: &BTreeSet<ElemKey>) -> bool
    ensures { result ≡ lacks_one seen.now (option_to_list terminal) }
{
    let Some(at) = terminal else {
        return false;
    };
    !has_elem(seen, sink_line(at))
}
