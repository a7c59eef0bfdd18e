//! What a netlist says of the Net line of a net, and which of its nets have had one.
ghost use Rattle.std.specs.Prelude.{◌≡◌, ◌==◌, ◌&&◌, not, List, IfSome, length, is_some, true};
ghost use Rattle.std.specs.List.{list_any};
ghost use Rattle.fpga_bounds.specs.Heads.{IsKnownAs, bare_fault as said_fault, is_known_in, lacks_line};
ghost use Rattle.fpga_bounds.specs.NetTable.{HasNetLines, number_named};
ghost use Rattle.fpga_types.specs.Fits as fits;
ghost use Rattle.fpga_types.specs.Terminals.{sinks_named};
ghost use Rattle.fpga_types.specs.declared.route.RouteNet.{RouteNet};

use crate::net_ends::NetEnds;
use crate::net_table::NetTable;
use fpga_text::{Coded, TextFault};
use fpga_types::{FitCause, Net, RouteNet};
use std::alloc::Global;
use std::collections::BTreeSet;

/// The number of the net with the name of the Net line, if there is one in the form of the line.
pub(crate) fn known_number<'a>(names: &NetTable<'a>, net: &'a RouteNet) -> Option<usize>
    ensures known { is_some result ≡ is_known_in names.now net.now.name net.now.global }
    ensures number { IfSome result (IsKnownAs names.now net.now.name) }
{
    let Some(number) = names.number_of(net.name.bytes.as_slice()) else {
        return None;
    };
    let named = &names.as_slice()[number];
    if !agree(named.global, net.global) {
        return None;
    }
    Some(number)
}

/// Whether both are true, or neither is.
pub fn agree(a: bool, b: bool) -> bool
    ensures { result ≡ fits.agree a b }
{
    if a { b } else { !b }
}

/// Whether the net is ordinary and has no element.
pub fn is_bare(net: &RouteNet) -> bool
    ensures { result ≡ (not net.now.global && length net.now.elems == 0) }
{
    !net.global && net.elems.as_slice().is_empty()
}

/// What is wrong with the Net line of an ordinary net that has no element: it ends the net without
/// its sinks, or without a SINK.
pub(crate) fn bare_fault(alloc: Global, ends: &NetEnds, net: &RouteNet) -> Option<TextFault>
    ensures { result ≡ said_fault net.now (sinks_named ends.now.problem ends.now.name) }
{
    if !is_bare(net) {
        return None;
    }
    if ends.lacks(&BTreeSet::new(alloc)) {
        return Some(FitCause::SinkNotOnce.at(net.line));
    }
    Some(FitCause::OutOfOrder.at(net.line))
}

/// Whether a net that is not global has no Net line. The mark at the number of a net says whether
/// it has one.
pub(crate) fn lacks_net(names: &NetTable, marks: &[bool]) -> bool
    requires { length marks.now ≡ length names.now }
    ensures { (lines : List RouteNet) → HasNetLines names.now marks.now lines
        → result ≡ list_any (lacks_line lines) names.now }
{
    for net in names.as_slice() {
        if is_missing(names, marks, net) {
            return true;
        }
    }
    false
}

/// Whether the net is not global and has no Net line. It is one of the table.
fn is_missing<'a>(names: &NetTable<'a>, marks: &[bool], net: &'a Net) -> bool
    requires { length marks.now ≡ length names.now }
    ensures { (lines : List RouteNet) → HasNetLines names.now marks.now lines
        → is_some (number_named names.now net.now.name) ≡ true
        → result ≡ lacks_line lines net.now }
{
    if net.global {
        return false;
    }
    let Some(number) = names.number_of(net.name.bytes.as_slice()) else {
        return true;
    };
    !marks[number]
}
