//! The first fault of the nets of a route.
ghost use Rattle.std.specs.Prelude.{◌≡◌, ◌≤◌, [], false, length, replicate, IfOk, OnOk};
ghost use Rattle.std.specs.List.{list_any};
ghost use Rattle.fpga_text.specs.FirstFault.{Answers};
ghost use Rattle.fpga_bounds.specs.Heads.{lacks_line};
ghost use Rattle.fpga_bounds.specs.NetFit.{nets_faults};
ghost use Rattle.fpga_bounds.specs.NetTable.{HasNetLines};
ghost use Rattle.fpga_types.specs.declared.route.RouteNet.{RouteNet};

use crate::elems_check::check_elems;
use crate::head_check::lacks_net;
use crate::keys::take_pins;
use crate::line_rules::LineRules;
use fpga_text::TextFault;
use fpga_types::{NET_LIMIT, RouteNet};
use std::alloc::{AllocError, Global};
use std::collections::BTreeSet;

/// Judges the Net and element lines of these nets: whether an ordinary net of the netlist has no
/// Net line, where all are good.
///
/// # Errors
/// The first fault of the lines, or want of memory.
pub fn check_nets<'a, R: LineRules<'a>>(
    alloc: Global,
    rules: &R,
    kept: &mut R::Kept,
    nets: &'a [RouteNet],
) -> Result<bool, TextFault>
    requires limit { length nets.now ≤ NET_LIMIT }
    requires kept { (net : RouteNet) → R.has_kept kept.old [] net [] }
    ensures answers { Answers (nets_faults (R.fault rules.now) nets.now 0)
        (λ lacking. lacking
        ≡ list_any (lacks_line nets.now) (R.problem rules.now).netlist.nets) result }
    ensures kept { OnOk result ((net : RouteNet) → R.has_kept kept.new nets.now net []) }
{
    let Ok(mut marks) = no_marks(alloc, rules.names().as_slice().len()) else {
        return Err(TextFault::Memory);
    };
    if let Err(fault) = check_each(alloc, rules, kept, &mut marks, nets) {
        return Err(fault);
    }
    Ok(lacks_net(rules.names(), &marks))
}

/// A mark for each of so many nets, none of which has had its Net line.
fn no_marks(alloc: Global, count: usize) -> Result<Vec<bool>, AllocError>
    ensures { IfOk result (λ marks. marks.items ≡ replicate count false) }
{
    vec![in alloc; false; count]
}

/// Judges the nets, and marks each net of the netlist that has a Net line.
fn check_each<'a, R: LineRules<'a>>(
    alloc: Global,
    rules: &R,
    kept: &mut R::Kept,
    marks: &mut [bool],
    nets: &'a [RouteNet],
) -> Result<(), TextFault>
    requires limit { length nets.now ≤ NET_LIMIT }
    requires kept { (net : RouteNet) → R.has_kept kept.old [] net [] }
    requires marks { HasNetLines (R.problem rules.now).netlist.nets marks.old [] }
    ensures answers { Answers (nets_faults (R.fault rules.now) nets.now 0)
        (λ _. (net : RouteNet) → R.has_kept kept.new nets.now net []) result }
    ensures marked { OnOk result
        (HasNetLines (R.problem rules.now).netlist.nets marks.new nets.now) }
{
    let mut pins = BTreeSet::new(alloc);
    for n in 0..nets.len() {
        let net = &nets[n];
        let of = match rules.check_head(alloc, marks, net) {
            Ok(of) => of,
            Err(fault) => return Err(fault),
        };
        if let Err(fault) = check_elems(alloc, rules, &of, kept, &nets[..n], net, &pins) {
            return Err(fault);
        }
        let Ok(()) = take_pins(&mut pins, net.elems.as_slice()) else {
            return Err(TextFault::Memory);
        };
        let Ok(()) = rules.end_net(alloc, kept, net) else {
            return Err(TextFault::Memory);
        };
    }
    Ok(())
}
