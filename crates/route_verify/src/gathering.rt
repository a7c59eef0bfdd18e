//! The causes against the lines of a routed file, gathered line by line: each line is judged with
//! those before it as they stand, whether there is a cause against them or not.
ghost use Rattle.std.specs.Prelude.{◌≡◌, ◌≤◌, ◌<◌, ◌-◌, ◌^◌, ◌++◌, [], List, IfOk, OnOk, length, take};
ghost use Rattle.std.specs.List.{list_any};
ghost use Rattle.fpga_bounds.specs.Heads.{lacks_line};
ghost use Rattle.fpga_bounds.specs.Keys.{has_pin as is_held};
ghost use Rattle.fpga_bounds.specs.NetFit.{head_line};
ghost use Rattle.fpga_types.specs.Fit.{is_pin_of};
ghost use Rattle.fpga_types.specs.Fits.{has_net};
ghost use Rattle.fpga_types.specs.Fits as fits;
ghost use Rattle.fpga_types.specs.declared.route.Elem.{Elem};
ghost use Rattle.fpga_types.specs.declared.route.RouteNet.{RouteNet};
ghost use Rattle.fpga_types.specs.declared.route.RouteText.{RouteText};
ghost use Rattle.route_verify.specs.AllCauses.{all_causes, cause_against};
ghost use Rattle.route_verify.specs.Gathered.{elems_causes, nets_causes, problem_of};
ghost use Rattle.route_verify.specs.Judge.{HasKept};
ghost use Rattle.route_verify.specs.Judged as spec;
ghost use Rattle.route_verify.specs.Reach.{line_cause_by};

use crate::cause::Cause;
use crate::judge::{Judge, cause_at, head_cause, is_lacking};
use crate::kept::Kept;
use crate::line_cause::LineCause;
use crate::pins::{has_pin, take_pins};
use crate::rules::Rules;
use crate::traces::Traces;
use fpga_bounds::{
    ElemAt, ElemContext, ElemKey, LineRules, NetTable, has_elem, is_bare, same_size, see,
};
use fpga_text::{Coded, TextFault};
use fpga_types::{Elem, NET_LIMIT, Net, RouteNet, RouteText};
use std::alloc::{AllocError, Global};
use std::collections::BTreeSet;

/// The causes against the file, in the order of its lines.
pub(crate) fn gather<'a>(
    alloc: Global,
    judge: &Judge<'a>,
    found: &'a RouteText,
) -> Result<Vec<LineCause>, AllocError>
    requires nets { length found.now.nets ≤ NET_LIMIT }
    requires lines { found.now.lines < 2 ^ 64 - 1 }
    ensures { IfOk result (λ causes. causes.items
        ≡ all_causes judge.now.reach judge.now.width judge.now.problem found.now) }
{
    let mut causes = Vec::new(alloc);
    put(&mut causes, None, None, array_cause(judge, found))?;
    let nets = found.nets.as_slice();
    let heads = Traces::of(alloc, nets)?;
    gather_nets(alloc, judge, &heads, nets, &mut causes)?;
    put(
        &mut causes,
        None,
        None,
        end_cause(judge, &heads, found.lines),
    )?;
    Ok(causes)
}

/// Puts the cause against a line of this net, which names this, behind the others, if there is one.
fn put(
    causes: &mut Vec<LineCause>,
    net: Option<usize>,
    elem: Option<Elem>,
    cause: Option<TextFault>,
) -> Result<(), AllocError>
    ensures { OnOk result (causes.new.items
        ≡ causes.old.items ++ cause_against net elem cause) }
{
    let Some(TextFault::Bad { line, code }) = cause else {
        return Ok(());
    };
    causes.push(LineCause {
        line,
        cause: code,
        net,
        elem,
    })?;
    Ok(())
}

/// The cause against the array line, if there is one.
fn array_cause(judge: &Judge, found: &RouteText) -> Option<TextFault>
    ensures { result ≡ spec.array_cause judge.now.problem found.now }
{
    if same_size(judge.design().placement.grid, found.grid) {
        return None;
    }
    Some(Cause::Unfit.at(found.grid_line))
}

/// The cause against the end of a file of so many lines with these nets, if there is one.
fn end_cause<'a>(judge: &Judge<'a>, heads: &Traces<'a>, lines: u64) -> Option<TextFault>
    requires { lines < 2 ^ 64 - 1 }
    ensures { (found : RouteText) → found.nets ≡ heads.now → found.lines ≡ lines
        → result ≡ spec.end_cause judge.now.problem found }
{
    if !lacks_net(judge.names(), heads) {
        return None;
    }
    Some(Cause::MissingSink.at(lines + 1))
}

/// Whether a net of the netlist that is not global is none of these of a file.
fn lacks_net<'a>(names: &NetTable<'a>, heads: &Traces<'a>) -> bool
    ensures { result ≡ list_any (lacks_line heads.now) names.now }
{
    for net in names.as_slice() {
        if is_missing(heads, net) {
            return true;
        }
    }
    false
}

/// Whether the net of the netlist is not global and none of these of a file.
fn is_missing<'a>(heads: &Traces<'a>, net: &'a Net) -> bool
    ensures { result ≡ lacks_line heads.now net.now }
{
    if net.global {
        return false;
    }
    let Some(_) = heads.number_of(net.name.bytes.as_slice()) else {
        return true;
    };
    false
}

/// Puts the causes against the lines of the nets, which are these by name, behind the others.
fn gather_nets<'a>(
    alloc: Global,
    judge: &Judge<'a>,
    heads: &Traces<'a>,
    nets: &'a [RouteNet],
    causes: &mut Vec<LineCause>,
) -> Result<(), AllocError>
    requires same { heads.now ≡ nets.now }
    requires limit { length nets.now ≤ NET_LIMIT }
    ensures { OnOk result (causes.new.items
        ≡ causes.old.items ++ nets_causes judge.now nets.now 0) }
{
    let mut kept = Kept::nothing(alloc);
    let mut pins = BTreeSet::new(alloc);
    for n in 0..nets.len() {
        let net = &nets[n];
        let rules = judge.rules(alloc, net)?;
        let repeated = stands_before(heads, n, net);
        let cause = cause_of_head(alloc, judge, &rules, repeated, net);
        put(causes, Some(n), None, cause)?;
        gather_elems(alloc, &rules, &mut kept, &pins, &nets[..n], net, causes)?;
        take_pins(&mut pins, net.elems.as_slice())?;
        judge.end_net(alloc, &mut kept, net)?;
    }
    Ok(())
}

/// Whether a net before this position has the name of the net.
fn stands_before<'a>(heads: &Traces<'a>, n: usize, net: &'a RouteNet) -> bool
    ensures { result ≡ has_net (take n heads.now) net.now.name }
{
    let Some(first) = heads.number_of(net.name.bytes.as_slice()) else {
        return false;
    };
    first < n
}

/// The least cause against the Net line of a net with these rules, if there is one, by whether an
/// earlier Net line has its name.
fn cause_of_head<'a>(
    alloc: Global,
    judge: &Judge<'a>,
    rules: &Rules<'a>,
    repeated: bool,
    net: &'a RouteNet,
) -> Option<TextFault>
    requires { rules.now ≡ record {
      problem = judge.now.problem;
      name = net.now.name;
      width = judge.now.width;
      reach = judge.now.reach;
    } }
    ensures { (earlier : List RouteNet) → repeated ≡ has_net earlier net.now.name
        → result ≡ line_cause_by judge.now.reach judge.now.width judge.now.problem
        (head_line earlier net.now) }
{
    let lacking = is_lacking(alloc, rules, net);
    head_cause(
        net.line,
        is_known(judge, net),
        repeated,
        is_bare(net),
        lacking,
    )
}

/// Whether the netlist has the net in the form of its Net line.
fn is_known<'a>(judge: &Judge<'a>, net: &'a RouteNet) -> bool
    ensures { result ≡ fits.is_known judge.now.problem net.now.name net.now.global }
{
    let Some(number) = judge.names().number_of(net.name.bytes.as_slice()) else {
        return false;
    };
    judge.is_known(number, net)
}

/// Puts the causes against the element lines of the net that stands behind these, whose pins these
/// are, behind the others.
fn gather_elems(
    alloc: Global,
    rules: &Rules,
    kept: &mut Kept,
    pins: &BTreeSet<ElemKey>,
    earlier: &[RouteNet],
    net: &RouteNet,
    causes: &mut Vec<LineCause>,
) -> Result<(), AllocError>
    requires net { rules.now.name ≡ net.now.name }
    requires nets { length earlier.now < NET_LIMIT }
    requires pins { (e : Elem) → is_held pins.now e ≡ is_pin_of earlier.now e }
    requires kept { HasKept kept.old earlier.now [] }
    ensures causes { OnOk result (causes.new.items
        ≡ causes.old.items ++ elems_causes (problem_of rules.now) earlier.now net.now 0) }
    ensures kept { OnOk result (HasKept kept.new earlier.now net.now.elems) }
{
    let elems = net.elems.as_slice();
    let mut seen = BTreeSet::new(alloc);
    let mut previous: Option<Elem> = None;
    for (i, e) in elems.iter().enumerate() {
        let again = has_elem(&seen, *e);
        see(&mut seen, *e)?;
        let context = ElemContext {
            elem: *e,
            previous,
            again,
            taken: has_pin(pins, *e),
            full: false,
            last: i + 1 == elems.len(),
            global: net.global,
        };
        let at = ElemAt {
            earlier,
            net,
            position: i,
            seen: &seen,
            context,
        };
        put(
            causes,
            Some(earlier.len()),
            Some(*e),
            cause_at(rules, kept, at),
        )?;
        kept.add_line(*e)?;
        previous = Some(*e);
    }
    Ok(())
}
