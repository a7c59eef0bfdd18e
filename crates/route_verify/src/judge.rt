//! What the nets of a routed file are judged by, and the cause against a Net line.
ghost use Rattle.std.specs.Prelude.{◌≡◌, ◌<◌, ◌==◌, ◌&&◌, not, [], false, length, slice_index_or, take, IfOk, Some};
ghost use Rattle.std.specs.List.{list_all};
ghost use Rattle.fpga_bounds.specs.LineRules.{IsElemAt, line_here};
ghost use Rattle.fpga_bounds.specs.NetTable.{number_named};
ghost use Rattle.fpga_types.specs.Fits.{has_sink, is_known};
ghost use Rattle.fpga_types.specs.Terminals.{sinks_named};
ghost use Rattle.route_verify.specs.Heads as spec;
ghost use Rattle.route_verify.specs.Judge.{HasKept};
ghost use Rattle.route_verify.specs.Judged.{graph_of};
ghost use Rattle.route_verify.specs.Reach.{line_cause_by};

use crate::cause::Cause;
use crate::depths::LineDepths;
use crate::ends::NameEnds;
use crate::kept::Kept;
use crate::line::ElemLine;
use crate::rules::Rules;
use crate::traces::Traces;
use crate::wires::{add_wires, is_on};
use crate::wiring::Wiring;
use fpga_bounds::{Design, ElemAt, LineRules, NetTable, agree, is_bare};
use fpga_text::{Coded, TextFault};
use fpga_types::RouteNet;
use std::alloc::{AllocError, Global};
use std::collections::BTreeSet;
use std::marker::Model;

/// The problem of a global route at a number of tracks, within a reach or without one, with its
/// nets by name.
#[derive(Drop)]
pub(crate) struct Judge<'a> {
    design: &'a Design<'a>,
    wiring: &'a Wiring<'a>,
    reach: Option<u32>,
    names: NetTable<'a>,
    traces: Traces<'a>,
}

impl<'a> Model for Judge<'a> {
    ghost use Rattle.route_verify.specs.Judge.{IsJudge, JudgedProblem};

    ghost Value = { JudgedProblem };

    ghost view = { λ j. record {
      problem = j.design.now;
      width = j.wiring.now.width;
      reach = j.reach;
    } };

    ghost invariant = { λ j. IsJudge j.design.now j.wiring.now j.names j.traces };
}

impl<'a> Judge<'a> {
    /// By this problem, this fabric, which is the problem's, and this reach, if there is one.
    pub(crate) fn of(
        alloc: Global,
        design: &'a Design<'a>,
        wiring: &'a Wiring<'a>,
        reach: Option<u32>,
    ) -> Result<Judge<'a>, AllocError>
        requires { wiring.now ≡ graph_of wiring.now.width design.now }
        ensures { IfOk result (λ judge. judge
            ≡ record { problem = design.now; width = wiring.now.width; reach = reach }) }
    {
        let names = NetTable::of(alloc, design.netlist.nets.as_slice())?;
        let traces = Traces::of(alloc, design.route.nets.as_slice())?;
        Ok(Judge {
            design,
            wiring,
            reach,
            names,
            traces,
        })
    }

    /// The problem.
    pub(crate) fn design(&self) -> &'a Design<'a>
        ensures { result.now ≡ self.now.problem }
    {
        self.design
    }

    /// The rules for the lines of the net.
    pub(crate) fn rules(&self, alloc: Global, net: &'a RouteNet) -> Result<Rules<'a>, AllocError>
        ensures { IfOk result (λ rules. rules ≡ record {
          problem = self.now.problem;
          name = net.now.name;
          width = self.now.width;
          reach = self.now.reach;
        }) }
    {
        let name = net.name.bytes.as_slice();
        let ends = NameEnds::of(alloc, self.design, &self.names, name)?;
        Rules::of(alloc, self.wiring, self.reach, &self.traces, ends, name)
    }

    /// Whether the Net line has the form of the net with this number, which has its name.
    pub(crate) fn is_known(&self, number: usize, net: &RouteNet) -> bool
        requires named { number_named self.now.problem.netlist.nets net.now.name ≡ Some number }
        requires within { number < length self.now.problem.netlist.nets }
        ensures { result ≡ is_known self.now.problem net.now.name net.now.global }
    {
        let named = &self.names().as_slice()[number];
        agree(named.global, net.global)
    }
}

impl<'a> LineRules<'a> for Judge<'a> {
    type Net = Rules<'a>;

    type Kept = Kept;

    ghost problem = { λ j. j.problem };

    ghost fault = { λ j. line_cause_by j.reach j.width j.problem };

    ghost is_net = { λ j rules net. rules ≡ record {
      problem = j.problem;
      name = net.name;
      width = j.width;
      reach = j.reach;
    } };

    ghost has_kept = { λ kept earlier net before. HasKept kept earlier before };

    fn names(&self) -> &NetTable<'a> {
        &self.names
    }

    fn check_head(
        &self,
        alloc: Global,
        marks: &mut [bool],
        net: &'a RouteNet,
    ) -> Result<Rules<'a>, TextFault> {
        let Some(number) = self.names().number_of(net.name.bytes.as_slice()) else {
            return Err(Cause::Unfit.at(net.line));
        };
        let Ok(rules) = self.rules(alloc, net) else {
            return Err(TextFault::Memory);
        };
        let known = self.is_known(number, net);
        let repeated = is_marked(marks, number);
        let lacking = is_lacking(alloc, &rules, net);
        if let Some(fault) = head_cause(net.line, known, repeated, is_bare(net), lacking) {
            return Err(fault);
        }
        marks[number] = true;
        Ok(rules)
    }

    fn check_elem(
        &self,
        rules: &Rules<'a>,
        kept: &mut Kept,
        at: ElemAt<'_>,
    ) -> Result<(), TextFault> {
        if let Some(fault) = cause_at(rules, kept, at) {
            return Err(fault);
        }
        let Ok(()) = kept.add_line(at.context.elem) else {
            return Err(TextFault::Memory);
        };
        Ok(())
    }

    fn end_net(&self, alloc: Global, kept: &mut Kept, net: &RouteNet) -> Result<(), AllocError> {
        let Ok(()) = add_wires(&mut kept.taken, net.elems.as_slice()) else {
            return Err(AllocError);
        };
        kept.wires = BTreeSet::new(alloc);
        kept.depths = LineDepths::new(alloc, true);
        Ok(())
    }
}

/// The least cause against an element line of the net with these rules, if there is one, by what is
/// kept of the lines before it.
pub(crate) fn cause_at(rules: &Rules, kept: &Kept, at: ElemAt<'_>) -> Option<TextFault>
    requires net { rules.now.name ≡ at.net.now.name }
    requires here { IsElemAt at }
    requires kept { HasKept kept.now at.earlier.now (take at.position at.net.now.elems) }
    ensures { result
        ≡ line_cause_by rules.now.reach rules.now.width rules.now.problem (line_here at.entry) }
{
    let elem = at.context.elem;
    let line = ElemLine {
        route: at.context,
        wire_again: is_on(&kept.wires, elem),
        wire_taken: is_on(&kept.taken, elem),
        depth: kept.depths.last_but_one(),
    };
    rules.cause(line, at.seen)
}

/// Whether the net with this number is marked.
fn is_marked(marks: &[bool], number: usize) -> bool
    requires { number < length marks.now }
    ensures { result ≡ slice_index_or marks.now number false }
{
    marks[number]
}

/// Whether the net is ordinary and has no element, though it has a sink.
pub(crate) fn is_lacking(alloc: Global, rules: &Rules, net: &RouteNet) -> bool
    ensures { result ≡ (not net.now.global && length net.now.elems == 0
        && not (list_all (has_sink []) (sinks_named rules.now.problem rules.now.name))) }
{
    is_bare(net) && rules.lacks(&BTreeSet::new(alloc))
}

/// The least cause against a Net line.
pub fn head_cause(
    line: u64,
    known: bool,
    repeated: bool,
    bare: bool,
    lacking: bool,
) -> Option<TextFault>
    ensures { result ≡ spec.head_cause line known repeated bare lacking }
{
    if lacking {
        return Some(Cause::MissingSink.at(line));
    }
    if !known || repeated || bare {
        return Some(Cause::Unfit.at(line));
    }
    None
}
