//! What the nets of a routed file are judged by, and the cause against a Net line.
ghost use Rattle.std.specs.Prelude.{◌≡◌, ◌<◌, ◌==◌, ◌&&◌, not, [], false, length, slice_index_or, IfOk, Some};
ghost use Rattle.std.specs.List.{list_all};
ghost use Rattle.fpga_bounds.specs.NetTable.{number_named};
ghost use Rattle.fpga_types.specs.Fits.{has_sink, is_known};
ghost use Rattle.fpga_types.specs.Terminals.{sinks_named};
ghost use Rattle.route_judge.specs.Judge.{HasKept};
ghost use Rattle.route_judge.specs.Judged.{placed_line_cause};
ghost use Rattle.route_verify.specs.Judged.{graph_of};

use crate::kept::Kept;
use crate::line::ElemLine;
use crate::rules::Rules;
use fpga_bounds::{Design, ElemAt, LineRules, NetEnds, NetTable, agree, is_bare};
use fpga_text::{Coded, TextFault};
use fpga_types::RouteNet;
use route_verify::{Cause, Wiring, head_cause, is_on};
use std::alloc::{AllocError, Global};
use std::collections::BTreeSet;
use std::marker::Model;

/// A placed netlist with a routed file as its route, at a number of tracks, with its nets by name.
/// In a strict file each net has one wire of a cell alone.
#[derive(Drop)]
pub(crate) struct Judge<'a> {
    design: &'a Design<'a>,
    wiring: &'a Wiring<'a>,
    strict: bool,
    names: NetTable<'a>,
}

impl<'a> Model for Judge<'a> {
    ghost use Rattle.route_judge.specs.Judge.{IsJudge, PlacedFile};

    ghost Value = { PlacedFile };

    ghost view = { λ j. record {
      problem = j.design.now;
      width = j.wiring.now.width;
      strict = j.strict;
    } };

    ghost invariant = { λ j. IsJudge j.design.now j.wiring.now j.names };
}

impl<'a> Judge<'a> {
    /// By this problem and this fabric, which is the problem's.
    pub(crate) fn of(
        alloc: Global,
        design: &'a Design<'a>,
        wiring: &'a Wiring<'a>,
        strict: bool,
    ) -> Result<Judge<'a>, AllocError>
        requires { wiring.now ≡ graph_of wiring.now.width design.now }
        ensures { IfOk result (λ judge. judge
            ≡ record { problem = design.now; width = wiring.now.width; strict = strict }) }
    {
        let names = NetTable::of(alloc, design.netlist.nets.as_slice())?;
        Ok(Judge {
            design,
            wiring,
            strict,
            names,
        })
    }

    /// The problem.
    pub(crate) fn design(&self) -> &'a Design<'a>
        ensures { result.now ≡ self.now.problem }
    {
        self.design
    }

    /// The rules for the lines of the net, which has this number in the netlist.
    fn rules(
        &self,
        alloc: Global,
        number: usize,
        net: &'a RouteNet,
    ) -> Result<Rules<'a>, AllocError>
        requires named { number_named self.now.problem.netlist.nets net.now.name ≡ Some number }
        requires within { number < length self.now.problem.netlist.nets }
        ensures { IfOk result (λ rules. rules ≡ record {
          problem = self.now.problem;
          name = net.now.name;
          width = self.now.width;
          strict = self.now.strict;
        }) }
    {
        let name = net.name.bytes.as_slice();
        let ends = NetEnds::of(alloc, self.design, name, &self.names.as_slice()[number])?;
        Ok(Rules::new(self.wiring, self.strict, ends))
    }

    /// Whether the Net line has the form of the net with this number, which has its name.
    fn is_known(&self, number: usize, net: &RouteNet) -> bool
        requires named { number_named self.now.problem.netlist.nets net.now.name ≡ Some number }
        requires within { number < length self.now.problem.netlist.nets }
        ensures { result ≡ is_known self.now.problem net.now.name net.now.global }
    {
        let named = &self.names().as_slice()[number];
        agree(named.global, net.global)
    }
}

impl<'a> LineRules<'a> for Judge<'a> {
    type Net = Rules<'a>;

    type Kept = Kept;

    ghost problem = { λ j. j.problem };

    ghost fault = { λ j. placed_line_cause j.strict j.width j.problem };

    ghost is_net = { λ j rules net. rules ≡ record {
      problem = j.problem;
      name = net.name;
      width = j.width;
      strict = j.strict;
    } };

    ghost has_kept = { λ kept earlier net before. HasKept kept earlier before };

    fn names(&self) -> &NetTable<'a> {
        &self.names
    }

    fn check_head(
        &self,
        alloc: Global,
        marks: &mut [bool],
        net: &'a RouteNet,
    ) -> Result<Rules<'a>, TextFault> {
        let Some(number) = self.names().number_of(net.name.bytes.as_slice()) else {
            return Err(Cause::Unfit.at(net.line));
        };
        let Ok(rules) = self.rules(alloc, number, net) else {
            return Err(TextFault::Memory);
        };
        let known = self.is_known(number, net);
        let repeated = is_marked(marks, number);
        let lacking = is_lacking(alloc, &rules, net);
        if let Some(fault) = head_cause(net.line, known, repeated, is_bare(net), lacking) {
            return Err(fault);
        }
        marks[number] = true;
        Ok(rules)
    }

    fn check_elem(
        &self,
        rules: &Rules<'a>,
        kept: &mut Kept,
        at: ElemAt<'_>,
    ) -> Result<(), TextFault> {
        let elem = at.context.elem;
        let line = ElemLine {
            route: at.context,
            wire_again: is_on(&kept.wires, elem),
            wire_taken: is_on(&kept.taken, elem),
        };
        if let Some(fault) = rules.cause(line, at.seen) {
            return Err(fault);
        }
        let Ok(()) = kept.add_line(elem) else {
            return Err(TextFault::Memory);
        };
        Ok(())
    }

    fn end_net(&self, alloc: Global, kept: &mut Kept, net: &RouteNet) -> Result<(), AllocError> {
        kept.end_net(alloc, net)
    }
}

/// Whether the net with this number is marked.
fn is_marked(marks: &[bool], number: usize) -> bool
    requires { number < length marks.now }
    ensures { result ≡ slice_index_or marks.now number false }
{
    marks[number]
}

/// Whether the net is ordinary and has no element, though it has a sink.
fn is_lacking(alloc: Global, rules: &Rules, net: &RouteNet) -> bool
    ensures { result ≡ (not net.now.global && length net.now.elems == 0
        && not (list_all (has_sink []) (sinks_named rules.now.problem rules.now.name))) }
{
    is_bare(net) && rules.lacks(&BTreeSet::new(alloc))
}
