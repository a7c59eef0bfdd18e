//! What the lines of one net are judged by.
ghost use Rattle.std.specs.Prelude.{◌≡◌, IfOk};
ghost use Rattle.fpga_bounds.specs.NetEnds.{lacks_one};
ghost use Rattle.fpga_bounds.specs.ProblemContext.{context_by};
ghost use Rattle.fpga_types.specs.Fit.{RouteLine};
ghost use Rattle.fpga_types.specs.Terminals.{sinks_named};
ghost use Rattle.route_verify.specs.Judged.{graph_of};
ghost use Rattle.route_verify.specs.Lines.{is_stray_in};
ghost use Rattle.route_verify.specs.Reach.{line_cause_by};
ghost use Rattle.route_verify.specs.Rules.{IsLineOf, net_of};

use crate::ends::NameEnds;
use crate::line::{ElemLine, LineContext, line_cause};
use crate::traces::Traces;
use crate::wiring::Wiring;
use fpga_bounds::{ElemContext, ElemKey, ProblemContext, has_elem};
use fpga_text::TextFault;
use fpga_types::Elem;
use std::alloc::{AllocError, Global};
use std::collections::BTreeSet;
use std::marker::Model;

/// A net by its name, with the fabric, the reach if there is one, its ends and its lines of the
/// global route.
#[derive(Drop)]
pub(crate) struct Rules<'a> {
    wiring: &'a Wiring<'a>,
    reach: Option<u32>,
    ends: NameEnds<'a>,
    trace: BTreeSet<ElemKey>,
}

impl<'a> Model for Rules<'a> {
    ghost use Rattle.route_verify.specs.Rules.{AreRules, JudgedNet};

    ghost Value = { JudgedNet };

    ghost view = { λ r. record {
      problem = r.ends.problem;
      name = r.ends.name;
      width = r.wiring.now.width;
      reach = r.reach;
    } };

    ghost invariant = { λ r. AreRules r.ends r.wiring.now r.trace };
}

impl<'a> Rules<'a> {
    /// The rules of the net with these ends and this name; the traces are those of the global
    /// route.
    pub(crate) fn of(
        alloc: Global,
        wiring: &'a Wiring<'a>,
        reach: Option<u32>,
        traces: &Traces<'a>,
        ends: NameEnds<'a>,
        name: &'a [u8],
    ) -> Result<Rules<'a>, AllocError>
        requires fabric { wiring.now ≡ graph_of wiring.now.width ends.problem }
        requires traces { traces.now ≡ ends.problem.route.nets }
        requires name { ends.name ≡ name.now }
        ensures { IfOk result (λ rules. rules
            ≡ record {
              problem = ends.entry.problem;
              name = ends.entry.name;
              width = wiring.now.width;
              reach = reach;
            }) }
    {
        let trace = traces.elems_named(alloc, name)?;
        Ok(Rules {
            wiring,
            reach,
            ends,
            trace,
        })
    }

    /// The least cause against a line of the net, if there is one; the set has the elements of the
    /// net up to the line.
    pub(crate) fn cause(&self, at: ElemLine, seen: &BTreeSet<ElemKey>) -> Option<TextFault>
        ensures { (line : RouteLine) → self.now.name ≡ line.net.name → IsLineOf at seen.now line
            → result ≡ line_cause_by self.now.reach self.now.width self.now.problem line }
    {
        let line = LineContext {
            fit: self.context(at.route, seen),
            wire_again: at.wire_again,
            wire_taken: at.wire_taken,
            stray: self.is_stray(at.route.elem),
            depth: at.depth,
        };
        line_cause(self.wiring(), self.reach(), line)
    }

    /// What the codes of the fit look at, of a line of the net; the set has the elements of the net
    /// up to it.
    fn context(&self, at: ElemContext, seen: &BTreeSet<ElemKey>) -> ProblemContext
        ensures { result ≡ context_by (net_of self.now) at seen.now }
    {
        self.ends.context(at, seen)
    }

    /// The fabric of the problem.
    fn wiring(&self) -> &'a Wiring<'a>
        ensures { result.now ≡ graph_of self.now.width self.now.problem }
    {
        self.wiring
    }

    /// The reach, if there is one.
    fn reach(&self) -> Option<u32>
        ensures { result ≡ self.now.reach }
    {
        self.reach
    }

    /// Whether a sink of the net has no SINK line among these lines.
    pub(crate) fn lacks(&self, seen: &BTreeSet<ElemKey>) -> bool
        ensures { result ≡ lacks_one seen.now (sinks_named self.now.problem self.now.name) }
    {
        self.ends.lacks(seen)
    }

    /// Whether it is a channel in a cell that is none of the net's in the global route.
    fn is_stray(&self, e: Elem) -> bool
        ensures { result ≡ is_stray_in self.now.problem.route.nets self.now.name e }
    {
        e.kind.is_channel() && !has_elem(&self.trace, e)
    }
}
