//! What the lines of one net are judged by.
ghost use Rattle.std.specs.Prelude.{◌≡◌};
ghost use Rattle.fpga_bounds.specs.NetEnds.{lacks_one};
ghost use Rattle.fpga_bounds.specs.ProblemContext.{context_by};
ghost use Rattle.fpga_types.specs.Fit.{RouteLine};
ghost use Rattle.fpga_types.specs.Terminals.{sinks_named};
ghost use Rattle.route_judge.specs.Judged.{placed_line_cause};
ghost use Rattle.route_judge.specs.Rules.{IsLineOf, net_of};
ghost use Rattle.route_verify.specs.Judged.{graph_of};

use crate::line::{ElemLine, line_cause};
use fpga_bounds::{ElemContext, ElemKey, NetEnds, ProblemContext};
use fpga_text::TextFault;
use route_verify::{LineContext, Wiring};
use std::collections::BTreeSet;
use std::marker::Model;

/// A net by its name, with the fabric and its ends. In a strict file it has one wire of a cell
/// alone.
#[derive(Drop)]
pub(crate) struct Rules<'a> {
    wiring: &'a Wiring<'a>,
    strict: bool,
    ends: NetEnds<'a>,
}

impl<'a> Model for Rules<'a> {
    ghost use Rattle.route_judge.specs.Rules.{AreRules, PlacedNet};

    ghost Value = { PlacedNet };

    ghost view = { λ r. record {
      problem = r.ends.problem;
      name = r.ends.name;
      width = r.wiring.now.width;
      strict = r.strict;
    } };

    ghost invariant = { λ r. AreRules r.ends r.wiring.now };
}

impl<'a> Rules<'a> {
    /// The rules of the net with these ends.
    pub(crate) fn new(wiring: &'a Wiring<'a>, strict: bool, ends: NetEnds<'a>) -> Rules<'a>
        requires { wiring.now ≡ graph_of wiring.now.width ends.problem }
        ensures { result ≡ record {
          problem = ends.entry.problem;
          name = ends.entry.name;
          width = wiring.now.width;
          strict = strict;
        } }
    {
        Rules {
            wiring,
            strict,
            ends,
        }
    }

    /// The least cause against a line of the net, if there is one; the set has the elements of the
    /// net up to the line.
    pub(crate) fn cause(&self, at: ElemLine, seen: &BTreeSet<ElemKey>) -> Option<TextFault>
        ensures { (line : RouteLine) → self.now.name ≡ line.net.name → IsLineOf at seen.now line
            → result ≡ placed_line_cause self.now.strict self.now.width self.now.problem line }
    {
        let line = LineContext {
            fit: self.context(at.route, seen),
            wire_again: at.wire_again,
            wire_taken: at.wire_taken,
            stray: false,
            depth: None,
        };
        line_cause(self.wiring(), self.is_strict(), line)
    }

    /// What the codes of the fit look at, of a line of the net; the set has the elements of the net
    /// up to it.
    fn context(&self, at: ElemContext, seen: &BTreeSet<ElemKey>) -> ProblemContext
        ensures { result ≡ context_by (net_of self.now) at seen.now }
    {
        self.ends.context(at, seen)
    }

    /// The fabric of the problem.
    fn wiring(&self) -> &'a Wiring<'a>
        ensures { result.now ≡ graph_of self.now.width self.now.problem }
    {
        self.wiring
    }

    /// Whether the net may have one wire of a cell alone.
    fn is_strict(&self) -> bool
        ensures { result ≡ self.now.strict }
    {
        self.strict
    }

    /// Whether a sink of the net has no SINK line among these lines.
    pub(crate) fn lacks(&self, seen: &BTreeSet<ElemKey>) -> bool
        ensures { result ≡ lacks_one seen.now (sinks_named self.now.problem self.now.name) }
    {
        self.ends.lacks(seen)
    }
}
