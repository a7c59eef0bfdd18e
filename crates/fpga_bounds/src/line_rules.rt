//! Rules by which the lines of a route are judged, one by one.
ghost use Rattle.std.specs.Prelude.{◌≡◌, [], ◌∷◌, ◌++◌, suc, List, Option, OnOk, length, take};
ghost use Rattle.fpga_bounds.specs.LineRules.{IsElemAt, line_here};
ghost use Rattle.fpga_bounds.specs.NetFit.{head_line};
ghost use Rattle.fpga_bounds.specs.NetTable.{HasNetLines};
ghost use Rattle.fpga_text.specs.FirstFault.{AnswersFault};
ghost use Rattle.fpga_text.specs.declared.fault.TextFault.{TextFault};
ghost use Rattle.fpga_types.specs.Fit.{RouteLine};
ghost use Rattle.fpga_types.specs.Problem.{RoutingProblem};
ghost use Rattle.fpga_types.specs.declared.route.Elem.{Elem};
ghost use Rattle.fpga_types.specs.declared.route.RouteNet.{RouteNet};

use crate::elem_context::ElemContext;
use crate::keys::ElemKey;
use crate::net_table::NetTable;
use fpga_text::TextFault;
use fpga_types::RouteNet;
use std::alloc::{AllocError, Global};
use std::collections::BTreeSet;

/// An element line, with what was read before it.
#[derive(Clone, Copy)]
pub struct ElemAt<'a> {
    /// The nets before its net.
    pub earlier: &'a [RouteNet],
    /// Its net.
    pub net: &'a RouteNet,
    /// Its position in its net.
    pub position: usize,
    /// The elements of its net up to it.
    pub seen: &'a BTreeSet<ElemKey>,
    /// What is at hand of it. How many slots there are is not asked.
    pub context: ElemContext,
}

/// What judges the lines of a route.
pub trait LineRules<'a> {
    /// What the lines of one net are judged by.
    type Net: Drop;
    /// What is kept of the lines that were read.
    type Kept;

    /// The problem whose nets the lines name.
    ghost problem: { Self → RoutingProblem };

    /// Why a line is refused, and none where it is good.
    ghost fault: { Self → RouteLine → Option TextFault };

    /// It is what the lines of the net are judged by.
    ghost is_net: { Self → Self.Net → RouteNet → Type 0 };

    /// It is kept of these nets, and of these elements of the net behind them.
    ghost has_kept: { Self.Kept → List RouteNet → RouteNet → List Elem → Type 0 };

    /// The nets of the netlist.
    fn names(&self) -> &NetTable<'a>
        ensures { result.now ≡ (problem self.now).netlist.nets };

    /// Judges the Net line of a net, and marks that its net of the netlist has one: what its lines
    /// are judged by, where the line is good.
    fn check_head(
        &self,
        alloc: Global,
        marks: &mut [bool],
        net: &'a RouteNet,
    ) -> Result<Self::Net, TextFault>
        requires { length marks.old ≡ length (problem self.now).netlist.nets }
        ensures answers { (earlier : List RouteNet)
            → HasNetLines (problem self.now).netlist.nets marks.old earlier
            → AnswersFault (fault self.now (head_line earlier net.now))
            (λ of. is_net self.now of net.now) result }
        ensures marked { (earlier : List RouteNet)
            → HasNetLines (problem self.now).netlist.nets marks.old earlier
            → OnOk result (HasNetLines (problem self.now).netlist.nets marks.new
            (earlier ++ net.now ∷ [])) };

    /// Judges an element line, and keeps what there is of it.
    fn check_elem(
        &self,
        of: &Self::Net,
        kept: &mut Self::Kept,
        at: ElemAt<'_>,
    ) -> Result<(), TextFault>
        requires net { is_net self.now of.now at.net.now }
        requires here { IsElemAt at }
        requires kept { has_kept kept.old at.earlier.now at.net.now
            (take at.position at.net.now.elems) }
        ensures { AnswersFault (fault self.now (line_here at.entry))
            (λ _. has_kept kept.new at.entry.earlier.now at.entry.net.now
            (take (suc at.entry.position) at.entry.net.now.elems)) result };

    /// Keeps what there is of a net whose lines were read.
    ///
    /// # Errors
    /// Where memory is short.
    fn end_net(
        &self,
        alloc: Global,
        kept: &mut Self::Kept,
        net: &RouteNet,
    ) -> Result<(), AllocError>
        ensures { (earlier : List RouteNet) → has_kept kept.old earlier net.now net.now.elems
            → OnOk result ((next : RouteNet)
            → has_kept kept.new (earlier ++ net.now ∷ []) next []) };
}
