//! The rules of the fit: by them the lines of a route fit its netlist and its placement.
ghost use Rattle.std.specs.Prelude.{◌≡◌, ◌++◌, ◌∷◌, [], IfOk, OnOk};
ghost use Rattle.fpga_bounds.specs.NetFit.{HasRoomFor, with_elem};
ghost use Rattle.fpga_types.specs.Fits.{net_line_fault};
ghost use Rattle.fpga_types.specs.Slots.{slots_of};

use crate::design::Design;
use crate::elem_context::ElemContext;
use crate::head_check::{bare_fault, known_number};
use crate::line_rules::{ElemAt, LineRules};
use crate::net_ends::NetEnds;
use crate::net_table::NetTable;
use crate::slot_table::SlotTable;
use fpga_text::{Coded, TextFault};
use fpga_types::{Elem, FitCause, RouteNet};
use std::alloc::{AllocError, Global};
use std::marker::Model;

/// Four values with the nets of the netlist by name. Contracts see the values.
#[derive(Drop)]
pub(crate) struct FitRules<'a> {
    design: &'a Design<'a>,
    names: NetTable<'a>,
}

impl<'a> Model for FitRules<'a> {
    ghost use Rattle.std.specs.Prelude.{◌≡◌};
    ghost use Rattle.fpga_types.specs.Problem.{RoutingProblem};

    ghost Value = { RoutingProblem };

    ghost view = { λ r. r.design.now };

    ghost invariant = { λ r. r.names ≡ r.design.now.netlist.nets };
}

impl<'a> FitRules<'a> {
    /// Of these values.
    pub(crate) fn of(alloc: Global, design: &'a Design<'a>) -> Result<FitRules<'a>, AllocError>
        ensures { IfOk result (λ rules. rules ≡ design.now) }
    {
        let names = NetTable::of(alloc, design.netlist.nets.as_slice())?;
        Ok(FitRules { design, names })
    }

    /// The values.
    fn design(&self) -> &'a Design<'a>
        ensures { result.now ≡ self.now }
    {
        self.design
    }
}

impl<'a> LineRules<'a> for FitRules<'a> {
    type Net = NetEnds<'a>;

    type Kept = SlotTable;

    ghost problem = { λ p. p };

    ghost fault = { net_line_fault };

    ghost is_net = { λ p ends net. ends ≡ record { problem = p; name = net.name } };

    ghost has_kept = { λ slots earlier net before. slots
        ≡ slots_of (earlier ++ record net { elems = before } ∷ []) };

    fn names(&self) -> &NetTable<'a> {
        &self.names
    }

    fn check_head(
        &self,
        alloc: Global,
        marks: &mut [bool],
        net: &'a RouteNet,
    ) -> Result<NetEnds<'a>, TextFault> {
        let Some(number) = known_number(self.names(), net) else {
            return Err(FitCause::UnknownNet.at(net.line));
        };
        if marks[number] {
            return Err(FitCause::RepeatedNet.at(net.line));
        }
        let Ok(ends) = NetEnds::of(
            alloc,
            self.design(),
            net.name.bytes.as_slice(),
            &self.names().as_slice()[number],
        ) else {
            return Err(TextFault::Memory);
        };
        if let Some(fault) = bare_fault(alloc, &ends, net) {
            return Err(fault);
        }
        marks[number] = true;
        Ok(ends)
    }

    /// Puts the slot of the element into the table, if it is a channel.
    fn check_elem(
        &self,
        ends: &NetEnds<'a>,
        slots: &mut SlotTable,
        at: ElemAt<'_>,
    ) -> Result<(), TextFault> {
        let net = at.earlier.len() as u32;
        let context = ElemContext {
            full: slots.is_full(),
            ..at.context
        };
        if let Some(fault) = ends.fault(context, at.seen) {
            return Err(fault);
        }
        let Ok(()) = add_slot(slots, net, context.elem) else {
            return Err(TextFault::Memory);
        };
        Ok(())
    }

    /// Does nothing.
    fn end_net(&self, _: Global, _: &mut SlotTable, _: &RouteNet) -> Result<(), AllocError> {
        Ok(())
    }
}

/// Puts the slot of an element into the table, if it is a channel.
fn add_slot(slots: &mut SlotTable, net: u32, e: Elem) -> Result<(), AllocError>
    requires room { HasRoomFor slots.old net e }
    ensures { OnOk result (slots.new ≡ with_elem slots.old net e) }
{
    let Some(slot) = e.slot(net) else {
        return Ok(());
    };
    slots.add(slot)
}
