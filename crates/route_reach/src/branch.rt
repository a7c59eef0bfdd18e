//! The branches by which a net is printed: from the first line on the way that is printed already
//! to a wire.
ghost use Rattle.std.specs.Prelude.{◌≡◌, ◌<◌, Contains, None, OnOk, Some, length, slice_get, slice_set, true};
ghost use Rattle.std.specs.List.{last_or};
ghost use Rattle.fpga_types.specs.Kinds.{is_opin};
ghost use Rattle.fpga_graph.specs.Wires.{wire_in};
ghost use Rattle.route_reach.specs.Printer.{IsPrinter, frame_of};
ghost use Rattle.route_reach.specs.Printing.{IsPrinting, IsQuietBehind, KeepsDeeper, ends_of, is_open, wire_line, wire_of};
ghost use Rattle.route_reach.specs.Tree.{reached_at};
ghost use Rattle.route_reach.specs.declared.tree.Reached.{Reached as ReachedOf};
ghost use Rattle.route_verify.specs.Depths.{deep_lines, depth_behind, same_tracked};

use crate::printed::Printed;
use crate::printer::NetPrinter;
use crate::tree::Lead;
use fpga_bounds::has_elem;
use fpga_types::{Axis, Elem, ElemKind, Label, Slot};
use std::alloc::AllocError;

impl<'a> NetPrinter<'a> {
    /// Prints on, from the first line on the way that is printed already, up to a wire. There are
    /// at most so many calls in one another as joins within the reach, and one.
    pub(crate) fn come_to_wire(&self, printed: &mut Printed, k: usize) -> Result<(), AllocError>
        requires is { IsPrinter self.now }
        requires reached { (r : ReachedOf) × (reached_at self.now.tree.now k ≡ Some r) }
        requires so_far { IsPrinting (frame_of self.now) printed.old }
        requires open { is_open printed.old.lines.items ≡ true }
        ensures so_far { OnOk result (IsPrinting (frame_of self.now) printed.new) }
        ensures ends { OnOk result
            (ends_of printed.new.lines.items ≡ ends_of printed.old.lines.items) }
        ensures last { OnOk result (last_or None printed.new.lines.items
            ≡ Some (wire_line (wire_of (frame_of self.now) k))) }
        ensures deeper { OnOk result ((r : ReachedOf) → reached_at self.now.tree.now k ≡ Some r
            → KeepsDeeper (frame_of self.now) r.depth printed.old printed.new) }
    {
        let Some(reached) = self.tree.reached(k) else {
            unreachable!()
        };
        if printed.marks[k] {
            return self.print_wire(printed, k);
        }
        match reached.lead {
            Lead::Pin(pin) => {
                let Ok(()) = self.come_to_opin(printed, pin) else {
                    return Err(AllocError);
                };
                self.print_wire(printed, k)
            }
            Lead::Wire(other) => {
                let Ok(()) = self.come_to_wire(printed, other) else {
                    return Err(AllocError);
                };
                self.print_wire(printed, k)
            }
        }
    }

    /// Prints the line of a wire.
    fn print_wire(&self, printed: &mut Printed, k: usize) -> Result<(), AllocError>
        requires is { IsPrinter self.now }
        requires so_far { IsPrinting (frame_of self.now) printed.old }
        requires quiet { IsQuietBehind (frame_of self.now) printed.old.lines.items
            (wire_line (wire_of (frame_of self.now) k)) }
        requires deep { (r : ReachedOf) × (reached_at self.now.tree.now k ≡ Some r)
            × (depth_behind same_tracked (deep_lines same_tracked printed.old.lines.items)
            (wire_line (wire_of (frame_of self.now) k)) ≡ Some r.depth) }
        requires begun { 0 < length printed.old.lines.items }
        ensures so_far { OnOk result (IsPrinting (frame_of self.now) printed.new) }
        ensures ends { OnOk result
            (ends_of printed.new.lines.items ≡ ends_of printed.old.lines.items) }
        ensures last { OnOk result (last_or None printed.new.lines.items
            ≡ Some (wire_line (wire_of (frame_of self.now) k))) }
        ensures marks { OnOk result
            (printed.new.marks.items ≡ slice_set printed.old.marks.items k true) }
    {
        let e = self.line_of(k);
        printed.push_wire(k, e)
    }

    /// The line of a wire.
    fn line_of(&self, k: usize) -> Elem
        requires is { IsPrinter self.now }
        requires given { (r : ReachedOf) × (reached_at self.now.tree.now k ≡ Some r) }
        ensures { result ≡ wire_line (wire_of (frame_of self.now) k) }
    {
        let slot = self.problem.slots()[self.tree.slot(k)];
        channel_line(slot, self.tree.track(k))
    }

    /// Prints on up to an OPIN of the net.
    fn come_to_opin(&self, printed: &mut Printed, opin: Elem) -> Result<(), AllocError>
        requires is { IsPrinter self.now }
        requires kind { is_opin opin.kind ≡ true }
        requires own { Contains self.now.net.now.elems opin }
        requires so_far { IsPrinting (frame_of self.now) printed.old }
        requires open { is_open printed.old.lines.items ≡ true }
        ensures so_far { OnOk result (IsPrinting (frame_of self.now) printed.new) }
        ensures ends { OnOk result
            (ends_of printed.new.lines.items ≡ ends_of printed.old.lines.items) }
        ensures last { OnOk result (last_or None printed.new.lines.items ≡ Some opin) }
        ensures marks { OnOk result (printed.new.marks ≡ printed.old.marks) }
    {
        if has_elem(&printed.opins, opin) {
            return self.print_opin(printed, opin);
        }
        let Ok(()) = self.print_source(printed) else {
            return Err(AllocError);
        };
        self.print_opin(printed, opin)
    }

    /// Prints an OPIN of the net.
    fn print_opin(&self, printed: &mut Printed, opin: Elem) -> Result<(), AllocError>
        requires is { IsPrinter self.now }
        requires kind { is_opin opin.kind ≡ true }
        requires own { Contains self.now.net.now.elems opin }
        requires so_far { IsPrinting (frame_of self.now) printed.old }
        requires quiet { IsQuietBehind (frame_of self.now) printed.old.lines.items opin }
        requires begun { 0 < length printed.old.lines.items }
        ensures so_far { OnOk result (IsPrinting (frame_of self.now) printed.new) }
        ensures ends { OnOk result
            (ends_of printed.new.lines.items ≡ ends_of printed.old.lines.items) }
        ensures last { OnOk result (last_or None printed.new.lines.items ≡ Some opin) }
        ensures marks { OnOk result (printed.new.marks ≡ printed.old.marks) }
    {
        printed.push_opin(opin)
    }

    /// Prints the SOURCE of the net.
    fn print_source(&self, printed: &mut Printed) -> Result<(), AllocError>
        requires is { IsPrinter self.now }
        requires so_far { IsPrinting (frame_of self.now) printed.old }
        requires open { is_open printed.old.lines.items ≡ true }
        ensures so_far { OnOk result (IsPrinting (frame_of self.now) printed.new) }
        ensures ends { OnOk result
            (ends_of printed.new.lines.items ≡ ends_of printed.old.lines.items) }
        ensures last { OnOk result (last_or None printed.new.lines.items
            ≡ slice_get self.now.net.now.elems 0) }
        ensures marks { OnOk result (printed.new.marks ≡ printed.old.marks) }
        ensures opins { OnOk result (printed.new.opins ≡ printed.old.opins) }
    {
        printed.push(self.net.elems.as_slice()[0])
    }
}

/// The channel line on the wire of a slot and a track.
fn channel_line(slot: Slot, track: u32) -> Elem
    ensures { result ≡ wire_line (wire_in slot.cell track) }
{
    let kind = match slot.cell.axis {
        Axis::X => ElemKind::ChanX,
        Axis::Y => ElemKind::ChanY,
    };
    Elem {
        kind,
        x: slot.cell.x,
        y: slot.cell.y,
        label: Label::Track,
        number: track,
        line: 0,
    }
}
