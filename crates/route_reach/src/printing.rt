//! A net that is printed as a routed one, by its tree of wires.
ghost use Rattle.std.specs.Prelude.{◌≡◌, ◌+◌, ◌<◌, ℕ, IfOk, Some, None, OnOk, false, length, slice_get, slice_index_or, true};
ghost use Rattle.fpga_graph.specs.Wires.{Reaches};
ghost use Rattle.fpga_types.specs.Pins.{HasPin};
ghost use Rattle.fpga_types.specs.Kinds.{is_ipin, is_sink};
ghost use Rattle.fpga_types.specs.declared.route.Elem.{Elem as ElemOf};
ghost use Rattle.route_reach.specs.Printer.{IsPrinter, frame_of};
ghost use Rattle.route_reach.specs.Printing.{IsPrintedNet, IsPrintedTo, wire_of};
ghost use Rattle.route_reach.specs.Tree.{reached_at, tree_slot, tree_track};
ghost use Rattle.route_reach.specs.declared.tree.Reached.{Reached as ReachedOf};

use crate::near::touched_slots;
use crate::printed::Printed;
use crate::printer::NetPrinter;
use fpga_graph::MOST_TRACKS;
use fpga_types::{ElemKind, Items, Name, PinAt, RouteNet};
use std::alloc::{AllocError, Global};

impl<'a> NetPrinter<'a> {
    /// The net, routed over the wires of its tree: to each sink in the order of the global route a
    /// branch that goes on from the first wire, OPIN or SOURCE on its way that is printed already.
    ///
    /// The time is `n log n` in the lines that are printed, of which a branch has at most two more
    /// than the joins within the reach beside what no earlier one has.
    ///
    /// # Errors
    /// Where memory is short.
    pub(crate) fn print_net(&self, alloc: Global) -> Result<RouteNet, AllocError>
        requires { IsPrinter self.now }
        ensures { IfOk result (IsPrintedNet (frame_of self.now)) }
    {
        let Printed { lines, .. } = self.print_lines(alloc)?;
        let name = copied_name(alloc, &self.net.name)?;
        Ok(RouteNet {
            k: self.net.k,
            name,
            global: false,
            line: self.net.line,
            elems: Items::of(lines),
            kept: Items::of(Vec::new(alloc)),
        })
    }

    /// The lines of the net.
    fn print_lines(&self, alloc: Global) -> Result<Printed, AllocError>
        requires { IsPrinter self.now }
        ensures { IfOk result
            (IsPrintedTo (frame_of self.now) (length self.now.net.now.elems)) }
    {
        let mut printed = Printed::new(alloc, self.tree.len())?;
        for i in 0..self.net.elems.as_slice().len() {
            self.print_line(&mut printed, i)?;
        }
        Ok(printed)
    }

    /// Prints the branch up to the IPIN of a line of the global route, or its SINK.
    fn print_line(&self, printed: &mut Printed, i: usize) -> Result<(), AllocError>
        requires is { IsPrinter self.now }
        requires line { i < length self.now.net.now.elems }
        requires so_far { IsPrintedTo (frame_of self.now) i printed.old }
        ensures { OnOk result (IsPrintedTo (frame_of self.now) (i + 1) printed.new) }
    {
        match self.net.elems.as_slice()[i].kind {
            ElemKind::Ipin => self.print_ipin(printed, i),
            ElemKind::Sink => self.print_sink(printed, i),
            _ => Ok(()),
        }
    }

    /// Prints on up to a wire that the IPIN of a line reaches, and the IPIN.
    fn print_ipin(&self, printed: &mut Printed, i: usize) -> Result<(), AllocError>
        requires is { IsPrinter self.now }
        requires line { (e : ElemOf) × (slice_get self.now.net.now.elems i ≡ Some e)
            × (is_ipin e.kind ≡ true) }
        requires so_far { IsPrintedTo (frame_of self.now) i printed.old }
        ensures { OnOk result (IsPrintedTo (frame_of self.now) (i + 1) printed.new) }
    {
        let e = self.net.elems.as_slice()[i];
        let Some(pin) = e.pin() else { unreachable!() };
        let Some(k) = self.wire_before(pin) else {
            unreachable!()
        };
        let Ok(()) = self.come_to_wire(printed, k) else {
            return Err(AllocError);
        };
        printed.push(e)
    }

    /// Prints the SINK of a line.
    fn print_sink(&self, printed: &mut Printed, i: usize) -> Result<(), AllocError>
        requires is { IsPrinter self.now }
        requires line { (e : ElemOf) × (slice_get self.now.net.now.elems i ≡ Some e)
            × (is_sink e.kind ≡ true) }
        requires so_far { IsPrintedTo (frame_of self.now) i printed.old }
        ensures { OnOk result (IsPrintedTo (frame_of self.now) (i + 1) printed.new) }
    {
        printed.push(self.net.elems.as_slice()[i])
    }

    /// The number of a wire that is reached and that the pin reaches, if there is one.
    fn wire_before(&self, pin: PinAt) -> Option<usize>
        requires is { IsPrinter self.now }
        requires pin { HasPin self.now.graph.now.arch pin }
        ensures found { (k : ℕ) → result ≡ Some k → (r : ReachedOf)
            × (reached_at self.now.tree.now k ≡ Some r)
            × Reaches self.now.graph.now pin (wire_of (frame_of self.now) k) }
        ensures none { result ≡ None → (k : ℕ) (r : ReachedOf)
            → reached_at self.now.tree.now k ≡ Some r
            → Reaches self.now.graph.now pin (wire_of (frame_of self.now) k) → ⊥ }
    {
        let opened = self.graph.opened(pin);
        let slots = touched_slots(self.graph, self.numbers, self.number, pin);
        for slot in slots.as_slice() {
            if let Some(k) = self.wire_in(*slot, &opened) {
                return Some(k);
            }
        }
        None
    }

    /// The number of the first wire of a slot that is reached and whose track is marked.
    fn wire_in(&self, slot: u32, marks: &[bool; MOST_TRACKS]) -> Option<usize>
        requires { IsPrinter self.now }
        ensures found { (k : ℕ) → result ≡ Some k → (r : ReachedOf)
            × (reached_at self.now.tree.now k ≡ Some r)
            × (tree_slot self.now.tree.now k ≡ slot)
            × (slice_index_or marks.now (tree_track self.now.tree.now k) false ≡ true) }
        ensures none { result ≡ None → (k : ℕ) (r : ReachedOf)
            → reached_at self.now.tree.now k ≡ Some r → tree_slot self.now.tree.now k ≡ slot
            → slice_index_or marks.now (tree_track self.now.tree.now k) false ≡ true → ⊥ }
    {
        let first = self.tree.first();
        if (slot as usize) < first {
            return None;
        }
        let place = slot as usize - first;
        let width = self.tree.width() as usize;
        for track in 0..width {
            let k = place * width + track;
            if marks[track] && self.tree.reached(k).is_some() {
                return Some(k);
            }
        }
        None
    }
}

/// A name that is equal to this one.
pub(crate) fn copied_name(alloc: Global, name: &Name) -> Result<Name, AllocError>
    ensures { IfOk result (λ copy. copy ≡ name.now) }
{
    let bytes = Vec::from_slice(alloc, name.bytes.as_slice())?;
    Ok(Name {
        bytes: Items::of(bytes),
    })
}
