//! The lines of a net that are printed so far.
ghost use Rattle.std.specs.Prelude.{◌≡◌, ◌<◌, ◌++◌, ◌∷◌, [], ℕ, IfOk, OnOk, false, true, length, slice_index_or, slice_set};
ghost use Rattle.fpga_bounds.specs.Keys.{GainsElem, has_elem};
ghost use Rattle.fpga_types.specs.declared.route.Elem.{Elem as ElemOf};

use fpga_bounds::{ElemKey, see};
use fpga_types::Elem;
use std::alloc::{AllocError, Global};
use std::collections::BTreeSet;

/// The lines of a net so far, which of the wires of its tree have a line, and its OPIN lines by
/// what equal ones have in common.
#[derive(Drop)]
pub(crate) struct Printed {
    pub lines: Vec<Elem>,
    pub marks: Vec<bool>,
    pub opins: BTreeSet<ElemKey>,
}

impl Printed {
    /// Without lines, for so many wires.
    pub(crate) fn new(alloc: Global, wires: usize) -> Result<Printed, AllocError>
        ensures lines { IfOk result (λ printed. printed.lines.items ≡ []) }
        ensures places { IfOk result (λ printed. length printed.marks.items ≡ wires) }
        ensures marks { IfOk result
            (λ printed. (k : ℕ) → slice_index_or printed.marks.items k false ≡ false) }
        ensures opins { IfOk result (λ printed. (e : ElemOf) → has_elem printed.opins e ≡ false) }
    {
        let marks = vec![in alloc; false; wires]?;
        Ok(Printed {
            lines: Vec::new(alloc),
            marks,
            opins: BTreeSet::new(alloc),
        })
    }

    /// One line more, of no wire and no OPIN.
    pub(crate) fn push(&mut self, e: Elem) -> Result<(), AllocError>
        ensures lines { OnOk result (self.new.lines.items ≡ self.old.lines.items ++ e ∷ []) }
        ensures marks { self.new.marks ≡ self.old.marks }
        ensures opins { self.new.opins ≡ self.old.opins }
    {
        self.lines.push(e)?;
        Ok(())
    }

    /// The line of an OPIN more.
    pub(crate) fn push_opin(&mut self, e: Elem) -> Result<(), AllocError>
        ensures lines { OnOk result (self.new.lines.items ≡ self.old.lines.items ++ e ∷ []) }
        ensures marks { self.new.marks ≡ self.old.marks }
        ensures opins { OnOk result (GainsElem self.old.opins e self.new.opins) }
    {
        self.lines.push(e)?;
        see(&mut self.opins, e)?;
        Ok(())
    }

    /// The line of a wire more.
    pub(crate) fn push_wire(&mut self, k: usize, e: Elem) -> Result<(), AllocError>
        requires { k < length self.old.marks.items }
        ensures lines { OnOk result (self.new.lines.items ≡ self.old.lines.items ++ e ∷ []) }
        ensures marks { OnOk result (self.new.marks.items ≡ slice_set self.old.marks.items k true) }
        ensures opins { self.new.opins ≡ self.old.opins }
    {
        self.lines.push(e)?;
        self.marks[k] = true;
        Ok(())
    }
}
