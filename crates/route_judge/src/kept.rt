//! What is kept of the lines of a routed file.
ghost use Rattle.std.specs.Prelude.{[], ◌∷◌, ◌++◌, List, OnOk};
ghost use Rattle.fpga_types.specs.declared.route.Elem.{Elem};
ghost use Rattle.fpga_types.specs.declared.route.RouteNet.{RouteNet};
ghost use Rattle.route_judge.specs.Judge.{HasKept};

use fpga_types::{Elem, RouteNet};
use route_verify::{WireKey, add_wire, add_wires};
use std::alloc::{AllocError, Global};
use std::collections::BTreeSet;

/// The wires of some nets, and those of the first lines of the net behind them.
#[derive(Drop)]
pub(crate) struct Kept {
    pub taken: BTreeSet<WireKey>,
    pub wires: BTreeSet<WireKey>,
}

impl Kept {
    /// Those of no net and no line. Takes no memory.
    pub(crate) fn nothing(alloc: Global) -> Kept
        ensures { HasKept result [] [] }
    {
        Kept {
            taken: BTreeSet::new(alloc),
            wires: BTreeSet::new(alloc),
        }
    }

    /// Puts the wire of the next line to them.
    pub(crate) fn add_line(&mut self, line: Elem) -> Result<(), AllocError>
        ensures { (nets : List RouteNet) (lines : List Elem) → HasKept self.old nets lines
            → OnOk result (HasKept self.new nets (lines ++ line ∷ [])) }
    {
        add_wire(&mut self.wires, line)?;
        Ok(())
    }

    /// Puts the wires of the net, whose lines were read, to those of the nets before it.
    pub(crate) fn end_net(&mut self, alloc: Global, net: &RouteNet) -> Result<(), AllocError>
        ensures { (nets : List RouteNet) (lines : List Elem) → HasKept self.old nets lines
            → OnOk result (HasKept self.new (nets ++ net.now ∷ []) []) }
    {
        let Ok(()) = add_wires(&mut self.taken, net.elems.as_slice()) else {
            return Err(AllocError);
        };
        self.wires = BTreeSet::new(alloc);
        Ok(())
    }
}
