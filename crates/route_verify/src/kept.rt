//! What is kept of the lines of a routed file.
ghost use Rattle.std.specs.Prelude.{◌-◌, ◌^◌, ◌<◌, [], ◌∷◌, ◌++◌, List, OnOk, length};
ghost use Rattle.fpga_types.specs.declared.route.Elem.{Elem};
ghost use Rattle.fpga_types.specs.declared.route.RouteNet.{RouteNet};
ghost use Rattle.route_verify.specs.Judge.{HasKept};

use crate::depths::LineDepths;
use crate::wires::{WireKey, add_wire};
use fpga_types::Elem;
use std::alloc::{AllocError, Global};
use std::collections::BTreeSet;

/// The wires of some nets, and the wires and depths of the first lines of the net behind them.
#[derive(Drop)]
pub(crate) struct Kept {
    pub taken: BTreeSet<WireKey>,
    pub wires: BTreeSet<WireKey>,
    pub depths: LineDepths,
}

impl Kept {
    /// Those of no net and no line. Takes no memory.
    pub(crate) fn nothing(alloc: Global) -> Kept
        ensures { HasKept result [] [] }
    {
        Kept {
            taken: BTreeSet::new(alloc),
            wires: BTreeSet::new(alloc),
            depths: LineDepths::new(alloc, true),
        }
    }

    /// Puts those of the next line to them.
    pub(crate) fn add_line(&mut self, line: Elem) -> Result<(), AllocError>
        requires { (nets : List RouteNet) × ((lines : List Elem) × (HasKept self.old nets lines
            × (length lines < 2 ^ 64 - 1))) }
        ensures { (nets : List RouteNet) (lines : List Elem) → HasKept self.old nets lines
            → OnOk result (HasKept self.new nets (lines ++ line ∷ [])) }
    {
        add_wire(&mut self.wires, line)?;
        self.depths.take(line)?;
        Ok(())
    }
}
