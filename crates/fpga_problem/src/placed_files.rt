//! What the first three files of a problem say.
use fpga_types::{Arch, Netlist, Placement};
use std::marker::Model;

/// An architecture, a netlist for it and a placement of that: a problem without its route.
#[derive(Drop)]
pub struct PlacedFiles {
    pub arch: Arch,
    pub netlist: Netlist,
    pub placement: Placement,
}

impl Model for PlacedFiles {
    ghost use Rattle.fpga_types.specs.Problem.{PlacedNetlist};

    ghost Value = { PlacedNetlist };

    ghost view = { λ p. record {
      arch = p.arch;
      netlist = p.netlist;
      placement = p.placement;
    } };
}
