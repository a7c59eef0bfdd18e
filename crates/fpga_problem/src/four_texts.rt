//! The four texts of a problem.
use std::marker::Model;

/// The texts of an architecture, a netlist, its placement and a global route of it.
#[derive(Drop)]
pub struct FourTexts<'a> {
    pub architecture: &'a [u8],
    pub netlist: &'a [u8],
    pub placement: &'a [u8],
    pub route: &'a [u8],
}

impl<'a> Model for FourTexts<'a> {
    ghost use Rattle.fpga_types.specs.Texts.{Texts};

    ghost Value = { Texts };

    ghost view = { λ t. record {
      architecture = t.architecture.now;
      netlist = t.netlist.now;
      placement = t.placement.now;
      route = t.route.now;
    } };
}
