//! The four texts of a generated problem.
ghost use Rattle.std.specs.Prelude.{◌≡◌, ◌*◌, ◌<◌, ◌≤◌, ◌^◌, IfErr, IfOk, OnOk};
ghost use Rattle.fpga_types.specs.declared.limits.TheConstants.{SIDE_LIMIT};
ghost use Rattle.route_gen.specs.Generated.{IsGenStop, generated};

use crate::architecture::architecture_text;
use crate::draws::draw_sinks;
use crate::netlist::netlist_text;
use crate::placement::placement_text;
use crate::route::route_text;
use std::alloc::{AllocError, Global};
use std::marker::Model;
use thiserror::Error;

/// The texts of an architecture, a netlist, its placement and a global route of it.
#[derive(Drop)]
pub struct FourTexts {
    pub architecture: Vec<u8>,
    pub netlist: Vec<u8>,
    pub placement: Vec<u8>,
    pub route: Vec<u8>,
}

impl Model for FourTexts {
    ghost use Rattle.fpga_types.specs.Texts.{Texts};

    ghost Value = { Texts };

    ghost view = { λ t. record {
      architecture = t.architecture.items;
      netlist = t.netlist.items;
      placement = t.placement.items;
      route = t.route.items;
    } };
}

/// Why no texts were made.
#[derive(Clone, Copy, Debug, Error)]
pub enum GenStop {
    /// There are more nets than blocks to drive them.
    #[error("there are more nets than blocks")]
    Room,
    #[error("out of memory")]
    Memory,
}

/// The four texts.
fn four_texts(alloc: Global, seed: u32, side: u32, nets: u32) -> Result<FourTexts, AllocError>
    requires seed { seed < 2 ^ 31 }
    requires side { (1 ≤ side) × (side ≤ SIDE_LIMIT) }
    requires nets { nets ≤ side * side }
    ensures { IfOk result (λ texts. texts ≡ generated seed side nets) }
{
    let drawn = draw_sinks(alloc, seed, side, nets)?;
    let architecture = architecture_text(alloc)?;
    let netlist = netlist_text(alloc, nets, &drawn.inputs)?;
    let placement = placement_text(alloc, side)?;
    let route = route_text(alloc, side, &drawn.sinks)?;
    Ok(FourTexts {
        architecture,
        netlist,
        placement,
        route,
    })
}

/// Makes a routing problem from a seed: the four texts of `nets` nets of two pins on an array of
/// `side` by `side` logic blocks.
///
/// Block `j` stands in column `1 + j % side` and row `1 + j / side`, and drives net `j` if there
/// are so many nets. Each net ends near its driver, where `rand` of the ANSI C standard says, at
/// an input that is free. The route may have more slots than a problem may have.
///
/// `Room` comes where there are more nets than blocks, `side * side`, and only there.
pub fn generate(alloc: Global, seed: u32, side: u32, nets: u32) -> Result<FourTexts, GenStop>
    requires seed { seed < 2 ^ 31 }
    requires side { (1 ≤ side) × (side ≤ SIDE_LIMIT) }
    ensures ok { IfOk result (λ texts. texts ≡ generated seed side nets) }
    ensures room { OnOk result (nets ≤ side * side) }
    ensures err { IfErr result (IsGenStop side nets) }
{
    if side * side < nets {
        return Err(GenStop::Room);
    }
    let Ok(texts) = four_texts(alloc, seed, side, nets) else {
        return Err(GenStop::Memory);
    };
    Ok(texts)
}
