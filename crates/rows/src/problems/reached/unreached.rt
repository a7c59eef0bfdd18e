//! What is printed of a placed netlist at a width.
ghost use Rattle.std.specs.Prelude.{◌≤◌, length};
ghost use Rattle.fpga_types.specs.declared.limits.TheConstants.{PIN_LIMIT, WIDTH_LIMIT};

use crate::stop::RowsError;
use fpga_types::{Arch, Netlist, Placement};
use route_parts::unreached_net;
use std::alloc::Global;

/// Prints the first net with a sink that is not reached, or that each is.
pub(crate) fn print_unreached(
    rt: &impl Print,
    alloc: Global,
    arch: &Arch,
    netlist: &Netlist,
    placement: &Placement,
    width: u32,
) -> Result<(), RowsError>
    requires width { (1 ≤ width) × (width ≤ WIDTH_LIMIT) }
    requires pins { length arch.now.pins ≤ PIN_LIMIT }
{
    let Some(found) = unreached_net(alloc, arch, netlist, placement, width)? else {
        println!(rt; "{width}: each is reached")?;
        return Ok(());
    };
    let net = found.net;
    let sink = found.sink;
    println!(rt; "{width}: net {net} sink {sink}")?;
    Ok(())
}
