//! A row: an architecture, a design and widths.
ghost use Rattle.std.specs.Prelude.{◌≤◌, length};
ghost use Rattle.fpga_types.specs.declared.limits.TheConstants.{PIN_LIMIT};

use crate::problems::reached::unreached::print_unreached;
use crate::problems::say::say;
use crate::problems::width::width_of;
use crate::stop::RowsError;
use crate::text::text;
use desk_io::Desk;
use fpga_arch::read_arch;
use fpga_net::read_net;
use fpga_place::read_place;
use fpga_types::{Arch, Netlist, Placement};
use std::alloc::Global;
use std::str::SplitWhitespace;

/// Prints what a row asks for, width by width, behind the row.
pub(crate) fn print_row<D: Desk>(
    rt: &impl Print,
    alloc: Global,
    desk: &mut D,
    row: &str,
) -> Result<(), RowsError> {
    say(rt, row)?;
    let mut words = row.split_whitespace();
    let (Some(arch), Some(design)) = (words.next(), words.next()) else {
        return say(rt, "too few words");
    };
    let name = format!(in alloc; "problems/{arch}.arch")?;
    let architecture = text(alloc, desk, &name)?;
    let Ok(arch) = read_arch(alloc, architecture.as_bytes()) else {
        return say(rt, "no architecture");
    };
    print_design(rt, alloc, desk, &arch, design, words)
}

// Prints what comes of a design of the architecture at each width.
fn print_design<D: Desk>(
    rt: &impl Print,
    alloc: Global,
    desk: &mut D,
    arch: &Arch,
    design: &str,
    words: SplitWhitespace<'_>,
) -> Result<(), RowsError>
    requires { length arch.now.pins ≤ PIN_LIMIT }
{
    let name = format!(in alloc; "problems/{design}.net")?;
    let netlist = text(alloc, desk, &name)?;
    let Ok(netlist) = read_net(alloc, netlist.as_bytes(), arch) else {
        return say(rt, "no netlist");
    };
    let name = format!(in alloc; "problems/{design}.place")?;
    let placement = text(alloc, desk, &name)?;
    let Ok(placement) = read_place(alloc, placement.as_bytes(), arch, &netlist) else {
        return say(rt, "no placement");
    };
    print_widths(rt, alloc, arch, &netlist, &placement, words)
}

// Prints what comes of a placed netlist at each width.
fn print_widths(
    rt: &impl Print,
    alloc: Global,
    arch: &Arch,
    netlist: &Netlist,
    placement: &Placement,
    words: SplitWhitespace<'_>,
) -> Result<(), RowsError>
    requires { length arch.now.pins ≤ PIN_LIMIT }
{
    for word in words {
        match width_of(word) {
            Some(width) => print_unreached(rt, alloc, arch, netlist, placement, width)?,
            None => say(rt, "no width")?,
        }
    }
    Ok(())
}
