//! The fit of four texts, where a row changes a line of the route: the first fault, or how many
//! slots, steps, pin steps and pairs the problem has.
mod answer;
mod changed;

use self::answer::answer;
use self::changed::changed_route;
use crate::stop::RowsError;
use crate::text::text;
use desk_io::Desk;
use fpga_problem::FourTexts;
use std::alloc::Global;

/// Prints for each row what comes of its changed route.
pub(crate) fn print_fits<D: Desk>(
    rt: &impl Print,
    alloc: Global,
    desk: &mut D,
) -> Result<(), RowsError> {
    let route = text(alloc, desk, "problems/junction.route")?;
    let rows = text(alloc, desk, "problems/fit.rows")?;
    for row in rows.lines() {
        let route = changed_route(alloc, route.as_str(), row)?;
        print_fit(rt, alloc, desk, route.as_bytes())?;
    }
    Ok(())
}

// Prints what comes of a route.
fn print_fit<D: Desk>(
    rt: &impl Print,
    alloc: Global,
    desk: &mut D,
    route: &[u8],
) -> Result<(), RowsError> {
    let architecture = text(alloc, desk, "problems/fit.arch")?;
    let netlist = text(alloc, desk, "problems/junction.net")?;
    let placement = text(alloc, desk, "problems/junction.place")?;
    let texts = FourTexts {
        architecture: architecture.as_bytes(),
        netlist: netlist.as_bytes(),
        placement: placement.as_bytes(),
        route,
    };
    let line = answer(alloc, &texts)?;
    println!(rt; "{line}")?;
    Ok(())
}
