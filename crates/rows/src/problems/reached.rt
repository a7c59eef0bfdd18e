//! Whether wires reach each sink of the ordinary nets of a placed netlist at a width, or which they
//! do not.
mod row;
mod unreached;

use self::row::print_row;
use crate::stop::RowsError;
use crate::text::text;
use desk_io::Desk;
use std::alloc::Global;

/// Prints what each row asks for.
pub(crate) fn print_reached<D: Desk>(
    rt: &impl Print,
    alloc: Global,
    desk: &mut D,
) -> Result<(), RowsError> {
    let rows = text(alloc, desk, "problems/reached.rows")?;
    for row in rows.lines() {
        print_row(rt, alloc, desk, row)?;
    }
    Ok(())
}
