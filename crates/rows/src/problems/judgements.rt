//! How a routing is judged of which some lines are changed, with a reach and without one.
mod answer;
mod changed;
mod row;

use self::row::print_row;
use crate::stop::RowsError;
use crate::text::text;
use desk_io::Desk;
use std::alloc::Global;

/// Whether the rows of a table tell a reach behind their width.
#[derive(Clone, Copy)]
pub(crate) enum Reaches {
    None,
    Told,
}

/// Prints for each row of a table how its changed routing is judged.
pub(crate) fn print_judgements<D: Desk>(
    rt: &impl Print,
    alloc: Global,
    desk: &mut D,
    table: &str,
    reaches: Reaches,
) -> Result<(), RowsError> {
    let rows = text(alloc, desk, table)?;
    for row in rows.lines() {
        print_row(rt, alloc, desk, row, reaches)?;
    }
    Ok(())
}
