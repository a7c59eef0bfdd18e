//! Whether the clauses of a problem at a width are refuted by counting, and how many steps that
//! takes.
mod counted;
mod row;

use self::row::print_row;
use crate::stop::RowsError;
use crate::text::text;
use desk_io::Desk;
use std::alloc::Global;

/// Prints what each row asks for.
pub(crate) fn print_counts<D: Desk>(
    rt: &impl Print,
    alloc: Global,
    desk: &mut D,
) -> Result<(), RowsError> {
    let rows = text(alloc, desk, "problems/count.rows")?;
    for row in rows.lines() {
        print_row(rt, alloc, desk, row)?;
    }
    Ok(())
}
