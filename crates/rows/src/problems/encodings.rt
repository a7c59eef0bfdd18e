//! The clauses of a problem at a width, as DIMACS CNF, and the tracks that truth values are decoded
//! to.
mod clauses;
mod decoded;
mod printed;
mod row;

use self::row::print_row;
use crate::stop::RowsError;
use crate::text::text;
use desk_io::Desk;
use std::alloc::Global;

/// Prints what each row asks for.
pub(crate) fn print_encodings<D: Desk>(
    rt: &impl Print,
    alloc: Global,
    desk: &mut D,
) -> Result<(), RowsError> {
    let rows = text(alloc, desk, "problems/encode.rows")?;
    for row in rows.lines() {
        print_row(rt, alloc, desk, row)?;
    }
    Ok(())
}
