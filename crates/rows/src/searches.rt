//! What searches of clauses answer, and their logs, or what a long log sums up to. The sums are
//! those that `bench/model_search.cc` prints.
mod found;
mod printed;
mod row;

use self::row::print_row;
use crate::stop::RowsError;
use crate::text::text;
use desk_io::Desk;
use fpga_text::{Lines, Style};
use std::alloc::Global;

/// Prints what each row asks for.
pub(crate) fn print_searches<D: Desk>(
    rt: &impl Print,
    alloc: Global,
    desk: &mut D,
) -> Result<(), RowsError> {
    let rows = text(alloc, desk, "searches/search.rows")?;
    let mut lines = Lines::new(rows.as_bytes(), Style::Hash);
    for _ in 0..10_000 {
        let Some(mut line) = lines.next_line() else {
            break;
        };
        print_row(rt, alloc, desk, &mut line)?;
    }
    Ok(())
}
