//! What comes of problems: fits of changed routes, clauses that say a routing, widths that are
//! counted out, judgements of changed routings, and nets that are not reached.
mod counts;
mod encodings;
mod files;
mod fits;
mod judgements;
mod reached;
mod say;
mod width;

use self::counts::print_counts;
use self::encodings::print_encodings;
use self::fits::print_fits;
use self::judgements::{Reaches, print_judgements};
use self::reached::print_reached;
use crate::stop::RowsError;
use desk_io::Desk;
use std::alloc::Global;

/// Prints what the rows of each table ask for.
pub(crate) fn print_problems<D: Desk>(
    rt: &impl Print,
    alloc: Global,
    desk: &mut D,
) -> Result<(), RowsError> {
    print_fits(rt, alloc, desk)?;
    print_encodings(rt, alloc, desk)?;
    print_counts(rt, alloc, desk)?;
    print_judgements(rt, alloc, desk, "problems/verify.rows", Reaches::None)?;
    print_judgements(rt, alloc, desk, "problems/reach.rows", Reaches::Told)?;
    print_reached(rt, alloc, desk)
}
