//! A row: an architecture, a design, a width, and truth values, if there are some.
use crate::problems::encodings::printed::print_problem;
use crate::problems::files::problem_of_files;
use crate::problems::say::say;
use crate::problems::width::width_of;
use crate::stop::RowsError;
use desk_io::Desk;
use std::alloc::Global;

/// Prints what a row asks for, behind the row.
pub(crate) fn print_row<D: Desk>(
    rt: &impl Print,
    alloc: Global,
    desk: &mut D,
    row: &str,
) -> Result<(), RowsError> {
    say(rt, row)?;
    let mut words = row.split_whitespace();
    let (Some(arch), Some(design), Some(width)) = (words.next(), words.next(), words.next()) else {
        return say(rt, "too few words");
    };
    let Some(width) = width_of(width) else {
        return say(rt, "no width");
    };
    let word = words.next();
    match problem_of_files(alloc, desk, arch, design)? {
        Ok(problem) => print_problem(rt, alloc, &problem, width, word),
        Err(_) => say(rt, "no problem"),
    }
}
