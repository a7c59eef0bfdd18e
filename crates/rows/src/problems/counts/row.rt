//! A row: an architecture, a design and widths.
use crate::problems::counts::counted::print_counted;
use crate::problems::files::problem_of_files;
use crate::problems::say::say;
use crate::problems::width::width_of;
use crate::stop::RowsError;
use desk_io::Desk;
use fpga_bounds::PlacedProblem;
use problem_facts::Facts;
use std::alloc::Global;
use std::str::SplitWhitespace;

/// Prints what a row asks for, width by width, behind the row.
pub(crate) fn print_row<D: Desk>(
    rt: &impl Print,
    alloc: Global,
    desk: &mut D,
    row: &str,
) -> Result<(), RowsError> {
    say(rt, row)?;
    let mut words = row.split_whitespace();
    let (Some(arch), Some(design)) = (words.next(), words.next()) else {
        return say(rt, "too few words");
    };
    match problem_of_files(alloc, desk, arch, design)? {
        Ok(problem) => print_widths(rt, alloc, &problem, words),
        Err(_) => say(rt, "no problem"),
    }
}

// Prints what comes of the problem at each width.
fn print_widths(
    rt: &impl Print,
    alloc: Global,
    problem: &PlacedProblem,
    words: SplitWhitespace<'_>,
) -> Result<(), RowsError> {
    let facts = Facts::of(alloc, problem)?;
    for word in words {
        match width_of(word) {
            Some(width) => print_counted(rt, alloc, problem, &facts, width)?,
            None => say(rt, "no width")?,
        }
    }
    Ok(())
}
