//! A row: a name, an architecture, a design, a routing, a width, a reach in a table of reaches, and
//! which lines are changed.
ghost use Rattle.std.specs.Prelude.{◌≤◌};

use crate::problems::files::problem_of_files;
use crate::problems::judgements::Reaches;
use crate::problems::judgements::answer::{Manner, answer};
use crate::problems::judgements::changed::{Change, changed};
use crate::problems::say::say;
use crate::problems::width::width_of;
use crate::stop::RowsError;
use crate::text::text;
use desk_io::Desk;
use fpga_bounds::PlacedProblem;
use fpga_types::WIDTH_LIMIT;
use std::alloc::Global;

/// Prints how the changed routing of a row is judged, behind the row's name: where it tells a
/// reach, within that and then without it; and last as a routing of the placement, with several
/// wires of a cell and strictly with one.
pub(crate) fn print_row<D: Desk>(
    rt: &impl Print,
    alloc: Global,
    desk: &mut D,
    row: &str,
    reaches: Reaches,
) -> Result<(), RowsError> {
    let (head, lines) = match row.split_once('|') {
        Some((head, lines)) => (head, Some(lines)),
        None => (row, None),
    };
    let mut words = head.split_whitespace();
    let (Some(name), Some(arch), Some(design)) = (words.next(), words.next(), words.next()) else {
        return say(rt, "too few words");
    };
    let (Some(routed), Some(width)) = (words.next(), words.next()) else {
        return say(rt, "too few words");
    };
    let reach = match reaches {
        Reaches::None => None,
        Reaches::Told => Some(words.next().unwrap_or("")),
    };
    let (first, last) = (words.next().unwrap_or(""), words.next().unwrap_or(""));
    let change = Change::of(first, last, lines);
    let routed = changed_file(alloc, desk, routed, change)?;
    let asked = Asked {
        arch,
        design,
        width,
        routed: routed.as_bytes(),
    };
    print_judged(rt, alloc, desk, name, asked, reach)
}

// The routing of this name with its lines changed.
fn changed_file<D: Desk>(
    alloc: Global,
    desk: &mut D,
    name: &str,
    change: Change,
) -> Result<String, RowsError> {
    let name = format!(in alloc; "problems/{name}.routed")?;
    let routed = text(alloc, desk, name.as_str())?;
    Ok(changed(alloc, routed.as_str(), change)?)
}

// What is judged: the routed text against the problem of the architecture and the design, at the
// width that the word says.
#[derive(Clone, Copy)]
struct Asked<'a> {
    arch: &'a str,
    design: &'a str,
    width: &'a str,
    routed: &'a [u8],
}

// Prints how the text is judged within the reach, if one is told, then without it, and then as a
// routing of the placement.
fn print_judged<D: Desk>(
    rt: &impl Print,
    alloc: Global,
    desk: &mut D,
    name: &str,
    asked: Asked<'_>,
    reach: Option<&str>,
) -> Result<(), RowsError> {
    if let Some(reach) = reach {
        let line = match width_of(reach) {
            // A reach, like a width, is from 1 to 64.
            Some(joins) => judged(alloc, desk, asked, Manner::Within(Some(joins)))?,
            None => told(alloc, "no reach")?,
        };
        println!(rt; "{name} within {reach}: {line}")?;
    }
    let line = judged(alloc, desk, asked, Manner::Within(None))?;
    println!(rt; "{name}: {line}")?;
    let line = judged(alloc, desk, asked, Manner::Placed(false))?;
    println!(rt; "{name} placed: {line}")?;
    let line = judged(alloc, desk, asked, Manner::Placed(true))?;
    println!(rt; "{name} placed strictly: {line}")?;
    Ok(())
}

// How the text is judged in this manner.
fn judged<D: Desk>(
    alloc: Global,
    desk: &mut D,
    asked: Asked<'_>,
    manner: Manner,
) -> Result<String, RowsError> {
    let Some(width) = width_of(asked.width) else {
        return told(alloc, "no width");
    };
    match problem_of_files(alloc, desk, asked.arch, asked.design)? {
        Ok(problem) => answered(alloc, &problem, width, manner, asked.routed),
        Err(_) => told(alloc, "no problem"),
    }
}

// How the text is judged against the problem.
fn answered(
    alloc: Global,
    problem: &PlacedProblem,
    width: u32,
    manner: Manner,
    routed: &[u8],
) -> Result<String, RowsError>
    requires { (1 ≤ width) × (width ≤ WIDTH_LIMIT) }
{
    Ok(answer(alloc, problem, width, manner, routed)?)
}

// The same text, owned.
fn told(alloc: Global, text: &str) -> Result<String, RowsError> {
    Ok(String::from_str(alloc, text)?)
}
