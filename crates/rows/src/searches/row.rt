//! A row: a file of clauses, how they are searched, how many clauses may be learned, and at which
//! question the search is ended, if at one.
use crate::questions::Questions;
use crate::searches::found::{How, found};
use crate::searches::printed::print_found;
use crate::stop::RowsError;
use desk_io::{Desk, read_file};
use fpga_text::{Line, whole_number_of};
use sat_clause::{Formula, Log};
use sat_core::Answer;
use sat_text::read_cnf;
use std::alloc::Global;
use std::str;

// The number that the next word says, and 0 where it says none.
fn number(line: &mut Line<'_>) -> u64 {
    match line.next_word() {
        Some(word) => whole_number_of(word.text).unwrap_or(0),
        None => 0,
    }
}

// The number of the question at which the search is ended, if the row says one.
fn ends(line: &mut Line<'_>) -> Option<u64> {
    let word = line.next_word()?;
    if word.text == b"ends".as_slice() {
        return Some(number(line));
    }
    None
}

// How the row has its clauses searched.
fn how(line: &mut Line<'_>) -> Option<How> {
    let word = line.next_word()?;
    if word.text == b"delete".as_slice() {
        return Some(How::Deleting);
    }
    if word.text == b"keep".as_slice() {
        return Some(How::Keeping);
    }
    if word.text == b"last".as_slice() {
        return Some(How::Lasting);
    }
    if word.text == b"merge".as_slice() {
        return Some(How::Merging);
    }
    if word.text == b"second".as_slice() {
        return Some(How::SecondFirst);
    }
    let members = number(line);
    let seed = number(line);
    Some(How::Drawn { members, seed })
}

// The clauses of a file.
fn formula_of<D: Desk>(alloc: Global, desk: &mut D, name: &str) -> Option<Formula> {
    let name = format!(in alloc; "searches/{name}").ok()?;
    let Ok(text) = read_file(alloc, desk, &name, 100_000) else {
        return None;
    };
    let Ok(formula) = read_cnf(alloc, &text) else {
        return None;
    };
    Some(formula)
}

// What is found of the clauses of a file, as the row has them searched.
fn found_of<D: Desk>(
    alloc: Global,
    desk: &mut D,
    name: &str,
    line: &mut Line<'_>,
) -> Option<(Answer, Log)> {
    let how = how(line)?;
    let formula = formula_of(alloc, desk, name)?;
    let budget = number(line);
    let mut asked = Questions::until(ends(line));
    found(alloc, &formula, how, budget, &mut asked)
}

/// Prints what a row asks for, behind the name of its file.
pub(crate) fn print_row<D: Desk>(
    rt: &impl Print,
    alloc: Global,
    desk: &mut D,
    line: &mut Line<'_>,
) -> Result<(), RowsError> {
    let Some(word) = line.next_word() else {
        return Ok(());
    };
    let name = str::from_utf8(word.text).unwrap_or("no name");
    println!(rt; "{name}")?;
    let Some((answer, log)) = found_of(alloc, desk, name, line) else {
        println!(rt; "not searched")?;
        return Ok(());
    };
    print_found(rt, alloc, &answer, &log)?;
    Ok(())
}
