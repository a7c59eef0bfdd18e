//! The cases of a file, one after another.
use crate::cases::row::Row;
use crate::cases::sections::{Heading, Section, sections};
use crate::cases::stop::{LineFault, RowStop};
use crate::cases::texts::Texts;
use crate::stop::RowsError;
use std::alloc::{AllocError, Global};

/// How many cases hold, and how many do not; and in how many runs of those that hold calls failed
/// one after the other.
#[derive(Clone, Copy)]
pub struct Tally {
    pub holding: u64,
    pub others: u64,
    pub cut: u64,
}

// Why a line of a case is not taken, with the line.
fn at_line(alloc: Global, fault: LineFault, line: &str) -> RowStop {
    match fault {
        LineFault::Memory(fault) => RowStop::Memory(fault),
        LineFault::NotUnderstood => match String::from_str(alloc, line) {
            Ok(line) => RowStop::NotUnderstood(line),
            Err(fault) => RowStop::Memory(fault),
        },
    }
}

// Judges a case: takes its lines, runs at each `then`, and at the end, and then once for each call
// that is to fail; gives how many runs these were.
fn judge(
    alloc: Global,
    texts: &mut Texts,
    common: &[&str],
    lines: &[&str],
) -> Result<u64, RowStop> {
    texts.written = None;
    let mut row = Row::new(alloc);
    for line in common.iter().chain(lines) {
        if *line == "then" {
            texts.written = Some(row.play()?);
            row = Row::new(alloc);
        } else if let Err(fault) = row.take(texts, line) {
            return Err(at_line(alloc, fault, line));
        }
    }
    let whole = row.play()?;
    row.play_series(&whole)
}

// Adds a part to the texts.
fn add_part(alloc: Global, texts: &mut Texts, name: &str, lines: &[&str]) -> Result<u64, RowStop> {
    let mut text = Vec::new(alloc);
    for line in lines {
        if let Err(fault) = texts.append_line(&mut text, line) {
            return Err(at_line(alloc, fault, line));
        }
    }
    texts.parts.push((String::from_str(alloc, name)?, text))?;
    Ok(0)
}

/// Judges the cases of a file, and prints a line for each that does not hold. They can cite the
/// parts of the files before.
pub fn judge_file(
    rt: &impl Print,
    alloc: Global,
    texts: &mut Texts,
    text: &str,
) -> Result<Tally, RowsError> {
    let mut tally = Tally {
        holding: 0,
        others: 0,
        cut: 0,
    };
    let mut common = Vec::new(alloc);
    for section in sections(alloc, text)? {
        let Section { heading, lines } = section;
        let (name, judged) = match heading {
            Heading::Common => {
                common = lines;
                continue;
            }
            Heading::Part(name) => (name, add_part(alloc, texts, name, &lines)),
            Heading::Case(name) => (name, judge(alloc, texts, &common, &lines)),
        };
        match judged {
            Ok(cut) => {
                let is_case = matches!(heading, Heading::Case(_));
                tally.holding = tally.holding.saturating_add(u64::from(is_case));
                tally.cut = tally.cut.saturating_add(cut);
            }
            Err(stop) => {
                println!(rt; "{name}: {stop}")?;
                tally.others = tally.others.saturating_add(1);
            }
        }
    }
    Ok(tally)
}
