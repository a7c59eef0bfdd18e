//! A routing with some of its lines changed.
use fpga_text::whole_number_of;
use std::alloc::{AllocError, Global};

/// Which lines are replaced, counted from 1, and what comes in their place. Where the last stands
/// before the first nothing goes.
#[derive(Clone, Copy)]
pub(crate) struct Change<'a> {
    pub first: u64,
    pub last: u64,
    /// The lines, between which `|` stands; None of no line.
    pub lines: Option<&'a str>,
}

impl<'a> Change<'a> {
    /// As the words of a row have it. A word that is no number counts as 0.
    pub(crate) fn of(first: &str, last: &str, lines: Option<&'a str>) -> Change<'a> {
        Change {
            first: whole_number_of(first.as_bytes()).unwrap_or(0),
            last: whole_number_of(last.as_bytes()).unwrap_or(0),
            lines,
        }
    }
}

/// The text with its lines changed.
pub(crate) fn changed(alloc: Global, text: &str, change: Change) -> Result<String, AllocError> {
    let mut made = String::new(alloc);
    let mut number = 0u64;
    for line in text.lines() {
        number = number.saturating_add(1);
        if number == change.first {
            push_lines(&mut made, change.lines)?;
        }
        if number < change.first || number > change.last {
            made.push_str(line)?;
            made.push('\n')?;
        }
    }
    if number < change.first {
        push_lines(&mut made, change.lines)?;
    }
    Ok(made)
}

// Puts the lines behind the text.
fn push_lines(made: &mut String, lines: Option<&str>) -> Result<(), AllocError> {
    let Some(lines) = lines else {
        return Ok(());
    };
    for letter in lines.chars() {
        made.push(if letter == '|' { '\n' } else { letter })?;
    }
    made.push('\n')
}
