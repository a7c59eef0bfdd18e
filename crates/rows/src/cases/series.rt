//! The runs of a case in which calls fail, one number after the other.
ghost use Rattle.std.specs.Prelude.{◌≡◌, IfOk};
ghost use Rattle.rows.specs.Played.{desk_calls, shelf_calls};

use crate::cases::cut::{Cut, Heard, Left};
use crate::cases::numbers::number;
use crate::cases::stop::LineFault;
use std::alloc::{AllocError, Global};

/// Which calls fail at the run of a number.
#[derive(Clone, Copy)]
pub enum Failing {
    /// The call of the desk with this number.
    Desk,
    /// The call of the shelf with this number.
    Shelf,
    /// The call of the shelf with this number, and each after it.
    ShelfOn,
}

// How many calls after the first fail, where all after it do. No case makes more.
const MORE: u64 = 1000;

impl Failing {
    /// The numbers of the calls of the desk that fail, and of those of the shelf.
    pub fn calls(self, alloc: Global, number: u64) -> Result<(Vec<u64>, Vec<u64>), AllocError>
        ensures desk { IfOk result (λ calls. calls.0.items ≡ desk_calls self number) }
        ensures shelf { IfOk result (λ calls. calls.1.items ≡ shelf_calls self number) }
    {
        let mut desk = Vec::new(alloc);
        let mut shelf = Vec::new(alloc);
        match self {
            Failing::Desk => desk.push(number)?,
            Failing::Shelf => shelf.push(number)?,
            Failing::ShelfOn => {
                for call in number..number.saturating_add(MORE) {
                    shelf.push(call)?;
                }
            }
        }
        Ok((desk, shelf))
    }
}

/// What must come at each number from 1 on; at the number behind the last no call fails.
#[derive(Drop)]
pub struct Series {
    pub failing: Option<Failing>,
    /// The names of the files, in the order in which they are written.
    pub order: Vec<String>,
    pub cuts: Vec<Cut>,
}

impl Series {
    /// No runs.
    pub fn new(alloc: Global) -> Series {
        Series {
            failing: None,
            order: Vec::new(alloc),
            cuts: Vec::new(alloc),
        }
    }

    /// Takes which calls fail.
    pub fn take_failing(&mut self, calls: &str) -> Result<(), LineFault> {
        self.failing = match calls {
            "desk" => Some(Failing::Desk),
            "shelf" => Some(Failing::Shelf),
            "shelf on" => Some(Failing::ShelfOn),
            _ => return Err(LineFault::NotUnderstood),
        };
        Ok(())
    }

    /// Takes the order of the files.
    pub fn take_order(&mut self, alloc: Global, names: &str) -> Result<(), LineFault> {
        for name in names.split(' ') {
            self.order.push(String::from_str(alloc, name)?)?;
        }
        Ok(())
    }

    /// Takes what must come at the next numbers: how many they are, what is left, what is said, the
    /// status and the report line of the outcome.
    pub fn take_cuts(&mut self, alloc: Global, rest: &str) -> Result<(), LineFault> {
        let (count, rest) = first_word(rest)?;
        let (left, rest) = first_word(rest)?;
        let (heard, rest) = first_word(rest)?;
        let (status, outcome) = first_word(rest)?;
        let (left, heard, status) = (left_of(left)?, heard_of(heard)?, number(status)?);
        for _ in 0..number(count)? {
            self.cuts.push(Cut {
                outcome: String::from_str(alloc, outcome)?,
                status,
                heard,
                left,
            })?;
        }
        Ok(())
    }
}

// The first word of a line, and the others.
fn first_word(line: &str) -> Result<(&str, &str), LineFault> {
    line.split_once(' ').ok_or(LineFault::NotUnderstood)
}

// What is left, by the word for it.
fn left_of(word: &str) -> Result<Left, LineFault> {
    if word == "none" {
        return Ok(Left::Gone);
    }
    match usize::try_from(number(word)?) {
        Ok(count) => Ok(Left::First(count)),
        Err(_) => Err(LineFault::NotUnderstood),
    }
}

// What is said, by the word for it.
fn heard_of(word: &str) -> Result<Heard, LineFault> {
    match word {
        "both" => Ok(Heard::Both),
        "lead" => Ok(Heard::Lead),
        "report" => Ok(Heard::Report),
        "nothing" => Ok(Heard::Nothing),
        _ => Err(LineFault::NotUnderstood),
    }
}
