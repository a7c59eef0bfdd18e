//! What searches come to.
ghost use Rattle.std.specs.Prelude.{◌≡◌};
ghost use Rattle.route_sweep.specs.Slots.{slot_number};

use std::fmt;
use thiserror::Error;

/// A file that a search writes.
#[derive(Clone, Copy, Debug)]
pub enum FileSlot {
    /// The routing.
    Route,
    /// The clauses at this width.
    Clauses { width: u32 },
    /// The log of the search at this width.
    Log { width: u32 },
}

impl FileSlot {
    /// The number by which reports name the file.
    pub fn number(self) -> u32
        ensures { result ≡ slot_number self }
    {
        match self {
            FileSlot::Route => 1,
            FileSlot::Clauses { .. } => 2,
            FileSlot::Log { .. } => 3,
        }
    }
}

impl fmt::Display for FileSlot {
    fn fmt<W: fmt::Write>(&self, f: &mut fmt::Formatter<W>) -> fmt::Result {
        match self {
            FileSlot::Route => write!(f, "routing"),
            FileSlot::Clauses { .. } => write!(f, "clauses"),
            FileSlot::Log { .. } => write!(f, "log"),
        }
    }
}

/// What is found at one width.
#[derive(Drop)]
pub enum Found {
    /// A routing, which was written.
    Routed,
    /// A refutation, which was written behind the clauses: there is no routing. This is said of it
    /// before the report.
    Refuted { lead: Vec<u8> },
    /// Neither, within the budget or until the caller said no. The clauses were written, and a log
    /// of so many learned clauses.
    Spent { learned: u64 },
}

/// What a climb through the widths comes to.
#[derive(Clone, Copy)]
pub enum Climbed {
    /// This is the least width that has a routing, which was written.
    Routed { width: u32 },
    /// No width up to this one, the last, has a routing.
    Unroutable { width: u32 },
    /// No lower width has a routing, and this one was left open after so many learned clauses.
    Undecided { width: u32, learned: u64 },
}

/// What ends a search before it has found anything, or before all of it is written.
#[derive(Clone, Copy, Debug, Error)]
pub enum Stop {
    /// The shelf failed on this file.
    #[error("the file of the {slot} was not written")]
    Fault { slot: FileSlot },
    /// There are so many clauses, more than 40,000,000. None was built.
    #[error("{count} clauses are more than are built")]
    TooManyClauses { count: u64 },
    /// There are not too many clauses, but the searches would hold so many together, more than
    /// 40,000,000. None was built.
    #[error("{count} clauses are more than searches hold together")]
    TooManyHeld { count: u64 },
    /// Memory ran out.
    #[error("out of memory")]
    Memory,
}
