//! The numbers of a run.

use crate::problem_size::ProblemSize;
use crate::sizes::{FormulaSize, LogSize, RouteSize};

/// A number for each stage of a run, where it is known. No clause says what is measured.
#[derive(Clone, Copy)]
pub struct Stages {
    /// For what comes before the first width: the words and the files are read.
    pub reading: Option<u64>,
    /// For the building of the clauses of all widths.
    pub clauses: Option<u64>,
    /// For the searches of all widths.
    pub search: Option<u64>,
    /// For the whole run.
    pub run: Option<u64>,
}

impl Stages {
    /// Nothing is known.
    pub fn unknown() -> Stages {
        Stages {
            reading: None,
            clauses: None,
            search: None,
            run: None,
        }
    }
}

/// The numbers of a run, as far as they are known. Those of clauses, log, restarts and rounds are
/// of the last width that was searched.
#[derive(Clone, Copy)]
pub struct Stats {
    /// The last width that was searched.
    pub width: Option<u64>,
    /// How large the problem is.
    pub problem: Option<ProblemSize>,
    /// How large the clauses are.
    pub formula: Option<FormulaSize>,
    /// How large the log is.
    pub log: Option<LogSize>,
    /// How often a search began anew.
    pub restarts: Option<u64>,
    /// How many rounds a negotiation took.
    pub rounds: Option<u64>,
    /// How large the route is that was found.
    pub route: Option<RouteSize>,
    /// How many milliseconds each stage took.
    pub milliseconds: Stages,
    /// How many kibibytes the run had taken at the most by the end of each stage.
    pub kibibytes: Stages,
}

impl Stats {
    /// Nothing is known.
    pub fn unknown() -> Stats {
        Stats {
            width: None,
            problem: None,
            formula: None,
            log: None,
            restarts: None,
            rounds: None,
            route: None,
            milliseconds: Stages::unknown(),
            kibibytes: Stages::unknown(),
        }
    }
}
