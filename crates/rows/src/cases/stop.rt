//! Why a line of a case is not taken, and why a case does not hold.
use std::alloc::AllocError;
use thiserror::Error;

/// Why a line of a case is not taken.
#[derive(Debug, Drop, Error)]
pub enum LineFault {
    #[error("a line is not understood")]
    NotUnderstood,
    #[error(transparent)]
    Memory(#[from(alloc)] AllocError),
}

/// Why a case does not hold.
#[derive(Debug, Drop, Error)]
pub enum RowStop {
    #[error("not understood: {0}")]
    NotUnderstood(String),
    #[error("there is no line `{0}`")]
    Lacks(&'static str),
    #[error("{what}: expected {expected}, came {came}")]
    Differs {
        what: String,
        expected: String,
        came: String,
    },
    #[error(transparent)]
    Memory(#[from(alloc)] AllocError),
}
