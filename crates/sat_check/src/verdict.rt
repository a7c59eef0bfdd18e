//! What a log says of a formula.

use sat_clause::Cause;

/// What a log says of a formula.
#[derive(Clone, Copy, PartialEq, Eq)]
pub enum Verdict {
    /// The log refutes the formula: no truth values satisfy it.
    Accepted,
    /// The log does not refute the formula.
    Refused {
        /// The number of the first step that is refused, counted from 1; where none is, the number
        /// of steps and one more.
        step: u64,
        /// Why the step is refused, or that the steps end without an empty clause.
        cause: Cause,
    },
}
