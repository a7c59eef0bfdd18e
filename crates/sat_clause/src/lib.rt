//! Literals, formulas and logs of resolution steps, and what it means that a log refutes a formula.
#![tactic(auto)]

mod cause;
mod formula;
mod laws;
mod limits;
mod literal;
mod log;
mod parts;
mod reading;
mod truth;

pub use cause::Cause;
pub use formula::Formula;
pub use laws::{accepted_is_unsat, different_clauses_are_few, new_clauses_are_few};
pub use limits::{CLAUSE_LIMIT, ID_LIMIT, LITERAL_LIMIT, VARIABLE_LIMIT};
pub use literal::Lit;
pub use log::{Log, StepView};
pub use reading::{FalseLiterals, Reading, read_clause};
pub use truth::holds;
