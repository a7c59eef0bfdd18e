//! Models of formulas, as SAT solvers print them: which literals a text says to be true, and which
//! clauses have one of them.
//!
//! A model has the literals of its lines up to the first 0. A line may begin with a `v`. Lines
//! whose first word begins with `c`, the line `s SATISFIABLE` and the line `SAT` are passed over. A
//! model may leave variables out; what it says satisfies a clause where it has a literal of it.
#![tactic(auto)]

mod assignment;
mod cause;
mod draft;
mod line_kind;
mod read;

pub use assignment::Assignment;
pub use read::read_model;
