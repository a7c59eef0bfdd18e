//! What a run says of itself in numbers: how large its problem, its clauses, its log and its route
//! are, and how much time and memory it took; and the line of JSON that has them.
#![tactic(auto)]

mod line;
mod problem_size;
mod sizes;
mod stats;

pub use line::stats_line;
pub use problem_size::ProblemSize;
pub use sizes::{FormulaSize, LogSize, RouteSize};
pub use stats::{Stages, Stats};
