//! CNF and LRAT texts: formulas and logs, read and printed.
#![tactic(auto)]

mod cause;
mod clauses;
mod digits;
mod draft;
mod front_numbers;
mod head;
mod hint_rule;
mod laws;
mod log_lines;
mod number;
mod read;
mod row;
mod step_draft;
mod step_line;
mod told;
mod write;
mod write_log;

pub use laws::{printed_formulas_read_back, printed_logs_read_back};
pub use log_lines::LogLines;
pub use read::{read_cnf, read_lrat, read_lrat_full};
pub use write::{CnfText, write_cnf};
pub use write_log::{LratText, write_lrat};
