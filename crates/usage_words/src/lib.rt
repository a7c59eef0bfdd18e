//! What is said of a command that is not taken: which word is wrong, what the command takes, and an
//! example.
#![tactic(auto)]

mod command;
mod item;
mod phrases;
mod turn;
mod usage;
mod wrong;

pub use usage::append_usage;
