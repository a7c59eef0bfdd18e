//! The placement text of VPR 4.30: its lines and its value.
#![tactic(auto)]

mod block_table;
mod cause;
mod draft;
mod head;
mod read;
mod words;

pub use read::read_place;
