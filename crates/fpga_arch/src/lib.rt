//! The architecture text of VPR 4.30: its lines and its value.
#![tactic(auto)]

mod cause;
mod channel_line;
mod draft;
mod keyword;
mod pin_line;
mod read;
mod segment_line;
mod words;

pub use read::read_arch;
