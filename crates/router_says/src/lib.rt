//! What a run came to, in plain words for the person who started it.
#![tactic(auto)]

mod at_fault;
mod bounds;
mod faults;
mod missing;
mod names;
mod phrases;
mod pin_use;
mod places;
mod raised;
mod refused;
mod seen;
mod shown;
mod sought;
mod symmetry;
mod unfound;
mod unsettled;
mod words;

pub use faults::SystemErrors;
pub use words::append_words;
