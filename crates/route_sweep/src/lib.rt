//! Searches for routings: at one width, and at the least width that has one.
#![tactic(auto)]

mod asking;
mod building;
mod climbing;
mod found;
mod names;
mod searcher;
mod searching;
mod watch;
mod writing;

pub use asking::Ask;
pub use building::few_clauses;
pub use climbing::climb;
pub use found::{Climbed, FileSlot, Found, Stop};
pub use searcher::{Ended, Searcher};
pub use searching::one_width;
pub use watch::Watch;
pub use writing::{write_proof, write_routing};
