//! Looks for a track for each tree of a problem, one tree after another, as a graph is coloured.
#![tactic(auto)]

mod board;
mod choices;
mod colouring;
mod tree_tracks;

pub use colouring::colour;
