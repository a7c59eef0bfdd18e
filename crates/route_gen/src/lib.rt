//! Routing problems made from a number, as large input.
#![tactic(auto)]

mod architecture;
mod draws;
mod laws;
mod location;
mod netlist;
mod placement;
mod rand;
mod route;
mod texts;
mod trace;

pub use laws::{
    architecture_reads, fits_but_for_slots, netlist_reads, placement_reads, route_reads,
    texts_are_short,
};
pub use texts::{FourTexts, GenStop, generate};
