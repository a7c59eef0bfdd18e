//! Routing within a reach: a net may take several wires of its cells.
#![tactic(auto)]

mod branch;
mod build;
mod clause_row;
mod count;
mod decoding;
mod each_wire;
mod ends;
mod far;
mod growing;
mod laws;
mod method;
mod near;
mod near_table;
mod nearby;
mod numbers;
mod printed;
mod printer;
mod printing;
mod reach_model;
mod rising;
mod sinks;
mod source;
mod source_line;
mod starts;
mod trace;
mod tree;
mod variables;

pub use build::reach_build;
pub use count::reach_count;
pub use laws::{
    models_say_reached, reach_covers_strict, reached_have_models, routes_read_back,
    routes_say_reached, tracks_say_reached, unsat_says_no_route, unsat_says_unreachable,
};
pub use method::Reach;
pub use trace::trace_depth;
