//! The route text of VPR 4.30: its lines, its value and its printed form.
#![tactic(auto)]

mod cause;
mod draft;
mod forms;
mod head;
mod laws;
mod open_net;
mod read;
mod standing;
mod words;
mod write;

pub use laws::{read_routes_are_printable, routes_with_tracks_are_printable};
pub use read::read_route;
pub use write::{WholeRoute, write_route};
