//! The netlist text of VPR 4.30: its lines and its value.
#![tactic(auto)]

mod begun;
mod cause;
mod draft;
mod forms;
mod globals;
mod limits;
mod listed;
mod names;
mod net_draft;
mod net_table;
mod net_use;
mod read;

pub use read::read_net;
