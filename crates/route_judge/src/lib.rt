//! A judge of routed files with no global route: whether one is a routing of a placement.
#![tactic(auto)]

mod kept;
mod laws;
mod line;
mod placed_judge;
mod rules;
mod verdict;

pub use laws::{
    file_within_reach_is_judged_legal, legal_file_says_a_routing, read_netlist_has_own_ends,
    strict_file_is_a_global_route, verified_file_is_judged_legal,
};
pub use verdict::{judge, judge_strict};
