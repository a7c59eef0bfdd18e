//! Whether an architecture, a netlist, its placement and a global route fit; and the slots, steps
//! and pin steps of the route of four values that do.
#![tactic(auto)]

mod copy;
mod design;
mod elem_context;
mod elems_check;
mod fit_rules;
mod head_check;
mod inputs;
mod keys;
mod line_rules;
mod net_ends;
mod net_table;
mod nets_check;
mod pairs;
mod pin_list;
mod placed_problem;
mod problem_check;
mod problem_context;
mod slot_table;
mod step_list;

pub use design::Design;
pub use elem_context::{ElemContext, comes_again, is_branch, is_out_of_order};
pub use head_check::{agree, is_bare};
pub use keys::{ElemKey, has_elem, see};
pub use line_rules::{ElemAt, LineRules};
pub use net_ends::NetEnds;
pub use net_table::NetTable;
pub use nets_check::check_nets;
pub use placed_problem::{PlacedProblem, fit};
pub use problem_check::same_size;
pub use problem_context::{ProblemContext, is_other_pin, is_other_sink, is_other_source};
