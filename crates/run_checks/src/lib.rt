//! The commands that judge what a file holds: `check`, a refutation of clauses; `verify`, a routed
//! file within the cells of a global route; and `judge`, one as a routing of the placement alone.
#![tactic(auto)]

mod cause_lines;
mod checking;
mod judging;
mod verifying;

pub use checking::check_files;
pub use judging::judge_file;
pub use verifying::verify_file;
