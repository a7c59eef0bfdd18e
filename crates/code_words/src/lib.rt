//! What the codes of reports and the errors of the system mean, in words, and what a file is
//! instead of the one that is due. `docs/FORMATS.md` has where each code holds.
#![tactic(auto)]

mod causes;
mod errors;
mod foreign;
mod phrases;
mod refusals;
mod refused;

pub use causes::{cause, cause_within_reach};
pub use errors::system_error;
pub use foreign::foreign_kind;
pub use refusals::refusal;
pub use refused::{append_judged, append_limit, append_line, append_step};
