//! What a run comes to, by the files that it reads and writes: its outcome, with the exit status and
//! the report line; the files that commands read and the slots that they write, by number and by
//! word; the codes of sizes that pass a limit; and the clock that a search is told by.
#![tactic(auto)]

mod clock;
mod names;
mod outcome;
mod posed;
mod ran;
mod size_cause;
mod slot;
mod stopping;
mod text_file;

pub use clock::{Clock, set_limit};
pub use names::file_name;
pub use outcome::{LINE_ROOM, Obstacle, Outcome, push_count, report, status};
pub use posed::{does_fit, was_given};
pub use ran::{Ran, Reason, without_problem};
pub use size_cause::SizeCause;
pub use slot::Slot;
pub use stopping::{stop_outcome, unread_outcome};
pub use text_file::{PROOF_BYTES, TextFile};
