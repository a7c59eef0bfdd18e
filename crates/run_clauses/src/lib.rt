//! The clauses of a problem by the method of a job: what the method makes of it, and whether it
//! suits it; and the commands `encode`, which writes them, and `decode`, which makes a route of a
//! model of them.
#![tactic(auto)]

mod chosen;
mod decoding;
mod encoder;
mod encoding;
mod known;
mod suited;
mod variable_names;

pub use chosen::Chosen;
pub use decoding::decode_files;
pub use encoding::encode_problem;
pub use known::known_of;
pub use suited::unsuited;
