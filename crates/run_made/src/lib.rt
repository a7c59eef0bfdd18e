//! Problems that are made from a number, and the command `gen`, which writes their files.
#![tactic(auto)]

mod generating;

pub use generating::{generate_files, make_texts};
