//! The routing problem that four texts say, given or read from four files, or which of them is
//! refused or not read, and why.
#![tactic(auto)]

mod files;
mod four_texts;
mod names;
mod placed_files;
mod read;
mod refusal;
mod source;
mod text_file;
mod unread;

pub use files::{read_files, read_placed};
pub use four_texts::FourTexts;
pub use names::{FourNames, ThreeNames};
pub use placed_files::PlacedFiles;
pub use read::read_problem;
pub use refusal::Refusal;
pub use source::{TEXT_BYTES, read_bytes, read_route_file};
pub use text_file::TextFile;
pub use unread::{FileFault, Unread};
