//! What a text has at fault, by its name or as its line stands, in words to a person.
#![tactic(auto)]

mod ends;
mod line_of;
mod lookup;
mod name_bytes;
mod net_line;
mod pin_nets;
mod quoted;
mod words_behind;

pub use ends::{append_driver, append_no_line, append_no_place, append_no_sink};
pub use line_of::{has_line, line_with};
pub use name_bytes::append_name;
pub use net_line::append_route_line;
pub use quoted::append_line_quoted;
