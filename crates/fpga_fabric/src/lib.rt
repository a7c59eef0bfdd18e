//! The fabric of an island-style FPGA: where cells meet, which tracks switch blocks join, which
//! cells pins touch and which tracks their connection boxes open.
#![tactic(auto)]

mod connection_box;
mod meeting;
mod side;
mod switch_block;

pub use connection_box::{box_count, fc, opens};
pub use meeting::meet;
pub use side::touches;
pub use switch_block::joined_track;
