//! Pictures of routes, as texts of SVG: the array with its blocks and pads and the numbers of its
//! columns and rows, the channels with their tracks, each net in a colour, which may be bold or
//! pale, the cells that want more tracks than there are, and those of a cut.
#![tactic(auto)]

mod array;
mod blocks;
mod caption;
mod colour;
mod crowded;
mod cut;
mod emphasis;
mod escape;
mod group;
mod head;
mod joints;
mod label;
mod lanes;
mod needs;
mod nets;
mod path;
mod picture;
mod pins;
mod ruler;
mod scale;
mod wires;

pub use cut::ShownCut;
pub use emphasis::{Emphasis, NetNames};
pub use escape::append_escaped;
pub use picture::{draw, draw_routed};
