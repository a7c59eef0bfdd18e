//! A cause against a line of a routed file, with what the line is.

use fpga_types::Elem;

/// The least cause against a line of a routed file.
#[derive(Clone, Copy)]
pub struct LineCause {
    /// The number of the line. The end counts as the line after the last.
    pub line: u64,
    /// The number of the cause.
    pub cause: u32,
    /// The position of its net in the file, if it is a Net or element line.
    pub net: Option<usize>,
    /// What it names, if it is an element line.
    pub elem: Option<Elem>,
}
