//! The files that the words name.
use fpga_problem::TextFile;

/// A file that the words name.
#[derive(Clone, Copy)]
pub(crate) enum GivenFile {
    /// A file that the problem is read from.
    Text(TextFile),
    /// The file of the names of nets to blame.
    Names,
    /// The file with a routing.
    Routed,
}
