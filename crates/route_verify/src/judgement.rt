//! How a routed file is judged.

/// A legal detailed route; or one that is not, by the first line with a cause against it, and the
/// number of the least cause there.
#[derive(Clone, Copy)]
pub enum Judgement {
    /// Nothing is against it.
    Legal,
    /// The cause is against this line. The end counts as the line after the last.
    NotLegal { line: u64, cause: u32 },
}
