//! How a text is cut into lines.

/// How a text is cut into lines.
#[derive(Clone, Copy)]
pub enum Style {
    /// Each line is looked at whole: CNF and LRAT texts.
    Plain,
    /// A `#` begins a comment that ends with its line: placements and routes.
    Hash,
    /// The same, and a backslash at the end of a line joins the next line to it: architectures and
    /// netlists.
    Joined,
}
