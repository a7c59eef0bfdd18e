//! How the files of a search are named.

/// What the files of a search are called.
#[derive(Clone, Copy)]
pub struct Ask<'a> {
    /// What the names of all files begin with.
    pub prefix: &'a str,
    /// Whether the names of the clauses and of the log have the width in them.
    pub numbered: bool,
}
