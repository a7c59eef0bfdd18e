//! Which hints an added clause may have.

/// Which hints an added clause may have.
#[derive(Clone, Copy)]
pub enum HintRule {
    /// None that is negative: each step follows by unit propagation alone.
    Plain,
    /// Negative ones too, each of which begins a group, where the clause has a literal.
    Full,
}
