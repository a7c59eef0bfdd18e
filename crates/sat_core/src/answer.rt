//! What a search comes to.

/// What a search for values that satisfy a formula comes to.
#[derive(Debug, Drop)]
pub enum Answer {
    /// Variable 1 has the first of these values, variable 2 the second, and so on; they satisfy the
    /// formula.
    Model(Vec<bool>),
    /// No values satisfy the formula, and the log refutes it.
    Refuted,
    /// As many clauses were learned as the budget allows, and it is still open.
    Spent,
    /// Its caller said that it may not go on, and it is still open.
    Stopped,
}
