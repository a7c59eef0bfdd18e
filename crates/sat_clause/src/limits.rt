//! The limits of formulas and logs.

/// The greatest number of variables of a formula.
pub const VARIABLE_LIMIT: u32 = 100_000_000;

/// The greatest number of clauses of a formula that is built or read.
pub const CLAUSE_LIMIT: u64 = 40_000_000;

/// The greatest id of a clause in a log.
pub const ID_LIMIT: u32 = u32::MAX;

/// The greatest variable that a literal can have.
pub const LITERAL_LIMIT: u32 = 2_147_483_647;
