//! The limits of the numbers among the words.

/// How many clauses a search may learn at the most.
// The search has such a limit of its own (`BUDGET_LIMIT` of `route_sweep`), since words and search
// know nothing of each other. Were this one greater, no proof could hand a job to the search.
pub const BUDGET_LIMIT: u64 = 100_000_000;

/// How many clauses a search may learn where the words do not say it.
pub const BUDGET_DEFAULT: u64 = 1_000_000;

/// After how many seconds a run may be told to stop its searches at the most.
pub const SECOND_LIMIT: u32 = 1_000_000;

/// The greatest seed of a generated problem, or of searches that take turns.
pub const SEED_LIMIT: u32 = 2_147_483_647;

/// The first seed of searches that take turns, where the words do not say it.
pub const SEED_DEFAULT: u32 = 1;

/// How many searches may take turns at the most.
// The schedule of searches has such a limit of its own (`IsSchedule` of `sat_turns`).
pub const MEMBER_LIMIT: u32 = 8;

/// After how many rounds a search for a route with its tracks may give up at the most.
// The search has such a limit of its own (`ROUND_LIMIT` of `route_negotiate`).
pub const ROUND_LIMIT: u32 = 100_000;

/// After how many rounds it gives up where the words do not say it.
pub const ROUND_DEFAULT: u32 = 500;

/// How many nets a generated problem may have at the most.
pub const GENERATED_NETS_LIMIT: u32 = 10_000;
