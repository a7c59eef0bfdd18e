//! The words of a command.
//!
//! | command | words behind it | options |
//! |---|---|---|
//! | `route` | FILES WIDTH PREFIX | METHOD, SEARCH, `--members K`, `--seed S` |
//! | `sweep` | FILES MAX PREFIX | METHOD, SEARCH, `--members K`, `--seed S` |
//! | `encode` | FILES WIDTH PREFIX | METHOD, `--names` |
//! | `decode` | FILES WIDTH MODEL PREFIX | METHOD |
//! | `core` | FILES WIDTH PREFIX | `--conflicts N`, `--seconds T`, `--pin`, `--symmetry` |
//! | `check` | CNF LRAT | |
//! | `verify` | FILES WIDTH ROUTED | `--reach L`, `--all` |
//! | `judge` | PLACED WIDTH ROUTED | `--strict` |
//! | `bound` | PLACED | |
//! | `global` | PLACED WIDTH PREFIX | `--free`, `--from ROUTE`, `--rounds N` |
//! | `least` | PLACED MAX PREFIX | `--free`, `--from ROUTE`, `--rounds N` |
//! | `gen` | SEED NX NETS PREFIX | |
//! | `trial` | SEED NX NETS MAX PREFIX | `--reach L`, SEARCH |
//!
//! FILES are four words: ARCH NET PLACE ROUTE; PLACED are the first three of them. METHOD is
//! `--pin`, `--symmetry` or `--reach L`, or none. SEARCH is any of `--conflicts N`, `--seconds T`,
//! `--keep` and `--count`, the last with no reach, and so it is with `--names`. WIDTH and MAX are
//! whole numbers from 1 to 64. N of `--conflicts` is one from 1 to 100,000,000, or 1,000,000 where
//! it is not given, T one from 1 to 1,000,000, and N of `--rounds` one from 1 to 100,000, or 200.
//! SEED is one from 0 to 2,147,483,647, NX one from 1 to 100, and NETS one from 1 to 10,000. K is
//! one from 1 to 8, and S one from 0 to 2,147,483,647, or 1 where `--members` is given alone. L is
//! one from 1 to 64. Leading zeros are taken, signs are not.
//!
//! What stands behind the command is taken as `clap` takes it: options may stand anywhere,
//! `--conflicts=5` is `--conflicts 5`, behind `--` no word is an option, and a word may be empty or
//! `-`. An option is given once at the most and written out, `--keep`, `--count`, `--pin`,
//! `--symmetry`, `--names`, `--all`, `--strict` and `--free` have no value, and no word asks for
//! help.
//!
//! | code | cause |
//! |---|---|
//! | 1 | there is no first word, or it names no command |
//! | 2 | the form of the command does not take the words behind it |
//! | 3 | a word that is to be a number is no whole number in its range |
//! | 4 | `--seed` alone; two of `--pin`, `--symmetry`, `--reach`; or it with `--count` |
//! | 5 | a file that the job may write has, letter by letter, the name of one that it reads |
//!
//! The least code that holds is answered.
#![tactic(auto)]

mod command_name;
mod fault;
mod form;
mod from_matches;
mod job;
mod limits;
mod matched;
mod method;
mod overwriting;
mod read;

pub use fault::{Refusal, WordsFault};
pub use job::{
    BoundJob, CheckJob, CoreJob, DecodeJob, EncodeJob, GenJob, GlobalJob, Job, JudgeJob, LeastJob,
    Members, Recipe, RouteJob, SearchJob, SweepJob, TrialJob, VerifyJob,
};
pub use limits::{
    BUDGET_DEFAULT, BUDGET_LIMIT, GENERATED_NETS_LIMIT, MEMBER_LIMIT, ROUND_DEFAULT, ROUND_LIMIT,
    SECOND_LIMIT, SEED_DEFAULT, SEED_LIMIT,
};
pub use method::Method;
pub use read::{asks_stats, read_words};
