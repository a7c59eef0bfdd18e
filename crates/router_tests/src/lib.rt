//! Tests of what is said to a person: of an outcome of a run, and of what the crates below refuse.
//! They stand on public calls alone, so that no crate under test is proved a second time. What the
//! commands come to over files in memory, and which words they take, are rows of `rows`.
#![tactic(auto)]

#[cfg(test)]
mod errors;
#[cfg(test)]
mod said;
#[cfg(test)]
mod words;
