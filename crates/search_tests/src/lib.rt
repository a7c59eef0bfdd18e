//! Tests of what the search for values is made of, and of a search that takes what others have
//! learned: over public calls alone, so that no crate under test is proved a second time. What
//! searches answer and log, and what checkers and texts come to, are rows of `rows`, but for the
//! checkers that have a whole log.
#![tactic(auto)]

#[cfg(test)]
mod judges;
#[cfg(test)]
mod order;
#[cfg(test)]
mod random_watches;
#[cfg(test)]
mod shared;
#[cfg(test)]
mod watches;
