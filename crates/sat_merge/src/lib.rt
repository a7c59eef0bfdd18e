//! A search for values that satisfy a formula, in which variables that follow from another one by
//! clauses of two literals are searched for as that one.
#![tactic(auto)]

mod expanding;
mod hints;
mod known;
mod lemmas;
mod merged;
mod moving;
mod needed;
mod places;
mod representatives;
mod rewriting;
mod solving;

pub use solving::solve_merged;
