//! Laws of lists over any element, and of where comparisons tie, which the proofs of the other
//! crates stand on: there is no code.
#![tactic(auto)]
