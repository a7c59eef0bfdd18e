//! Clauses in one block of raw memory, each found by its reference.
//!
//! Five functions of the module `places` use the pointer to the block, and two make a row without
//! places, whose pointer is null; all else is safe code.
#![tactic(auto)]

mod arena;
mod block;
mod clause_ref;
mod compact;
mod layout;
mod moves;
mod places;

pub use arena::Arena;
pub use clause_ref::ClauseRef;
pub use moves::{Move, Moves};
