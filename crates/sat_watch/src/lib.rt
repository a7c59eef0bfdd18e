//! Watch chains over an arena of clauses: which literals are true, and what the clauses make true.
//!
//! Of each clause of two or more literals the first two are *watched*, and the clause stands in the
//! *chain* of each of them: a list that a head by literal begins, and that goes on from clause to
//! clause by the two links that the arena keeps beside a clause's literals, link 0 for the first
//! literal and link 1 for the second. As long as no watched literal is false, a clause can neither
//! be false nor make a literal true. So where a literal becomes true, only the chain of its
//! negation is walked: each clause in it moves its watch to a literal that is not false, and so to
//! that one's chain, or else its other watched literal is true, or is made true, or the clause is
//! false. A way back changes neither chains nor watches.
//!
//! What a chain comes to at its end are mostly clauses of two literals, which never leave it: its
//! *tail*. [`Watches::make_tails`] writes the other literals of all tails side by side, so that a
//! walk goes over a tail without a look into the clauses. The chain still leads over them.
//!
//! A clause of one literal stands in no chain; it may be attached where that literal is true or
//! becomes true at level 0. Clauses that are no reasons can be deleted at level 0: the others
//! close up in the arena, and all chains are made anew.
#![tactic(auto)]

mod chains;
mod choice;
mod entry;
mod links;
mod maybe_clause;
mod place;
mod sight;
mod tails;
mod trail;
mod visit;
mod watches;

pub use entry::TrailEntry;
pub use maybe_clause::MaybeClause;
pub use watches::Watches;
