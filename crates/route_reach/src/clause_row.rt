//! A clause that is being made.
ghost use Rattle.std.specs.Prelude.{◌≡◌, ◌<◌, [], ◌∷◌, ◌++◌, length};

use crate::rising::MOST_NEAR;
use fpga_graph::MOST_TRACKS;
use sat_clause::Lit;
use std::marker::Model;

/// The greatest number of literals of a clause: one for each track of each slot beside a pin.
pub(crate) const MOST_LITS: usize = MOST_NEAR * MOST_TRACKS;

/// The literals of a clause, in memory that is used again for the next one. Contracts see the list
/// of them.
#[derive(Drop)]
pub(crate) struct ClauseRow {
    lits: [Lit; MOST_LITS],
    len: usize,
}

impl Model for ClauseRow {
    ghost use Rattle.std.specs.Prelude.{◌≤◌, take};
    ghost use Rattle.sat_clause.specs.Literal.{Clause};
    ghost use Rattle.route_reach.specs.declared.clause_row.TheConstants.{MOST_LITS};

    ghost Value = { Clause };

    ghost view = { λ r. take r.len r.lits };

    ghost invariant = { λ r. r.len ≤ MOST_LITS };
}

impl ClauseRow {
    /// Without literals. Takes no memory.
    pub(crate) fn new() -> ClauseRow
        ensures { result ≡ [] }
    {
        ClauseRow {
            lits: [Lit { code: 1 }; MOST_LITS],
            len: 0,
        }
    }

    /// Drops the literals.
    pub(crate) fn clear(&mut self)
        ensures { self.new ≡ [] }
    {
        self.len = 0;
    }

    /// Puts a literal at the end.
    pub(crate) fn push(&mut self, lit: Lit)
        requires { length self.old < MOST_LITS }
        ensures { self.new ≡ self.old ++ lit ∷ [] }
    {
        self.lits[self.len] = lit;
        self.len += 1;
    }

    /// The literals.
    pub(crate) fn as_slice(&self) -> &[Lit]
        ensures { result.now ≡ self.now }
    {
        &self.lits[..self.len]
    }
}
