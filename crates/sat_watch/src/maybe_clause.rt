//! A clause or none, in one word.

ghost use Rattle.std.specs.Prelude.{◌≡◌, ◌^◌, ◌<◌, None, Some, IfSome};

use sat_arena::ClauseRef;
use std::marker::Model;

const NO_CLAUSE: u64 = 18446744073709551615;

/// A clause or none, in one word: the reason of an entry of the trail, the first one of a chain, or
/// the one that a walk stands behind. Contracts see the reference.
#[derive(Clone, Copy, Debug)]
pub struct MaybeClause {
    word: u64,
}

impl Model for MaybeClause {
    ghost use Rattle.std.specs.Prelude.{Option};
    ghost use Rattle.sat_arena.specs.declared.clause_ref.ClauseRef.{ClauseRef};
    ghost use Rattle.sat_watch.specs.MaybeClause.{clause_by, word_by};

    ghost Value = { Option ClauseRef };

    ghost view = { λ l. clause_by l.word };

    ghost inverse = { λ clause. record { word = word_by clause } };
}

impl MaybeClause {
    /// No clause.
    pub(crate) fn none() -> MaybeClause
        ensures { result ≡ None }
    {
        MaybeClause { word: NO_CLAUSE }
    }

    /// This clause.
    pub(crate) fn to(clause: ClauseRef) -> MaybeClause
        requires near { clause.word < 2 ^ 63 }
        ensures { result ≡ Some clause }
    {
        MaybeClause { word: clause.word }
    }

    /// This clause, or none.
    pub(crate) fn of(clause: Option<ClauseRef>) -> MaybeClause
        requires near { IfSome clause (λ c. c.word < 2 ^ 63) }
        ensures { result ≡ clause }
    {
        let Some(c) = clause else {
            return MaybeClause::none();
        };
        MaybeClause::to(c)
    }

    /// The clause, or none.
    pub fn clause(self) -> Option<ClauseRef>
        ensures { result ≡ self }
    {
        if self.word == NO_CLAUSE {
            return None;
        }
        Some(ClauseRef { word: self.word })
    }
}
