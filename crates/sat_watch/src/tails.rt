//! The tails of chains: clauses of two literals, each by its other literal, side by side.

ghost use Rattle.std.specs.Prelude.{◌≡◌, ◌+◌, ◌*◌, ◌-◌, ◌<◌, ◌≤◌, [], length, IfSome, OnOk};
ghost use Rattle.sat_clause.specs.Literal.{IsWithin};
ghost use Rattle.sat_clause.specs.declared.literal.Lit.{Lit};
ghost use Rattle.sat_watch.specs.Tails.{IsPart, with_tail};
ghost use Rattle.sat_watch.specs.TrailStore.{place_of};

use sat_arena::ClauseRef;
use sat_clause::{Lit, VARIABLE_LIMIT};
use std::alloc::{AllocError, Global};
use std::marker::Model;

/// Where a tail ends among the tails of all literals, and the word at which its first clause
/// stands.
#[derive(Clone, Copy)]
pub(crate) struct TailEnd {
    pub(crate) end: u32,
    pub(crate) first: u32,
}

/// The tails of the chains of all literals. What a chain comes to at its end are mostly clauses of
/// two literals, which stay where they are: here each of them is its other literal, so that a walk
/// reads them from one piece of memory.
#[derive(Drop)]
pub(crate) struct Tails {
    pub(crate) ends: Vec<TailEnd>,
    pub(crate) others: Vec<Lit>,
    pub(crate) words: Vec<u32>,
}

impl Model for Tails {
    ghost use Rattle.sat_watch.specs.Tails.{TailTable};

    ghost Value = { TailTable };

    ghost view = { λ t. record {
      ends = t.ends.items;
      others = t.others.items;
      words = t.words.items;
    } };
}

/// The literal of a place, if there is one: those of the variables stand behind the middle, and
/// those of their negations before it.
pub(crate) fn literal_at(vars: u32, place: usize) -> Option<Lit>
    requires few { vars ≤ VARIABLE_LIMIT }
    ensures within { IfSome result (IsWithin vars) }
    ensures only { IfSome result (λ l. (m : Lit) → IsWithin vars m → place_of vars m ≡ place
        → m ≡ l) }
{
    if place > vars as usize * 2 || place == vars as usize {
        return None;
    }
    Some(Lit {
        code: place as i32 - vars as i32,
    })
}

impl Tails {
    /// No tail.
    pub(crate) fn new(alloc: Global) -> Tails
        ensures { result ≡ record { ends = []; others = []; words = [] } }
    {
        Tails {
            ends: Vec::new(alloc),
            others: Vec::new(alloc),
            words: Vec::new(alloc),
        }
    }

    /// Drops all tails.
    pub(crate) fn clear(&mut self)
        ensures { self.new ≡ record { ends = []; others = []; words = [] } }
    {
        self.ends.clear();
        self.others.clear();
        self.words.clear();
    }

    /// How many tails there are behind the first place.
    pub(crate) fn count(&self) -> usize
        ensures { result ≡ length self.now.ends - 1 }
    {
        if self.ends.is_empty() {
            return 0;
        }
        self.ends.len() - 1
    }

    /// The tail with a number, where its first clause is this one: its literals, and the words of
    /// its clauses.
    pub(crate) fn from(&self, p: usize, clause: ClauseRef) -> Option<(&[Lit], &[u32])>
        requires { p ≤ VARIABLE_LIMIT * 2 }
        ensures { IfSome result
            (λ tail. IsPart self.now p clause.word tail.0.now tail.1.now) }
    {
        if p + 1 >= self.ends.len() {
            return None;
        }
        let tail = self.ends[p + 1];
        if u64::from(tail.first) != clause.word {
            return None;
        }
        let from = self.ends[p].end as usize;
        let to = tail.end as usize;
        if from >= to || self.others.len() < to || self.words.len() < to {
            return None;
        }
        Some((&self.others[from..to], &self.words[from..to]))
    }

    /// Puts a tail behind the others.
    ///
    /// # Errors
    /// Where memory is short, or all tails have 2^32 clauses and more.
    pub(crate) fn push(&mut self, others: &[Lit], words: &[u32]) -> Result<(), AllocError>
        ensures { OnOk result (self.new ≡ with_tail others.now words.now self.old) }
    {
        let end = self.others.len() + others.len();
        if end > u32::MAX as usize {
            return Err(AllocError);
        }
        let first = if words.is_empty() { 0 } else { words[0] };
        self.others.extend_from_slice(others)?;
        self.words.extend_from_slice(words)?;
        self.ends.push(TailEnd {
            end: end as u32,
            first,
        })?;
        Ok(())
    }

    /// Puts an empty tail behind the others.
    ///
    /// # Errors
    /// Where memory is short, or all tails have 2^32 clauses and more.
    pub(crate) fn push_empty(&mut self) -> Result<(), AllocError>
        ensures { OnOk result (self.new ≡ with_tail [] [] self.old) }
    {
        let end = self.others.len();
        if end > u32::MAX as usize {
            return Err(AllocError);
        }
        self.ends.push(TailEnd {
            end: end as u32,
            first: 0,
        })?;
        Ok(())
    }
}
