//! Which two negations stand in a live clause.

ghost use Rattle.std.specs.Prelude.{◌≡◌, ◌∷◌, [], Bool, All, IfOk, IfSome, IsTrue, OnOk, false, is_some, length};
ghost use Rattle.sat_clause.specs.Judge.{inputs};
ghost use Rattle.sat_merge.specs.Known.{AreNoted, IsFree, IsNoted, KnowsMore, is_asked, is_known, key_of};

use indexmap::IndexMap;
use sat_clause::{Formula, Lit};
use std::alloc::{AllocError, Global};
use std::marker::Model;

/// Pairs of negations of wanted variables that stand in some clause, and negations that stand there
/// alone, each with an input.
#[derive(Drop)]
pub(crate) struct KnownPairs {
    ids: IndexMap<u64, u32>,
    wanted: Vec<bool>,
}

impl Model for KnownPairs {
    ghost use Rattle.sat_merge.specs.Known.{KnownState};

    ghost Value = { KnownState };

    ghost view = { λ k. record { ids = k.ids.entries; wanted = k.wanted.items } };
}

/// The number of the variables of two literals.
fn key_of(l: Lit, m: Lit) -> u64
    ensures { result ≡ key_of l m }
{
    let (one, other) = (l.variable(), m.variable());
    one.min(other) as u64 * 4294967296 + one.max(other) as u64
}

impl KnownPairs {
    /// Those of no clause, for these variables.
    pub(crate) fn new(alloc: Global, wanted: Vec<bool>) -> KnownPairs {
        KnownPairs {
            ids: IndexMap::new(alloc),
            wanted,
        }
    }

    /// Whether the literal is the negation of a wanted variable.
    fn asks(&self, l: Lit) -> bool
        ensures { result ≡ is_asked self.now.wanted l }
    {
        let at = l.variable() as usize;
        !l.is_positive() && at < self.wanted.len() && self.wanted[at]
    }

    /// The input at hand for two literals.
    pub(crate) fn get(&self, l: Lit, m: Lit) -> Option<u32>
        ensures { is_some result ≡ is_known self.now (key_of l m) }
    {
        let key = key_of(l, m);
        let Some(input) = self.ids.get(&key) else {
            return None;
        };
        Some(*input)
    }

    /// The input at hand for the first and the last literal of a clause.
    pub(crate) fn twin(&self, clause: &[Lit]) -> Option<u32> {
        let (Some(first), Some(last)) = (clause.first(), clause.last()) else {
            return None;
        };
        self.get(*first, *last)
    }

    /// Two literals are known, with an input if they were not before.
    fn put(&mut self, l: Lit, m: Lit, input: u32) -> Result<(), AllocError>
        ensures more { OnOk result (KnowsMore self.old self.new) }
        ensures known { OnOk result (IsTrue (is_known self.new (key_of l m))) }
    {
        if self.get(l, m).is_some() {
            return Ok(());
        }
        let key = key_of(l, m);
        let Ok(_) = self.ids.insert(key, input) else {
            return Err(AllocError);
        };
        Ok(())
    }

    /// Notes the first two literals of a clause, if they are wanted. False for the empty clause.
    pub(crate) fn note(&mut self, clause: &[Lit], input: u32) -> Result<bool, AllocError>
        ensures more { OnOk result (KnowsMore self.old self.new) }
        ensures noted { IfOk result (λ is. IsTrue is → IsNoted self.new clause.now) }
    {
        if clause.is_empty() {
            return Ok(false);
        }
        let first = clause[0];
        let second = if clause.len() > 1 { clause[1] } else { first };
        if self.asks(first) && self.asks(second) {
            self.put(first, second, input)?;
        }
        Ok(true)
    }

    /// Whether the literal is known with one of these.
    fn knows_with(&self, l: Lit, clause: &[Lit]) -> bool
        ensures { result ≡ false → All (λ m. is_known self.now (key_of l m) ≡ false) clause.now }
    {
        for m in clause {
            if self.get(l, *m).is_some() {
                return true;
            }
        }
        false
    }

    /// Whether all literals of a clause are wanted, and no two of them are known.
    pub(crate) fn is_free(&self, clause: &[Lit]) -> bool
        ensures { IsTrue result → IsFree self.now clause.now }
    {
        for l in clause {
            if !self.asks(*l) {
                return false;
            }
            if self.knows_with(*l, clause) {
                return false;
            }
        }
        true
    }

    /// Those of the clauses of a formula. `None` says that one is empty.
    pub(crate) fn of(
        alloc: Global,
        formula: &Formula,
        wanted: Vec<bool>,
    ) -> Result<Option<KnownPairs>, AllocError>
        ensures { IfOk result (λ found. IfSome found (λ k. (keeps : Lit → Bool)
            → AreNoted keeps k (inputs formula.now.cnf))) }
    {
        let mut known = KnownPairs::new(alloc, wanted);
        for at in 0..formula.len() {
            if !known.note(formula.clause(at), at + 1)? {
                return Ok(None);
            }
        }
        Ok(Some(known))
    }
}
