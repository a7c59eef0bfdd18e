//! Where the clauses of a search through merged clauses stand behind lemmas.

ghost use Rattle.std.specs.Prelude.{◌≡◌, ◌+◌, ◌<◌, ◌≤◌, ◌^◌, IfOk, IfSome, length, replicate, slice_index_or, slice_set};
ghost use Rattle.sat_merge.specs.Moved.{HasPlace, moved_id, now_of};
ghost use Rattle.sat_merge.specs.Placing.{has_lemma, placed};

use std::alloc::{AllocError, Global};
use std::marker::Model;

/// The ids of merged clauses in the log over the formula. An input has that of the clause that it
/// was merged to, if this one stands there: its own where it was kept, or that of a lemma. What was
/// learned stands behind the lemmas, so many ids further on.
#[derive(Drop)]
pub(crate) struct Places {
    inputs: u32,
    lemmas: u32,
    ids: Vec<u32>,
}

impl Model for Places {
    ghost use Rattle.std.specs.Prelude.{◌≡◌, ◌+◌, length};
    ghost use Rattle.sat_merge.specs.Moved.{PlaceState};

    ghost Value = { PlaceState };

    ghost view = { λ p. record { inputs = p.inputs; lemmas = p.lemmas; ids = p.ids.items } };

    ghost invariant = { λ p. length p.ids.items ≡ p.inputs + 1 };
}

impl Places {
    /// Those of so many inputs, none of which has an id yet, before lemmas.
    pub(crate) fn new(alloc: Global, inputs: u32) -> Result<Places, AllocError>
        ensures { IfOk result (λ p.
            p ≡ record { inputs = inputs; lemmas = 0; ids = replicate (inputs + 1) 0 }) }
    {
        Ok(Places {
            inputs,
            lemmas: 0,
            ids: vec![in alloc; 0; inputs as usize + 1]?,
        })
    }

    /// The number of inputs.
    pub(crate) fn inputs(&self) -> u32
        ensures { result ≡ self.now.inputs }
    {
        self.inputs
    }

    /// The number of lemmas.
    pub(crate) fn lemmas(&self) -> u32
        ensures { result ≡ self.now.lemmas }
    {
        self.lemmas
    }

    /// The id that an input has now, 0 where it has none.
    pub(crate) fn of(&self, input: u32) -> u32
        ensures { result ≡ slice_index_or self.now.ids input 0 }
    {
        let at = input as usize;
        if at < self.ids.len() {
            return self.ids[at];
        }
        0
    }

    /// The id that a merged clause has now, 0 where it has none.
    fn now_of(&self, id: u32) -> u64
        ensures now { result ≡ now_of self.now id }
        ensures small { result < 2 ^ 34 }
    {
        if self.inputs < id {
            return id as u64 + self.lemmas as u64;
        }
        self.of(id) as u64
    }

    /// The id that the merged clause of a hint has now, if it has one.
    pub(crate) fn moved_id(&self, hint: i64) -> Option<i64>
        ensures moved { IfSome result (λ m. m ≡ moved_id self.now hint) }
        ensures place { IfSome result (λ m. HasPlace self.now hint) }
    {
        if hint < 1 || hint > 4294967295 {
            return None;
        }
        let now = self.now_of(hint as u32);
        if now == 0 {
            return None;
        }
        Some(now as i64)
    }

    /// The id behind the lemmas of a clause that stood behind the inputs, if there is one.
    pub(crate) fn behind(&self, id: u32) -> Option<u32>
        ensures { IfSome result (λ now. now ≡ id + self.now.lemmas) }
    {
        let now = id as u64 + self.lemmas as u64;
        if now > 4294967295 {
            return None;
        }
        Some(now as u32)
    }

    /// The id of one more lemma, if there is one.
    pub(crate) fn next_id(&self) -> Option<u32>
        ensures { IfSome result (λ id. id ≡ self.now.inputs + self.now.lemmas + 1) }
    {
        let next = self.inputs as u64 + self.lemmas as u64 + 1;
        if next > 4294967295 {
            return None;
        }
        Some(next as u32)
    }

    /// There is a lemma more, and an input has its id.
    pub(crate) fn put_lemma(&mut self, input: u32, id: u32)
        requires input { input ≤ self.old.inputs }
        requires few { self.old.inputs + self.old.lemmas < 4294967295 }
        ensures put { self.new ≡ has_lemma self.old input id }
        ensures within { input < length self.old.ids }
    {
        self.lemmas += 1;
        self.ids[input as usize] = id;
    }

    /// Gives an input an id.
    pub(crate) fn put(&mut self, input: u32, id: u32)
        requires { input ≤ self.old.inputs }
        ensures put { self.new ≡ placed self.old input id }
        ensures within { input < length self.old.ids }
    {
        self.ids[input as usize] = id;
    }
}
