//! Decisions that are made again behind a restart.

ghost use Rattle.std.specs.Prelude.{◌≡◌, ◌<◌, ◌≤◌, IfSome};
ghost use Rattle.sat_clause.specs.Literal.{IsWithin};
ghost use Rattle.sat_watch.specs.Trail.{IsOpen};

use crate::restarts::Restarts;
use sat_clause::Lit;
use sat_watch::{TrailEntry, Watches};
use std::alloc::{AllocError, Global};
use std::marker::Model;

/// The literals that are decided again before others are, in their order, and which comes next.
///
/// Where what was decided is decided again behind a restart, the search goes on from where it was.
/// No promise speaks of which literal is decided. Nothing but [`Again::new`] takes memory.
#[derive(Drop)]
pub(crate) struct Again {
    lits: Vec<Lit>,
    next: usize,
}

impl Model for Again {
    ghost use Rattle.std.specs.Prelude.{ℕ, ◌-◌, vec_len};

    ghost Value = { ℕ };

    // how many are left
    ghost view = { λ a. vec_len a.lits - a.next };
}

/// A literal, if it is of the variables 1 to `vars` and open.
fn if_open(watches: &Watches, l: Lit, vars: u32) -> Option<Lit>
    requires { vars ≡ watches.now.vars }
    ensures within { IfSome result (IsWithin watches.now.vars) }
    ensures open { IfSome result (IsOpen watches.now.trail) }
{
    let v = l.variable();
    if v < 1 {
        return None;
    }
    if v > vars {
        return None;
    }
    let None = watches.value(l) else {
        return None;
    };
    Some(l)
}

impl Again {
    /// Room for the literals of so many variables, of which none is decided again.
    pub(crate) fn new(alloc: Global, vars: u32) -> Result<Again, AllocError> {
        Ok(Again {
            lits: Vec::with_capacity(alloc, vars as usize)?,
            next: 0,
        })
    }

    /// Decides nothing again.
    pub(crate) fn clear(&mut self) {
        self.lits.clear();
        self.next = 0;
    }

    /// Takes the literal of an entry that was decided behind the others, if there is room.
    fn keep_entry(&mut self, entry: TrailEntry) {
        if entry.reason.clause().is_some() {
            return;
        }
        if self.lits.len() < self.lits.capacity() {
            self.lits.push_reserved(entry.lit);
        }
    }

    /// Decides again what is decided. Behind a restart that begins anew it decides nothing again.
    pub(crate) fn keep(&mut self, restarts: &Restarts, watches: &Watches) {
        self.clear();
        if restarts.begins_anew(watches) {
            return;
        }
        for entry in watches.trail() {
            self.keep_entry(*entry);
        }
    }

    /// Takes the first literal that is open, and all before it. They are of the variables 1 to
    /// `vars`.
    pub(crate) fn take_open(&mut self, watches: &Watches, vars: u32) -> Option<Lit>
        requires { vars ≡ watches.now.vars }
        ensures within { IfSome result (IsWithin watches.now.vars) }
        ensures open { IfSome result (IsOpen watches.now.trail) }
        ensures fewer { IfSome result (λ _. self.new < self.old) }
        ensures no_more { self.new ≤ self.old }
    {
        'again: while self.next < self.lits.len() {
            let l = self.lits[self.next];
            self.next += 1;
            if let Some(open) = if_open(watches, l, vars) {
                return Some(open);
            }
        }
        None
    }
}
