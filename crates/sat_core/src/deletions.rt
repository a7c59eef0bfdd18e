//! When a log may have its next deletion.

ghost use Rattle.std.specs.Prelude.{◌≡◌, ◌+◌, ◌*◌, ◌≤◌, [], suc};
ghost use Rattle.sat_core.specs.Deletions.{AreDeletions, may_come as may_come_of};

use std::marker::Model;

/// The k-th deletion waits for so many added clauses times k.
const UNIT: u64 = 1000;

/// The deletions of a log: how many there are, and how many clauses were added before the last one.
#[derive(Drop)]
pub(crate) struct Deletions {
    count: u32,
    added: u32,
}

impl Model for Deletions {
    ghost use Rattle.std.specs.Prelude.{◌≤◌};
    ghost use Rattle.sat_core.specs.Deletions.{DeletionState};

    ghost Value = { DeletionState };

    ghost view = { λ d. record { count = d.count; added = d.added } };

    ghost invariant = { λ d. d.count ≤ d.added };
}

impl Deletions {
    /// Those of a log without steps.
    pub(crate) fn new() -> Deletions
        ensures { AreDeletions [] result }
    {
        Deletions { count: 0, added: 0 }
    }

    /// How many there are.
    pub(crate) fn count(&self) -> u32
        ensures { result ≡ self.now.count }
    {
        self.count
    }

    /// Whether the next one may come where so many clauses are added.
    pub(crate) fn may_come(&self, added: u32) -> bool
        ensures { result ≡ may_come_of self.now added }
    {
        u64::from(self.added) + UNIT * (u64::from(self.count) + 1) <= u64::from(added)
    }

    /// The next one has come, where so many clauses are added.
    pub(crate) fn push(&mut self, added: u32)
        requires { self.old.added + 1000 * suc self.old.count ≤ added }
        ensures { self.new ≡ record { count = suc self.old.count; added = added } }
    {
        self.count += 1;
        self.added = added;
    }
}
