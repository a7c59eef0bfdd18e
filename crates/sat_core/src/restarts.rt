//! When a search goes back to level 0.

ghost use Rattle.std.specs.Prelude.{◌≡◌, ◌+◌, ◌^◌, ◌<◌, ◌≤◌, ◌↔◌, IsTrue, false, true};
ghost use Rattle.sat_core.specs.Restarts.{IsNextRestart, IsWait};

use sat_order::Luby;
use sat_watch::Watches;
use std::marker::Model;

/// A term of Luby's sequence stands for so many conflicts.
const UNIT: u64 = 64;

/// One in so many restarts begins anew.
const ANEW: u32 = 4;

/// The restarts of a search: the k-th comes where so many conflicts more as 64 times the k-th term
/// of Luby's sequence are behind the one before.
#[derive(Drop)]
pub(crate) struct Restarts {
    terms: Luby,
    next: u64,
    // how many restarts came since one began anew
    since: u32,
    // so many literals a decision are many
    many: u32,
}

impl Model for Restarts {
    ghost use Rattle.std.specs.Prelude.{◌≤◌};
    ghost use Rattle.sat_core.specs.Restarts.{RestartState};

    ghost Value = { RestartState };

    ghost view = { λ r. record { given = r.terms; next = r.next } };

    ghost invariant = { λ r. r.terms ≤ r.next };
}

/// The conflicts that the next term of the sequence stands for.
fn next_wait(terms: &mut Luby) -> u64
    requires { terms.old < 2 ^ 32 }
    ensures given { terms.new ≡ terms.old + 1 }
    ensures wait { IsWait terms.old result }
    ensures some { 64 ≤ result }
    ensures few { result ≤ 2 ^ 38 }
{
    let term = terms.next();
    UNIT * term
}

impl Restarts {
    /// No conflict has come, nor a restart.
    pub(crate) fn new(many: u32) -> Restarts
        ensures { IsNextRestart 0 0 result }
    {
        let mut terms = Luby::new();
        let next = next_wait(&mut terms);
        Restarts {
            terms,
            next,
            since: 0,
            many,
        }
    }

    /// Whether a restart comes after so many conflicts.
    pub(crate) fn comes_after(&self, conflicts: u64) -> bool
        ensures { IsTrue result ↔ (self.now.next ≤ conflicts) }
    {
        self.next <= conflicts
    }

    /// Whether a restart is due after so many conflicts. Then the next one is looked ahead to.
    pub(crate) fn is_due(&mut self, conflicts: u32) -> bool
        ensures early { result ≡ false → conflicts < self.old.next }
        ensures same { result ≡ false → self.new ≡ self.old }
        ensures due { result ≡ true → self.old.next ≤ conflicts }
        ensures next { result ≡ true → IsNextRestart conflicts self.old.given self.new }
    {
        let behind = u64::from(conflicts);
        if behind < self.next {
            return false;
        }
        let wait = next_wait(&mut self.terms);
        self.next = behind + wait;
        self.since = self.since.wrapping_add(1) % ANEW;
        true
    }

    /// Whether the restart that came last begins anew, so that nothing is decided again: one in
    /// four does, and where each decision has brought many literals every one. Then few were made,
    /// and they decide most.
    pub(crate) fn begins_anew(&self, watches: &Watches) -> bool {
        let literals = watches.trail().len() as u64;
        let many = u64::from(watches.level()).saturating_mul(u64::from(self.many));
        self.since == 0 || literals >= many
    }
}
