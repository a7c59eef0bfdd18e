//! When rounds lead nowhere.

ghost use Rattle.std.specs.Prelude.{◌≡◌, Some, true};
ghost use Rattle.route_negotiate.specs.declared.progress.End.TheVariants.{Stopped};

use crate::costs::FAR;

/// So many rounds without a gain are too many, where many nets share something.
const STALL_MOST: u32 = 12;
/// After so many rounds most nets that can be routed share nothing.
const ROUNDS_SOON: u32 = 16;

/// How the rounds end that begin with no net routed.
#[derive(Clone, Copy)]
pub(crate) enum End {
    /// No two nets share anything.
    Routed,
    /// They bring no gain any more, but few nets shared something once: with another order of start
    /// tracks none may.
    Stalled,
    /// They bring no gain any more, or most nets share something for long, and many did in each.
    Hopeless,
    /// There were as many as may be.
    Spent,
    /// The caller's patience is over.
    Stopped,
}

impl End {
    /// Whether the caller's patience has ended the rounds.
    pub(crate) fn is_stopped(self) -> bool
        ensures { result ≡ true → self ≡ Stopped }
    {
        matches!(self, End::Stopped)
    }
}

/// How far rounds have come: how many there were, the least excess of nets so far, and for how many
/// rounds it was not bettered; and above which excess many nets share something, and most.
#[derive(Clone, Copy)]
pub(crate) struct Progress {
    rounds: u32,
    least: u64,
    stall: u32,
    many: u64,
    most: u64,
}

impl Progress {
    /// No round was made yet, of so many nets.
    pub(crate) fn new(nets: usize) -> Progress {
        let many = nets as u64 / 20 + 4;
        Progress {
            rounds: 0,
            least: FAR,
            stall: 0,
            many,
            most: (nets as u64 / 2).saturating_add(many),
        }
    }

    /// The same after a round with this excess.
    pub(crate) fn after(self, excess: u64) -> Progress {
        let rounds = self.rounds.saturating_add(1);
        if excess.saturating_mul(100) < self.least.saturating_mul(97) {
            return Progress {
                rounds,
                least: excess,
                stall: 0,
                ..self
            };
        }
        Progress {
            rounds,
            stall: self.stall.saturating_add(1),
            ..self
        }
    }

    /// Whether the rounds end behind one with this excess, and how.
    pub(crate) fn end(self, excess: u64) -> Option<End>
        ensures { ¬ (result ≡ Some Stopped) }
    {
        if excess == 0 {
            return Some(End::Routed);
        }
        if self.rounds >= ROUNDS_SOON && self.least > self.most {
            return Some(End::Hopeless);
        }
        if self.stall <= STALL_MOST || excess <= self.many {
            return None;
        }
        if self.least > self.many {
            return Some(End::Hopeless);
        }
        Some(End::Stalled)
    }
}
