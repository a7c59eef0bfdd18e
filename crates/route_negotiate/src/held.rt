//! What nets fight for, a wire or a pin: what it costs, in 64ths of a wire that no net takes.

use crate::costs::{PIN, WIRE};

/// No wire or pin costs more.
const COST_MOST: u64 = 1 << 24;
/// What is kept of fights is no more.
const KEPT_MOST: u16 = 1 << 14;

/// What a wire or a pin costs, how many nets take it, and what is kept of fights for it.
#[derive(Clone, Copy)]
pub(crate) struct Held {
    pub cost: u32,
    pub taken: u16,
    kept: u16,
}

impl Held {
    /// A wire that no net takes.
    pub(crate) const WIRE: Held = Held {
        cost: WIRE as u32,
        taken: 0,
        kept: 0,
    };
    /// A pin that no net takes.
    pub(crate) const PIN: Held = Held {
        cost: PIN as u32,
        taken: 0,
        kept: 0,
    };
    /// What no net can pay for.
    pub(crate) const NONE: Held = Held {
        cost: u32::MAX,
        taken: 0,
        kept: 0,
    };

    /// The same, taken by so many nets: it costs `base` where no net takes it or has fought for it,
    /// and more by the factor for each net too many.
    pub(crate) fn taken_by(self, taken: u16, base: u64, present: u64) -> Held {
        let old = base.wrapping_mul((self.kept as u64).wrapping_add(1));
        let full = old.wrapping_mul((taken as u64).wrapping_mul(present).wrapping_add(WIRE)) / WIRE;
        Held {
            cost: full.min(COST_MOST) as u32,
            taken,
            ..self
        }
    }

    /// The same, taken by one more net.
    pub(crate) fn given_to_one(self, base: u64, present: u64) -> Held {
        self.taken_by(self.taken.saturating_add(1), base, present)
    }

    /// The same, taken by one net less.
    pub(crate) fn given_back(self, base: u64, present: u64) -> Held {
        self.taken_by(self.taken.saturating_sub(1), base, present)
    }

    /// The same behind a round: what is kept of fights grows by each net too many.
    pub(crate) fn after_round(self, base: u64, present: u64) -> Held {
        let kept = self.kept.saturating_add(self.excess()).min(KEPT_MOST);
        Held { kept, ..self }.taken_by(self.taken, base, present)
    }

    /// How many nets too many take it.
    pub(crate) fn excess(self) -> u16 {
        self.taken.saturating_sub(1)
    }
}
