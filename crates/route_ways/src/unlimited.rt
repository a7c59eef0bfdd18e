//! The patience of a search without a limit.

use patience::Patience;

/// Always says that the search may go on, and counts how often it is asked.
#[derive(Clone, Copy)]
pub(crate) struct Unlimited {
    pub(crate) asked: u64,
}

impl Patience for Unlimited {
    ghost is_over = { λ _. ⊥ };

    fn goes_on(&mut self) -> bool {
        self.asked = self.asked.saturating_add(1);
        true
    }
}
