//! How a search chooses where its promises leave it free.

/// The order in which variables are decided while no conflict has met them.
#[derive(Clone, Copy, Debug, PartialEq, Eq)]
pub enum FirstOrder {
    /// By their numbers, the least first.
    Rising,
    /// By their numbers, the greatest first.
    Falling,
    /// By how many clauses they stand in, those of the most first.
    MostClauses,
    /// By the activities that a seed draws, the greatest first: that of variable `v` is the
    /// remainder of `s / 65536` by 1024, where `s` comes of the seed by `v` times putting the
    /// remainder of `1103515245 s + 12345` by 2^31 in its place. With the seed 0 each is 0.
    Drawn {
        /// The seed.
        seed: u32,
    },
}

/// As what a variable is decided.
#[derive(Clone, Copy, Debug, PartialEq, Eq)]
pub enum DecidedValue {
    /// As true.
    True,
    /// As what it was when it last had a value, and as false where it has had none.
    Last,
}

/// What a search does where any choice is right. No promise speaks of it: which of several answers
/// comes, and how soon, may follow from it.
#[derive(Clone, Copy, Debug, PartialEq, Eq)]
pub struct Habits {
    /// Which variables are decided first.
    pub first: FirstOrder,
    /// As what they are decided.
    pub value: DecidedValue,
    /// Each conflict makes what a bump adds to an activity greater by one part in so many. 0 stands
    /// for 1.
    pub bump_parts: u32,
    /// Where the decisions have brought so many literals each, or more, each restart begins anew.
    pub many_literals: u32,
}

impl Habits {
    /// Variables are decided as true, those of least numbers first. A bump grows by a nineteenth,
    /// and 100 literals a decision are many.
    pub fn usual() -> Habits {
        Habits {
            first: FirstOrder::Rising,
            value: DecidedValue::True,
            bump_parts: 19,
            many_literals: 100,
        }
    }
}
