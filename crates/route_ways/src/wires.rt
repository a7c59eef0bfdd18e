//! How searches choose by what their clauses say of wires.

use sat_core::{DecidedValue, FirstOrder, Habits};

/// How many wires clauses may give a net in a cell. What a search finds soonest depends on it, and
/// no promise.
#[derive(Clone, Copy, Debug, PartialEq, Eq)]
pub enum Wires {
    /// One, so that a wire that is decided gives a whole tree its track.
    One,
    /// Several, most of which no net needs.
    Several,
}

impl Wires {
    /// The habits of a search through such clauses.
    pub(crate) fn habits(self) -> Habits {
        match self {
            Wires::One => Habits {
                first: FirstOrder::MostClauses,
                ..Habits::usual()
            },
            Wires::Several => Habits {
                first: FirstOrder::Falling,
                value: DecidedValue::Last,
                ..Habits::usual()
            },
        }
    }

    /// Those of a search over representatives alone, which has fewer variables to decide and to
    /// bump.
    pub(crate) fn habits_over_representatives(self) -> Habits {
        Habits {
            bump_parts: 9,
            many_literals: 20,
            ..self.habits()
        }
    }
}
