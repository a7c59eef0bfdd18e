//! How much conflicts have met each learned clause, the late ones more: its activity.

ghost use Rattle.std.specs.Prelude.{◌≡◌, ◌^◌, ◌≤◌, vec_len};

use std::alloc::{AllocError, Global};

/// The greatest activity.
const MOST: u64 = 1 << 62;

/// What a bump adds to an activity at first.
const FIRST_STEP: u64 = 1024;

/// What each activity is divided by where one would be too great.
const SCALE: u64 = 1 << 40;

/// Each conflict makes the step of a bump greater by one in so many.
const DECAY: u64 = 1000;

/// A learned clause, by its id.
#[derive(Clone, Copy, Debug)]
struct Valued {
    id: i64,
    activity: u64,
}

/// The learned clauses that live, each with its activity. To bump one adds a step to it, which
/// grows from conflict to conflict, so that clauses which conflicts met lately are most active.
///
/// Only [`ClauseActivity::insert`] takes memory. No promise speaks of what is more active: it says
/// which clauses are better deleted, and each that is no reason may be.
#[derive(Drop)]
pub(crate) struct ClauseActivity {
    valued: Vec<Valued>,
    step: u64,
    ghost small: { step ≤ 2 ^ 62 },
}

impl ClauseActivity {
    /// No clause is learned yet.
    pub(crate) fn new(alloc: Global) -> ClauseActivity {
        ClauseActivity {
            valued: Vec::new(alloc),
            step: FIRST_STEP,
        }
    }

    /// Adds a clause with the activity of one bump. Its id is above all others; else nothing
    /// changes.
    ///
    /// # Errors
    /// Where memory is short; nothing changes.
    pub(crate) fn insert(&mut self, id: u32) -> Result<(), AllocError> {
        let id = i64::from(id);
        if let Some(last) = self.valued.last() {
            if id <= last.id {
                return Ok(());
            }
        }
        let activity = self.step;
        self.valued.push(Valued { id, activity })?;
        Ok(())
    }

    /// How many of the clauses have a lower id than this one. It takes a search only for those that
    /// the last deletion has left: those behind it have ids one behind the other.
    fn place(&self, id: i64) -> usize {
        let (Some(first), Some(last)) = (self.valued.first(), self.valued.last()) else {
            return 0;
        };
        if id <= first.id {
            return 0;
        }
        let behind = last.id.wrapping_sub(id).cast_unsigned();
        if behind < self.valued.len() as u64 {
            let at = self.valued.len() - 1 - behind as usize;
            if self.valued[at].id == id {
                return at;
            }
        }
        self.valued.partition_point(|valued| valued.id < id)
    }

    /// The activity of the clause with this id, and 0 where it is no learned clause.
    pub(crate) fn of(&self, id: u32) -> u64 {
        let id = i64::from(id);
        match self.valued.get(self.place(id)) {
            Some(valued) if valued.id == id => valued.activity,
            _ => 0,
        }
    }

    /// Divides each activity, and the step with them.
    fn rescale(&mut self)
        ensures { vec_len self.new.valued ≡ vec_len self.old.valued }
    {
        for valued in self.valued.iter_mut() {
            valued.activity /= SCALE;
        }
        self.step = self.step / SCALE + 1;
    }

    /// Bumps the clause with this id, if it is a learned one.
    fn bump(&mut self, id: i64) {
        let place = self.place(id);
        let Some(valued) = self.valued.get(place) else {
            return;
        };
        if valued.id != id {
            return;
        }
        let mut activity = valued.activity;
        if activity > MOST - self.step {
            self.rescale();
            activity /= SCALE;
        }
        self.valued[place].activity = activity + self.step;
    }

    /// Bumps the clauses of an analysis, which are those with these ids that were learned. The next
    /// conflict bumps by more.
    pub(crate) fn bump_all(&mut self, ids: &[i64]) {
        for id in ids {
            self.bump(*id);
        }
        let step = self.step + (self.step / DECAY).max(1);
        self.step = step.min(MOST);
    }

    /// Takes out the clauses with these ids, which rise.
    pub(crate) fn delete(&mut self, ids: &[i64]) {
        self.valued
            .retain(|valued| ids.binary_search(&valued.id).is_err());
    }
}
