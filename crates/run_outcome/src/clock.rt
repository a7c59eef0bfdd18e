//! The clock of a run.

use patience::Forever;
use route_sweep::Watch;

/// A clock, which is the patience of the searches of a run where the words set a limit of time, and
/// is told how they go.
pub trait Clock: Watch {
    /// Once so many seconds of the run have passed, the searches are to go on no more.
    fn set_limit(&mut self, seconds: u32);
}

// A clock that stands still.
impl Clock for Forever {
    fn set_limit(&mut self, _seconds: u32) {}
}

/// Tells a clock of the limit that the words set, if they set one.
pub fn set_limit<C: Clock>(clock: &mut C, seconds: Option<u32>) {
    if let Some(seconds) = seconds {
        clock.set_limit(seconds);
    }
}
