//! A caller that lets searches go on so often.
ghost use Rattle.std.specs.Prelude.{◌≡◌, Some};

use fpga_types::RouteText;
use patience::Patience;
use route_sweep::Watch;
use run_outcome::Clock;
use sat_clause::{Formula, Log};

/// A caller that says yes so many times, and then no; or yes each time.
#[derive(Clone, Copy)]
pub(crate) struct Questions {
    yes: Option<u64>,
}

impl Questions {
    /// The question with this number, counted from 1, is the first that is answered by no, if one
    /// is.
    pub(crate) fn until(ends: Option<u64>) -> Questions {
        let Some(ends) = ends else {
            return Questions { yes: None };
        };
        Questions {
            yes: Some(ends.saturating_sub(1)),
        }
    }
}

impl Patience for Questions {
    ghost is_over = { λ questions. questions.yes ≡ Some 0 };

    fn goes_on(&mut self) -> bool {
        let Some(yes) = self.yes else {
            return true;
        };
        if yes == 0 {
            return false;
        }
        self.yes = Some(yes - 1);
        true
    }
}

// It looks at nothing.
impl Watch for Questions {
    fn told_width(&mut self, _width: u32) {}

    fn told_clauses(&mut self, _formula: &Formula) {}

    fn told_restarts(&mut self, _count: u64) {}

    fn told_log(&mut self, _log: &Log) {}

    fn told_rounds(&mut self, _rounds: u32) {}

    fn told_route(&mut self, _route: &RouteText) {}
}

// So is the clock of a run whose words set a limit, however large.
impl Clock for Questions {
    fn set_limit(&mut self, _seconds: u32) {}
}
