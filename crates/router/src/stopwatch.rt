//! How long a run goes on, by the clock of the system.
ghost use Rattle.std.specs.Prelude.{◌≡◌, ◌≤◌, IsSomeAnd};

use crate::meter::Meter;
use fpga_bounds::PlacedProblem;
use fpga_types::RouteText;
use patience::Patience;
use route_sweep::Watch;
use run_outcome::Clock;
use run_stats::Stats;
use sat_clause::{Formula, Log};
use std::alloc::Global;
use std::rt::{self, Files};
use std::time::Instant;

/// How many seconds have passed since the run began, and its numbers, if they are asked for. Where
/// the system tells no time, none pass.
#[derive(Drop)]
pub struct Stopwatch<'a, R> {
    rt: &'a R,
    since: Option<Instant>,
    /// After how many seconds searches are to go on no more, if they are not.
    limit: Option<u32>,
    /// How many have passed, as far as it was asked.
    passed: u64,
    /// What measures the run, if its numbers are asked for.
    meter: Option<Meter<'a, R>>,
}

impl<'a, R: rt::Clock + Files> Stopwatch<'a, R> {
    /// The run begins now, without a limit.
    pub fn new(rt: &'a R) -> Stopwatch<'a, R> {
        Stopwatch {
            rt,
            since: Instant::now(rt).ok(),
            limit: None,
            passed: 0,
            meter: None,
        }
    }

    /// The numbers of the run are asked for from now on.
    pub fn measure(&mut self) {
        self.meter = Some(Meter::new(self.rt, self.since));
    }

    /// The numbers of the run, if they are asked for. It is at its end, and has worked on this
    /// problem, if it is one of four files.
    pub fn end(&mut self, alloc: Global, problem: &Option<PlacedProblem>) -> Option<Stats> {
        let Some(meter) = &mut self.meter else {
            return None;
        };
        Some(meter.end(alloc, problem))
    }

    // How many seconds have passed, if the system tells it.
    fn now(&self) -> Option<u64> {
        let Some(since) = &self.since else {
            return None;
        };
        let Ok(passed) = since.elapsed(self.rt) else {
            return None;
        };
        Some(passed.as_secs())
    }

    // Looks how many seconds have passed.
    fn look(&mut self)
        ensures rises { self.old.passed ≤ self.new.passed }
        ensures limit { self.new.limit ≡ self.old.limit }
    {
        let Some(now) = self.now() else {
            return;
        };
        if self.passed < now {
            self.passed = now;
        }
    }
}

// It is over once as many seconds have passed as the limit has.
impl<'a, R: rt::Clock + Files> Patience for Stopwatch<'a, R> {
    ghost is_over = { λ watch. IsSomeAnd watch.limit (λ seconds. seconds ≤ watch.passed) };

    fn goes_on(&mut self) -> bool {
        if let Some(meter) = &mut self.meter {
            meter.take_question();
        }
        self.look();
        let Some(limit) = self.limit else {
            return true;
        };
        self.passed < u64::from(limit)
    }
}

impl<'a, R: rt::Clock + Files> Watch for Stopwatch<'a, R> {
    fn told_width(&mut self, width: u32) {
        if let Some(meter) = &mut self.meter {
            meter.take_width(width);
        }
    }

    fn told_clauses(&mut self, formula: &Formula) {
        if let Some(meter) = &mut self.meter {
            meter.take_clauses(formula);
        }
    }

    fn told_restarts(&mut self, count: u64) {
        if let Some(meter) = &mut self.meter {
            meter.take_restarts(count);
        }
    }

    fn told_log(&mut self, log: &Log) {
        if let Some(meter) = &mut self.meter {
            meter.take_log(log);
        }
    }

    fn told_rounds(&mut self, rounds: u32) {
        if let Some(meter) = &mut self.meter {
            meter.take_rounds(rounds);
        }
    }

    fn told_route(&mut self, route: &RouteText) {
        if let Some(meter) = &mut self.meter {
            meter.take_route(route);
        }
    }
}

impl<'a, R: rt::Clock + Files> Clock for Stopwatch<'a, R> {
    fn set_limit(&mut self, seconds: u32) {
        self.limit = Some(seconds);
    }
}
