//! What a run is measured by while it goes on, where its numbers are asked for.

use crate::memory::peak_kibibytes;
use fpga_bounds::PlacedProblem;
use fpga_types::RouteText;
use problem_facts::Facts;
use run_stats::{FormulaSize, LogSize, ProblemSize, RouteSize, Stats};
use sat_clause::{Formula, Log};
use std::alloc::Global;
use std::rt::{Clock, Files};
use std::time::Instant;

// What a run is at.
#[derive(Clone, Copy)]
enum Stage {
    Reading,
    Clauses,
    Search,
    Writing,
}

/// The numbers of a run as it goes on, and when it came to the stage that it is at.
#[derive(Drop)]
pub struct Meter<'a, R> {
    rt: &'a R,
    since: Option<Instant>,
    stats: Stats,
    stage: Stage,
    /// After how many milliseconds of the run the stage began.
    begun: u64,
    /// How often the search of the width began anew, so far.
    restarts: u64,
}

impl<'a, R: Clock + Files> Meter<'a, R> {
    /// The meter of a run that began at this time, if the system tells it.
    pub fn new(rt: &'a R, since: Option<Instant>) -> Meter<'a, R> {
        Meter {
            rt,
            since,
            stats: Stats::unknown(),
            stage: Stage::Reading,
            begun: 0,
            restarts: 0,
        }
    }

    // How many milliseconds of the run have passed, if the system tells it.
    fn passed(&self) -> Option<u64> {
        let Some(since) = &self.since else {
            return None;
        };
        let Ok(passed) = since.elapsed(self.rt) else {
            return None;
        };
        let seconds = passed.as_secs();
        Some(
            seconds
                .saturating_mul(1000)
                .saturating_add(u64::from(passed.subsec_millis())),
        )
    }

    // Ends the stage that the run is at, and begins the next.
    fn enter(&mut self, next: Stage) {
        let kibibytes = peak_kibibytes(self.rt);
        if let Some(now) = self.passed() {
            self.end_stage(now.saturating_sub(self.begun));
            self.begun = now;
        }
        match self.stage {
            Stage::Reading => self.stats.kibibytes.reading = kibibytes,
            Stage::Clauses => self.stats.kibibytes.clauses = kibibytes,
            Stage::Search => self.stats.kibibytes.search = kibibytes,
            Stage::Writing => {}
        }
        self.stage = next;
    }

    // Counts so many milliseconds of the stage that the run is at.
    fn end_stage(&mut self, taken: u64) {
        match self.stage {
            Stage::Reading => self.stats.milliseconds.reading = Some(taken),
            Stage::Clauses => {
                let before = self.stats.milliseconds.clauses.unwrap_or(0);
                self.stats.milliseconds.clauses = Some(before.saturating_add(taken));
            }
            Stage::Search => {
                let before = self.stats.milliseconds.search.unwrap_or(0);
                self.stats.milliseconds.search = Some(before.saturating_add(taken));
            }
            Stage::Writing => {}
        }
    }

    // Ends a search, which may have had no clauses.
    fn end_search(&mut self) {
        match self.stage {
            Stage::Clauses | Stage::Search => {
                self.stage = Stage::Search;
                self.enter(Stage::Writing);
            }
            Stage::Reading | Stage::Writing => {}
        }
    }

    /// A width begins.
    pub fn take_width(&mut self, width: u32) {
        self.enter(Stage::Clauses);
        self.stats.width = Some(u64::from(width));
        self.stats.formula = None;
        self.stats.log = None;
        self.stats.restarts = None;
        self.stats.rounds = None;
        self.restarts = 0;
    }

    /// The clauses of the width are built.
    pub fn take_clauses(&mut self, formula: &Formula) {
        self.enter(Stage::Search);
        self.stats.formula = Some(FormulaSize::of(formula));
    }

    /// The search has begun anew so often.
    pub fn take_restarts(&mut self, count: u64) {
        self.restarts = count;
    }

    /// The run is asked whether it may go on, where a search begins anew or a round begins.
    pub fn take_question(&mut self) {
        self.restarts = self.restarts.saturating_add(1);
    }

    /// The search has ended with this log.
    pub fn take_log(&mut self, log: &Log) {
        self.end_search();
        self.stats.log = Some(LogSize::of(log));
        self.stats.restarts = Some(self.restarts);
    }

    /// A negotiation has ended after so many rounds.
    pub fn take_rounds(&mut self, rounds: u32) {
        self.end_search();
        self.stats.rounds = Some(u64::from(rounds));
    }

    /// This route was found.
    pub fn take_route(&mut self, route: &RouteText) {
        self.end_search();
        self.stats.route = Some(RouteSize::of(route));
    }

    /// The numbers of the run, which is at its end, and has worked on this problem, if it is one of
    /// four files.
    pub fn end(&mut self, alloc: Global, problem: &Option<PlacedProblem>) -> Stats {
        self.enter(Stage::Writing);
        self.stats.milliseconds.run = self.passed();
        self.stats.kibibytes.run = peak_kibibytes(self.rt);
        self.stats.problem = size_of(alloc, problem);
        self.stats
    }
}

// How large a problem is, if there is one, and memory for what is to be known of it.
fn size_of(alloc: Global, problem: &Option<PlacedProblem>) -> Option<ProblemSize> {
    let Some(problem) = problem else {
        return None;
    };
    let Ok(facts) = Facts::of(alloc, problem) else {
        return None;
    };
    Some(ProblemSize::of(problem, &facts))
}
