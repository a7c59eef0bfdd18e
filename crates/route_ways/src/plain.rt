//! A search within a budget: by one search, or by several that take turns.
ghost use Rattle.std.specs.Prelude.{◌≡◌, ◌+◌, ◌≤◌, [], length, IfOk, IsTrue};
ghost use Rattle.route_ways.specs.Plain.{CanSearch, HasSearched, copies_of};
ghost use Rattle.sat_clause.specs.declared.limits.TheConstants.{ID_LIMIT};
ghost use Rattle.sat_core.specs.declared.answer.Answer.TheVariants.{Stopped};

use crate::added::added;
use crate::trimming::Learner;
use crate::unlimited::Unlimited;
use crate::wires::Wires;
use fpga_bounds::PlacedProblem;
use patience::Patience;
use route_sweep::{Ended, Searcher, Watch};
use sat_clause::{Formula, Log};
use sat_core::Answer;
use sat_merge::solve_merged;
use sat_turns::{Schedule, TurnsEnd, run_turns};
use std::alloc::{AllocError, Global};

/// How many clauses a search may learn at the most.
pub const BUDGET_LIMIT: u64 = 100_000_000;

/// Who searches through the clauses.
#[derive(Clone, Copy)]
pub enum Solver {
    /// One search, over the variables from which others follow.
    Merging,
    /// Several searches that take turns over one log, in an order that is drawn. They delete no
    /// clause from it.
    Turns {
        /// How many searches there are, from 1 to 8.
        members: u32,
        /// What the order is drawn by, and the seed of the first search, below 2^31.
        seed: u32,
    },
}

impl Solver {
    // How many copies of the clauses are held: each search has one.
    fn copies(self) -> u32
        ensures { result ≡ copies_of self }
    {
        match self {
            Solver::Merging => 1,
            Solver::Turns { members, .. } => members,
        }
    }
}

/// A search within a budget.
#[derive(Clone, Copy)]
pub struct Plain {
    /// Who searches.
    pub solver: Solver,
    /// What the clauses say of wires, which gives the searches their habits.
    pub wires: Wires,
    /// How many clauses may be learned, from 1 to 100,000,000.
    pub budget: u64,
    /// Whether all learned clauses are kept. The log deletes none then.
    pub keep: bool,
    /// Whether its caller may stop it. Where not, it is not asked.
    pub limited: bool,
}

impl Plain {
    // What the search answers, whose caller is asked, and its log behind one without a step.
    fn solve<P: Patience>(
        &self,
        alloc: Global,
        formula: &Formula,
        patience: &mut P,
        log: &mut Log,
    ) -> Result<Answer, AllocError>
        requires able { CanSearch self.now }
        requires ids { length formula.now.cnf.clauses + self.now.budget ≤ ID_LIMIT }
        requires fresh { log.old.steps ≡ [] }
        ensures searched { IfOk result (HasSearched self.now formula.now.cnf log.new.steps) }
        ensures stopped { IfOk result (λ answer. answer ≡ Stopped → P.is_over patience.new) }
    {
        let habits = self.wires.habits();
        match self.solver {
            Solver::Merging => {
                let over_representatives = self.wires.habits_over_representatives();
                let Ok(answer) = solve_merged(
                    alloc,
                    formula,
                    over_representatives,
                    habits,
                    self.budget,
                    self.keep,
                    patience,
                    log,
                ) else {
                    return Err(AllocError);
                };
                Ok(answer)
            }
            Solver::Turns { members, seed } => {
                let schedule = Schedule::Drawn { members, seed };
                let Ok(end) = run_turns(
                    alloc,
                    formula,
                    habits,
                    &schedule,
                    self.budget,
                    patience,
                    log,
                ) else {
                    return Err(AllocError);
                };
                let TurnsEnd { answer, .. } = end;
                Ok(answer)
            }
        }
    }

    // The same, where the caller is asked only if it may stop the search, and else told how often
    // it would have been. What it was asked before was no restart.
    fn solve_limited<P: Watch>(
        &self,
        alloc: Global,
        formula: &Formula,
        patience: &mut P,
        log: &mut Log,
    ) -> Result<Answer, AllocError>
        requires able { CanSearch self.now }
        requires ids { length formula.now.cnf.clauses + self.now.budget ≤ ID_LIMIT }
        requires fresh { log.old.steps ≡ [] }
        ensures searched { IfOk result (HasSearched self.now formula.now.cnf log.new.steps) }
        ensures limited { IfOk result (λ answer. answer ≡ Stopped → IsTrue self.now.limited) }
        ensures stopped { IfOk result (λ answer. answer ≡ Stopped → P.is_over patience.new) }
    {
        if self.limited {
            patience.told_restarts(0);
            return self.solve(alloc, formula, patience, log);
        }
        let mut unlimited = Unlimited { asked: 0 };
        let Ok(answer) = self.solve(alloc, formula, &mut unlimited, log) else {
            return Err(AllocError);
        };
        patience.told_restarts(unlimited.asked);
        Ok(answer)
    }

    // The same, whose caller is told of the log.
    fn solve_told<P: Watch>(
        &self,
        alloc: Global,
        formula: &Formula,
        patience: &mut P,
        log: &mut Log,
    ) -> Result<Answer, AllocError>
        requires able { CanSearch self.now }
        requires ids { length formula.now.cnf.clauses + self.now.budget ≤ ID_LIMIT }
        requires fresh { log.old.steps ≡ [] }
        ensures searched { IfOk result (HasSearched self.now formula.now.cnf log.new.steps) }
        ensures limited { IfOk result (λ answer. answer ≡ Stopped → IsTrue self.now.limited) }
        ensures stopped { IfOk result (λ answer. answer ≡ Stopped → P.is_over patience.new) }
    {
        let Ok(answer) = self.solve_limited(alloc, formula, patience, log) else {
            return Err(AllocError);
        };
        patience.told_log(log);
        Ok(answer)
    }
}

impl Searcher for Plain {
    ghost use Rattle.route_ways.specs.Plain.{CanSearch, IsLeftOpen, IsRefuted, copies_of};

    ghost copies = { λ way. copies_of way.solver };

    ghost budget = { λ way. way.budget };

    ghost serves = { λ way p width formula. CanSearch way };

    ghost refutes = { λ way p width formula log lead. IsRefuted way formula log lead };

    ghost leaves_open = { λ way p width formula log. IsLeftOpen way formula log };

    fn copy_count(&self) -> u32 {
        self.solver.copies()
    }

    fn search<P: Watch>(
        &self,
        alloc: Global,
        problem: &PlacedProblem,
        width: u32,
        formula: &Formula,
        patience: &mut P,
    ) -> Result<Ended, AllocError> {
        let mut log = Log::new(alloc);
        match self.solve_told(alloc, formula, patience, &mut log) {
            Ok(Answer::Model(values)) => Ok(Ended::Model { values }),
            Ok(Answer::Refuted) => {
                let lead = Vec::new(alloc);
                Ok(Ended::Refuted { log, lead })
            }
            Ok(Answer::Spent) => {
                let learned = self.budget;
                Ok(Ended::Open { log, learned })
            }
            Ok(Answer::Stopped) => {
                let learned = added(&log);
                Ok(Ended::Open { log, learned })
            }
            Err(_) => Err(AllocError),
        }
    }
}

impl Learner for Plain {
    fn is_learned(&self) {}
}
