//! A search that is handed on turn by turn, and takes what other searches have learned.

ghost use Rattle.std.specs.Prelude.{◌≡◌, ◌≢◌, ◌<◌, ◌≤◌, ◌+◌, ◌^◌, [], IfOk, Ok, OnErr, OnOk, false, length, true};
ghost use Rattle.sat_clause.specs.Formula.{Cnf};
ghost use Rattle.sat_clause.specs.Learned.{added_count};
ghost use Rattle.sat_core.specs.Deletions.{AreDeletions};
ghost use Rattle.sat_core.specs.Delete.{HasDeleted};
ghost use Rattle.sat_core.specs.Levels.{level_of};
ghost use Rattle.sat_core.specs.SearchStore.{SameKept};
ghost use Rattle.sat_core.specs.Stands.{StandsFor};
ghost use Rattle.sat_core.specs.Underway.{IsTurn, IsUnderway, MayFollow, MayTurn};

use crate::deletions::Deletions;
use crate::habits::Habits;
use crate::state::SearchState;
use crate::turn::{Turn, take_turn};
use patience::Patience;
use sat_clause::{Formula, Log};
use std::alloc::{AllocError, Global};
use std::marker::Model;

/// A search for values that satisfy a formula, which goes on by turns, each to the next clause that
/// it learns.
///
/// Several searches may share a log: of its steps each has *taken* so many, the first ones, and
/// knows their clauses. It *stands for* the formula and the steps that it has taken.
#[derive(Drop)]
pub struct Search {
    alloc: Global,
    state: SearchState,
    taken: u64,
}

impl Model for Search {
    ghost use Rattle.sat_core.specs.Stands.{SearchAt};

    ghost Value = { SearchAt };

    ghost view = { λ s. record { taken = s.taken; value = s.state } };
}

impl Search {
    /// The search that stands for a formula and no step, with these habits.
    ///
    /// It takes time and memory linear in the variables and the literals of the clauses; for a
    /// clause whose variables do not rise n log n steps for n literals, and with drawn activities a
    /// logarithm for each variable.
    ///
    /// # Errors
    /// Where memory is short.
    pub fn new(alloc: Global, formula: &Formula, habits: Habits) -> Result<Search, AllocError>
        ensures stands { IfOk result (λ s. StandsFor s.value formula.now.cnf []) }
        ensures none_taken { IfOk result (λ s. s.taken ≡ 0) }
    {
        Ok(Search {
            alloc,
            state: SearchState::new(alloc, formula, habits)?,
            taken: 0,
        })
    }

    /// How many steps of the log are taken.
    pub fn taken(&self) -> u64
        ensures { result ≡ self.now.taken }
    {
        self.taken
    }

    /// Whether the next turn may be taken. The caller is asked where the turn begins with a
    /// restart, once the steps that others have added are taken.
    pub fn goes_on<P: Patience>(&self, log: &Log, patience: &mut P) -> bool
        ensures { result ≡ false → P.is_over patience.new }
    {
        let ahead = log.len().saturating_sub(self.taken);
        if !self.state.restarts_behind(ahead) {
            return true;
        }
        patience.goes_on()
    }

    /// Takes the next step of the log, which another search added, at level 0.
    fn take_step(&mut self, log: &Log) -> Result<(), AllocError>
        requires ahead { self.old.taken < length log.now.steps }
        requires counted { length log.now.steps < 2 ^ 64 }
        requires level { level_of self.old.value.trail ≡ 0 }
        requires may { (formula : Cnf) × MayTurn self.old formula log.now.steps }
        ensures level { level_of self.new.value.trail ≡ 0 }
        ensures may { (formula : Cnf) → MayTurn self.old formula log.now.steps
            → MayTurn self.new formula log.now.steps }
        ensures one { OnOk result (self.new.taken ≡ self.old.taken + 1) }
        ensures none { OnErr result (self.new.taken ≡ self.old.taken) }
    {
        let step = log.step(self.taken);
        self.state.take(step.lits)?;
        self.taken += 1;
        Ok(())
    }

    /// Takes the steps of the log that are left, at level 0.
    fn take_steps(&mut self, log: &Log) -> Result<(), AllocError>
        requires level { level_of self.old.value.trail ≡ 0 }
        requires may { (formula : Cnf) × MayTurn self.old formula log.now.steps }
        ensures may { (formula : Cnf) → MayTurn self.old formula log.now.steps
            → MayTurn self.new formula log.now.steps }
        ensures no_fewer { self.old.taken ≤ self.new.taken }
        ensures all { OnOk result (self.new.taken ≡ length log.now.steps) }
    {
        for _ in self.taken..log.len() {
            self.take_step(log)?;
        }
        Ok(())
    }

    /// Takes the steps that other searches have added. Where there is one, it goes back to level 0
    /// and propagates before.
    fn catch_up(&mut self, log: &Log) -> Result<(), AllocError>
        requires { (formula : Cnf) × MayTurn self.old formula log.now.steps }
        ensures may { (formula : Cnf) → MayTurn self.old formula log.now.steps
            → MayTurn self.new formula log.now.steps }
        ensures no_fewer { self.old.taken ≤ self.new.taken }
        ensures all { OnOk result (self.new.taken ≡ length log.now.steps) }
    {
        if self.taken == log.len() {
            return Ok(());
        }
        self.state.start_anew();
        self.take_steps(log)
    }

    /// Takes the steps that other searches have added to the log, and then searches on until it
    /// learns a clause, or has values that satisfy the formula, or refutes it.
    ///
    /// The search stands for the formula and the first steps of the log, and the steps behind these
    /// delete nothing. No step of the log is refused, and none adds an empty clause; the added
    /// clauses have the ids behind those of the inputs, in order, and each was new when it was
    /// added. No deletion names an input, since values that satisfy what is left need not satisfy
    /// the formula then.
    ///
    /// Where there are steps to take the search goes back to level 0, propagates, and takes them
    /// there; a clause that is false there is the one that refutes the formula. Whatever the answer
    /// but [`Turn::Refuted`], it stands for the formula and the steps that it has taken by then.
    /// To take a step costs its literals; for the rest it is as for [`solve`](crate::solve).
    ///
    /// # Errors
    /// Where memory is short. The log is then as it was, and the next turn goes on from here.
    pub fn turn(&mut self, formula: &Formula, log: &mut Log) -> Result<Turn, AllocError>
        requires { MayTurn self.old formula.now.cnf log.old.steps }
        ensures turn { IfOk result
            (IsTurn self.new formula.now.cnf log.old.steps log.new.steps) }
        ensures no_fewer { self.old.taken ≤ self.new.taken }
        ensures same { OnErr result (log.new.steps ≡ log.old.steps) }
        ensures follows { OnErr result (MayFollow self.new formula.now.cnf log.new.steps) }
    {
        self.catch_up(log)?;
        let turn = take_turn(self.alloc, &mut self.state, formula, log)?;
        self.taken = log.len();
        Ok(turn)
    }

    /// Deletes learned clauses between two turns, and logs the deletion: at level 0, if
    /// no clause is false there and some learned clause is no reason. Whether there is one. So many
    /// deletions came before. It has taken all steps of the log, and takes this one too.
    ///
    /// # Errors
    /// Where memory is short. The log is then as it was, and the search goes on from here.
    pub(crate) fn delete(&mut self, log: &mut Log, done: u32) -> Result<bool, AllocError>
        requires { self.old.taken ≡ length log.old.steps }
        ensures deleted { result ≡ Ok true
            → HasDeleted self.old.value self.new.value log.old.steps log.new.steps }
        ensures same { result ≢ Ok true → SameKept self.old.value self.new.value }
        ensures same_log { result ≢ Ok true → log.new.steps ≡ log.old.steps }
        ensures all { self.new.taken ≡ length log.new.steps }
        ensures may { (formula : Cnf) → MayTurn self.old formula log.old.steps
            → MayTurn self.new formula log.new.steps }
        ensures none_added { added_count log.new.steps ≡ added_count log.old.steps }
    {
        let gone = self.state.delete(self.alloc, log, done)?;
        self.taken = log.len();
        Ok(gone)
    }

    /// Deletes learned clauses between two turns where a restart is due and the log may have
    /// another deletion. The log is its own, with these deletions; it has taken all steps, and
    /// stands for all of them afterwards.
    ///
    /// # Errors
    /// Where memory is short. The log is then as it was, and the search goes on from here.
    pub(crate) fn delete_where_due(
        &mut self,
        log: &mut Log,
        deletions: &mut Deletions,
    ) -> Result<(), AllocError>
        requires underway { (formula : Cnf) × IsUnderway self.old formula log.old.steps }
        requires tracked { AreDeletions log.old.steps deletions.old }
        ensures underway { (formula : Cnf) → IsUnderway self.old formula log.old.steps
            → IsUnderway self.new formula log.new.steps }
        ensures tracked { AreDeletions log.new.steps deletions.new }
        ensures none_added { added_count log.new.steps ≡ added_count log.old.steps }
    {
        let added = self.state.added();
        if !deletions.may_come(added) {
            return Ok(());
        }
        if !self.state.is_restart_due() {
            return Ok(());
        }
        if !self.delete(log, deletions.count())? {
            return Ok(());
        }
        deletions.push(added);
        Ok(())
    }
}
