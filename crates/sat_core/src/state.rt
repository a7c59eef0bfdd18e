//! What a search knows, and how it goes on.

ghost use Rattle.std.specs.Prelude.{◌≡◌, ◌≢◌, ◌<◌, ◌≤◌, ◌+◌, suc, length, [], IfNone, IfOk, IfSome, Ok, OnErr, OnOk, true};
ghost use Rattle.sat_clause.specs.Learned.{IsSimple};
ghost use Rattle.sat_clause.specs.Trail.{IsClosed};
ghost use Rattle.sat_core.specs.Delete.{HasDeleted};
ghost use Rattle.sat_core.specs.Levels.{level_of, lits_of};
ghost use Rattle.sat_core.specs.Marks.{IsClean};
ghost use Rattle.sat_core.specs.Ranking.{IsRanked};
ghost use Rattle.sat_core.specs.SearchStore.{AreTrue, IsLearnedClause, IsPropagatedState, Learns, SameKept};
ghost use Rattle.sat_core.specs.Stands.{StandsFor};

use crate::again::Again;
use crate::clause_activity::ClauseActivity;
use crate::clause_list::ClauseList;
use crate::deciding::{decide_on, values};
use crate::deleting::{delete_some, last_id, propagate_at_start};
use crate::habits::Habits;
use crate::inputs::{Inputs, take_inputs};
use crate::learned::{Findings, LearnedClause, find_learned};
use crate::occurrences::Occurrences;
use crate::ranking::{Ranking, counts_for};
use crate::restarts::Restarts;
use crate::start::attach_at_start;
use crate::way_back::go_back;
use sat_clause::{Formula, ID_LIMIT, Lit, Log, VARIABLE_LIMIT};
use sat_watch::Watches;
use std::alloc::{AllocError, Global};
use std::marker::Model;

/// A search through the values of a formula's variables: its clauses and those that were added to
/// the log, and the literals that are true, each decided or made true by a clause.
///
/// A clause has the literals of an input or an added clause, each once. Clauses with a literal and
/// its negation are left out. Laid aside are input clauses of fewer than two literals, until all
/// others are attached, and clauses of other searches that were false when they came. They are
/// attached before the first decision.
#[derive(Drop)]
pub(crate) struct SearchState {
    inputs: u32,
    added: u32,
    aside: ClauseList,
    attached: u32,
    watches: Watches,
    findings: Findings,
    ranking: Ranking,
    again: Again,
    restarts: Restarts,
    activity: ClauseActivity,
}

impl Model for SearchState {
    ghost use Rattle.sat_core.specs.SearchStore.{IsSearching, search_value};
    ghost use Rattle.sat_core.specs.Stands.{SearchValue};

    ghost Value = { SearchValue };

    ghost view = { λ s. search_value s.inputs s.added s.aside s.watches };

    ghost invariant = { λ s. IsSearching s.inputs s.added s.attached s.aside s.watches s.findings
        s.ranking };
}

/// What a search has of each variable beside the clauses.
// Made apart, so that few large values are let go where memory is short.
#[derive(Drop)]
struct Tables {
    findings: Findings,
    ranking: Ranking,
    again: Again,
}

impl Tables {
    /// Those of a search that has met and decided nothing.
    fn new(
        alloc: Global,
        vars: u32,
        counts: &Occurrences,
        habits: Habits,
    ) -> Result<Tables, AllocError>
        requires { vars ≤ VARIABLE_LIMIT }
        ensures clean { IfOk result (λ tables. IsClean tables.findings) }
        ensures size { IfOk result (λ tables. length tables.findings.met ≡ vars) }
        ensures ranked { IfOk result (λ tables. IsRanked vars [] tables.ranking) }
    {
        let findings = Findings::new(alloc, vars)?;
        let ranking = Ranking::new(alloc, vars, counts, habits)?;
        let again = Again::new(alloc, vars)?;
        Ok(Tables {
            findings,
            ranking,
            again,
        })
    }
}

impl SearchState {
    /// The search that has the clauses of a formula, and has decided nothing.
    pub(crate) fn new(
        alloc: Global,
        formula: &Formula,
        habits: Habits,
    ) -> Result<SearchState, AllocError>
        ensures { IfOk result (λ s. StandsFor s formula.now.cnf []) }
    {
        let inputs = formula.len();
        let vars = formula.vars();
        let mut counts = counts_for(alloc, vars, habits)?;
        let Inputs { watches, singles } = take_inputs(alloc, formula, &mut counts)?;
        let Tables {
            findings,
            ranking,
            again,
        } = Tables::new(alloc, vars, &counts, habits)?;
        Ok(SearchState {
            inputs,
            added: 0,
            aside: singles,
            attached: 0,
            watches,
            findings,
            ranking,
            again,
            restarts: Restarts::new(habits.many_literals),
            activity: ClauseActivity::new(alloc),
        })
    }

    /// How many clauses are added.
    pub(crate) fn added(&self) -> u32
        ensures { result ≡ self.now.added }
    {
        self.added
    }

    /// The id of the next clause that is added.
    pub(crate) fn next_id(&self) -> u32
        requires { self.now.inputs + self.now.added < ID_LIMIT }
        ensures { result ≡ suc (self.now.inputs + self.now.added) }
    {
        self.inputs + self.added + 1
    }

    /// Goes back to level 0 where a restart is due. What was decided is decided again, unless the
    /// restart begins anew.
    pub(crate) fn restart_where_due(&mut self)
        ensures { SameKept self.old self.new }
    {
        if !self.restarts.is_due(self.added) {
            return;
        }
        self.again.keep(&self.restarts, &self.watches);
        go_back(&mut self.ranking, &mut self.watches, 0);
    }

    /// Whether a restart comes where so many clauses more are added.
    pub(crate) fn restarts_behind(&self, more: u64) -> bool {
        self.restarts
            .comes_after(u64::from(self.added).saturating_add(more))
    }

    /// Goes back to level 0 and propagates there. A clause that is then false stays so until the
    /// next learned clause is drawn from it.
    pub(crate) fn start_anew(&mut self)
        ensures same { SameKept self.old self.new }
        ensures level { level_of self.new.trail ≡ 0 }
    {
        propagate_at_start(&mut self.ranking, &mut self.watches);
    }

    /// Whether a restart is due. Then the next one is looked ahead to.
    pub(crate) fn is_restart_due(&mut self) -> bool
        ensures { self.new ≡ self.old }
    {
        self.restarts.is_due(self.added)
    }

    /// Goes back to level 0 and propagates there. If no clause is false then it deletes clauses
    /// that were added and are no reasons, and logs the deletion. Whether there is one. So
    /// many deletions came before. A clause that was laid aside stays, and so do those that were
    /// added before it.
    ///
    /// # Errors
    /// Where memory is short; the clauses are then the same.
    pub(crate) fn delete(
        &mut self,
        alloc: Global,
        log: &mut Log,
        done: u32,
    ) -> Result<bool, AllocError>
        ensures deleted { result ≡ Ok true
            → HasDeleted self.old self.new log.old.steps log.new.steps }
        ensures same { result ≢ Ok true → SameKept self.old self.new }
        ensures same_log { result ≢ Ok true → log.new.steps ≡ log.old.steps }
    {
        self.again.keep(&self.restarts, &self.watches);
        if !propagate_at_start(&mut self.ranking, &mut self.watches) {
            return Ok(false);
        }
        let above = last_id(&self.aside, self.inputs);
        let own = self.inputs + self.added;
        delete_some(
            alloc,
            &mut self.watches,
            &mut self.activity,
            log,
            above,
            done,
            own,
        )
    }

    /// Takes a clause that another search learned under the next id, at level 0. It is laid aside
    /// where it is false there, so that the next learned clause is drawn from it.
    ///
    /// # Errors
    /// Where memory is short; nothing changes.
    pub(crate) fn take(&mut self, lits: &[Lit]) -> Result<(), AllocError>
        requires level { level_of self.old.trail ≡ 0 }
        requires simple { IsSimple self.old.vars lits.now }
        requires few { self.old.inputs + self.old.added < ID_LIMIT }
        ensures level { level_of self.new.trail ≡ 0 }
        ensures ok { OnOk result (Learns self.old self.new lits.now) }
        ensures err { OnErr result (self.new ≡ self.old) }
    {
        let id = self.next_id();
        self.activity.insert(id)?;
        if attach_at_start(&mut self.watches, lits, id)? {
            self.added += 1;
            return Ok(());
        }
        self.aside.add(id, lits)?;
        self.added += 1;
        Ok(())
    }

    /// Attaches the clauses that were laid aside, and then decides variable after variable, until a
    /// clause is false, of which it gives the learned one, or each variable has a value.
    pub(crate) fn next_learned(
        &mut self,
        alloc: Global,
    ) -> Result<Option<LearnedClause>, AllocError>
        ensures same { SameKept self.old self.new }
        ensures learned { IfOk result (λ found. IfSome found (λ learned. IsLearnedClause self.new
            learned.clause.items learned.hints.items learned.back)) }
        ensures propagated { IfOk result (λ found. IfNone found (IsPropagatedState self.new)) }
        ensures closed { IfOk result (λ found.
            IfNone found (IsClosed self.new.vars (lits_of self.new.trail))) }
    {
        while self.attached < self.aside.len() {
            let waiting = self.aside.get(self.attached);
            if !attach_at_start(&mut self.watches, waiting.lits, waiting.id)? {
                let learned = find_learned(
                    alloc,
                    &mut self.ranking,
                    &mut self.findings,
                    &self.watches,
                    waiting.lits,
                    waiting.id,
                )?;
                return Ok(Some(learned));
            }
            self.attached += 1;
        }
        let vars = self.aside.vars();
        let Some(c) = decide_on(&mut self.again, &mut self.ranking, &mut self.watches, vars) else {
            return Ok(None);
        };
        let id = self.watches.id(c);
        let lits = self.watches.lits(c);
        let learned = find_learned(
            alloc,
            &mut self.ranking,
            &mut self.findings,
            &self.watches,
            lits,
            id,
        )?;
        Ok(Some(learned))
    }

    /// The value of each of the variables 1 to `vars`, which are those of the search, where each
    /// has one and the clauses are propagated.
    pub(crate) fn model(&self, alloc: Global, vars: u32) -> Result<Vec<bool>, AllocError>
        requires vars { vars ≡ self.now.vars }
        requires few { vars ≤ VARIABLE_LIMIT }
        requires propagated { IsPropagatedState self.now }
        requires closed { IsClosed self.now.vars (lits_of self.now.trail) }
        ensures { IfOk result (λ values. AreTrue self.now values.items) }
    {
        values(alloc, &self.watches, vars)
    }

    /// Takes a learned clause, which is not empty, under the next id: it goes back to the
    /// highest level of its literals but the last, which the clause makes true there.
    ///
    /// # Errors
    /// Where memory is short; the clauses are then the same.
    pub(crate) fn learn(&mut self, learned: &LearnedClause) -> Result<(), AllocError>
        requires learned { IsLearnedClause self.old learned.now.clause.items learned.now.hints.items
            learned.now.back }
        requires some { learned.now.clause.items ≢ [] }
        requires few { self.old.inputs + self.old.added < ID_LIMIT }
        ensures ok { OnOk result (Learns self.old self.new learned.now.clause.items) }
        ensures err { OnErr result (SameKept self.old self.new) }
    {
        let id = self.next_id();
        let Some(last) = learned.clause.last() else {
            unreachable!();
        };
        self.activity.insert(id)?;
        self.again.clear();
        go_back(&mut self.ranking, &mut self.watches, learned.back);
        let c = self.watches.attach(&learned.clause, id)?;
        self.watches.imply(*last, c);
        self.activity.bump_all(&learned.hints);
        self.added += 1;
        Ok(())
    }

    /// Takes a learned clause that is no longer needed, whose room the next one takes.
    pub(crate) fn reuse(&mut self, learned: LearnedClause)
        ensures { self.new ≡ self.old }
    {
        self.findings.reuse(learned);
    }
}
