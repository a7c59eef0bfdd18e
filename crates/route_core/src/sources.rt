//! The clauses that the hints of a log name.
ghost use Rattle.std.specs.Prelude.{◌≡◌, ◌≤◌, ◌<◌, All, IfOk, IfSome, MatchOption, length, option_map};
ghost use Rattle.sat_clause.specs.Literal.{IsWithin};
ghost use Rattle.sat_check.specs.Finder.{named_by};
ghost use Rattle.route_core.specs.SourceStore.{HasId, IdsRise, NoneHasId, StepWithin, added_from};
ghost use Rattle.route_core.specs.Sources.{place_from, place_named, said_under};
ghost use Rattle.route_core.specs.Trimmed.{AddedRise};

use sat_check::greatest_of;
use sat_clause::{Formula, LITERAL_LIMIT, Lit, Log, StepView};
use std::alloc::{AllocError, Global};
use std::marker::Model;

/// A step that adds a clause.
#[derive(Clone, Copy)]
pub(crate) struct AddedStep {
    /// Under which id.
    pub id: u32,
    /// Where it stands in the log, counted from 0.
    pub place: u64,
}

/// A formula and a log, whose clauses are found by their ids: 1, 2 and so on those of the formula,
/// and above these, rising, those that the log adds. What a log deletes is found too.
///
/// An id is found at once where the ids go on without a gap, and else by a search among them.
#[derive(Drop)]
pub(crate) struct Sources<'a> {
    formula: &'a Formula,
    log: &'a Log,
    added: Vec<AddedStep>,
    size: u32,
}

impl<'a> Model for Sources<'a> {
    ghost use Rattle.route_core.specs.SourceStore.{IsSourceStore, SourceState};

    ghost Value = { SourceState };

    ghost view = { λ s.
        record { formula = s.formula.now.cnf; log = s.log.now.steps; size = s.size } };

    ghost invariant = { λ s.
        IsSourceStore s.formula.now.cnf s.log.now.steps s.added.items s.size };
}

impl<'a> Sources<'a> {
    /// Those of a formula and a log.
    pub(crate) fn new(
        alloc: Global,
        formula: &'a Formula,
        log: &'a Log,
    ) -> Result<Sources<'a>, AllocError>
        requires { AddedRise (length formula.now.cnf.clauses) log.now.steps }
        ensures formula { IfOk result (λ sources. sources.formula ≡ formula.now.cnf) }
        ensures log { IfOk result (λ sources. sources.log ≡ log.now.steps) }
    {
        let added = added_steps(alloc, log)?;
        let size = greatest_variable(formula, log);
        Ok(Sources {
            formula,
            log,
            added,
            size,
        })
    }

    /// A number that no variable is above.
    pub(crate) fn size(&self) -> u32
        ensures value { result ≡ self.now.size }
        ensures few { result ≤ LITERAL_LIMIT }
    {
        self.size
    }

    /// The log.
    pub(crate) fn log(&self) -> &'a Log
        ensures value { result.now.steps ≡ self.now.log }
        ensures inputs { All (All (IsWithin self.now.size)) self.now.formula.clauses }
        ensures within { All (StepWithin self.now.size) self.now.log }
        ensures rise { AddedRise (length self.now.formula.clauses) self.now.log }
        ensures few { self.now.size ≤ LITERAL_LIMIT }
    {
        self.log
    }

    /// The clause that a hint names, deleted or not. A number that is zero or negative names none.
    pub(crate) fn clause(&self, hint: i64) -> Option<&[Lit]>
        ensures value { option_map (λ c. c.now) result
            ≡ named_by (said_under self.now.formula self.now.log) hint }
        ensures within { IfSome result (λ c. All (IsWithin self.now.size) c.now) }
    {
        if hint <= 0 {
            return None;
        }
        self.clause_under(hint as u64)
    }

    /// Where the step stands that adds the clause which a hint names.
    pub(crate) fn place_of(&self, hint: i64) -> Option<u64>
        ensures value { result ≡ place_named self.now.log hint }
        ensures within { IfSome result (λ place. place < length self.now.log) }
    {
        if hint <= 0 {
            return None;
        }
        self.place_under(hint as u64)
    }

    /// The clause with an id.
    fn clause_under(&self, id: u64) -> Option<&[Lit]>
        requires { 1 ≤ id }
        ensures value { option_map (λ c. c.now) result
            ≡ said_under self.now.formula self.now.log id }
        ensures within { IfSome result (λ c. All (IsWithin self.now.size) c.now) }
    {
        if id <= self.formula.len() as u64 {
            return Some(self.formula.clause((id - 1) as u32));
        }
        let Some(place) = self.place_under(id) else {
            return None;
        };
        Some(self.log.step(place).lits)
    }

    /// Where the step stands that adds a clause under an id.
    fn place_under(&self, id: u64) -> Option<u64>
        ensures value { result ≡ place_from 0 self.now.log id }
        ensures within { IfSome result (λ place. place < length self.now.log) }
    {
        let Some(number) = number_of(&self.added, id) else {
            return None;
        };
        Some(self.added[number].place)
    }
}

/// Which of the steps adds a clause under an id. Their ids rise.
fn number_of(added: &[AddedStep], id: u64) -> Option<usize>
    requires { IdsRise added.now }
    ensures { MatchOption result (NoneHasId added.now id) (HasId added.now id) }
{
    if added.is_empty() {
        return None;
    }
    if id < added[0].id as u64 {
        return None;
    }
    let guess = id - added[0].id as u64;
    if guess < added.len() as u64 && added[guess as usize].id as u64 == id {
        return Some(guess as usize);
    }
    search(added, id)
}

/// The same without a guess.
fn search(added: &[AddedStep], id: u64) -> Option<usize>
    requires { IdsRise added.now }
    ensures { MatchOption result (NoneHasId added.now id) (HasId added.now id) }
{
    let mut low = 0;
    let mut high = added.len();
    while low < high {
        let middle = low + (high - low) / 2;
        let there = added[middle].id as u64;
        if there == id {
            return Some(middle);
        }
        if there < id {
            low = middle + 1;
        } else {
            high = middle;
        }
    }
    None
}

/// The steps of the log that add clauses, in order.
fn added_steps(alloc: Global, log: &Log) -> Result<Vec<AddedStep>, AllocError>
    ensures { IfOk result (λ added. added.items ≡ added_from 0 log.now.steps) }
{
    let mut added = Vec::new(alloc);
    for place in 0..log.len() {
        let step = log.step(place);
        if step.erase {
            continue;
        }
        added.push(AddedStep { id: step.id, place })?;
    }
    Ok(added)
}

/// A number that no variable of the formula and of the steps is above: the greatest of them.
fn greatest_variable(formula: &Formula, log: &Log) -> u32
    ensures inputs { All (All (IsWithin result)) formula.now.cnf.clauses }
    ensures added { All (StepWithin result) log.now.steps }
    ensures few { result ≤ LITERAL_LIMIT }
{
    let mut most = formula.vars();
    for place in 0..log.len() {
        most = greatest_of(most, log.step(place).lits);
    }
    most
}
