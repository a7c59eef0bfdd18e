//! Lemmas: the merged clauses that are hints more than once, each logged with the way to it.

ghost use Rattle.std.specs.Prelude.{◌≡◌, ◌≢◌, ◌+◌, ◌-◌, ◌≤◌, ℕ, [], Bool, List, Ok, Some, All, IfOk, IfSome, IsTrue, length, slice_get};
ghost use Rattle.sat_check.specs.Finder.{Finds};
ghost use Rattle.sat_check.specs.LiveStore.{live_at};
ghost use Rattle.sat_clause.specs.Formula.{Cnf};
ghost use Rattle.sat_clause.specs.Judge.{inputs as inputs_of};
ghost use Rattle.sat_clause.specs.Literal.{Clause, IsLiteral, IsWithin, variable as variable_of};
ghost use Rattle.sat_clause.specs.Learned.{IsSimple};
ghost use Rattle.sat_clause.specs.Live.{clause_at};
ghost use Rattle.sat_clause.specs.Step.{Step};
ghost use Rattle.sat_core.specs.Stands.{live_after};
ghost use Rattle.sat_core.specs.Underway.{HasSearched};
ghost use Rattle.sat_core.specs.declared.answer.Answer.TheVariants.{Refuted};
ghost use Rattle.sat_merge.specs.Known.{AreNoted};
ghost use Rattle.sat_merge.specs.Representatives.{keeps};
ghost use Rattle.sat_merge.specs.Lemmas.{AreLemmas};
ghost use Rattle.sat_merge.specs.Placing.{AddsLemma, AreTaken};
ghost use Rattle.sat_merge.specs.Rewritten.{AreKept, IsMerged};

use crate::hints::HintWriter;
use crate::known::KnownPairs;
use crate::moving::{added, move_steps};
use crate::places::Places;
use crate::representatives::Representatives;
use crate::rewriting::log_clause;
use sat_check::LiveClauses;
use sat_clause::{Formula, Lit, Log};
use std::alloc::{AllocError, Global};

/// Whether the number is that of an input whose literals are kept.
fn is_kept_input(formula: &Formula, representatives: &Representatives, input: u32) -> bool
    ensures { IsTrue result → (own : Clause) × (1 ≤ input)
        × (slice_get formula.now.cnf.clauses (input - 1) ≡ Some own)
        × AreKept (keeps representatives.now) own }
{
    let vars = formula.vars();
    if vars == 0 || input == 0 || input > formula.len() {
        return false;
    }
    representatives.are_kept(formula.clause(input - 1))
}

/// Gives an input its own id, if its literals are kept.
fn place_own(formula: &Formula, representatives: &Representatives, places: &mut Places, input: u32)
    ensures { (merged : Cnf) → (log : List Step)
        → IsMerged (keeps representatives.now) formula.now.cnf merged
        → AreLemmas (keeps representatives.now) formula.now.cnf merged places.old log
        → AreLemmas (keeps representatives.now) formula.now.cnf merged places.new log }
{
    if !is_kept_input(formula, representatives, input) {
        return;
    }
    if input > places.inputs() {
        return;
    }
    places.put(input, input);
}

/// Whether the clauses have the same literals in the same order.
fn are_same(one: &[Lit], other: &[Lit]) -> bool
    ensures { IsTrue result → one.now ≡ other.now }
{
    one == other
}

/// Gives an input the id of another one that was merged to the same clause, if that one has one.
fn place_twin(merged: &Formula, places: &mut Places, input: u32, other: u32)
    ensures { (is_representative : Lit → Bool) → (formula : Cnf) → (log : List Step)
        → AreLemmas is_representative formula merged.now.cnf places.old log
        → AreLemmas is_representative formula merged.now.cnf places.new log }
{
    let count = merged.len();
    if input == 0 || input > count || other == 0 || other > count {
        return;
    }
    if input > places.inputs() {
        return;
    }
    let id = places.of(other);
    if id == 0 {
        return;
    }
    let own = merged.clause(input - 1);
    let twin = merged.clause(other - 1);
    if !are_same(own, twin) {
        return;
    }
    places.put(input, id);
}

/// Gives an input an id where its merged clause stands: its own where it was kept, or that of
/// another one that was merged to the same.
fn place_found(
    formula: &Formula,
    merged: &Formula,
    representatives: &Representatives,
    known: &KnownPairs,
    places: &mut Places,
    input: u32,
)
    ensures { (log : List Step)
        → IsMerged (keeps representatives.now) formula.now.cnf merged.now.cnf
        → AreLemmas (keeps representatives.now) formula.now.cnf merged.now.cnf places.old log
        → AreLemmas (keeps representatives.now) formula.now.cnf merged.now.cnf places.new log }
{
    place_own(formula, representatives, places, input);
    if places.of(input) != 0 {
        return;
    }
    if input == 0 || input > merged.len() {
        return;
    }
    let Some(other) = known.twin(merged.clause(input - 1)) else {
        return;
    };
    place_own(formula, representatives, places, other);
    place_twin(merged, places, input, other);
}

/// Whether the variables of two literals are different.
fn differ(l: Lit, m: Lit) -> bool
    ensures { IsTrue result → variable_of l ≢ variable_of m }
{
    l.variable() != m.variable()
}

/// Whether there are one or two literals, of different variables.
fn is_once(clause: &[Lit]) -> bool
    ensures some { IsTrue result → clause.now ≢ [] }
    ensures once { IsTrue result → (n : ℕ) → All (IsWithin n) clause.now → IsSimple n clause.now }
{
    if clause.len() == 2 {
        return differ(clause[0], clause[1]);
    }
    clause.len() == 1
}

/// Logs a clause that an input was merged to, with the way to it.
fn log_lemma(
    representatives: &Representatives,
    live: &mut LiveClauses<'_>,
    writer: &mut HintWriter,
    log: &mut Log,
    id: u32,
    input: u32,
    clause: &[Lit],
) -> Result<bool, AllocError>
    requires literals { All IsLiteral clause.now }
    requires representatives { length representatives.now ≡ live.old.vars + 1 }
    requires vars { writer.old.vars ≡ live.old.vars }
    ensures live { live.new.vars ≡ live.old.vars }
    ensures vars { writer.new.vars ≡ writer.old.vars }
    ensures within { IfOk result (λ is. IsTrue is → All (IsWithin live.old.vars) clause.now) }
    ensures added { IfOk result (λ is. IsTrue is → (formula : Cnf)
        → Finds (live_at live.old) (live_after formula log.old.steps)
        → AddsLemma (keeps representatives.now) formula live.new log.old.steps log.new.steps id
        clause.now) }
{
    if !representatives.are_kept(clause) {
        return Ok(false);
    }
    let hint = [input as i64];
    if !writer.write(representatives, live, clause, &hint)? {
        return Ok(false);
    }
    log_clause(live, log, id, clause, writer.hints())?;
    Ok(true)
}

/// Takes the merged clause of an input as a lemma; false where it may not be new.
fn take_new(
    representatives: &Representatives,
    live: &mut LiveClauses<'_>,
    writer: &mut HintWriter,
    known: &mut KnownPairs,
    places: &mut Places,
    log: &mut Log,
    input: u32,
    clause: &[Lit],
) -> Result<bool, AllocError>
    requires literals { All IsLiteral clause.now }
    requires representatives { length representatives.now ≡ live.old.vars + 1 }
    requires vars { writer.old.vars ≡ live.old.vars }
    ensures live { live.new.vars ≡ live.old.vars }
    ensures vars { writer.new.vars ≡ writer.old.vars }
    ensures taken { IfOk result (λ is. IsTrue is → (formula : Cnf) → (merged : Cnf)
        → formula.vars ≡ live.old.vars
        → clause_at (inputs_of merged) input ≡ Some clause.now
        → AreTaken (keeps representatives.now) formula merged places.old known.old live.old
        log.old.steps
        → AreTaken (keeps representatives.now) formula merged places.new known.new live.new
        log.new.steps) }
{
    if !is_once(clause) {
        return Ok(false);
    }
    if !known.is_free(clause) {
        return Ok(false);
    }
    if input > places.inputs() {
        return Ok(false);
    }
    let Some(id) = places.next_id() else {
        return Ok(false);
    };
    if !log_lemma(representatives, live, writer, log, id, input, clause)? {
        return Ok(false);
    }
    if !known.note(clause, input)? {
        return Ok(false);
    }
    places.put_lemma(input, id);
    Ok(true)
}

/// Gives an input that is a hint an id: one under which its merged clause stands, or that of a
/// lemma. False where it can't have one.
fn take(
    formula: &Formula,
    merged: &Formula,
    representatives: &Representatives,
    live: &mut LiveClauses<'_>,
    writer: &mut HintWriter,
    known: &mut KnownPairs,
    places: &mut Places,
    log: &mut Log,
    input: u32,
) -> Result<bool, AllocError>
    requires representatives { length representatives.now ≡ live.old.vars + 1 }
    requires vars { writer.old.vars ≡ live.old.vars }
    ensures live { live.new.vars ≡ live.old.vars }
    ensures vars { writer.new.vars ≡ writer.old.vars }
    ensures taken { IfOk result (λ is. IsTrue is → formula.now.cnf.vars ≡ live.old.vars
        → IsMerged (keeps representatives.now) formula.now.cnf merged.now.cnf
        → AreTaken (keeps representatives.now) formula.now.cnf merged.now.cnf places.old known.old
        live.old log.old.steps
        → AreTaken (keeps representatives.now) formula.now.cnf merged.now.cnf places.new known.new
        live.new log.new.steps) }
{
    place_found(formula, merged, representatives, known, places, input);
    if places.of(input) != 0 {
        return Ok(true);
    }
    let vars = merged.vars();
    if vars == 0 || input == 0 || input > merged.len() {
        return Ok(false);
    }
    take_new(
        representatives,
        live,
        writer,
        known,
        places,
        log,
        input,
        merged.clause(input - 1),
    )
}

/// Gives inputs their ids, one by one. False where one can't have one.
fn take_all(
    formula: &Formula,
    merged: &Formula,
    representatives: &Representatives,
    live: &mut LiveClauses<'_>,
    writer: &mut HintWriter,
    known: &mut KnownPairs,
    places: &mut Places,
    log: &mut Log,
    often: &[u32],
) -> Result<bool, AllocError>
    requires representatives { length representatives.now ≡ live.old.vars + 1 }
    requires vars { writer.old.vars ≡ live.old.vars }
    ensures live { live.new.vars ≡ live.old.vars }
    ensures vars { writer.new.vars ≡ writer.old.vars }
    ensures taken { IfOk result (λ is. IsTrue is → formula.now.cnf.vars ≡ live.old.vars
        → IsMerged (keeps representatives.now) formula.now.cnf merged.now.cnf
        → AreTaken (keeps representatives.now) formula.now.cnf merged.now.cnf places.old known.old
        live.old log.old.steps
        → AreTaken (keeps representatives.now) formula.now.cnf merged.now.cnf places.new known.new
        live.new log.new.steps) }
{
    for input in often {
        if !take(
            formula,
            merged,
            representatives,
            live,
            writer,
            known,
            places,
            log,
            *input,
        )? {
            return Ok(false);
        }
    }
    Ok(true)
}

/// Gives inputs ids where their merged clauses stand.
fn place_all(
    formula: &Formula,
    merged: &Formula,
    representatives: &Representatives,
    known: &KnownPairs,
    places: &mut Places,
    once: &[u32],
)
    ensures { (log : List Step)
        → IsMerged (keeps representatives.now) formula.now.cnf merged.now.cnf
        → AreLemmas (keeps representatives.now) formula.now.cnf merged.now.cnf places.old log
        → AreLemmas (keeps representatives.now) formula.now.cnf merged.now.cnf places.new log }
{
    for input in once {
        place_found(formula, merged, representatives, known, places, *input);
    }
}

/// Inputs that are hints once, and those that are hints more often, each in the order in which they
/// come. A way that is walked once costs less than a lemma.
#[derive(Drop)]
struct Uses {
    times: Vec<u8>,
    once: Vec<u32>,
    often: Vec<u32>,
}

impl Uses {
    /// Counts one more hint.
    fn meet(&mut self, hint: i64) {
        let Ok(input) = u32::try_from(hint) else {
            return;
        };
        let at = input as usize;
        if at < self.times.len() {
            self.times[at] = self.times[at].saturating_add(1);
        }
    }

    /// Counts the hints of a step.
    fn meet_all(&mut self, hints: &[i64]) {
        for hint in hints {
            self.meet(*hint);
        }
    }

    /// Lists an input that was counted, unless it is listed already.
    fn list(&mut self, hint: i64) -> Result<(), AllocError> {
        let Ok(input) = u32::try_from(hint) else {
            return Ok(());
        };
        let at = input as usize;
        if at >= self.times.len() || self.times[at] == 0 {
            return Ok(());
        }
        let is_often = self.times[at] > 1;
        self.times[at] = 0;
        if is_often {
            self.often.push(input)?;
        } else {
            self.once.push(input)?;
        }
        Ok(())
    }

    /// Lists the inputs among the hints of a step.
    fn list_all(&mut self, hints: &[i64]) -> Result<(), AllocError> {
        for hint in hints {
            self.list(*hint)?;
        }
        Ok(())
    }
}

/// The inputs that steps have as hints, of so many.
fn used_inputs(alloc: Global, inputs: u32, steps: &Log) -> Result<Uses, AllocError> {
    let mut uses = Uses {
        times: vec![in alloc; 0; inputs as usize + 1]?,
        once: Vec::new(alloc),
        often: Vec::new(alloc),
    };
    for at in 0..steps.len() {
        let step = steps.step(at);
        if !step.erase {
            uses.meet_all(step.hints);
        }
    }
    for at in 0..steps.len() {
        let step = steps.step(at);
        if !step.erase {
            uses.list_all(step.hints)?;
        }
    }
    Ok(uses)
}

/// Marks the variables of the merged clause of an input, unless that was kept.
fn mark(
    formula: &Formula,
    merged: &Formula,
    representatives: &Representatives,
    input: u32,
    wanted: &mut [bool],
) {
    if input == 0 || input > merged.len() || is_kept_input(formula, representatives, input) {
        return;
    }
    for l in merged.clause(input - 1) {
        let at = l.variable() as usize;
        if at < wanted.len() {
            wanted[at] = true;
        }
    }
}

/// Marks the variables of the merged clauses of inputs, those that were kept left out.
fn mark_all(
    formula: &Formula,
    merged: &Formula,
    representatives: &Representatives,
    inputs: &[u32],
    wanted: &mut [bool],
) {
    for input in inputs {
        mark(formula, merged, representatives, *input, wanted);
    }
}

/// The pairs of negations in the clauses of a formula, of variables of the merged clauses that are
/// hints. `None` says that a clause is empty.
fn known_pairs(
    alloc: Global,
    formula: &Formula,
    merged: &Formula,
    representatives: &Representatives,
    uses: &Uses,
) -> Result<Option<KnownPairs>, AllocError>
    ensures { IfOk result (λ found. IfSome found (λ known. (keeps : Lit → Bool)
        → AreNoted keeps known (inputs_of formula.now.cnf))) }
{
    let mut wanted = vec![in alloc; false; formula.vars() as usize + 1]?;
    mark_all(formula, merged, representatives, &uses.once, &mut wanted);
    mark_all(formula, merged, representatives, &uses.often, &mut wanted);
    KnownPairs::of(alloc, formula, wanted)
}

/// Logs lemmas for the merged clauses that are hints of the steps more than once, and says where
/// merged clauses stand. `None` says that some lemma can't be had. The log has no step before, and
/// the clauses of the formula are live.
fn write_lemmas(
    alloc: Global,
    formula: &Formula,
    merged: &Formula,
    representatives: &Representatives,
    live: &mut LiveClauses<'_>,
    writer: &mut HintWriter,
    steps: &Log,
    log: &mut Log,
) -> Result<Option<Places>, AllocError>
    requires fresh { log.old.steps ≡ [] }
    requires representatives { length representatives.now ≡ live.old.vars + 1 }
    requires vars { writer.old.vars ≡ live.old.vars }
    requires same { formula.now.cnf.vars ≡ live.old.vars }
    requires found { Finds (live_at live.old) (inputs_of formula.now.cnf) }
    requires merged { IsMerged (keeps representatives.now) formula.now.cnf merged.now.cnf }
    ensures live { live.new.vars ≡ live.old.vars }
    ensures vars { writer.new.vars ≡ writer.old.vars }
    ensures lemmas { IfOk result (λ found. IfSome found (λ places. AreLemmas
        (keeps representatives.now) formula.now.cnf merged.now.cnf places log.new.steps)) }
    ensures found { IfOk result (λ found. IfSome found (λ places.
        Finds (live_at live.new) (live_after formula.now.cnf log.new.steps))) }
{
    let uses = used_inputs(alloc, formula.len(), steps)?;
    let Some(mut known) = known_pairs(alloc, formula, merged, representatives, &uses)? else {
        return Ok(None);
    };
    let mut places = Places::new(alloc, formula.len())?;
    if !take_all(
        formula,
        merged,
        representatives,
        live,
        writer,
        &mut known,
        &mut places,
        log,
        &uses.often,
    )? {
        return Ok(None);
    }
    place_all(
        formula,
        merged,
        representatives,
        &known,
        &mut places,
        &uses.once,
    );
    Ok(Some(places))
}

/// Makes the log of a search that refuted merged clauses one that refutes the formula: lemmas, and
/// then the same steps under other ids. False where some can't stand there, or there would be more
/// clauses than this. The log has no step before.
pub(crate) fn rewrite_refutation(
    alloc: Global,
    formula: &Formula,
    merged: &Formula,
    representatives: &Representatives,
    steps: &Log,
    budget: u64,
    log: &mut Log,
) -> Result<bool, AllocError>
    requires fresh { log.old.steps ≡ [] }
    requires representatives { length representatives.now ≡ formula.now.cnf.vars + 1 }
    requires merged { IsMerged (keeps representatives.now) formula.now.cnf merged.now.cnf }
    ensures { IfOk result (λ is. IsTrue is → (keep : Bool)
        → HasSearched merged.now.cnf budget keep steps.now.steps (Ok Refuted)
        → HasSearched formula.now.cnf budget keep log.new.steps (Ok Refuted)) }
{
    let mut live = LiveClauses::inputs(alloc, formula)?;
    let mut writer = HintWriter::new(alloc, formula.vars())?;
    let found = write_lemmas(
        alloc,
        formula,
        merged,
        representatives,
        &mut live,
        &mut writer,
        steps,
        log,
    )?;
    let Some(places) = found else {
        return Ok(false);
    };
    let lemmas = places.lemmas() as u64;
    let learned = added(steps);
    if lemmas > budget {
        return Ok(false);
    }
    if learned > budget - lemmas {
        return Ok(false);
    }
    if !move_steps(
        alloc,
        representatives,
        &places,
        &mut live,
        &mut writer,
        steps,
        log,
    )? {
        return Ok(false);
    }
    Ok(true)
}
