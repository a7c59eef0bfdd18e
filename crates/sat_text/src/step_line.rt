//! The numbers of a line of an LRAT text, and the step that they say.
ghost use Rattle.std.specs.Prelude.{◌≡◌, ◌<◌, ◌∷◌, [], ◌&&◌, ℕ, ℤ, option_map, nat_abs, true, false, map, All, IfOk, IfErr, OnOk, IfSome, IfNone, None, Some, if◌then◌else◌};
ghost use Rattle.std.specs.List.{list_any, slice_split};
ghost use Rattle.fpga_text.specs.declared.fault.TextFault.TheVariants.{Bad};
ghost use Rattle.sat_clause.specs.Literal.{IsLiteral, lit};
ghost use Rattle.sat_clause.specs.Step.{Added, Erased};
ghost use Rattle.fpga_text.specs.FirstFault.{AnswersFault, IsFaultOf};
ghost use Rattle.sat_text.specs.ByNumbers.{numbers_fault};
ghost use Rattle.sat_text.specs.declared.hint_rule.HintRule.{HintRule as HintRuleOf};
ghost use Rattle.sat_text.specs.FrontNumbers.{IsAtNoNumber, PushesFront};
ghost use Rattle.sat_text.specs.LratText.{added_by, added_limit, added_step, bars, begins_with_d as begins_with_d_of, deleted_ids, due_words, ends_with_zero, erased_limit, erased_step, first_past as first_past_of, is_below_zero, is_deletion, is_not_positive};
ghost use Rattle.sat_text.specs.Numbers.{is_zero as is_zero_of, lacks_number, numbers_of};

use crate::cause::Cause;
use crate::hint_rule::HintRule;
use crate::number::is_zero;
use fpga_text::{Coded, Line, TextFault};
use sat_clause::{ID_LIMIT, VARIABLE_LIMIT};
use std::alloc::AllocError;

/// The greatest id and the greatest hint.
pub const MOST_ID: u64 = ID_LIMIT as u64;

/// The greatest number of a variable.
pub const MOST_VARIABLE: u64 = VARIABLE_LIMIT as u64;

/// What a line says that adds a clause.
#[derive(Clone, Copy)]
pub struct Addition<'a> {
    pub id: u32,
    pub lits: &'a [i64],
    pub hints: &'a [i64],
}

/// What a line says that deletes clauses.
#[derive(Clone, Copy)]
pub struct Deletion<'a> {
    pub id: u32,
    pub ids: &'a [i64],
}

/// Puts the numbers of a line behind these, up to a word that says none.
fn push_numbers(numbers: &mut Vec<i64>, line: &mut Line<'_>) -> Result<(), AllocError>
    ensures front { OnOk result (PushesFront numbers.old.items numbers.new.items line.old.words
        line.new.words) }
    ensures end { OnOk result (IsAtNoNumber line.new.words) }
{
    while let Some(number) = line.next_number() {
        let Ok(()) = numbers.push(number) else {
            return Err(AllocError);
        };
    }
    Ok(())
}

/// Whether the first word is a `d`.
fn begins_with_d(line: &Line<'_>) -> bool
    ensures { result ≡ begins_with_d_of line.now.words }
{
    let mut ahead = line.again();
    match ahead.next_word() {
        Some(word) => word.text == b"d".as_slice(),
        None => false,
    }
}

/// Reads the numbers of a line in place of these, and answers whether the line deletes clauses.
pub fn read_numbers(numbers: &mut Vec<i64>, line: &mut Line<'_>) -> Result<bool, TextFault>
    ensures { AnswersFault
        (if lacks_number (due_words line.old.words) then Some (Bad line.old.number 701) else None)
        (λ deletes. (deletes ≡ is_deletion line.old.words) × (numbers.new.items ≡ numbers_of
        (due_words line.old.words))) result }
{
    numbers.clear();
    let at = line.number();
    let Some(first) = line.next_number() else {
        if line.has_words() {
            return Err(Cause::StepNumber.at(at));
        }
        return Ok(false);
    };
    let Ok(()) = numbers.push(first) else {
        return Err(TextFault::Memory);
    };
    let deletes = begins_with_d(line);
    if deletes {
        line.next_word();
    }
    let Ok(()) = push_numbers(numbers, line) else {
        return Err(TextFault::Memory);
    };
    if line.has_words() {
        return Err(Cause::StepNumber.at(at));
    }
    Ok(deletes)
}

/// What stands before the first 0 and what stands behind it, if there is a 0.
fn cut_at_zero<'a>(numbers: &'a [i64]) -> Option<(&'a [i64], &'a [i64])>
    ensures cut { IfSome result
        (λ cut. slice_split is_zero_of numbers.now ≡ cut.0.now ∷ slice_split is_zero_of
        cut.1.now) }
    ensures before { IfSome result (λ cut. All (λ n. is_zero_of n ≡ false) cut.0.now) }
    ensures whole { IfNone result (slice_split is_zero_of numbers.now ≡ numbers.now ∷ []) }
{
    for (i, n) in numbers.iter().enumerate() {
        if is_zero(n) {
            let (before, _) = numbers.split_at(i);
            let (_, behind) = numbers.split_at(i + 1);
            return Some((before, behind));
        }
    }
    None
}

/// The first size that is past the limit.
fn first_past(numbers: &[i64], most: u64) -> Option<u64>
    ensures { result ≡ first_past_of most numbers.now }
{
    numbers.iter().map(|n| n.unsigned_abs()).find(|n| *n > most)
}

/// Whether one of the numbers is negative.
fn has_negative(numbers: &[i64]) -> bool
    ensures { result ≡ list_any is_below_zero numbers.now }
{
    numbers.iter().any(|n| *n < 0)
}

/// Whether one of the hints is negative and may not be so at a clause of these literals.
fn has_barred_hint(rule: HintRule, lits: &[i64], hints: &[i64]) -> bool
    ensures { result ≡ (list_any is_below_zero hints.now && bars rule (map lit lits.now)) }
{
    if !has_negative(hints) {
        return false;
    }
    match rule {
        HintRule::Plain => true,
        HintRule::Full => lits.is_empty(),
    }
}

/// Whether one of the numbers is negative or 0.
fn has_not_positive(numbers: &[i64]) -> bool
    ensures { result ≡ list_any is_not_positive numbers.now }
{
    numbers.iter().any(|n| *n <= 0)
}

/// Of an added clause the first size that is past its limit: the id, a literal, a hint.
fn added_limit(id: i64, lits: &[i64], hints: &[i64]) -> Option<u64>
    ensures { result ≡ added_limit (nat_abs id) (map lit lits.now) hints.now }
{
    if id.unsigned_abs() > MOST_ID {
        return Some(id.unsigned_abs());
    }
    if let Some(count) = first_past(lits, MOST_VARIABLE) {
        return Some(count);
    }
    first_past(hints, MOST_ID)
}

/// Of a deletion the first id that is past its limit.
fn erased_limit(id: i64, ids: &[i64]) -> Option<u64>
    ensures { result ≡ erased_limit (nat_abs id) ids.now }
{
    if id.unsigned_abs() > MOST_ID {
        return Some(id.unsigned_abs());
    }
    first_past(ids, MOST_ID)
}

/// The ids of a deletion, and whether a 0 closes them.
fn deleted<'a>(numbers: &'a [i64]) -> (&'a [i64], bool)
    ensures ids { result.0.now ≡ deleted_ids numbers.now }
    ensures closed { result.1 ≡ ends_with_zero numbers.now }
{
    let Some((last, before)) = numbers.split_last() else {
        return (numbers, false);
    };
    if is_zero(last) {
        return (before, true);
    }
    (numbers, false)
}

/// The deletion that the numbers of a line say, or why they are refused.
pub fn deletion_said<'a>(numbers: &'a [i64], line: u64) -> Result<Deletion<'a>, TextFault>
    ensures step { IfOk result (λ said. erased_step numbers.now ≡ Some
        (Erased said.id said.ids.now)) }
    ensures clean { IfOk result
        (λ _. (rule : HintRuleOf) (above : ℕ)
        → numbers_fault rule above line true numbers.now ≡ None) }
    ensures err { IfErr result (λ fault. (rule : HintRuleOf) (above : ℕ) → IsFaultOf
        (numbers_fault rule above line true numbers.now)
        fault) }
{
    let Some((id, more)) = numbers.split_first() else {
        return Err(Cause::StepForm.at(line));
    };
    let (ids, closed) = deleted(more);
    if *id <= 0 || has_not_positive(ids) {
        return Err(Cause::StepNumber.at(line));
    }
    if !closed {
        return Err(Cause::StepForm.at(line));
    }
    if let Some(count) = erased_limit(*id, ids) {
        return Err(Cause::NumberLimit.past(count));
    }
    Ok(Deletion {
        id: *id as u32,
        ids,
    })
}

/// The literals and the hints of an added clause: what the first 0 ends, and what the second, the
/// last number, ends.
fn clause_and_hints<'a>(numbers: &'a [i64]) -> Option<(&'a [i64], &'a [i64])>
    ensures step { (id : ℤ) → added_by id (slice_split is_zero_of numbers.now) ≡ option_map
        (λ said. Added (nat_abs id) (map lit said.0.now) said.1.now) result }
    ensures nonzero { IfSome result (λ said. All (λ n. is_zero_of n ≡ false) said.0.now) }
{
    let Some((lits, behind)) = cut_at_zero(numbers) else {
        return None;
    };
    let Some((hints, end)) = cut_at_zero(behind) else {
        return None;
    };
    if !end.is_empty() {
        return None;
    }
    Some((lits, hints))
}

/// The added clause that the numbers of a line say, or why they are refused. Its id has to be above
/// this number, and its hints have to keep the rule.
pub fn addition_said<'a>(
    numbers: &'a [i64],
    rule: HintRule,
    above: u32,
    line: u64,
) -> Result<Addition<'a>, TextFault>
    ensures step { IfOk result (λ said. added_step numbers.now ≡ Some
        (Added said.id (map lit said.lits.now) said.hints.now)) }
    ensures above { IfOk result (λ said. above < said.id) }
    ensures literals { IfOk result (λ said. All (λ n. IsLiteral (lit n)) said.lits.now) }
    ensures clean { IfOk result (λ _. numbers_fault rule above line false numbers.now ≡ None) }
    ensures err { IfErr result (IsFaultOf (numbers_fault rule above line false numbers.now)) }
{
    let Some((id, more)) = numbers.split_first() else {
        return Err(Cause::StepForm.at(line));
    };
    if *id <= 0 {
        return Err(Cause::StepNumber.at(line));
    }
    let Some((lits, hints)) = clause_and_hints(more) else {
        return Err(Cause::StepForm.at(line));
    };
    if *id <= i64::from(above) {
        return Err(Cause::IdOrder.at(line));
    }
    if has_barred_hint(rule, lits, hints) {
        return Err(Cause::HintSign.at(line));
    }
    if let Some(count) = added_limit(*id, lits, hints) {
        return Err(Cause::NumberLimit.past(count));
    }
    Ok(Addition {
        id: *id as u32,
        lits,
        hints,
    })
}
