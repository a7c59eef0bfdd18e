//! The nets that stand against each other.
ghost use Rattle.std.specs.Prelude.{◌≡◌, ◌≤◌, ◌<◌, ◌*◌, ◌^◌, ◌||◌, ℕ, suc, All, IfOk, IfSome, false, filter, length, slice_index_or};
ghost use Rattle.fpga_types.specs.Slots.{slots};
ghost use Rattle.route_encode.specs.Encoding.{below};
ghost use Rattle.sat_clause.specs.Literal.{IsWithin};
ghost use Rattle.route_core.specs.Blamed.{blamed, is_hint, speaks_of, used_places};
ghost use Rattle.route_core.specs.Blaming.{blames_at, input_named, names_input};
ghost use Rattle.route_core.specs.Core.{AreUnroutable};
ghost use Rattle.route_core.specs.Fair.{IsFair};
ghost use Rattle.route_core.specs.Trimmed.{IsTrimmed};
ghost use Rattle.std.specs.List.{list_any};

use fpga_bounds::PlacedProblem;
use fpga_types::{NET_LIMIT, Slot, WIDTH_LIMIT};
use route_encode::Encoder;
use sat_clause::{CLAUSE_LIMIT, Formula, Lit, Log};
use std::alloc::{AllocError, Global};

/// The positions of the nets, rising, of whose slots a clause speaks that a hint of the log names.
/// These nets have no legal routing by themselves. The log is a trimmed refutation of the clauses
/// that this encoder makes of the problem, which are to be fair.
///
/// It builds the clauses anew, and then goes on as [`blame_in`].
///
/// # Errors
/// Where memory is short.
pub fn blame<E: Encoder>(
    alloc: Global,
    encoder: &E,
    p: &PlacedProblem,
    width: u32,
    log: &Log,
) -> Result<Vec<u32>, AllocError>
    requires width { (1 ≤ width) × (width ≤ WIDTH_LIMIT) }
    requires few { length (E.formula_of encoder.now p.now width).clauses ≤ CLAUSE_LIMIT }
    requires fair { IsFair width p.now (E.formula_of encoder.now p.now width) }
    requires trimmed { IsTrimmed (E.formula_of encoder.now p.now width) log.now.steps
        log.now.steps }
    ensures nets { IfOk result (λ nets. nets.items
        ≡ blamed width p.now (E.formula_of encoder.now p.now width) log.now.steps) }
    ensures unroutable { IfOk result (λ nets. AreUnroutable width p.now nets.items) }
{
    let formula = encoder.build(alloc, p, width)?;
    let nets = blame_in(alloc, p, width, &formula, log)?;
    Ok(nets)
}

/// The same, where the clauses are at hand.
///
/// It takes time by the hints of the log and the clauses that they name, and a byte for each clause
/// and each net.
///
/// # Errors
/// Where memory is short.
pub fn blame_in(
    alloc: Global,
    p: &PlacedProblem,
    width: u32,
    formula: &Formula,
    log: &Log,
) -> Result<Vec<u32>, AllocError>
    requires width { 1 ≤ width }
    requires fair { IsFair width p.now formula.now.cnf }
    requires trimmed { IsTrimmed formula.now.cnf log.now.steps log.now.steps }
    ensures nets { IfOk result
        (λ nets. nets.items ≡ blamed width p.now formula.now.cnf log.now.steps) }
    ensures unroutable { IfOk result (λ nets. AreUnroutable width p.now nets.items) }
{
    let used = used_inputs(alloc, formula.len(), log)?;
    let marks = net_marks(alloc, p, width, formula, &used)?;
    let nets = marked(alloc, &marks)?;
    Ok(nets)
}

/// The positions, rising, of those of so many input clauses that hints of a log name.
///
/// It takes time by the hints of the log, and a byte for each input clause.
///
/// # Errors
/// Where memory is short.
pub fn used_clauses(alloc: Global, count: u32, log: &Log) -> Result<Vec<u32>, AllocError>
    ensures { IfOk result (λ used. used.items ≡ used_places count log.now.steps) }
{
    let marks = used_inputs(alloc, count, log)?;
    let used = marked(alloc, &marks)?;
    Ok(used)
}

/// Of so many input clauses the marks of those that hints name.
fn used_inputs(alloc: Global, count: u32, log: &Log) -> Result<Vec<bool>, AllocError>
    ensures many { IfOk result (λ used. length used.items ≡ count) }
    ensures used { IfOk result (λ used. (at : ℕ) → at < count
        → slice_index_or used.items at false ≡ is_hint log.now.steps (suc at)) }
{
    let mut used = vec![in alloc; false; count as usize]?;
    mark_used(log, &mut used);
    Ok(used)
}

/// The marks of the nets of whose slots a used clause speaks.
fn net_marks(
    alloc: Global,
    p: &PlacedProblem,
    width: u32,
    formula: &Formula,
    used: &[bool],
) -> Result<Vec<bool>, AllocError>
    requires width { 1 ≤ width }
    requires vars { formula.now.cnf.vars ≡ length (slots p.now.route) * width }
    requires used { length used.now ≡ length formula.now.cnf.clauses }
    ensures many { IfOk result (λ marks. length marks.items ≡ length p.now.route.nets) }
    ensures few { length p.now.route.nets ≤ NET_LIMIT }
    ensures marks { IfOk result (λ marks. (net : ℕ) → net < length p.now.route.nets
        → slice_index_or marks.items net false
        ≡ list_any
        (blames_at used.now formula.now.cnf.clauses width (slots p.now.route) net)
        (below (length used.now))) }
{
    let mut marks = vec![in alloc; false; p.route().nets.as_slice().len()]?;
    mark_nets(formula, used, p.slots(), width, &mut marks);
    Ok(marks)
}

/// Marks the input clauses that hints name.
fn mark_used(log: &Log, used: &mut [bool])
    requires { All (λ mark. mark ≡ false) used.old }
    ensures { (at : ℕ) → at < length used.old
        → slice_index_or used.new at false ≡ is_hint log.now.steps (suc at) }
{
    for at in 0..log.len() {
        let step = log.step(at);
        if step.erase {
            continue;
        }
        mark_hints(step.hints, used);
    }
}

/// Marks the input clauses that these hints name.
fn mark_hints(hints: &[i64], used: &mut [bool])
    ensures { (at : ℕ) → at < length used.old → slice_index_or used.new at false
        ≡ (slice_index_or used.old at false || list_any (names_input at) hints.now) }
{
    for hint in hints {
        let Some(at) = input_named(used.len(), *hint) else {
            continue;
        };
        used[at] = true;
    }
}

/// The position of the input clause, of so many, that a hint names.
fn input_named(count: usize, hint: i64) -> Option<usize>
    ensures value { result ≡ input_named count hint }
    ensures within { IfSome result (λ at. at < count) }
{
    if hint <= 0 {
        return None;
    }
    let id = hint as u64;
    if id > count as u64 {
        return None;
    }
    Some((id - 1) as usize)
}

/// Marks the nets of whose slots a used clause speaks.
fn mark_nets(formula: &Formula, used: &[bool], slots: &[Slot], width: u32, marks: &mut [bool])
    requires width { 1 ≤ width }
    requires used { length used.now ≡ length formula.now.cnf.clauses }
    requires vars { formula.now.cnf.vars ≡ length slots.now * width }
    requires there { All (λ slot. slot.net < length marks.old) slots.now }
    requires clear { All (λ mark. mark ≡ false) marks.old }
    ensures { (net : ℕ) → net < length marks.old → slice_index_or marks.new net false
        ≡ list_any (blames_at used.now formula.now.cnf.clauses width slots.now net)
        (below (length used.now)) }
{
    for at in 0..formula.len() {
        if !used[at as usize] {
            continue;
        }
        mark_clause(formula.clause(at), slots, width, marks);
    }
}

/// Marks the nets of whose slots the clause speaks.
fn mark_clause(clause: &[Lit], slots: &[Slot], width: u32, marks: &mut [bool])
    requires width { 1 ≤ width }
    requires within { All (IsWithin (length slots.now * width)) clause.now }
    requires there { All (λ slot. slot.net < length marks.old) slots.now }
    ensures { (net : ℕ) → net < length marks.old → slice_index_or marks.new net false
        ≡ (slice_index_or marks.old net false || speaks_of width slots.now net clause.now) }
{
    for l in clause {
        let slot = (l.variable() - 1) / width;
        marks[slots[slot as usize].net as usize] = true;
    }
}

/// The positions that are marked, rising.
fn marked(alloc: Global, marks: &[bool]) -> Result<Vec<u32>, AllocError>
    requires { length marks.now < 2 ^ 32 }
    ensures { IfOk result (λ nets. nets.items
        ≡ filter (λ net. slice_index_or marks.now net false) (below (length marks.now))) }
{
    let mut nets = Vec::new(alloc);
    for net in 0..marks.len() {
        if !marks[net] {
            continue;
        }
        nets.push(net as u32)?;
    }
    Ok(nets)
}
