//! The clauses of a formula, as a search takes them in: those of two literals first, so that they
//! stand one beside another in the arena, and then the others.

ghost use Rattle.std.specs.Prelude.{All, ◌≡◌, ◌≤◌, ◌<◌, ◌+◌, [], length, slice_get, OnOk, IfOk, false, true, None, Some, suc};
ghost use Rattle.sat_clause.specs.Formula.{Cnf};
ghost use Rattle.sat_clause.specs.Literal.{IsWithin};
ghost use Rattle.sat_core.specs.Inputs.{AreLeft, HasTaken, Keeps, MayKeep, is_pair as is_pair_of, no_singles, pairs_and_below, pairs_below};
ghost use Rattle.sat_core.specs.Kept.{is_always_true};

use crate::clause_list::ClauseList;
use crate::distinct::{is_rising, take_distinct};
use crate::occurrences::Occurrences;
use sat_arena::Arena;
use sat_clause::{Formula, ID_LIMIT, Lit};
use sat_watch::Watches;
use std::alloc::{AllocError, Global};

/// How many words of the arena are for learned clauses at first, and for what clauses have beyond
/// two literals. Where there are more the arena grows.
const SPARE_WORDS: u64 = 1048576;

/// How many words a clause of two literals takes in an arena.
const PAIR_WORDS: u64 = 8;

/// For how many words an arena gets room at first: most clauses of a formula have two literals.
fn words_for(formula: &Formula) -> u64 {
    u64::from(formula.len()) * PAIR_WORDS + SPARE_WORDS
}

/// Whether these are two literals of different variables.
fn is_pair(lits: &[Lit]) -> bool
    ensures { result ≡ is_pair_of lits.now }
{
    lits.len() == 2 && lits[0].variable() != lits[1].variable()
}

/// Whether these are two different literals: a pair, or a clause that is always true.
fn are_two(lits: &[Lit]) -> bool
    ensures always { result ≡ true → is_pair_of lits.now ≡ false
        → is_always_true lits.now ≡ true }
    ensures no_pair { result ≡ false → is_pair_of lits.now ≡ false }
{
    if lits.len() != 2 {
        return false;
    }
    if lits[0] != lits[1] {
        return true;
    }
    false
}

/// Keeps a clause without a variable twice under an id that is new: it is attached where it has two
/// literals, else it waits among the single ones.
fn keep(
    watches: &mut Watches,
    singles: &mut ClauseList,
    lits: &[Lit],
    id: u32,
) -> Result<(), AllocError>
    requires { MayKeep singles.old watches.old lits.now id }
    ensures { OnOk result (Keeps singles.old singles.new watches.old watches.new lits.now id) }
{
    if lits.len() < 2 {
        return singles.add(id, lits);
    }
    watches.attach(lits, id)?;
    Ok(())
}

/// Puts the position of a clause that is no pair behind those of others, unless it is two literals
/// that are always true.
fn list_other(others: &mut Vec<u32>, lits: &[Lit], i: u32) -> Result<(), AllocError>
    ensures { OnOk result ((formula : Cnf) → slice_get formula.clauses i ≡ Some lits.now
        → AreLeft formula 0 others.old.items i → AreLeft formula 0 others.new.items (suc i)) }
{
    if are_two(lits) {
        return Ok(());
    }
    others.push(i)?;
    Ok(())
}

/// Attaches the clauses of a formula that are two literals of different variables, and counts
/// these. Gives the positions of the others, but of those of two literals that are always true.
fn attach_pairs(
    alloc: Global,
    watches: &mut Watches,
    counts: &mut Occurrences,
    formula: &Formula,
) -> Result<Vec<u32>, AllocError>
    requires ids { length formula.now.cnf.clauses ≤ ID_LIMIT }
    requires none { HasTaken formula.now.cnf (pairs_below 0) (no_singles formula.now.cnf)
        watches.old }
    ensures taken { OnOk result (HasTaken formula.now.cnf
        (pairs_below (length formula.now.cnf.clauses)) (no_singles formula.now.cnf) watches.new) }
    ensures left { IfOk result (λ others.
        AreLeft formula.now.cnf 0 others.items (length formula.now.cnf.clauses)) }
{
    let mut others = Vec::new(alloc);
    for i in 0..formula.len() {
        let lits = formula.clause(i);
        if !is_pair(lits) {
            list_other(&mut others, lits, i)?;
            continue;
        }
        counts.count(lits);
        watches.attach(lits, i + 1)?;
    }
    Ok(others)
}

/// Keeps the different literals of a clause of a formula, which is no pair, unless it is always
/// true, and counts its literals. Two vectors are lent, whatever they hold.
fn keep_distinct(
    watches: &mut Watches,
    singles: &mut ClauseList,
    counts: &mut Occurrences,
    sorted: &mut Vec<Lit>,
    distinct: &mut Vec<Lit>,
    formula: &Formula,
    i: u32,
) -> Result<(), AllocError>
    requires ids { length formula.now.cnf.clauses ≤ ID_LIMIT }
    requires within { i < length formula.now.cnf.clauses }
    requires taken { HasTaken formula.now.cnf (pairs_and_below i) singles.old watches.old }
    requires few { length singles.old.clauses ≤ i }
    ensures taken { OnOk result
        (HasTaken formula.now.cnf (pairs_and_below (suc i)) singles.new watches.new) }
    ensures few { OnOk result (length singles.new.clauses ≤ suc i) }
{
    let lits = formula.clause(i);
    if are_two(lits) {
        return Ok(());
    }
    counts.count(lits);
    if is_rising(lits) {
        return keep(watches, singles, lits, i + 1);
    }
    if !take_distinct(lits, sorted, distinct)? {
        return Ok(());
    }
    keep(watches, singles, distinct, i + 1)
}

/// Keeps the clauses of a formula at these positions, and counts their literals. The rest are pairs
/// or always true.
fn keep_others(
    alloc: Global,
    watches: &mut Watches,
    singles: &mut ClauseList,
    counts: &mut Occurrences,
    formula: &Formula,
    others: &[u32],
) -> Result<(), AllocError>
    requires ids { length formula.now.cnf.clauses ≤ ID_LIMIT }
    requires pairs { HasTaken formula.now.cnf (pairs_and_below 0) singles.old watches.old }
    requires none { singles.old.clauses ≡ [] }
    requires left { AreLeft formula.now.cnf 0 others.now (length formula.now.cnf.clauses) }
    ensures { OnOk result (HasTaken formula.now.cnf
        (pairs_and_below (length formula.now.cnf.clauses)) singles.new watches.new) }
{
    let mut sorted = Vec::new(alloc);
    let mut distinct = Vec::new(alloc);
    for i in others {
        keep_distinct(
            watches,
            singles,
            counts,
            &mut sorted,
            &mut distinct,
            formula,
            *i,
        )?;
    }
    Ok(())
}

/// Watches and single clauses that are those of a formula.
#[derive(Drop)]
pub(crate) struct Inputs {
    pub(crate) watches: Watches,
    pub(crate) singles: ClauseList,
}

/// Takes the clauses of a formula in, and counts their literals.
pub(crate) fn take_inputs(
    alloc: Global,
    formula: &Formula,
    counts: &mut Occurrences,
) -> Result<Inputs, AllocError>
    requires { length formula.now.cnf.clauses ≤ ID_LIMIT }
    ensures taken { IfOk result (λ inputs. HasTaken formula.now.cnf
        (pairs_and_below (length formula.now.cnf.clauses)) inputs.singles inputs.watches) }
    ensures within { IfOk result (λ _.
        All (All (IsWithin formula.now.cnf.vars)) formula.now.cnf.clauses) }
{
    let mut arena = Arena::new(alloc);
    arena.reserve(words_for(formula))?;
    let mut watches = Watches::new(alloc, arena, formula.vars())?;
    let mut singles = ClauseList::new(alloc, formula.vars())?;
    let others = attach_pairs(alloc, &mut watches, counts, formula)?;
    watches.make_tails(alloc);
    keep_others(alloc, &mut watches, &mut singles, counts, formula, &others)?;
    Ok(Inputs { watches, singles })
}
