//! The formula in which the implied variables stand as their representatives.

ghost use Rattle.std.specs.Prelude.{◌≡◌, ◌+◌, ◌∷◌, ◌≤◌, ℕ, [], IfOk, IfSome, Ok, All, length, true};
ghost use Rattle.sat_clause.specs.Literal.{IsLiteral, IsWithin, variable as variable_of};
ghost use Rattle.sat_merge.specs.Merging.{Adds, MayAdd};
ghost use Rattle.sat_merge.specs.Representatives.{keeps};
ghost use Rattle.sat_merge.specs.Rewritten.{AreKept, IsMerged};

use crate::representatives::{ImpliedVariable, Representatives};
use sat_clause::{Formula, ID_LIMIT, LITERAL_LIMIT, Lit};
use std::alloc::{AllocError, Global};

/// Room is made for so many literals at a time.
const ROOM: u64 = 65536;

/// The id of the first clause of three or more literals in which a variable stands without a
/// negation, 0 where there is none.
fn choice_of(representatives: &Representatives, variable: u32) -> u32 {
    let Some(implied) = representatives.get(variable) else {
        return 0;
    };
    implied.choice
}

/// Whether the clause is a choice among implied variables whose representatives are of one choice.
fn is_choice(representatives: &Representatives, clause: &[Lit]) -> bool {
    let mut choice = 0;
    for l in clause {
        let Some(implied) = representatives.get(l.variable()) else {
            return false;
        };
        let own = choice_of(representatives, implied.representative);
        if !l.is_positive() || own == 0 || (choice != 0 && choice != own) {
            return false;
        }
        choice = own;
    }
    true
}

/// Whether a clause of these two literals forbids two implied variables of one choice, as another
/// one forbids their representatives.
fn is_rivalry(first: Lit, one: ImpliedVariable, second: Lit, other: ImpliedVariable) -> bool {
    !first.is_positive()
        && !second.is_positive()
        && one.choice != 0
        && one.choice == other.choice
        && one.by != 0
        && other.by != 0
}

/// Whether the clauses of the representatives say already what a clause of two literals says: it is
/// the one by which one of its variables is implied, or forbids rivals, or is a choice.
fn is_said(representatives: &Representatives, first: Lit, second: Lit, id: u32) -> bool {
    let Some(one) = representatives.get(first.variable()) else {
        return false;
    };
    let Some(other) = representatives.get(second.variable()) else {
        return false;
    };
    one.by == id
        || other.by == id
        || is_rivalry(first, one, second, other)
        || (first.is_positive() && is_choice(representatives, &[first, second]))
}

/// The literal of a variable, negated or not.
fn literal_of(variable: u32, is_positive: bool) -> Lit
    requires above { 1 ≤ variable }
    requires small { variable ≤ LITERAL_LIMIT }
    ensures { variable_of result ≡ variable }
{
    let l = Lit::positive(variable);
    if is_positive {
        return l;
    }
    l.negation()
}

/// The literal with the representative of its variable, unless an implied one stands without a
/// negation.
fn represented_literal(representatives: &Representatives, l: Lit) -> Option<Lit>
    requires { length representatives.now ≤ LITERAL_LIMIT + 1 }
    ensures { IfSome result (λ represented. (vars : ℕ) → length representatives.now ≡ vars + 1
        → IsWithin vars represented) }
{
    let Some(representative) = representatives.representative(l.variable()) else {
        return None;
    };
    if l.is_positive() && representative != l.variable() {
        return None;
    }
    Some(literal_of(representative, l.is_positive()))
}

/// The clause of two literals with the representatives of their variables, if these are two, and
/// all that are implied are negated.
fn represented_pair(representatives: &Representatives, first: Lit, second: Lit) -> Option<[Lit; 2]>
    requires { length representatives.now ≤ LITERAL_LIMIT + 1 }
    ensures { IfSome result (λ image. (vars : ℕ) → length representatives.now ≡ vars + 1
        → All (IsWithin vars) image) }
{
    let Some(one) = represented_literal(representatives, first) else {
        return None;
    };
    let Some(other) = represented_literal(representatives, second) else {
        return None;
    };
    if one.variable() == other.variable() {
        return None;
    }
    Some([one, other])
}

/// Whether both literals are of representatives.
fn are_both(representatives: &Representatives, first: Lit, second: Lit) -> bool
    ensures { AreKept (keeps representatives.now) (first ∷ second ∷ []) → result ≡ true }
{
    if !representatives.is_representative(first.variable()) {
        return false;
    }
    representatives.is_representative(second.variable())
}

/// The clause that stands for one of two literals with an id, if there is one. Where both are of
/// representatives it stays; what is said already becomes a clause that says nothing.
fn pair_image(
    representatives: &Representatives,
    first: Lit,
    second: Lit,
    id: u32,
) -> Option<[Lit; 2]>
    requires small { length representatives.now ≤ LITERAL_LIMIT + 1 }
    requires first { IsLiteral first }
    ensures within { IfSome result (λ image. (vars : ℕ) → length representatives.now ≡ vars + 1
        → All (IsWithin vars) (first ∷ second ∷ []) → All (IsWithin vars) image) }
    ensures kept { IfSome result (λ image. AreKept (keeps representatives.now) (first ∷ second ∷ [])
        → image ≡ first ∷ second ∷ []) }
{
    if are_both(representatives, first, second) {
        return Some([first, second]);
    }
    if is_said(representatives, first, second, id) {
        return Some([first, first.negation()]);
    }
    let Some(image) = represented_pair(representatives, first, second) else {
        return None;
    };
    Some(image)
}

/// Makes a clause one that says nothing: a literal of this one, and its negation.
fn put_nothing(clause: &[Lit], image: &mut Vec<Lit>) -> Result<(), AllocError>
    requires { All IsLiteral clause.now }
    ensures { (vars : ℕ) → All (IsWithin vars) clause.now → All (IsWithin vars) image.new.items }
{
    image.clear();
    let Some(l) = clause.first() else {
        return Ok(());
    };
    image.push(*l)?;
    image.push(l.negation())?;
    Ok(())
}

/// Puts the clause that stands for one of another length than two, in place of what a vector held;
/// false, where there is none.
fn put_image(
    representatives: &Representatives,
    clause: &[Lit],
    image: &mut Vec<Lit>,
) -> Result<bool, AllocError>
    requires small { length representatives.now ≤ LITERAL_LIMIT + 1 }
    requires literals { All IsLiteral clause.now }
    ensures within { (vars : ℕ) → length representatives.now ≡ vars + 1
        → All (IsWithin vars) clause.now → All (IsWithin vars) image.new.items }
    ensures kept { result ≡ Ok true → AreKept (keeps representatives.now) clause.now
        → image.new.items ≡ clause.now }
{
    image.clear();
    if representatives.are_kept(clause) {
        image.extend_from_slice(clause)?;
        return Ok(true);
    }
    if is_choice(representatives, clause) {
        put_nothing(clause, image)?;
        return Ok(true);
    }
    if clause.len() != 1 {
        return Ok(false);
    }
    let Some(represented) = represented_literal(representatives, clause[0]) else {
        return Ok(false);
    };
    image.push(represented)?;
    Ok(true)
}

/// Makes room for so many literals in a formula that has room for some already, and says for how
/// many there is room then.
fn room_for(formula: &mut Formula, room: u64, lits: u64) -> Result<u64, AllocError>
    requires room { room ≤ formula.old.lit_room }
    requires few { length formula.old.cnf.clauses ≤ ID_LIMIT }
    ensures cnf { formula.new.cnf ≡ formula.old.cnf }
    ensures clause_room { formula.new.clause_room ≡ formula.old.clause_room }
    ensures room { IfOk result (λ room. (lits ≤ room) × (room ≤ formula.new.lit_room)) }
{
    if lits <= room {
        return Ok(room);
    }
    let more = lits.saturating_add(ROOM);
    formula.reserve(formula.vars(), 0, more)?;
    Ok(more)
}

/// Adds the clause that stands for one of two literals with an id, and says for how many literals
/// there is room then. `None` says that there is no such clause.
fn add_pair(
    merged: &mut Formula,
    room: u64,
    representatives: &Representatives,
    clause: &[Lit],
    id: u32,
) -> Result<Option<u64>, AllocError>
    requires two { length clause.now ≡ 2 }
    requires may { MayAdd representatives.now merged.old room clause.now }
    ensures { IfOk result (λ found. IfSome found (λ room.
        Adds (keeps representatives.now) clause.now merged.old merged.new room)) }
{
    let Some(pair) = pair_image(representatives, clause[0], clause[1], id) else {
        return Ok(None);
    };
    let room = room_for(merged, room, 2)?;
    merged.push(&pair);
    Ok(Some(room - 2))
}

/// The same for a clause of another length. A vector is lent, whatever it holds.
fn add_other(
    merged: &mut Formula,
    room: u64,
    representatives: &Representatives,
    clause: &[Lit],
    image: &mut Vec<Lit>,
) -> Result<Option<u64>, AllocError>
    requires may { MayAdd representatives.now merged.old room clause.now }
    ensures { IfOk result (λ found. IfSome found (λ room.
        Adds (keeps representatives.now) clause.now merged.old merged.new room)) }
{
    if !put_image(representatives, clause, image)? {
        return Ok(None);
    }
    let lits = image.len() as u64;
    let room = room_for(merged, room, lits)?;
    merged.push(image);
    Ok(Some(room - lits))
}

/// The same for any clause.
fn add_image(
    merged: &mut Formula,
    room: u64,
    representatives: &Representatives,
    clause: &[Lit],
    id: u32,
    image: &mut Vec<Lit>,
) -> Result<Option<u64>, AllocError>
    requires may { MayAdd representatives.now merged.old room clause.now }
    ensures { IfOk result (λ found. IfSome found (λ room.
        Adds (keeps representatives.now) clause.now merged.old merged.new room)) }
{
    if clause.len() == 2 {
        return add_pair(merged, room, representatives, clause, id);
    }
    add_other(merged, room, representatives, clause, image)
}

/// The formula over the representatives: as many clauses, of which those that have no implied
/// variable stay. `None` says that some clause has no form over the representatives.
pub(crate) fn merged(
    alloc: Global,
    formula: &Formula,
    representatives: &Representatives,
) -> Result<Option<Formula>, AllocError>
    requires { length representatives.now ≡ formula.now.cnf.vars + 1 }
    ensures { IfOk result (λ found. IfSome found (λ merged.
        IsMerged (keeps representatives.now) formula.now.cnf merged.cnf)) }
{
    let mut merged = Formula::new(alloc);
    merged.reserve(formula.vars(), formula.len(), 0)?;
    let mut image = Vec::new(alloc);
    let mut room = 0;
    for at in 0..formula.len() {
        let clause = formula.clause(at);
        let found = add_image(
            &mut merged,
            room,
            representatives,
            clause,
            at + 1,
            &mut image,
        )?;
        let Some(left) = found else {
            return Ok(None);
        };
        room = left;
    }
    Ok(Some(merged))
}
