//! Whether hints justify a clause, and each of them is needed.

ghost use Rattle.std.specs.Prelude.{◌≡◌, ◌≤◌, [], All, IfOk, IsTrue, OnOk};
ghost use Rattle.sat_clause.specs.Literal.{IsWithin};
ghost use Rattle.sat_clause.specs.Live.{Live};
ghost use Rattle.sat_check.specs.FalseStore.{IsReady};
ghost use Rattle.sat_check.specs.Finder.{Finds};
ghost use Rattle.sat_check.specs.LiveStore.{live_at};
ghost use Rattle.sat_merge.specs.Needed.{AreMet, AreRead, IsMeeting, MeetsSome};
ghost use Rattle.sat_merge.specs.Rewritten.{IsJustified};

use sat_check::{FalseSet, LiveClauses};
use sat_clause::{FalseLiterals, LITERAL_LIMIT, Lit, Reading, read_clause};
use std::alloc::AllocError;

/// Whether each hint but the last makes a literal true where those of the set are false, and the
/// last one's clause is false then. The literals made true become the units, in order, and their
/// negations go into the set.
fn read_hints(
    live: &LiveClauses,
    falses: &mut FalseSet,
    units: &mut Vec<Lit>,
    hints: &[i64],
) -> Result<bool, AllocError>
    requires size { falses.old.size ≡ live.now.vars }
    requires small { live.now.vars ≤ LITERAL_LIMIT }
    requires none { units.old.items ≡ [] }
    ensures size { falses.new.size ≡ falses.old.size }
    ensures within { All (IsWithin live.now.vars) units.new.items }
    ensures ok { IfOk result (λ is. IsTrue is → (clauses : Live) → Finds (live_at live.now) clauses
        → AreRead clauses falses.old.set hints.now units.new.items) }
{
    for (i, hint) in hints.iter().enumerate() {
        let Some(clause) = live.named(*hint) else {
            return Ok(false);
        };
        match read_clause(falses, clause) {
            Reading::Conflict => return Ok(i + 1 == hints.len()),
            Reading::Unit(l) => {
                falses.put(l.negation())?;
                units.push(l)?;
            }
            Reading::Satisfied | Reading::Unresolved => return Ok(false),
        }
    }
    Ok(false)
}

/// Puts the literals of a clause into the set, but for this one.
fn meet_others(met: &mut FalseSet, clause: &[Lit], but: Lit) -> Result<(), AllocError>
    requires within { All (IsWithin met.old.size) clause.now }
    ensures size { met.new.size ≡ met.old.size }
    ensures ok { OnOk result (MeetsSome met.old.set clause.now met.new.set) }
{
    for l in clause {
        if *l != but {
            met.put(*l)?;
        }
    }
    Ok(())
}

/// Whether the negation of each unit stands in the clause of a hint behind the one at its place.
/// The literals of the hints' clauses are put into the set, from the last hint back, but for the
/// units, whose negations alone are looked for.
fn meet_back(
    live: &LiveClauses,
    met: &mut FalseSet,
    units: &[Lit],
    hints: &[i64],
) -> Result<bool, AllocError>
    requires ready { IsReady live.now.vars met.old }
    requires small { live.now.vars ≤ LITERAL_LIMIT }
    requires within { All (IsWithin live.now.vars) units.now }
    ensures size { met.new.size ≡ met.old.size }
    ensures ok { IfOk result (λ is. IsTrue is → (clauses : Live) → Finds (live_at live.now) clauses
        → IsMeeting clauses met.new.set units.now hints.now) }
{
    let mut left = hints.len();
    while left > 0 {
        left -= 1;
        let Some(clause) = live.named(hints[left]) else {
            return Ok(false);
        };
        if left >= units.len() {
            met.put_all(clause)?;
            continue;
        }
        if !met.is_false(units[left].negation()) {
            return Ok(false);
        }
        meet_others(met, clause, units[left])?;
    }
    Ok(true)
}

/// Whether each literal of the clause is in the set.
fn are_met(met: &FalseSet, clause: &[Lit]) -> bool
    requires { All (IsWithin met.now.size) clause.now }
    ensures { IsTrue result → AreMet met.now.set clause.now }
{
    for l in clause {
        if !met.is_false(*l) {
            return false;
        }
    }
    true
}

/// Whether the hints justify the clause, and each of them is needed. What it finds on the way stays
/// in the sets and among the units.
fn judge_hints(
    live: &LiveClauses,
    falses: &mut FalseSet,
    met: &mut FalseSet,
    units: &mut Vec<Lit>,
    clause: &[Lit],
    hints: &[i64],
) -> Result<bool, AllocError>
    requires falses { IsReady live.now.vars falses.old }
    requires met { IsReady live.now.vars met.old }
    requires small { live.now.vars ≤ LITERAL_LIMIT }
    requires within { All (IsWithin live.now.vars) clause.now }
    ensures falses { falses.new.size ≡ falses.old.size }
    ensures met { met.new.size ≡ met.old.size }
    ensures ok { IfOk result (λ is. IsTrue is → (clauses : Live) → Finds (live_at live.now) clauses
        → IsJustified clauses clause.now hints.now) }
{
    units.clear();
    falses.put_all(clause)?;
    if !read_hints(live, falses, units, hints)? {
        return Ok(false);
    }
    if !meet_back(live, met, units, hints)? {
        return Ok(false);
    }
    Ok(are_met(met, clause))
}

/// Whether the hints justify the clause, and each of them is needed: where it says so, it is so.
/// Each hint takes a time by the length of its clause.
///
/// The sets are empty before and after, and the units are room to work in.
pub(crate) fn are_needed(
    live: &LiveClauses,
    falses: &mut FalseSet,
    met: &mut FalseSet,
    units: &mut Vec<Lit>,
    clause: &[Lit],
    hints: &[i64],
) -> Result<bool, AllocError>
    requires falses { IsReady live.now.vars falses.old }
    requires met { IsReady live.now.vars met.old }
    requires small { live.now.vars ≤ LITERAL_LIMIT }
    requires within { All (IsWithin live.now.vars) clause.now }
    ensures falses { IsReady live.now.vars falses.new }
    ensures met { IsReady live.now.vars met.new }
    ensures ok { IfOk result (λ is. IsTrue is → (clauses : Live) → Finds (live_at live.now) clauses
        → IsJustified clauses clause.now hints.now) }
{
    let is = judge_hints(live, falses, met, units, clause, hints);
    falses.clear();
    met.clear();
    is
}
