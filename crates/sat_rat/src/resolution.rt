//! Whether hints with groups justify a clause.

ghost use Rattle.std.specs.Prelude.{◌≡◌, ◌≤◌, ◌++◌, [], All, IfOk, OnOk};
ghost use Rattle.sat_clause.specs.Literal.{IsLiteral, IsWithin};
ghost use Rattle.sat_clause.specs.Live.{Live, clause_at};
ghost use Rattle.sat_check.specs.Finder.{Finds};
ghost use Rattle.sat_check.specs.LiveStore.{live_at};
ghost use Rattle.sat_rat.specs.CountedStore.{Tracks};
ghost use Rattle.sat_rat.specs.Counts.{held};
ghost use Rattle.sat_rat.specs.FullRup.{full_rup, group_fault, groups_fault, is_satisfied as is_satisfied_by, others, resolvent_fault};
ghost use Rattle.sat_rat.specs.Grouped.{HasCounted, group_cause};
ghost use Rattle.sat_rat.specs.Groups.{groups_of};

use crate::counted_clauses::CountedClauses;
use crate::counts::times;
use crate::following::{Led, follow};
use crate::groups::{Group, next_group};
use crate::ids::Ids;
use sat_check::{FalseSet, LiveClauses};
use sat_clause::{Cause, FalseLiterals, LITERAL_LIMIT, Lit};
use std::alloc::{AllocError, Global};

/// What a group comes to.
#[derive(Clone, Copy)]
pub(crate) enum Grouped {
    /// It is good, and its clause has the literal so many times.
    Good { count: u64 },
    /// It is refused.
    Refused(Cause),
}

/// Whether a literal of the clause but this one is true: its negation is false.
fn is_satisfied(set: &FalseSet, l: Lit, clause: &[Lit]) -> bool
    requires small { set.now.size ≤ LITERAL_LIMIT }
    requires within { All (IsWithin set.now.size) clause.now }
    ensures { result ≡ is_satisfied_by set.now.set l clause.now }
{
    for m in clause {
        if *m == l {
            continue;
        }
        if set.is_false(m.negation()) {
            return true;
        }
    }
    false
}

/// Puts the literals of the clause but this one into the set.
fn put_others(set: &mut FalseSet, l: Lit, clause: &[Lit]) -> Result<(), AllocError>
    requires { All (IsWithin set.old.size) clause.now }
    ensures size { set.new.size ≡ set.old.size }
    ensures ok { OnOk result (set.new.set ≡ others l clause.now ++ set.old.set) }
{
    let mut left = clause.len();
    while left > 0 {
        left -= 1;
        if clause[left] == l {
            continue;
        }
        let Ok(()) = set.put(clause[left]) else {
            return Err(AllocError);
        };
    }
    Ok(())
}

/// Why the hints do not show that the clause without the literal follows. The upper set is empty
/// before and after.
fn resolve(
    live: &LiveClauses,
    lower: &FalseSet,
    upper: &mut FalseSet,
    l: Lit,
    clause: &[Lit],
    hints: &[i64],
) -> Result<Option<Cause>, AllocError>
    requires size { lower.now.size ≡ live.now.vars }
    requires small { lower.now.size ≤ LITERAL_LIMIT }
    requires in_upper { lower.now.size ≤ upper.old.size }
    requires empty { upper.old.set ≡ [] }
    requires within { All (IsWithin lower.now.size) clause.now }
    ensures size { upper.new.size ≡ upper.old.size }
    ensures empty { upper.new.set ≡ [] }
    ensures ok { IfOk result (λ r. (clauses : Live) → Finds (live_at live.now) clauses
        → r ≡ resolvent_fault clauses lower.now.set l clause.now hints.now) }
{
    if is_satisfied(lower, l, clause) {
        if hints.is_empty() {
            return Ok(None);
        }
        return Ok(Some(Cause::HintAfterConflict));
    }
    let Ok(()) = put_others(upper, l, clause) else {
        upper.clear();
        return Err(AllocError);
    };
    let led = follow(live, lower.size(), lower, upper, hints);
    upper.clear();
    let Ok(led) = led else {
        return Err(AllocError);
    };
    match led {
        Led::Conflict => Ok(None),
        Led::Open => Ok(Some(Cause::NoConflictInGroup)),
        Led::Refused(cause) => Ok(Some(cause)),
    }
}

/// What a group comes to, behind those for these ids.
fn take_group(
    live: &LiveClauses,
    lower: &FalseSet,
    upper: &mut FalseSet,
    l: Lit,
    had: &Ids,
    group: Group<'_>,
) -> Result<Grouped, AllocError>
    requires size { lower.now.size ≡ live.now.vars }
    requires small { lower.now.size ≤ LITERAL_LIMIT }
    requires in_upper { lower.now.size ≤ upper.old.size }
    requires empty { upper.old.set ≡ [] }
    ensures size { upper.new.size ≡ upper.old.size }
    ensures empty { upper.new.set ≡ [] }
    ensures fault { IfOk result (λ r. (clauses : Live) → Finds (live_at live.now) clauses
        → group_cause r ≡ group_fault clauses lower.now.set l had.now
        (record { id = group.entry.id; hints = group.entry.hints.now })
        (clause_at clauses group.entry.id)) }
    ensures counted { IfOk result
        (λ r. HasCounted r l had.now group.entry.id (live_at live.now group.entry.id)) }
{
    let Some(clause) = live.get(group.id) else {
        return Ok(Grouped::Refused(Cause::NotLive));
    };
    if had.has(group.id) {
        return Ok(Grouped::Refused(Cause::WrongGroup));
    }
    let count = times(l, clause);
    if count == 0 {
        return Ok(Grouped::Refused(Cause::WrongGroup));
    }
    let Ok(fault) = resolve(live, lower, upper, l, clause, group.hints) else {
        return Err(AllocError);
    };
    match fault {
        Some(cause) => Ok(Grouped::Refused(cause)),
        None => Ok(Grouped::Good { count }),
    }
}

/// Why the groups among the hints are not one good group for each live clause with the literal,
/// which stands in the live clauses so many times.
///
/// Each group takes a time by the literals of its clause and of the clauses of its hints, and
/// whether a clause has had no group is told by the count of the literal.
fn take_groups(
    live: &LiveClauses,
    lower: &FalseSet,
    upper: &mut FalseSet,
    l: Lit,
    count: u64,
    had: &mut Ids,
    hints: &[i64],
) -> Result<Option<Cause>, AllocError>
    requires size { lower.now.size ≡ live.now.vars }
    requires small { lower.now.size ≤ LITERAL_LIMIT }
    requires in_upper { lower.now.size ≤ upper.old.size }
    requires empty { upper.old.set ≡ [] }
    requires none { had.old ≡ [] }
    ensures size { upper.new.size ≡ upper.old.size }
    ensures empty { upper.new.set ≡ [] }
    ensures ok { IfOk result (λ r. (clauses : Live) → Finds (live_at live.now) clauses
        → count ≡ held l [] clauses
        → r ≡ groups_fault clauses lower.now.set l [] (groups_of hints.now)) }
{
    let mut left = count;
    let mut rest = hints;
    while let Some(group) = next_group(rest) {
        let Ok(said) = take_group(live, lower, upper, l, had, group) else {
            return Err(AllocError);
        };
        let count = match said {
            Grouped::Refused(cause) => return Ok(Some(cause)),
            Grouped::Good { count } => count,
        };
        let Ok(()) = had.add(group.id) else {
            return Err(AllocError);
        };
        left = left.saturating_sub(count);
        rest = group.behind;
    }
    if left > 0 {
        return Ok(Some(Cause::MissingGroup));
    }
    Ok(None)
}

/// Why the hints do not justify the clause, where both sets are empty and the first one is left as
/// it is then.
fn check_in(
    alloc: Global,
    live: &mut CountedClauses,
    first: &mut FalseSet,
    second: &mut FalseSet,
    clause: &[Lit],
    hints: &[i64],
) -> Result<Option<Cause>, AllocError>
    requires size { first.old.size ≡ live.old.live.vars }
    requires small { first.old.size ≤ LITERAL_LIMIT }
    requires in_second { first.old.size ≤ second.old.size }
    requires empty { first.old.set ≡ [] }
    requires empty_second { second.old.set ≡ [] }
    requires within { All (IsWithin first.old.size) clause.now }
    ensures vars { live.new.live.vars ≡ live.old.live.vars }
    ensures tracks { (clauses : Live) → Tracks live.old clauses → Tracks live.new clauses }
    ensures size { first.new.size ≡ first.old.size }
    ensures in_second { second.new.size ≡ second.old.size }
    ensures empty { second.new.set ≡ [] }
    ensures ok { IfOk result (λ r. (clauses : Live) → Tracks live.old clauses
        → r ≡ full_rup clauses clause.now hints.now) }
{
    let Ok(()) = first.put_all(clause) else {
        return Err(AllocError);
    };
    let Ok(led) = follow(live.clauses(), first.size(), second, first, hints) else {
        return Err(AllocError);
    };
    match led {
        Led::Conflict => return Ok(None),
        Led::Refused(cause) => return Ok(Some(cause)),
        Led::Open => {}
    }
    let Some(l) = clause.first() else {
        if next_group(hints).is_some() {
            return Ok(Some(Cause::WrongGroup));
        }
        return Ok(Some(Cause::NoConflict));
    };
    let other = l.negation();
    let Ok(count) = live.count(other) else {
        return Err(AllocError);
    };
    let mut had = Ids::new(alloc);
    take_groups(live.clauses(), first, second, other, count, &mut had, hints)
}

/// Why the hints do not justify the clause; none where they do. Both sets are empty before and
/// after.
pub(crate) fn check_clause(
    alloc: Global,
    live: &mut CountedClauses,
    first: &mut FalseSet,
    second: &mut FalseSet,
    clause: &[Lit],
    hints: &[i64],
) -> Result<Option<Cause>, AllocError>
    requires size { first.old.size ≡ live.old.live.vars }
    requires small { first.old.size ≤ LITERAL_LIMIT }
    requires in_second { first.old.size ≤ second.old.size }
    requires empty { first.old.set ≡ [] }
    requires empty_second { second.old.set ≡ [] }
    requires within { All (IsWithin first.old.size) clause.now }
    ensures vars { live.new.live.vars ≡ live.old.live.vars }
    ensures tracks { (clauses : Live) → Tracks live.old clauses → Tracks live.new clauses }
    ensures size { first.new.size ≡ first.old.size }
    ensures in_second { second.new.size ≡ second.old.size }
    ensures empty { first.new.set ≡ [] }
    ensures empty_second { second.new.set ≡ [] }
    ensures ok { IfOk result (λ r. (clauses : Live) → Tracks live.old clauses
        → r ≡ full_rup clauses clause.now hints.now) }
{
    let fault = check_in(alloc, live, first, second, clause, hints);
    first.clear();
    fault
}
