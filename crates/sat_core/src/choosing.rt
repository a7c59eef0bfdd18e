//! Which learned clauses a search deletes.

ghost use Rattle.std.specs.Prelude.{◌≡◌, ◌<◌, [], All, AllPairs, IfOk, length, reverse, true};
ghost use Rattle.sat_clause.specs.Literal.{IsWithin};
ghost use Rattle.sat_arena.specs.declared.clause_ref.ClauseRef.{ClauseRef};
ghost use Rattle.sat_watch.specs.Delete.{IsNoReason};
ghost use Rattle.sat_watch.specs.Trail.{IsOnce};
ghost use Rattle.sat_watch.specs.Watches.{HasLevels, id_at, is_attached};
ghost use Rattle.sat_core.specs.Deletable.{ArePartOf, IsDeletable, are_same, deletable, is_reason as is_reason_of, is_deletable as is_deletable_by, reason_in, refs_of};

use crate::clause_activity::ClauseActivity;
use sat_arena::ClauseRef;
use sat_clause::Lit;
use sat_watch::{TrailEntry, Watches};
use std::alloc::{AllocError, Global};

/// So many clauses of three or more literals stay at the first deletion.
const FIRST_STAY: u64 = 1000;

/// And so many more at each one that follows.
const MORE_STAY: u64 = 100;

/// How active a clause is. Of two of the same activity the later one counts more.
#[derive(Clone, Copy, Debug, PartialEq, Eq, PartialOrd, Ord)]
struct Rank {
    activity: u64,
    id: u32,
}

/// What says whether a clause goes.
#[derive(Clone, Copy, Debug)]
enum Kind {
    /// One of its literals is true.
    Satisfied,
    /// It has fewer than three literals.
    Short,
    /// It has three or more.
    Long,
}

/// A clause that may be deleted.
#[derive(Clone, Copy, Debug)]
pub(crate) struct Candidate {
    pub(crate) clause: ClauseRef,
    kind: Kind,
    rank: Rank,
}

/// Whether a clause is the reason for the value of a literal's variable.
fn is_reason_for(watches: &Watches, trail: &[TrailEntry], l: Lit, c: ClauseRef) -> bool
    requires trail { reverse trail.now ≡ watches.now.trail }
    requires within { IsWithin watches.now.vars l }
    ensures { result ≡ are_same (reason_in watches.now.trail l) c }
{
    let Some(_) = watches.value(l) else {
        return false;
    };
    let place = watches.place(l);
    let entry = trail[place as usize];
    let Some(reason) = entry.reason.clause() else {
        return false;
    };
    reason.word == c.word
}

/// Whether a clause is a reason on the trail. It costs a look at each of its literals.
fn is_reason(watches: &Watches, trail: &[TrailEntry], c: ClauseRef) -> bool
    requires trail { reverse trail.now ≡ watches.now.trail }
    requires once { IsOnce watches.now.trail }
    requires levels { HasLevels watches.now.clauses watches.now.level watches.now.trail }
    requires attached { is_attached watches.now.clauses c ≡ true }
    ensures { result ≡ is_reason_of watches.now.trail c }
{
    for l in watches.lits(c) {
        if is_reason_for(watches, trail, *l, c) {
            return true;
        }
    }
    false
}

/// Whether a clause may be deleted: it has an id above this one and is no reason on the trail.
fn is_deletable(watches: &Watches, trail: &[TrailEntry], above: u32, c: ClauseRef) -> bool
    requires trail { reverse trail.now ≡ watches.now.trail }
    requires once { IsOnce watches.now.trail }
    requires levels { HasLevels watches.now.clauses watches.now.level watches.now.trail }
    requires attached { is_attached watches.now.clauses c ≡ true }
    ensures { result ≡ is_deletable_by watches.now above c }
{
    watches.id(c) > above && !is_reason(watches, trail, c)
}

/// Whether one of these literals is true.
fn is_satisfied(watches: &Watches, lits: &[Lit]) -> bool
    requires { All (IsWithin watches.now.vars) lits.now }
{
    for l in lits {
        if watches.value(*l).unwrap_or(false) {
            return true;
        }
    }
    false
}

/// A clause with what speaks for it.
fn candidate_of(watches: &Watches, activity: &ClauseActivity, c: ClauseRef) -> Candidate
    requires { is_attached watches.now.clauses c ≡ true }
    ensures { result.clause ≡ c }
{
    let lits = watches.lits(c);
    let kind = if is_satisfied(watches, lits) {
        Kind::Satisfied
    } else if lits.len() < 3 {
        Kind::Short
    } else {
        Kind::Long
    };
    let id = watches.id(c);
    let activity = activity.of(id);
    Candidate {
        clause: c,
        kind,
        rank: Rank { activity, id },
    }
}

/// The clauses that may be deleted, in the order of the arena. Each clause of the arena costs a
/// look at its head.
fn find_candidates(
    alloc: Global,
    watches: &Watches,
    activity: &ClauseActivity,
    above: u32,
) -> Result<Vec<Candidate>, AllocError>
    ensures all { IfOk result (λ found. refs_of found.items ≡ deletable watches.now above) }
    ensures rising { AllPairs (λ a b. a.word < b.word) (deletable watches.now above) }
    ensures levels { HasLevels watches.now.clauses watches.now.level watches.now.trail }
{
    let trail = watches.trail();
    let mut found = Vec::new(alloc);
    let mut next = watches.first();
    while let Some(c) = next {
        if is_deletable(watches, trail, above, c) {
            found.push(candidate_of(watches, activity, c))?;
        }
        next = watches.behind(c);
    }
    Ok(found)
}

/// The least rank of the long clauses that stay, which are so many of greatest rank; none where all
/// of them stay.
fn least_to_stay(
    alloc: Global,
    candidates: &[Candidate],
    stay: u64,
) -> Result<Option<Rank>, AllocError>
    requires { 0 < stay }
{
    let mut ranks = Vec::new(alloc);
    for candidate in candidates {
        if let Kind::Long = candidate.kind {
            ranks.push(candidate.rank)?;
        }
    }
    if ranks.len() as u64 <= stay {
        return Ok(None);
    }
    ranks.sort_unstable();
    Ok(Some(ranks[ranks.len() - stay as usize]))
}

/// Whether a clause goes, where long ones of this rank or a greater one stay.
fn goes(candidate: &Candidate, least: Option<Rank>) -> bool {
    match candidate.kind {
        Kind::Satisfied => true,
        Kind::Short => false,
        Kind::Long => match least {
            None => false,
            Some(least) => candidate.rank < least,
        },
    }
}

/// Those of the candidates that go, in their order.
fn those_that_go(
    alloc: Global,
    candidates: &[Candidate],
    least: Option<Rank>,
) -> Result<Vec<ClauseRef>, AllocError>
    ensures { IfOk result (λ deleted. ArePartOf deleted.items (refs_of candidates.now)) }
{
    let mut deleted = Vec::new(alloc);
    for candidate in candidates {
        if goes(candidate, least) {
            deleted.push(candidate.clause)?;
        }
    }
    Ok(deleted)
}

/// The index of the candidate of least rank.
fn least_active(candidates: &[Candidate]) -> usize
    requires { 0 < length candidates.now }
    ensures { result < length candidates.now }
{
    let mut least = 0;
    for k in 1..candidates.len() {
        if candidates[k].rank < candidates[least].rank {
            least = k;
        }
    }
    least
}

/// The candidate of least rank alone, if there is one.
fn one_that_goes(alloc: Global, candidates: &[Candidate]) -> Result<Vec<ClauseRef>, AllocError>
    ensures part { IfOk result (λ deleted. ArePartOf deleted.items (refs_of candidates.now)) }
    ensures none { IfOk result (λ deleted. deleted.items ≡ [] → refs_of candidates.now ≡ []) }
{
    let mut deleted = Vec::new(alloc);
    if candidates.is_empty() {
        return Ok(deleted);
    }
    deleted.push(candidates[least_active(candidates)].clause)?;
    Ok(deleted)
}

/// Those of the candidates that go where so many long ones stay; one at least if there is one.
fn choose_among(
    alloc: Global,
    candidates: &[Candidate],
    stay: u64,
) -> Result<Vec<ClauseRef>, AllocError>
    requires { 0 < stay }
    ensures part { IfOk result (λ deleted. ArePartOf deleted.items (refs_of candidates.now)) }
    ensures none { IfOk result (λ deleted. deleted.items ≡ [] → refs_of candidates.now ≡ []) }
{
    let least = least_to_stay(alloc, candidates, stay)?;
    let deleted = those_that_go(alloc, candidates, least)?;
    if !deleted.is_empty() {
        return Ok(deleted);
    }
    one_that_goes(alloc, candidates)
}

/// The clauses that a deletion takes out, at level 0, where so many deletions are done: of those
/// with an id above this one that are no reasons.
///
/// A clause with a true literal goes. Of the others with three or more literals those go that are
/// least active, so that 1000 and 100 more for each deletion stay. Where none would go so, the one
/// clause goes that is least active. It costs a look at each clause of the arena, and for those
/// that may go a look at their literals and a sort.
///
/// # Errors
/// Where memory is short.
pub(crate) fn choose_deleted(
    alloc: Global,
    watches: &Watches,
    activity: &ClauseActivity,
    above: u32,
    done: u32,
) -> Result<Vec<ClauseRef>, AllocError>
    ensures attached { IfOk result
        (λ deleted. All (λ c. is_attached watches.now.clauses c ≡ true) deleted.items) }
    ensures learned { IfOk result
        (λ deleted. All (λ c. above < id_at watches.now.clauses c) deleted.items) }
    ensures no_reason { IfOk result (λ deleted. All (IsNoReason watches.now.trail) deleted.items) }
    ensures apart { IfOk result (λ deleted. AllPairs (λ a b. a.word < b.word) deleted.items) }
    ensures none { IfOk result
        (λ deleted. deleted.items ≡ [] → (c : ClauseRef) → ¬ IsDeletable watches.now above c) }
    ensures levels { HasLevels watches.now.clauses watches.now.level watches.now.trail }
{
    let candidates = find_candidates(alloc, watches, activity, above)?;
    let stay = FIRST_STAY + MORE_STAY * u64::from(done);
    choose_among(alloc, &candidates, stay)
}
