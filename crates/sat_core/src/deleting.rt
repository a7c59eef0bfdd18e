//! Learned clauses that a search deletes at level 0, and the step of the log that says so.

ghost use Rattle.std.specs.Prelude.{◌≡◌, ◌≢◌, ◌<◌, ◌≤◌, All, IfOk, Ok, None, false, true, []};
ghost use Rattle.sat_core.specs.Deciding.{GoesOn};
ghost use Rattle.sat_core.specs.Deletable.{IsDeletable};
ghost use Rattle.sat_core.specs.Delete.{HasErased, IsLast, MayGo, ids_of as ids_of_those};
ghost use Rattle.sat_core.specs.Ranking.{IsRanked};
ghost use Rattle.sat_arena.specs.declared.clause_ref.ClauseRef.{ClauseRef};
ghost use Rattle.sat_watch.specs.Watches.{gone_back, is_attached};

use crate::choosing::choose_deleted;
use crate::clause_activity::ClauseActivity;
use crate::clause_list::ClauseList;
use crate::ranking::Ranking;
use crate::way_back::go_back;
use sat_arena::ClauseRef;
use sat_clause::Log;
use sat_watch::Watches;
use std::alloc::{AllocError, Global};

/// Goes back to level 0 and propagates there. Whether no clause is false then.
pub(crate) fn propagate_at_start(ranking: &mut Ranking, watches: &mut Watches) -> bool
    requires ranked { IsRanked watches.old.vars watches.old.trail ranking.old }
    requires quiet { watches.old.pending ≡ None }
    ensures goes { GoesOn (gone_back 0 watches.old) watches.new }
    ensures level { watches.new.level ≡ 0 }
    ensures empty { result ≡ true → watches.new.queued ≡ 0 }
    ensures ranked { IsRanked watches.new.vars watches.new.trail ranking.new }
{
    go_back(ranking, watches, 0);
    let mut visits = 0;
    watches.propagate(&mut visits).is_none()
}

/// An id above which no clause of the list has one, and which is at least this one.
pub(crate) fn last_id(clauses: &ClauseList, least: u32) -> u32
    ensures last { IsLast result clauses.now.clauses }
    ensures least { least ≤ result }
{
    let mut last = least;
    for i in 0..clauses.len() {
        last = last.max(clauses.get(i).id);
    }
    last
}

/// The ids of these clauses, in order.
fn ids_of(alloc: Global, watches: &Watches, clauses: &[ClauseRef]) -> Result<Vec<i64>, AllocError>
    requires { All (λ c. is_attached watches.now.clauses c ≡ true) clauses.now }
    ensures { IfOk result
        (λ ids. ids.items ≡ ids_of_those watches.now.clauses clauses.now) }
{
    let mut ids = Vec::with_capacity(alloc, clauses.len())?;
    for c in clauses {
        ids.push_reserved(i64::from(watches.id(*c)));
    }
    Ok(ids)
}

/// Chooses clauses that may go, at level 0 where nothing is queued; deletes them, and logs the
/// deletion behind a number. Whether there is one: where it says no, none may go.
///
/// # Errors
/// Where memory is short; nothing changes, and nothing is logged.
pub(crate) fn delete_some(
    alloc: Global,
    watches: &mut Watches,
    activity: &mut ClauseActivity,
    log: &mut Log,
    above: u32,
    done: u32,
    own: u32,
) -> Result<bool, AllocError>
    requires level { watches.old.level ≡ 0 }
    requires empty { watches.old.queued ≡ 0 }
    requires quiet { watches.old.pending ≡ None }
    ensures erased { result ≡ Ok true
        → HasErased watches.old watches.new log.old.steps log.new.steps above own }
    ensures none { result ≡ Ok false
        → (c : ClauseRef) → ¬ IsDeletable watches.old above c }
    ensures same { result ≢ Ok true → watches.new ≡ watches.old }
    ensures same_log { result ≢ Ok true → log.new.steps ≡ log.old.steps }
{
    let deleted = choose_deleted(alloc, watches, activity, above, done)?;
    if deleted.is_empty() {
        return Ok(false);
    }
    let ids = ids_of(alloc, watches, &deleted)?;
    log.reserve(1, ids.len() as u64)?;
    watches.delete(alloc, &deleted)?;
    log.erase(own, &ids);
    activity.delete(&ids);
    Ok(true)
}
