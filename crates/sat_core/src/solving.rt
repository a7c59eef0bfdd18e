//! The search as a whole.

ghost use Rattle.std.specs.Prelude.{◌≡◌, ◌≢◌, ◌+◌, ◌≤◌, [], length, IfOk, IsTrue};
ghost use Rattle.sat_clause.specs.Formula.{Cnf};
ghost use Rattle.sat_clause.specs.Learned.{added_count, deletions};
ghost use Rattle.sat_core.specs.Answer.{IsAnswer, IsDecided, most_added};
ghost use Rattle.sat_core.specs.declared.answer.Answer.TheVariants.{Stopped};
ghost use Rattle.sat_core.specs.Deletions.{AreDeletions};
ghost use Rattle.sat_core.specs.SearchLog.{IsSearchLog};
ghost use Rattle.sat_core.specs.Stands.{StandsFor};
ghost use Rattle.sat_core.specs.Underway.{HasSearched, IsUnderway};

use crate::Answer;
use crate::deletions::Deletions;
use crate::habits::Habits;
use crate::search::Search;
use crate::turn::Turn;
use patience::Patience;
use sat_clause::{Formula, ID_LIMIT, Log};
use std::alloc::{AllocError, Global};

/// Deletes clauses between two turns where that is due, unless all are to be kept.
fn delete_unless(
    keep: bool,
    search: &mut Search,
    log: &mut Log,
    deletions: &mut Deletions,
) -> Result<(), AllocError>
    requires underway { (formula : Cnf) × IsUnderway search.old formula log.old.steps }
    requires tracked { AreDeletions log.old.steps deletions.old }
    ensures underway { (formula : Cnf) → IsUnderway search.old formula log.old.steps
        → IsUnderway search.new formula log.new.steps }
    ensures tracked { AreDeletions log.new.steps deletions.new }
    ensures none_added { added_count log.new.steps ≡ added_count log.old.steps }
    ensures kept { IsTrue keep → log.new.steps ≡ log.old.steps }
{
    if keep {
        return Ok(());
    }
    search.delete_where_due(log, deletions)
}

/// Takes at most so many turns of a search that has taken none, and deletes clauses between them
/// unless all are to be kept.
fn take_turns<P: Patience>(
    search: &mut Search,
    formula: &Formula,
    budget: u64,
    keep: bool,
    patience: &mut P,
    log: &mut Log,
) -> Result<Answer, AllocError>
    requires ids { length formula.now.cnf.clauses + budget ≤ ID_LIMIT }
    requires fresh { log.old.steps ≡ [] }
    requires stands { StandsFor search.old.value formula.now.cnf [] }
    requires none_taken { search.old.taken ≡ 0 }
    ensures searched { HasSearched formula.now.cnf budget keep log.new.steps result }
    ensures stopped { IfOk result (λ answer. answer ≡ Stopped → P.is_over patience.new) }
{
    let mut deletions = Deletions::new();
    for _ in 0..budget {
        if !search.goes_on(log, patience) {
            return Ok(Answer::Stopped);
        }
        delete_unless(keep, search, log, &mut deletions)?;
        match search.turn(formula, log)? {
            Turn::Learned => {}
            Turn::Model(values) => return Ok(Answer::Model(values)),
            Turn::Refuted => return Ok(Answer::Refuted),
        }
    }
    Ok(Answer::Spent)
}

/// The search for values that satisfy a formula, which deletes clauses unless all are to be kept.
fn search_for_values<P: Patience>(
    alloc: Global,
    formula: &Formula,
    habits: Habits,
    budget: u64,
    keep: bool,
    patience: &mut P,
    log: &mut Log,
) -> Result<Answer, AllocError>
    requires ids { length formula.now.cnf.clauses + budget ≤ ID_LIMIT }
    requires fresh { log.old.steps ≡ [] }
    ensures searched { HasSearched formula.now.cnf budget keep log.new.steps result }
    ensures stopped { IfOk result (λ answer. answer ≡ Stopped → P.is_over patience.new) }
{
    let mut search = Search::new(alloc, formula, habits)?;
    take_turns(&mut search, formula, budget, keep, patience, log)
}

/// Searches for values that satisfy a formula, and logs each clause that it learns with the clauses
/// that it follows from, each of which is needed.
///
/// It ends at the latest where it has learned as many clauses as the budget allows, the empty
/// clause among them. The log starts without steps, and an empty clause ends it. Its added clauses
/// are numbered behind the input clauses, in order; none but the empty one has all literals of a
/// clause that is live. With `keep` no clause is deleted. So with a budget of 3^v for v variables
/// it always comes to values or to a refutation, and without `keep` with one of
/// 3^v (3^v / 1000 + 1).
///
/// At each restart it asks its caller whether it may go on, and where the caller says no it is
/// [`Answer::Stopped`]. What it learns and logs until then does not depend on the caller.
///
/// Without `keep` learned clauses are deleted at a restart, for the k-th time once 1000 k were
/// added since the time before, if no clause is false at level 0 and some learned clause is no
/// reason there. One step of the log deletes those that go. The clauses of the formula stay.
///
/// Of the open variables the one that conflicts met most and latest is decided; before there are
/// conflicts, and as what it is decided, go by the habits. After 64 times the next term of Luby's
/// sequence more conflicts the search goes back to level 0. Behind three such restarts of four what
/// was decided is decided again before others, as far as it is open and until the next clause is
/// learned, unless the trail had 100 literals a decision or more. Where a clause is false, the
/// clause of the first unique implication point is learned: the search goes back to the highest
/// level of its other literals, and it makes the last one true there. The analysis costs what it
/// meets: the entries of the trail from the newest down to that point, the literals of the reasons
/// that it uses, whose places are sorted, and those of the reasons that it looks into for literals
/// that the others imply. A clause is kept twice, for the search and in the log.
///
/// # Errors
/// Where memory is short. What the log has by then still follows.
pub fn solve<P: Patience>(
    alloc: Global,
    formula: &Formula,
    habits: Habits,
    budget: u64,
    keep: bool,
    patience: &mut P,
    log: &mut Log,
) -> Result<Answer, AllocError>
    requires budget { 1 ≤ budget }
    requires ids { length formula.now.cnf.clauses + budget ≤ ID_LIMIT }
    requires fresh { log.old.steps ≡ [] }
    ensures answer { IfOk result (IsAnswer formula.now.cnf budget log.new.steps) }
    ensures logged { IsSearchLog formula.now.cnf log.new.steps }
    ensures within { added_count log.new.steps ≤ budget }
    ensures kept { IsTrue keep → deletions log.new.steps ≡ 0 }
    ensures stopped { IfOk result (λ answer. answer ≡ Stopped → P.is_over patience.new) }
    ensures decided { most_added keep formula.now.cnf.vars ≤ budget
        → IfOk result (λ answer. answer ≢ Stopped → IsDecided answer) }
{
    search_for_values(alloc, formula, habits, budget, keep, patience, log)
}
