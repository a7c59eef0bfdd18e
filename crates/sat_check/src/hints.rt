//! Whether hints lead from false literals to a clause whose literals are all false.

ghost use Rattle.std.specs.Prelude.{◌≡◌, ◌≤◌, [], All, IfOk};
ghost use Rattle.sat_clause.specs.Literal.{IsWithin};
ghost use Rattle.sat_clause.specs.Rup.{rup};
ghost use Rattle.sat_clause.specs.Live.{Live};
ghost use Rattle.sat_check.specs.Finder.{Finds};
ghost use Rattle.sat_check.specs.LiveStore.{live_at};

use crate::false_set::FalseSet;
use crate::live_clauses::LiveClauses;
use sat_clause::{Cause, LITERAL_LIMIT, Lit, Reading, read_clause};
use std::alloc::AllocError;

/// Why the hints, in order, do not lead from the false literals of the set to a false clause; none
/// where they do. Each hint takes a time by the length of its clause.
fn follow_hints(
    live: &LiveClauses,
    set: &mut FalseSet,
    hints: &[i64],
) -> Result<Option<Cause>, AllocError>
    requires size { set.old.size ≡ live.now.vars }
    requires small { set.old.size ≤ LITERAL_LIMIT }
    ensures size { set.new.size ≡ set.old.size }
    ensures ok { IfOk result (λ r. (clauses : Live) → Finds (live_at live.now) clauses
        → r ≡ rup clauses set.old.set hints.now) }
{
    for (i, hint) in hints.iter().enumerate() {
        let Some(clause) = live.named(*hint) else {
            return Ok(Some(Cause::NotLive));
        };
        match read_clause(set, clause) {
            Reading::Conflict => {
                if i + 1 == hints.len() {
                    return Ok(None);
                }
                return Ok(Some(Cause::HintAfterConflict));
            }
            Reading::Unit(l) => set.put(l.negation())?,
            Reading::Satisfied => return Ok(Some(Cause::AlreadyTrue)),
            Reading::Unresolved => return Ok(Some(Cause::StillOpen)),
        }
    }
    Ok(Some(Cause::NoConflict))
}

/// Why the hints do not justify the clause: they start with its literals as the false ones. The set
/// is empty before and after.
pub(crate) fn check_clause(
    live: &LiveClauses,
    set: &mut FalseSet,
    clause: &[Lit],
    hints: &[i64],
) -> Result<Option<Cause>, AllocError>
    requires size { set.old.size ≡ live.now.vars }
    requires small { set.old.size ≤ LITERAL_LIMIT }
    requires empty { set.old.set ≡ [] }
    requires within { All (IsWithin set.old.size) clause.now }
    ensures size { set.new.size ≡ set.old.size }
    ensures empty { set.new.set ≡ [] }
    ensures ok { IfOk result (λ r. (clauses : Live) → Finds (live_at live.now) clauses
        → r ≡ rup clauses clause.now hints.now) }
{
    let Ok(()) = set.put_all(clause) else {
        set.clear();
        return Err(AllocError);
    };
    let fault = follow_hints(live, set, hints);
    set.clear();
    fault
}
