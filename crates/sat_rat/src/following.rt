//! Hints that are followed up to the first negative one.

ghost use Rattle.std.specs.Prelude.{◌≡◌, ◌≤◌, ◌++◌, List, Option as OptionOf, IfOk};
ghost use Rattle.sat_clause.specs.declared.cause.Cause.{Cause as CauseOf};
ghost use Rattle.sat_clause.specs.declared.literal.Lit.{Lit as LitOf};
ghost use Rattle.sat_clause.specs.Live.{Live};
ghost use Rattle.sat_check.specs.Finder.{Finds};
ghost use Rattle.sat_check.specs.LiveStore.{live_at};
ghost use Rattle.sat_rat.specs.FullRup.{lead};
ghost use Rattle.sat_rat.specs.Following.{led_to};

use sat_check::{FalseSet, LiveClauses};
use sat_clause::{Cause, FalseLiterals, LITERAL_LIMIT, Lit, Reading, read_clause};
use std::alloc::AllocError;

/// What hints come to.
#[derive(Clone, Copy)]
pub(crate) enum Led {
    /// The literals of the last clause are all false.
    Conflict,
    /// They end, or a negative one comes, and the literals of no clause were all false.
    Open,
    /// One of them does not lead on.
    Refused(Cause),
}

/// The literals that are false for a clause, and those that are false for one of its groups beside,
/// of which each is of a variable up to this one.
#[derive(Clone, Copy)]
struct Both<'a> {
    vars: u32,
    lower: &'a FalseSet,
    upper: &'a FalseSet,
    ghost in_lower: { vars ≤ lower.now.size },
    ghost in_upper: { vars ≤ upper.now.size },
}

impl<'a> FalseLiterals for Both<'a> {
    ghost most = { λ b. b.vars };

    ghost falses = { λ b. b.upper.now.set ++ b.lower.now.set };

    fn is_false(&self, l: Lit) -> bool {
        if self.upper.is_false(l) {
            return true;
        }
        if self.lower.is_empty() {
            return false;
        }
        self.lower.is_false(l)
    }
}

/// What the hints up to the first negative one come to, from the literals of both sets on. Those
/// that they make false are put into the upper one. Each hint takes a time by the length of its
/// clause.
pub(crate) fn follow(
    live: &LiveClauses,
    vars: u32,
    lower: &FalseSet,
    upper: &mut FalseSet,
    hints: &[i64],
) -> Result<Led, AllocError>
    requires vars { live.now.vars ≡ vars }
    requires small { vars ≤ LITERAL_LIMIT }
    requires in_lower { vars ≤ lower.now.size }
    requires in_upper { vars ≤ upper.old.size }
    ensures size { upper.new.size ≡ upper.old.size }
    ensures ok { IfOk result (λ led. (clauses : Live) → Finds (live_at live.now) clauses
        → (end : List LitOf → OptionOf CauseOf)
        → led_to led (end (upper.new.set ++ lower.now.set))
        ≡ lead clauses (upper.old.set ++ lower.now.set) hints.now end) }
{
    for (i, hint) in hints.iter().enumerate() {
        if *hint < 0 {
            return Ok(Led::Open);
        }
        let Some(clause) = live.named(*hint) else {
            return Ok(Led::Refused(Cause::NotLive));
        };
        match read_clause(&Both { vars, lower, upper }, clause) {
            Reading::Conflict => {
                if i + 1 == hints.len() {
                    return Ok(Led::Conflict);
                }
                return Ok(Led::Refused(Cause::HintAfterConflict));
            }
            Reading::Unit(l) => {
                let Ok(()) = upper.put(l.negation()) else {
                    return Err(AllocError);
                };
            }
            Reading::Satisfied => return Ok(Led::Refused(Cause::AlreadyTrue)),
            Reading::Unresolved => return Ok(Led::Refused(Cause::StillOpen)),
        }
    }
    Ok(Led::Open)
}
