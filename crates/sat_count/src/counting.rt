//! From a level of a count down to the empty clause.
ghost use Rattle.std.specs.Prelude.{◌≡◌, ◌≤◌, IfOk, OnOk};
ghost use Rattle.sat_clause.specs.Formula.{IsUnsat};
ghost use Rattle.sat_rat.specs.FullJudge.{FullAccepts};
ghost use Rattle.sat_count.specs.Levels.{IsLevel};

use crate::descent::descend;
use crate::level::Level;
use crate::limits::TRACK_LIMIT;
use crate::refutation::Refutation;
use sat_clause::Log;
use std::alloc::{AllocError, Global};

/// Goes from a level down to one track, and from there to the empty clause: gives the steps, which
/// refute the formula.
///
/// As in Cook's short proof that pigeons do not fit fewer holes (1976) each level has one slot and
/// one track less than the one before: a slot has a track there where it had it, or where it had
/// the last track and the last slot had this one. At the end two slots have one track. The number
/// of steps grows with the fourth power of the tracks, and that of the clauses that are live at
/// once with the third: what served a level alone is deleted behind it.
///
/// # Errors
/// Where memory is short.
pub fn count_down(
    alloc: Global,
    mut refutation: Refutation,
    first: Level,
) -> Result<Log, AllocError>
    requires { IsLevel refutation first }
    ensures accepted { IfOk result (λ log. FullAccepts refutation.entry.cnf log.steps) }
    ensures sound { OnOk result (IsUnsat refutation.entry.cnf) }
{
    let Ok(()) = reserve(&mut refutation, first.tracks) else {
        return Err(AllocError);
    };
    let Ok(last) = descend_all(alloc, &mut refutation, first) else {
        return Err(AllocError);
    };
    let hints = [last.some_track(0), last.some_track(1), last.apart(0, 1, 0)];
    refutation.finish(&hints)
}

/// Goes from a level down to one track.
fn descend_all(
    alloc: Global,
    refutation: &mut Refutation,
    first: Level,
) -> Result<Level, AllocError>
    requires { IsLevel refutation.old first }
    ensures level { IfOk result (IsLevel refutation.new) }
    ensures one { IfOk result (λ last. last.tracks ≡ 1) }
    ensures cnf { OnOk result (refutation.new.cnf ≡ refutation.old.cnf) }
{
    let mut level = first;
    while level.tracks > 1 {
        let Ok(below) = descend(alloc, refutation, &level) else {
            return Err(AllocError);
        };
        level = below;
    }
    Ok(level)
}

/// Makes room for the steps from so many tracks down, of which there are fewer than half the fourth
/// power of the slots, with some four numbers each.
fn reserve(refutation: &mut Refutation, tracks: u32) -> Result<(), AllocError>
    requires { tracks ≤ TRACK_LIMIT }
    ensures { refutation.new ≡ refutation.old }
{
    let slots = tracks as u64 + 1;
    let fourth = slots * slots * slots * slots;
    refutation.reserve(fourth / 2, fourth.saturating_mul(2))
}
