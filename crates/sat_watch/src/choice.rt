//! Which literals of a new clause are watched.

ghost use Rattle.std.specs.Prelude.{◌≡◌, ◌≢◌, ◌<◌, ◌≤◌, length, true, false, Some};
ghost use Rattle.sat_clause.specs.Learned.{IsSimple};
ghost use Rattle.sat_clause.specs.Literal.{negation};
ghost use Rattle.sat_watch.specs.Chains.{lit_at};
ghost use Rattle.sat_watch.specs.Choice.{FreeSays, level_at};
ghost use Rattle.sat_watch.specs.Watched.{is_false, true_at};
ghost use Rattle.sat_watch.specs.Watches.{IsOnlyOne, highest};

use crate::trail::Trail;
use sat_clause::{LITERAL_LIMIT, Lit};

/// The first position from this one on whose literal is not false, if there is one.
pub(crate) fn free_position(trail: &Trail, lits: &[Lit], from: u32) -> Option<u32>
    requires simple { IsSimple trail.now.vars lits.now }
    requires few { length lits.now ≤ LITERAL_LIMIT }
    ensures { FreeSays trail.now.entries lits.now from result }
{
    for k in from..lits.len() as u32 {
        if !trail.is_false(lits[k as usize]) {
            return Some(k);
        }
    }
    None
}

/// The level at which the literal at a position was made false.
fn false_level(trail: &Trail, lits: &[Lit], k: u32) -> u32
    requires simple { IsSimple trail.now.vars lits.now }
    requires within { k < length lits.now }
    requires is_false { is_false trail.now.entries (lit_at lits.now k) ≡ true }
    ensures { result ≡ level_at trail.now.entries lits.now k }
{
    trail.level_of(lits[k as usize])
}

/// Whether the literal at position `k` is another than that at position `but`, and was made false
/// at a higher level than that at position `best`.
fn is_higher(trail: &Trail, lits: &[Lit], but: u32, best: u32, k: u32) -> bool
    requires simple { IsSimple trail.now.vars lits.now }
    requires but { but < length lits.now }
    requires best { best < length lits.now }
    requires k { k < length lits.now }
    requires only { IsOnlyOne trail.now.entries lits.now (lit_at lits.now but) }
    requires other { best ≢ but }
    ensures other { result ≡ true → k ≢ but }
    ensures higher { result ≡ true → level_at trail.now.entries lits.now best
        ≤ level_at trail.now.entries lits.now k }
    ensures not_higher { result ≡ false → level_at trail.now.entries lits.now k
        ≤ level_at trail.now.entries lits.now best }
{
    if k == but {
        return false;
    }
    false_level(trail, lits, k) > false_level(trail, lits, best)
}

/// The position of a literal of the highest level, where only the one at position `but` is not
/// false.
pub(crate) fn highest_position(trail: &Trail, lits: &[Lit], but: u32) -> u32
    requires simple { IsSimple trail.now.vars lits.now }
    requires few { length lits.now ≤ LITERAL_LIMIT }
    requires but { but < length lits.now }
    requires only { IsOnlyOne trail.now.entries lits.now (lit_at lits.now but) }
    ensures within { result < length lits.now }
    ensures other { 2 ≤ length lits.now → result ≢ but }
    ensures level { 2 ≤ length lits.now
        → true_at trail.now.entries (negation (lit_at lits.now result))
        ≡ Some (highest trail.now.entries lits.now) }
{
    let n = lits.len() as u32;
    if n < 2 {
        return 0;
    }
    let mut best: u32 = if but == 0 { 1 } else { 0 };
    let mut k: u32 = 0;
    while k < n {
        if is_higher(trail, lits, but, best, k) {
            best = k;
        }
        k += 1;
    }
    best
}
