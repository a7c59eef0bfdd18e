//! The way back to a lower level.

ghost use Rattle.std.specs.Prelude.{◌≡◌};
ghost use Rattle.sat_core.specs.Ranking.{IsRanked};
ghost use Rattle.sat_watch.specs.Watches.{gone_back};

use crate::ranking::Ranking;
use sat_watch::Watches;

/// Holds the variables of entries of levels above this one again, from the newest down.
fn put_back_above(ranking: &mut Ranking, watches: &Watches, level: u32)
    requires { IsRanked watches.now.vars watches.now.trail ranking.old }
    ensures { IsRanked watches.now.vars (gone_back level watches.now).trail ranking.new }
{
    let trail = watches.trail();
    let mut left = trail.len();
    while left > 0 {
        let entry = trail[left - 1];
        if entry.level <= level {
            return;
        }
        ranking.put_back(entry.lit);
        left -= 1;
    }
}

/// Drops the entries of levels above this one, and holds their variables again. It costs what is
/// dropped, and a logarithm for each variable that was not held.
pub(crate) fn go_back(ranking: &mut Ranking, watches: &mut Watches, level: u32)
    requires { IsRanked watches.old.vars watches.old.trail ranking.old }
    ensures back { watches.new ≡ gone_back level watches.old }
    ensures ranked { IsRanked watches.new.vars watches.new.trail ranking.new }
{
    put_back_above(ranking, watches, level);
    watches.back_to(level);
}
