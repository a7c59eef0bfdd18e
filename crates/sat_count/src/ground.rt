//! What stands between a level of a count and the next below it.
ghost use Rattle.std.specs.Prelude.{◌≡◌, ◌+◌, ◌≤◌, All, length};
ghost use Rattle.sat_clause.specs.declared.limits.TheConstants.{LITERAL_LIMIT};

use crate::level::Level;
use sat_clause::LITERAL_LIMIT;

/// The way from a level to the next below it: a slot has a track there where it had it above, or
/// where it had the last track and the last slot had this one.
#[derive(Drop)]
pub(crate) struct Ground<'a> {
    pub above: &'a Level,
    /// The tracks of the level below.
    pub tracks: u32,
    /// For each of its slots the variable of the first track.
    pub firsts: &'a [u32],
    /// The id behind which stands what the variables mean, in four clauses each.
    pub meanings: u32,
    /// The id behind which stands that two slots do not both have a track where the lower one had
    /// it above.
    pub helps: u32,
    ghost many: { (1 ≤ tracks) × (tracks + 1 ≡ above.now.tracks) },
    ghost each: { length firsts.now ≡ tracks + 1 },
    ghost few: { All (λ first. first + tracks ≤ LITERAL_LIMIT) firsts.now },
}
