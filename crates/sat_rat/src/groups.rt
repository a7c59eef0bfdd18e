//! The groups of hints.

ghost use Rattle.std.specs.Prelude.{◌≡◌, ◌<◌, ◌≤◌, ◌∷◌, [], IfSome, IsNone, drop, length, take};
ghost use Rattle.sat_rat.specs.Groups.{Group as GroupOf, IsAtGroup, front, groups_of};

/// A group: the id of its clause, its own hints, and what stands behind it.
#[derive(Clone, Copy)]
pub(crate) struct Group<'a> {
    pub(crate) id: u64,
    pub(crate) hints: &'a [i64],
    pub(crate) behind: &'a [i64],
}

/// How many hints stand before the first negative one.
fn first_negative(hints: &[i64]) -> usize
    ensures within { result ≤ length hints.now }
    ensures front { take result hints.now ≡ front hints.now }
    ensures groups { groups_of (drop result hints.now) ≡ groups_of hints.now }
    ensures negative { IsAtGroup (drop result hints.now) }
{
    for (i, hint) in hints.iter().enumerate() {
        if *hint < 0 {
            return i;
        }
    }
    hints.len()
}

/// The first group of the hints, if there is one.
pub(crate) fn next_group<'a>(hints: &'a [i64]) -> Option<Group<'a>>
    ensures group { IfSome result (λ group. groups_of hints.now
        ≡ record { id = group.id; hints = group.hints.now } ∷ groups_of group.behind.now) }
    ensures shorter { IfSome result (λ group. length group.behind.now < length hints.now) }
    ensures none { IsNone result → groups_of hints.now ≡ [] }
{
    let (_, rest) = hints.split_at(first_negative(hints));
    let Some((id, behind)) = rest.split_first() else {
        return None;
    };
    let (own, next) = behind.split_at(first_negative(behind));
    Some(Group {
        id: id.unsigned_abs(),
        hints: own,
        behind: next,
    })
}
