//! Lists that stand one after another in one list, each up to its end.

ghost use Rattle.std.specs.Prelude.{◌≡◌, ◌<◌, ◌≤◌, length, Some, slice_get, slice_index};
ghost use Rattle.sat_clause.specs.Parts.{start_of, parts_from, RiseTo};

/// Where the part at a position begins: where the one before it ends, and the first at 0.
fn start_of(ends: &[u32], i: usize) -> usize
    requires { i < length ends.now }
    ensures { result ≡ start_of 0 ends.now i }
{
    if i == 0 {
        return 0;
    }
    ends[i - 1] as usize
}

/// Where the part at a position begins and ends. The last part ends at the total.
fn span(ends: &[u32], i: usize, total: usize) -> (usize, usize)
    requires within { i < length ends.now }
    requires rise { RiseTo total 0 ends.now }
    ensures start { result.0 ≡ start_of 0 ends.now i }
    ensures end { result.1 ≡ slice_index ends.now i }
    ensures order { result.0 ≤ result.1 }
    ensures inside { result.1 ≤ total }
{
    (start_of(ends, i), ends[i] as usize)
}

/// The part at a position.
pub(crate) fn part<'a, T: Copy>(items: &'a [T], ends: &[u32], i: usize) -> &'a [T]
    requires within { i < length ends.now }
    requires rise { RiseTo (length items.now) 0 ends.now }
    ensures { slice_get (parts_from 0 items.now ends.now) i ≡ Some result.now }
{
    let (start, end) = span(ends, i, items.len());
    &items[start..end]
}
