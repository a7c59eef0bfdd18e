//! A search for a long crowd: from the largest tree down, each with the larger ones that it meets.
//! Whichever trees it finds, they are gathered once more.
ghost use Rattle.std.specs.Prelude.{◌≤◌, ◌<◌, All, IfOk, length};
ghost use Rattle.problem_facts.specs.declared.limits.TheConstants.{MET_LIMIT};

use crate::bit_rows::{
    BitRows, clear_bit, common_bits, count_bits, first_bit, full_row, has_bit, keep_common,
};
use crate::gathering::TreeSlots;
use crate::grouped::number_at;
use crate::limits::{CROWD_LIMIT, LOOK_LIMIT, MET_LIMIT};
use crate::met_trees::{MetTrees, note_places};
use arrayvec::ArrayVec;
use std::alloc::{AllocError, Global};

/// A crowd of more trees than these, each by its first slot, if one is found; a greatest one, if
/// the looks suffice for all. The time is that of the slots, the cells and the looks, the memory
/// that of the slots and the cells, and at most a few megabytes more.
///
/// # Errors
/// Where memory is short.
pub(crate) fn long_crowd(
    alloc: Global,
    trees: &TreeSlots<'_>,
    least: usize,
) -> Result<ArrayVec<u32, CROWD_LIMIT>, AllocError>
    ensures { IfOk result (λ found. All (λ s. s < length trees.now.slots.now) found.items) }
{
    let count = trees.slots.len() as u32;
    let met = MetTrees::of(alloc, trees)?;
    let spots = vec![in alloc; 0; count as usize]?;
    let mut search = Search {
        looks: LOOK_LIMIT,
        least,
        best: ArrayVec::new(),
        spots,
    };
    for place in 0..count {
        search.begin_at(alloc, &met, place)?;
    }
    Ok(slots_at(&met, &search.best, count))
}

/// The trees at these places, as far as they are below the count.
fn slots_at(met: &MetTrees, places: &[u32], count: u32) -> ArrayVec<u32, CROWD_LIMIT>
    ensures { All (λ s. s < count) result.items }
{
    let mut found = ArrayVec::new();
    for place in places {
        let tree = met.tree_at(*place);
        if tree < count && found.len() < CROWD_LIMIT {
            found.push(tree);
        }
    }
    found
}

/// What a search has found, and how many looks it has left. Trees are told by their places.
#[derive(Drop)]
struct Search {
    looks: u64,
    least: usize,
    best: ArrayVec<u32, CROWD_LIMIT>,
    spots: Vec<u32>,
}

/// Where the search stands among the larger trees that meet the one that it began with: those that
/// each of them meets, the ones that may be taken next, and before each that was taken.
#[derive(Drop)]
struct Branch {
    rows: BitRows,
    rest: Vec<u64>,
    before: Vec<u64>,
    taken: ArrayVec<u32, CROWD_LIMIT>,
}

impl Search {
    /// Looks for a longer crowd of the tree at a place and of larger ones. A tree that meets very
    /// many is passed over.
    ///
    /// # Errors
    /// Where memory is short.
    fn begin_at(&mut self, alloc: Global, met: &MetTrees, place: u32) -> Result<(), AllocError> {
        if self.is_done() {
            return Ok(());
        }
        let others = met.met_by(alloc, place)?;
        self.spend(others.len());
        let larger = places_before(alloc, &others, place)?;
        if larger.len() < self.least || MET_LIMIT < larger.len() {
            return Ok(());
        }
        let rows = self.rows_of(alloc, met, &larger)?;
        self.go_over(alloc, rows, place, &larger)
    }

    /// For each of these trees which others it meets.
    ///
    /// # Errors
    /// Where memory is short.
    fn rows_of(
        &mut self,
        alloc: Global,
        met: &MetTrees,
        larger: &[u32],
    ) -> Result<BitRows, AllocError>
        requires { length larger.now ≤ MET_LIMIT }
    {
        let mut rows = BitRows::new(alloc, larger.len())?;
        note_places(&mut self.spots, larger);
        for at in 0..larger.len() {
            if self.is_done() {
                return Ok(rows);
            }
            let others = met.met_by(alloc, larger[at])?;
            self.spend(others.len());
            self.note_row(&mut rows, at, &others, larger);
        }
        Ok(rows)
    }

    /// Notes those of the others that are among these trees.
    fn note_row(&self, rows: &mut BitRows, at: usize, others: &[u32], larger: &[u32]) {
        for other in others {
            let spot = number_at(&self.spots, *other as usize) as usize;
            if number_at(larger, spot) == *other {
                rows.set(at, spot);
            }
        }
    }

    /// Goes over the crowds of these trees with the one at the place.
    ///
    /// # Errors
    /// Where memory is short.
    fn go_over(
        &mut self,
        alloc: Global,
        rows: BitRows,
        place: u32,
        larger: &[u32],
    ) -> Result<(), AllocError> {
        let rest = full_row(alloc, larger.len())?;
        let mut branch = Branch {
            rows,
            rest,
            before: Vec::new(alloc),
            taken: ArrayVec::new(),
        };
        for _ in 0..LOOK_LIMIT {
            if !self.step(&mut branch, place, larger)? {
                return Ok(());
            }
        }
        Ok(())
    }

    /// Takes a tree, or goes back by one where no longer crowd is ahead. `false` comes at the end.
    ///
    /// # Errors
    /// Where memory is short.
    fn step(
        &mut self,
        branch: &mut Branch,
        place: u32,
        larger: &[u32],
    ) -> Result<bool, AllocError> {
        let taken = branch.taken.len().saturating_add(1);
        self.trim(&mut branch.rest, &branch.rows, taken);
        let most = taken.saturating_add(count_bits(&branch.rest));
        if self.is_done() || most <= self.least {
            return Ok(branch.go_back());
        }
        let Some(spot) = first_bit(&branch.rest) else {
            return Ok(branch.go_back());
        };
        branch.take(spot)?;
        self.note(place, larger, &branch.taken);
        Ok(true)
    }

    /// Lets the trees go that meet too few of the others for a longer crowd.
    fn trim(&mut self, rest: &mut [u64], rows: &BitRows, taken: usize) {
        let few = self.least.saturating_sub(taken);
        for _ in 0..MET_LIMIT {
            self.spend(rows.count().saturating_add(1));
            if self.is_done() || !self.trim_once(rest, rows, few) {
                return;
            }
        }
    }

    /// The same once; whether there was one.
    fn trim_once(&mut self, rest: &mut [u64], rows: &BitRows, few: usize) -> bool {
        let mut trimmed = false;
        for spot in 0..rows.count() {
            if has_bit(rest, spot) && self.meets_few(rows.row(spot), rest, few) {
                clear_bit(rest, spot);
                trimmed = true;
            }
        }
        trimmed
    }

    /// Whether a tree with this row meets fewer of the rest.
    fn meets_few(&mut self, row: &[u64], rest: &[u64], few: usize) -> bool {
        self.spend(row.len());
        common_bits(row, rest) < few
    }

    /// Notes the trees that are taken, if they are more than before.
    fn note(&mut self, place: u32, larger: &[u32], taken: &[u32]) {
        if taken.len() < self.least {
            return;
        }
        let mut best = ArrayVec::new();
        best.push(place);
        for spot in taken {
            if best.len() < CROWD_LIMIT {
                best.push(number_at(larger, *spot as usize));
            }
        }
        self.least = best.len();
        self.best = best;
    }

    /// Whether there is no look left, or no longer crowd is looked for.
    fn is_done(&self) -> bool {
        self.looks == 0 || CROWD_LIMIT <= self.least
    }

    /// Counts looks.
    fn spend(&mut self, looks: usize) {
        self.looks = self.looks.saturating_sub(looks as u64);
    }
}

impl Branch {
    /// Takes one of the rest, and keeps those that it meets.
    ///
    /// # Errors
    /// Where memory is short.
    fn take(&mut self, spot: usize) -> Result<(), AllocError> {
        clear_bit(&mut self.rest, spot);
        push_all(&mut self.before, &self.rest)?;
        keep_common(&mut self.rest, self.rows.row(spot));
        if self.taken.len() < CROWD_LIMIT && spot < MET_LIMIT {
            self.taken.push(spot as u32);
        }
        Ok(())
    }

    /// Goes back to the tree that was taken last, if there is one.
    fn go_back(&mut self) -> bool {
        if self.taken.pop().is_none() {
            return false;
        }
        take_back(&mut self.rest, &mut self.before);
        true
    }
}

/// Pushes all words of a row.
fn push_all(words: &mut Vec<u64>, row: &[u64]) -> Result<(), AllocError> {
    for word in row {
        words.push(*word)?;
    }
    Ok(())
}

/// Writes the last words over a row.
fn take_back(row: &mut [u64], words: &mut Vec<u64>) {
    for at in (0..row.len()).rev() {
        row[at] = words.pop().unwrap_or(0);
    }
}

/// Those of these places that stand before this one, each once, rising.
fn places_before(alloc: Global, others: &[u32], place: u32) -> Result<Vec<u32>, AllocError> {
    let mut before = Vec::new(alloc);
    for other in others {
        if *other < place {
            before.push(*other)?;
        }
    }
    before.sort_unstable();
    before.dedup();
    Ok(before)
}
