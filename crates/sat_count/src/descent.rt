//! From one level of a count to the next, with one track and one slot less.
ghost use Rattle.std.specs.Prelude.{◌≡◌, ◌+◌, ◌++◌, ◌^◌, ◌≤◌, ◌<◌, All, IfOk, OnOk, length, pos};
ghost use Rattle.sat_clause.specs.declared.limits.TheConstants.{LITERAL_LIMIT};
ghost use Rattle.sat_count.specs.Descending.{AreFirsts, AreHelped, IsGround, IsReadyFor, apart_hints_of, apart_of, given_at, help_at, helped, helped_hints_of, kept_at, meaning_at, meaning_number, meanings_of, moved_at, pair_clause, some_hints_of, some_of};
ghost use Rattle.sat_count.specs.Levels.{IsLevel};
ghost use Rattle.sat_count.specs.Places.{name as name_of, some_clause};
ghost use Rattle.sat_count.specs.Refuting.{Adds};
ghost use Rattle.sat_count.specs.Rows.{AddsPairs, AddsRow, AddsRows, DefinesRow, DefinesRows};

use crate::ground::Ground;
use crate::level::Level;
use crate::pairs::pair_place;
use crate::refutation::{Refutation, negated, plain};
use sat_clause::{LITERAL_LIMIT, Lit};
use std::alloc::{AllocError, Global};

/// What one of the four clauses says of a new variable: it is true where the slot had the track, or
/// where it had the last one and the last slot had this one; where it is true and the slot did not
/// have the track, it had the last one, and the last slot had this one.
#[derive(Clone, Copy)]
enum Meaning {
    ByKept,
    ByMoved,
    OrMoved,
    OrGiven,
}

/// A kind of clause of two slots and a track: not both have it where the lower one had it above, or
/// not both have it.
#[derive(Clone, Copy)]
enum PairKind {
    Helped,
    Apart,
}

/// Adds the level below one of more than one track, and deletes that one and what served alone to
/// come from it to the new one.
///
/// # Errors
/// Where memory is short.
pub(crate) fn descend(
    alloc: Global,
    refutation: &mut Refutation,
    above: &Level,
) -> Result<Level, AllocError>
    requires more { 1 < above.now.tracks }
    requires level { IsLevel refutation.old above.now }
    ensures fewer { IfOk result (λ below. below.tracks + 1 ≡ above.now.tracks) }
    ensures level { IfOk result (IsLevel refutation.new) }
    ensures cnf { OnOk result (refutation.new.cnf ≡ refutation.old.cnf) }
{
    let tracks = above.tracks - 1;
    let meanings = refutation.last_id();
    let Ok(firsts) = add_meanings(alloc, refutation, above, tracks) else {
        return Err(AllocError);
    };
    let ground = Ground {
        above,
        tracks,
        firsts: &firsts,
        meanings,
        helps: refutation.last_id(),
    };
    let Ok(()) = ground.add_pairs(refutation, PairKind::Helped) else {
        return Err(AllocError);
    };
    let behind = refutation.last_id();
    let Ok(()) = ground.add_some_tracks(alloc, refutation) else {
        return Err(AllocError);
    };
    let Ok(()) = ground.add_pairs(refutation, PairKind::Apart) else {
        return Err(AllocError);
    };
    let Ok(()) = refutation.erase(alloc, above.behind, behind) else {
        return Err(AllocError);
    };
    Ok(Level {
        tracks,
        behind,
        firsts,
    })
}

/// Defines the variables of the level below, slot by slot, and gives the first of each slot.
fn add_meanings(
    alloc: Global,
    refutation: &mut Refutation,
    above: &Level,
    tracks: u32,
) -> Result<Vec<u32>, AllocError>
    requires fewer { (1 ≤ tracks) × (tracks + 1 ≡ above.now.tracks) }
    requires level { IsLevel refutation.old above.now }
    ensures defined { OnOk result (DefinesRows refutation.old refutation.new (tracks + 1) tracks
        (kept_at above.now) (moved_at above.now tracks) (given_at above.now tracks)) }
    ensures each { IfOk result (λ firsts. length firsts.items ≡ tracks + 1) }
    ensures few { IfOk result (λ firsts. All (λ first. first + tracks ≤ LITERAL_LIMIT)
        firsts.items) }
    ensures firsts { IfOk result
        (λ firsts. AreFirsts refutation.old.last_variable tracks firsts.items) }
{
    let mut firsts = Vec::new(alloc);
    for place in 0..tracks + 1 {
        let Ok(()) = firsts.push(refutation.last_variable()) else {
            return Err(AllocError);
        };
        let Ok(()) = add_meanings_of(refutation, above, tracks, place) else {
            return Err(AllocError);
        };
    }
    let _few = refutation.last_variable();
    Ok(firsts)
}

/// Defines the variables of a slot of the level below.
fn add_meanings_of(
    refutation: &mut Refutation,
    above: &Level,
    tracks: u32,
    place: u32,
) -> Result<(), AllocError>
    requires fewer { (1 ≤ tracks) × (tracks + 1 ≡ above.now.tracks) }
    requires level { IsLevel refutation.old above.now }
    requires place { place ≤ tracks }
    ensures { OnOk result (DefinesRow refutation.old refutation.new tracks
        (kept_at above.now place) (moved_at above.now tracks place)
        (given_at above.now tracks place)) }
{
    for track in 0..tracks {
        let kept = above.name(place, track);
        let moved = above.name(place, tracks);
        let given = above.name(tracks + 1, track);
        let Ok(()) = refutation.define(kept, moved, given) else {
            return Err(AllocError);
        };
    }
    Ok(())
}

impl<'a> Ground<'a> {
    /// The variable by which the slot at a place has a track below, by its number less one.
    fn name(&self, place: u32, track: u32) -> u32
        requires place { place ≤ self.now.tracks }
        requires track { track < self.now.tracks }
        ensures value { result ≡ name_of self.now.firsts.now place track }
        ensures few { result < LITERAL_LIMIT }
    {
        self.firsts[place as usize] + track
    }

    /// A clause that says what the variable of a slot and a track means, as a hint.
    fn meaning(&self, place: u32, track: u32, which: Meaning) -> i64
        requires place { place ≤ self.now.tracks }
        requires track { track < self.now.tracks }
        ensures { result ≡ pos (meaning_at self.now place track + meaning_number which) }
    {
        (self.meaning_behind(place, track) + meaning_number(which)) as i64
    }

    /// The id behind which stands what the variable of a slot and a track means.
    fn meaning_behind(&self, place: u32, track: u32) -> u64
        requires place { place ≤ self.now.tracks }
        requires track { track < self.now.tracks }
        ensures value { result ≡ meaning_at self.now place track }
        ensures few { result < 2 ^ 40 }
    {
        let before = place as u64 * self.tracks as u64 + track as u64;
        self.meanings as u64 + 4 * before
    }

    /// The clause that two slots do not both have a track where the lower one had it, as a hint.
    fn help(&self, lower: u32, higher: u32, track: u32) -> i64
        requires lower { lower < higher }
        requires higher { higher ≤ self.now.tracks }
        requires track { track < self.now.tracks }
        ensures { result ≡ pos (help_at self.now lower higher track) }
    {
        self.helps as i64 + pair_place(self.tracks, lower, higher, track) as i64 + 1
    }

    /// Adds the clauses of a kind for each two slots and each track.
    fn add_pairs(&self, refutation: &mut Refutation, kind: PairKind) -> Result<(), AllocError>
        requires ground { IsGround refutation.old self.now }
        requires ready { IsReadyFor kind refutation.old self.now }
        ensures { OnOk result (AddsPairs refutation.old refutation.new (self.now.tracks + 1)
            self.now.tracks (pair_clause kind self.now)) }
    {
        for higher in 0..self.tracks + 1 {
            let Ok(()) = self.add_pairs_below(refutation, kind, higher) else {
                return Err(AllocError);
            };
        }
        Ok(())
    }

    /// Adds those of one slot and each lower one.
    fn add_pairs_below(
        &self,
        refutation: &mut Refutation,
        kind: PairKind,
        higher: u32,
    ) -> Result<(), AllocError>
        requires ground { IsGround refutation.old self.now }
        requires ready { IsReadyFor kind refutation.old self.now }
        requires higher { higher ≤ self.now.tracks }
        ensures { OnOk result (AddsRows refutation.old refutation.new higher self.now.tracks
            (λ lower. pair_clause kind self.now lower higher)) }
    {
        for lower in 0..higher {
            let Ok(()) = self.add_pairs_of(refutation, kind, lower, higher) else {
                return Err(AllocError);
            };
        }
        Ok(())
    }

    /// Adds those of two slots.
    fn add_pairs_of(
        &self,
        refutation: &mut Refutation,
        kind: PairKind,
        lower: u32,
        higher: u32,
    ) -> Result<(), AllocError>
        requires ground { IsGround refutation.old self.now }
        requires ready { IsReadyFor kind refutation.old self.now }
        requires lower { lower < higher }
        requires higher { higher ≤ self.now.tracks }
        ensures { OnOk result (AddsRow refutation.old refutation.new self.now.tracks
            (pair_clause kind self.now lower higher)) }
    {
        for track in 0..self.tracks {
            let Ok(()) = self.add_pair(refutation, kind, lower, higher, track) else {
                return Err(AllocError);
            };
        }
        Ok(())
    }

    /// Adds the clause of a kind of two slots and a track.
    fn add_pair(
        &self,
        refutation: &mut Refutation,
        kind: PairKind,
        lower: u32,
        higher: u32,
        track: u32,
    ) -> Result<(), AllocError>
        requires ground { IsGround refutation.old self.now }
        requires ready { IsReadyFor kind refutation.old self.now }
        requires lower { lower < higher }
        requires higher { higher ≤ self.now.tracks }
        requires track { track < self.now.tracks }
        ensures { OnOk result (Adds refutation.old refutation.new
            (pair_clause kind self.now lower higher track)) }
    {
        match kind {
            PairKind::Helped => self.add_helped(refutation, lower, higher, track),
            PairKind::Apart => self.add_apart(refutation, lower, higher, track),
        }
    }

    /// Adds that two slots do not both have a track where the lower one had it.
    fn add_helped(
        &self,
        refutation: &mut Refutation,
        lower: u32,
        higher: u32,
        track: u32,
    ) -> Result<(), AllocError>
        requires ground { IsGround refutation.old self.now }
        requires lower { lower < higher }
        requires higher { higher ≤ self.now.tracks }
        requires track { track < self.now.tracks }
        ensures { OnOk result (Adds refutation.old refutation.new
            (helped self.now lower higher track)) }
    {
        let clause = self.helped_clause(lower, higher, track);
        let hints = self.helped_hints(lower, higher, track);
        refutation.add(&clause, &hints)
    }

    /// The clause that two slots do not both have a track where the lower one had it.
    fn helped_clause(&self, lower: u32, higher: u32, track: u32) -> [Lit; 3]
        requires lower { lower < higher }
        requires higher { higher ≤ self.now.tracks }
        requires track { track < self.now.tracks }
        ensures { result ≡ helped self.now lower higher track }
    {
        [
            negated(self.name(lower, track)),
            negated(self.name(higher, track)),
            negated(self.above.name(lower, track)),
        ]
    }

    /// Why it holds: neither the higher slot nor the last one had the track.
    fn helped_hints(&self, lower: u32, higher: u32, track: u32) -> [i64; 3]
        requires lower { lower < higher }
        requires higher { higher ≤ self.now.tracks }
        requires track { track < self.now.tracks }
        ensures { result ≡ helped_hints_of self.now lower higher track }
    {
        [
            self.above.apart(lower, higher, track),
            self.above.apart(lower, self.tracks + 1, track),
            self.meaning(higher, track, Meaning::OrGiven),
        ]
    }

    /// Adds that two slots do not both have a track.
    fn add_apart(
        &self,
        refutation: &mut Refutation,
        lower: u32,
        higher: u32,
        track: u32,
    ) -> Result<(), AllocError>
        requires ground { IsGround refutation.old self.now }
        requires helped { AreHelped refutation.old self.now }
        requires lower { lower < higher }
        requires higher { higher ≤ self.now.tracks }
        requires track { track < self.now.tracks }
        ensures { OnOk result (Adds refutation.old refutation.new
            (apart_of self.now lower higher track)) }
    {
        let clause = self.apart_clause(lower, higher, track);
        let hints = self.apart_hints(lower, higher, track);
        refutation.add(&clause, &hints)
    }

    /// The clause that two slots do not both have a track.
    fn apart_clause(&self, lower: u32, higher: u32, track: u32) -> [Lit; 2]
        requires lower { lower < higher }
        requires higher { higher ≤ self.now.tracks }
        requires track { track < self.now.tracks }
        ensures { result ≡ apart_of self.now lower higher track }
    {
        [
            negated(self.name(lower, track)),
            negated(self.name(higher, track)),
        ]
    }

    /// Why it holds: if they had, the lower one did not have it before, so it had the last track,
    /// and the last slot had this one; so the higher one did not have it before, and had the last
    /// track too.
    fn apart_hints(&self, lower: u32, higher: u32, track: u32) -> [i64; 6]
        requires lower { lower < higher }
        requires higher { higher ≤ self.now.tracks }
        requires track { track < self.now.tracks }
        ensures { result ≡ apart_hints_of self.now lower higher track }
    {
        [
            self.help(lower, higher, track),
            self.meaning(lower, track, Meaning::OrMoved),
            self.meaning(lower, track, Meaning::OrGiven),
            self.above.apart(higher, self.tracks + 1, track),
            self.meaning(higher, track, Meaning::OrMoved),
            self.above.apart(lower, higher, self.tracks),
        ]
    }

    /// Adds for each slot that it has one of the fewer tracks.
    fn add_some_tracks(&self, alloc: Global, refutation: &mut Refutation) -> Result<(), AllocError>
        requires { IsGround refutation.old self.now }
        ensures { OnOk result (AddsRow refutation.old refutation.new (self.now.tracks + 1)
            (some_of self.now)) }
    {
        for place in 0..self.tracks + 1 {
            let Ok(()) = self.add_some_track(alloc, refutation, place) else {
                return Err(AllocError);
            };
        }
        Ok(())
    }

    /// Adds that a slot has one of the fewer tracks.
    fn add_some_track(
        &self,
        alloc: Global,
        refutation: &mut Refutation,
        place: u32,
    ) -> Result<(), AllocError>
        requires ground { IsGround refutation.old self.now }
        requires place { place ≤ self.now.tracks }
        ensures { OnOk result (Adds refutation.old refutation.new (some_of self.now place)) }
    {
        let Ok(clause) = row(alloc, self.firsts[place as usize], self.tracks) else {
            return Err(AllocError);
        };
        let Ok(hints) = self.some_hints(alloc, place) else {
            return Err(AllocError);
        };
        refutation.add(&clause, &hints)
    }

    /// Why a slot has one of the fewer tracks: if not, it had none of them, and so the last one;
    /// then the last slot had none of them, and not the last one either.
    fn some_hints(&self, alloc: Global, place: u32) -> Result<Vec<i64>, AllocError>
        requires { place ≤ self.now.tracks }
        ensures { IfOk result (λ hints. hints.items ≡ some_hints_of self.now place) }
    {
        let last = self.tracks + 1;
        let mut hints = Vec::new(alloc);
        self.push_meanings(&mut hints, place, Meaning::ByKept)?;
        hints.push(self.above.some_track(place))?;
        self.push_meanings(&mut hints, place, Meaning::ByMoved)?;
        hints.push(self.above.apart(place, last, self.tracks))?;
        hints.push(self.above.some_track(last))?;
        Ok(hints)
    }

    /// Pushes one of the clauses on the variable of each track of a slot.
    fn push_meanings(
        &self,
        hints: &mut Vec<i64>,
        place: u32,
        which: Meaning,
    ) -> Result<(), AllocError>
        requires { place ≤ self.now.tracks }
        ensures { OnOk result (hints.new.items
            ≡ hints.old.items ++ meanings_of self.now place which self.now.tracks) }
    {
        for track in 0..self.tracks {
            hints.push(self.meaning(place, track, which))?;
        }
        Ok(())
    }
}

/// The place of a clause among the four that say what a variable means.
fn meaning_number(which: Meaning) -> u64
    ensures value { result ≡ meaning_number which }
    ensures few { result ≤ 4 }
{
    match which {
        Meaning::ByKept => 1,
        Meaning::ByMoved => 2,
        Meaning::OrMoved => 3,
        Meaning::OrGiven => 4,
    }
}

/// The clause that one of so many variables from one on is true.
pub(crate) fn row(alloc: Global, first: u32, count: u32) -> Result<Vec<Lit>, AllocError>
    requires { first + count ≤ LITERAL_LIMIT }
    ensures { IfOk result (λ clause. clause.items ≡ some_clause first count) }
{
    let mut clause = Vec::new(alloc);
    for at in 0..count {
        clause.push(plain(first + at))?;
    }
    Ok(clause)
}
