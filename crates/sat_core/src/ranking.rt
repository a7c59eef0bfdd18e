//! The variables in the order in which a search decides them.

ghost use Rattle.std.specs.Prelude.{◌≡◌, ◌+◌, ◌-◌, ◌^◌, ◌<◌, ◌≤◌, [], IfNone, IfOk, IfSome, false, replicate, slice_set, true};
ghost use Rattle.sat_clause.specs.Literal.{variable};
ghost use Rattle.sat_core.specs.Ranking.{AreDrawn, IsRanked, SameHeld, next_draw as next_draw_of};
ghost use Rattle.sat_order.specs.Order.{IsBest, IsEmpty, IsVariable, activity_of};

use crate::habits::{FirstOrder, Habits};
use crate::occurrences::Occurrences;
use crate::saved::SavedValues;
use sat_clause::{Lit, VARIABLE_LIMIT};
use sat_order::Order;
use std::alloc::{AllocError, Global};
use std::marker::Model;

/// The greatest activity.
const MOST: u64 = 1 << 62;

/// What a bump adds to an activity at first.
const FIRST_STEP: u64 = 1 << 20;

/// First activities by numbers and by clauses are no greater.
const MOST_FIRST: u64 = 1 << 19;

/// What activities are divided by where one would be too great.
const SCALE: u64 = 1 << 40;

/// The mean length of learned clauses is kept in parts of a literal, so many to one.
const PARTS: u64 = 1 << 16;

/// The mean length of learned clauses that is taken at first.
const FIRST_MEAN: u64 = 20 * PARTS;

/// A length moves the mean by one part in so many.
const MEAN_WEIGHT: u64 = 64;

/// The variables by their activity. To bump one adds a step to it, which grows from conflict to
/// conflict, so that what was met lately counts most. Beside it stands as what each is decided.
///
/// Nothing but [`Ranking::new`] takes memory.
#[derive(Drop)]
pub(crate) struct Ranking {
    order: Order,
    step: u64,
    // each conflict makes the step greater by one part in so many
    parts: u64,
    mean: u64,
    saved: SavedValues,
}

/// The draw behind one.
fn next_draw(draw: u64) -> u64
    requires { draw < 2 ^ 32 }
    ensures { result ≡ next_draw_of draw }
{
    (1103515245 * draw + 12345) % (1 << 31)
}

impl Model for Ranking {
    ghost use Rattle.sat_core.specs.Ranking.{IsRankingStore};
    ghost use Rattle.sat_order.specs.Order.{OrderState};

    ghost Value = { OrderState };

    ghost view = { λ r. r.order };

    ghost invariant = { λ r. IsRankingStore r.step r.parts r.mean };
}

/// The step by which a variable is bumped. Where it would take the activity past 2^62 all
/// activities are divided first, and the step with them.
fn step_for(order: &mut Order, step: u64, v: u32) -> u64
    requires variable { IsVariable order.old v }
    requires step { step ≤ 2 ^ 62 }
    ensures held { SameHeld order.old order.new }
    ensures sum { activity_of order.new v + result ≤ 2 ^ 62 }
{
    let most = MOST - step;
    let before = order.activity(v);
    if before <= most {
        return step;
    }
    order.rescale();
    step / SCALE + 1
}

/// Draws the activity of each variable, where all are 0. A seed of 0 leaves them so.
fn draw_activities(order: &mut Order, vars: u32, seed: u32)
    requires few { vars ≤ VARIABLE_LIMIT }
    requires vars { order.old.vars ≡ vars }
    requires zero { order.old.activities ≡ replicate vars 0 }
    ensures held { SameHeld order.old order.new }
    ensures drawn { AreDrawn seed order.new }
{
    if seed == 0 {
        return;
    }
    let mut draw = u64::from(seed);
    for v in 1..vars + 1 {
        draw = next_draw(draw);
        order.bump(v, draw / 65536 % 1024);
    }
}

/// Gives a variable this activity, where it has none. One that gets none is not bumped, so that it
/// stays out of the heap.
fn begin_with(order: &mut Order, v: u32, activity: u64)
    requires variable { IsVariable order.old v }
    requires small { activity ≤ 2 ^ 62 }
    ensures { SameHeld order.old order.new }
{
    if activity == 0 {
        return;
    }
    if order.activity(v) > 0 {
        return;
    }
    order.bump(v, activity);
}

/// Gives the variables activities below 2^19 by their numbers, where all are 0: the greater one has
/// the greater or the same one.
// From the last one on down, so that none rises in the heap.
fn prefer_last(order: &mut Order, vars: u32)
    requires { order.old.vars ≡ vars }
    ensures { SameHeld order.old order.new }
{
    for below in 0..vars {
        let v = vars - below;
        begin_with(order, v, u64::from(v) * MOST_FIRST / u64::from(vars));
    }
}

/// Gives the variables activities by how many literals of theirs were counted.
fn prefer_counted(order: &mut Order, vars: u32, counts: &Occurrences)
    requires few { vars ≤ VARIABLE_LIMIT }
    requires vars { order.old.vars ≡ vars }
    ensures { SameHeld order.old order.new }
{
    for v in 1..vars + 1 {
        begin_with(order, v, u64::from(counts.of(v)).min(MOST_FIRST));
    }
}

/// Gives each variable its first activity, where all are 0.
fn put_first(order: &mut Order, vars: u32, counts: &Occurrences, first: FirstOrder)
    requires few { vars ≤ VARIABLE_LIMIT }
    requires vars { order.old.vars ≡ vars }
    requires zero { order.old.activities ≡ replicate vars 0 }
    ensures { SameHeld order.old order.new }
{
    match first {
        FirstOrder::Rising => {}
        FirstOrder::Falling => prefer_last(order, vars),
        FirstOrder::MostClauses => prefer_counted(order, vars, counts),
        FirstOrder::Drawn { seed } => draw_activities(order, vars, seed),
    }
}

/// The counts of literals that habits ask for, before any is counted.
pub(crate) fn counts_for(
    alloc: Global,
    vars: u32,
    habits: Habits,
) -> Result<Occurrences, AllocError>
    requires { vars ≤ VARIABLE_LIMIT }
{
    match habits.first {
        FirstOrder::MostClauses => Occurrences::new(alloc, vars),
        _ => Ok(Occurrences::none(alloc)),
    }
}

/// The step behind one more conflict, which grows by one part in so many.
#[tactic(auto, using(crate::proofs::RankingLaws::part_least))]
fn grown(step: u64, parts: u64) -> u64
    requires step { step ≤ 2 ^ 62 }
    requires parts { 1 ≤ parts }
    ensures { result ≤ 2 ^ 62 }
{
    let more = step / parts;
    (step + more).min(MOST)
}

impl Ranking {
    /// So many variables, held with the first activities that habits give, by the counts that they
    /// ask for.
    pub(crate) fn new(
        alloc: Global,
        vars: u32,
        counts: &Occurrences,
        habits: Habits,
    ) -> Result<Ranking, AllocError>
        requires { vars ≤ VARIABLE_LIMIT }
        ensures ranked { IfOk result (IsRanked vars []) }
    {
        let saved = SavedValues::new(alloc, vars, habits.value)?;
        let mut order = Order::new(alloc, vars)?;
        put_first(&mut order, vars, counts, habits.first);
        Ok(Ranking {
            order,
            step: FIRST_STEP,
            parts: u64::from(habits.bump_parts.max(1)),
            mean: FIRST_MEAN,
            saved,
        })
    }

    /// Takes out the least of the held variables that have the greatest activity, if one is held.
    pub(crate) fn take_best(&mut self) -> Option<u32>
        ensures best { IfSome result (IsBest self.old) }
        ensures taken { IfSome result
            (λ v. self.new ≡ record self.old { held = slice_set self.old.held (v - 1) false }) }
        ensures none { IfNone result (IsEmpty self.old) }
        ensures kept { IfNone result (self.new ≡ self.old) }
    {
        self.order.take_best()
    }

    /// The literal as which a variable is decided.
    pub(crate) fn literal(&self, v: u32) -> Lit
        requires some { 1 ≤ v }
        requires few { v ≤ VARIABLE_LIMIT }
        ensures { variable result ≡ v }
    {
        self.saved.literal(v)
    }

    /// Holds the variable of a literal again that is true no longer.
    pub(crate) fn put_back(&mut self, l: Lit)
        requires { IsVariable self.old (variable l) }
        ensures { self.new
            ≡ record self.old { held = slice_set self.old.held (variable l - 1) true } }
    {
        self.saved.save(l);
        self.order.put_back(l.variable());
    }

    /// Bumps a variable, held or not.
    pub(crate) fn bump(&mut self, v: u32)
        requires { IsVariable self.old v }
        ensures { SameHeld self.old self.new }
    {
        let step = step_for(&mut self.order, self.step, v);
        self.step = step;
        self.order.bump(v, step);
    }

    /// Makes the step greater, behind a conflict.
    pub(crate) fn grow_step(&mut self)
        ensures { self.new ≡ self.old }
    {
        self.step = grown(self.step, self.parts);
    }

    /// Takes the length of a learned clause into the mean, and says whether it is not above it.
    pub(crate) fn is_short(&mut self, length: u32) -> bool
        ensures { self.new ≡ self.old }
    {
        let parts = u64::from(length) * PARTS;
        let more = self.mean + parts / MEAN_WEIGHT;
        self.mean = more - more / MEAN_WEIGHT;
        parts <= self.mean
    }
}
