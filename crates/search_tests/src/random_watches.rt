//! Random sequences of calls, beside what the definitions say of them: `bench/model_watches.py`
//! draws the same calls, works out by the clauses alone which literals are true behind each, and
//! prints the sum.

ghost use Rattle.std.specs.Prelude.{◌≡◌, ◌<◌, ◌≤◌, false, true, IfSome, OnOk, length};
ghost use Rattle.sat_clause.specs.Learned.{IsSimple};
ghost use Rattle.sat_clause.specs.Literal.{IsWithin, variable as variable_of};
ghost use Rattle.search_tests.specs.WatchStates.{IsIdle};
ghost use Rattle.sat_watch.specs.Watched.{is_false};
ghost use Rattle.sat_watch.specs.Watches.{is_attached};

use sat_arena::{Arena, ClauseRef};
use sat_clause::Lit;
use sat_watch::Watches;
use std::alloc::{AllocError, Global};
use std::process::Abort;
use std::test::Fail;

const VARS: u32 = 40;

/// The next number of a sequence, below another.
fn draw(state: &mut u64, below: u32) -> u32
    requires { 1 ≤ below }
    ensures { result < below }
{
    *state = state
        .wrapping_mul(6364136223846793005)
        .wrapping_add(1442695040888963407);
    ((*state >> 33) % below as u64) as u32
}

/// A variable, or its negation.
fn draw_sign(state: &mut u64, variable: u32) -> Lit
    requires some { 1 ≤ variable }
    requires few { variable ≤ VARS }
    ensures within { IsWithin VARS result }
    ensures variable { variable_of result ≡ variable }
{
    if draw(state, 2) == 0 {
        return Lit::positive(variable);
    }
    Lit {
        code: -(variable as i32),
    }
}

/// Whether a literal is not false.
fn is_free(watches: &Watches, l: Lit) -> bool
    requires vars { watches.now.vars ≡ VARS }
    requires within { IsWithin VARS l }
    ensures { result ≡ true → is_false watches.now.trail l ≡ false }
{
    match watches.value(l) {
        Some(false) => false,
        _ => true,
    }
}

/// Attaches a clause, if its first and its last literal are not false, and says whether it did.
fn attach(watches: &mut Watches, lits: &[Lit]) -> Result<bool, AllocError>
    requires idle { IsIdle VARS watches.old }
    requires simple { IsSimple VARS lits.now }
    requires two { 2 ≤ length lits.now }
    ensures { OnOk result (IsIdle VARS watches.new) }
{
    if !is_free(watches, lits[0]) || !is_free(watches, lits[lits.len() - 1]) {
        return Ok(false);
    }
    watches.attach(lits, 1)?;
    Ok(true)
}

/// Attaches a clause of two, three or five literals.
fn attach_drawn(watches: &mut Watches, state: &mut u64) -> Result<bool, AllocError>
    requires { IsIdle VARS watches.old }
    ensures { OnOk result (IsIdle VARS watches.new) }
{
    let a = draw(state, VARS - 12) + 1;
    let b = a + draw(state, 3) + 1;
    let c = b + draw(state, 3) + 1;
    let x = draw_sign(state, a);
    let y = draw_sign(state, b);
    let z = draw_sign(state, c);
    match draw(state, 3) {
        0 => attach(watches, &[x, y]),
        1 => attach(watches, &[z, x, y]),
        _ => {
            let d = c + draw(state, 3) + 1;
            let e = d + draw(state, 3) + 1;
            let v = draw_sign(state, d);
            let w = draw_sign(state, e);
            attach(watches, &[z, v, x, w, y])
        }
    }
}

/// The clause that stands first.
fn first(watches: &Watches) -> Option<ClauseRef>
    ensures { IfSome result (λ c. is_attached watches.now.clauses c ≡ true) }
{
    watches.first()
}

/// Goes back to level 0, and deletes the clause that stands first.
fn delete_first(rt: &impl Abort, alloc: Global, watches: &mut Watches) -> Result<(), AllocError>
    requires vars { watches.old.vars ≡ VARS }
    requires level { 1 ≤ watches.old.level }
    ensures { OnOk result (IsIdle VARS watches.new) }
{
    watches.back_to(0);
    assert!(rt; watches.trail().is_empty());
    let Some(c) = first(watches) else {
        return Ok(());
    };
    watches.delete(alloc, &[c, c])
}

/// Leaves a false clause: goes back behind it, or deletes a clause.
fn leave(
    rt: &impl Abort,
    alloc: Global,
    watches: &mut Watches,
    state: &mut u64,
) -> Result<(), AllocError>
    requires vars { watches.old.vars ≡ VARS }
    requires level { 1 ≤ watches.old.level }
    ensures { OnOk result (IsIdle VARS watches.new) }
{
    if draw(state, 4) > 0 {
        let level = draw(state, watches.level());
        watches.back_to(level);
        return Ok(());
    }
    delete_first(rt, alloc, watches)
}

/// Decides a literal, if it is open, and makes true what follows.
fn decide(
    rt: &impl Abort,
    alloc: Global,
    watches: &mut Watches,
    state: &mut u64,
    l: Lit,
) -> Result<(), AllocError>
    requires idle { IsIdle VARS watches.old }
    requires within { IsWithin VARS l }
    ensures { OnOk result (IsIdle VARS watches.new) }
{
    let None = watches.value(l) else {
        return Ok(());
    };
    watches.assume(l);
    let mut visits = 0;
    let None = watches.propagate(&mut visits) else {
        return leave(rt, alloc, watches, state);
    };
    Ok(())
}

/// Goes back to a level below, if there is one.
fn go_back(watches: &mut Watches, state: &mut u64)
    requires { IsIdle VARS watches.old }
    ensures { IsIdle VARS watches.new }
{
    let above = watches.level();
    if above > 0 {
        watches.back_to(draw(state, above));
    }
}

/// One more call; says whether it attached a clause.
fn step(
    rt: &impl Abort,
    alloc: Global,
    watches: &mut Watches,
    state: &mut u64,
) -> Result<bool, AllocError>
    requires { IsIdle VARS watches.old }
    ensures { OnOk result (IsIdle VARS watches.new) }
{
    match draw(state, 8) {
        0 => {
            go_back(watches, state);
            Ok(false)
        }
        1 | 2 | 3 => attach_drawn(watches, state),
        _ => {
            let variable = draw(state, VARS) + 1;
            let l = draw_sign(state, variable);
            decide(rt, alloc, watches, state, l)?;
            Ok(false)
        }
    }
}

/// A sum to which the level comes, and of each variable whether it is true, false or open.
fn noted(sum: u64, watches: &Watches) -> u64
    requires { watches.now.vars ≡ VARS }
{
    let mut sum = (sum ^ u64::from(watches.level())).wrapping_mul(0x100000001b3);
    for v in 1..VARS + 1 {
        let value = match watches.value(Lit::positive(v)) {
            None => 0,
            Some(false) => 1,
            Some(true) => 2,
        };
        sum = (sum ^ value).wrapping_mul(0x100000001b3);
    }
    sum
}

#[test]
fn random_calls_meet_the_definitions(rt: HostRuntime) -> Result<(), Fail> {
    let alloc = rt.alloc();
    let mut state = 1;
    let mut sum = 0;
    let mut clauses = 0u32;
    for _ in 0..25 {
        let mut watches = Watches::new(alloc, Arena::new(alloc), VARS)?;
        for _ in 0..400 {
            if step(&rt, alloc, &mut watches, &mut state)? {
                clauses = clauses.saturating_add(1);
            }
            sum = noted(sum, &watches);
        }
    }
    assert!(rt; clauses == 3157);
    assert!(rt; sum == 11212977173803802523);
    Ok(())
}
