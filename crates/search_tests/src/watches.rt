//! Chains, trails and pending clauses as worked out by hand.

ghost use Rattle.std.specs.Prelude.{◌≡◌, ◌≢◌, ◌<◌, ◌≤◌, pos, true, IfOk, length, None};
ghost use Rattle.sat_arena.specs.declared.clause_ref.ClauseRef.{ClauseRef};
ghost use Rattle.sat_clause.specs.Learned.{IsSimple};
ghost use Rattle.sat_clause.specs.Literal.{IsWithin, lit, variable as variable_of};
ghost use Rattle.search_tests.specs.WatchStates.{IsAtStart, IsPendingFor, first_decided};
ghost use Rattle.sat_watch.specs.Watches.{is_attached};

use sat_arena::{Arena, ClauseRef};
use sat_clause::Lit;
use sat_watch::Watches;
use std::alloc::{AllocError, Global};
use std::process::Abort;
use std::test::Fail;

/// Watches where nothing is true.
fn start(alloc: Global, vars: u32) -> Result<Watches, AllocError>
    requires few { vars ≤ 1000 }
    ensures { IfOk result (IsAtStart vars) }
{
    Watches::new(alloc, Arena::new(alloc), vars)
}

/// A clause of two literals.
fn two(vars: u32, a: i32, b: i32) -> [Lit; 2]
    requires a { IsWithin vars (lit a) }
    requires b { IsWithin vars (lit b) }
    requires apart { variable_of (lit a) ≢ variable_of (lit b) }
    ensures { IsSimple vars result }
{
    [Lit { code: a }, Lit { code: b }]
}

/// A clause of two variables behind the first one, and then that one.
fn with_first(vars: u32, a: u32, b: u32) -> [Lit; 3]
    requires a { 2 ≤ a }
    requires b { a < b }
    requires few { b ≤ vars }
    requires many { vars ≤ 1000 }
    ensures { IsSimple vars result }
{
    [Lit::positive(a), Lit::positive(b), Lit::positive(1)]
}

/// Attaches a clause where nothing is true.
fn attach(watches: &mut Watches, vars: u32, lits: &[Lit], id: u32) -> Result<ClauseRef, AllocError>
    requires start { IsAtStart vars watches.old }
    requires simple { IsSimple vars lits.now }
    requires two { 2 ≤ length lits.now }
    ensures start { IsAtStart vars watches.new }
    ensures attached { IfOk result (λ c. is_attached watches.new.clauses c ≡ true) }
    ensures kept { (c : ClauseRef) → is_attached watches.old.clauses c ≡ true
        → is_attached watches.new.clauses c ≡ true }
{
    watches.attach(lits, id)
}

/// Deletes a clause, named twice, where nothing is true.
fn delete(watches: &mut Watches, alloc: Global, vars: u32, c: ClauseRef) -> Result<(), AllocError>
    requires start { IsAtStart vars watches.old }
    requires attached { is_attached watches.old.clauses c ≡ true }
    ensures { IsAtStart vars watches.new }
{
    watches.delete(alloc, &[c, c])
}

/// Decides that variable 1 is false, and says whether no clause is false then.
fn denies_first(watches: &mut Watches) -> bool
    requires { IsAtStart 3 watches.old }
    ensures { watches.new.vars ≡ 3 }
{
    watches.assume(Lit { code: -1 });
    let mut visits = 0;
    watches.propagate(&mut visits).is_none()
}

/// Whether variable 2 is true, and variable 3 has this value.
fn has_values(watches: &Watches, third: bool) -> bool
    requires { watches.now.vars ≡ 3 }
{
    matches!(watches.value(Lit { code: 2 }), Some(true))
        && matches!(watches.value(Lit { code: 3 }), Some(value) if value == third)
}

/// The second literal becomes true where the first is false, and then the third.
fn chain(rt: &impl Abort, watches: &mut Watches) -> Result<(), AllocError>
    requires { IsAtStart 3 watches.old }
{
    attach(watches, 3, &two(3, 1, 2), 1)?;
    attach(watches, 3, &two(3, -2, 3), 2)?;
    assert!(rt; denies_first(watches));
    assert!(rt; watches.level() == 1 && watches.trail().len() == 3);
    assert!(rt; has_values(watches, true));
    Ok(())
}

#[test]
fn chains_make_literals_true(rt: HostRuntime) -> Result<(), Fail> {
    let mut watches = start(rt.alloc(), 3)?;
    chain(&rt, &mut watches)?;
    Ok(())
}

/// A clause of their negations is false then.
fn chain_to_a_false_clause(rt: &impl Abort, watches: &mut Watches) -> Result<(), AllocError>
    requires { IsAtStart 3 watches.old }
{
    attach(watches, 3, &two(3, 1, 2), 1)?;
    attach(watches, 3, &two(3, -2, 3), 2)?;
    attach(watches, 3, &two(3, -3, -2), 3)?;
    assert!(rt; !denies_first(watches));
    Ok(())
}

#[test]
fn chains_lead_to_a_false_clause(rt: HostRuntime) -> Result<(), Fail> {
    let mut watches = start(rt.alloc(), 3)?;
    chain_to_a_false_clause(&rt, &mut watches)?;
    Ok(())
}

/// A clause is not looked at where a literal becomes false that it does not watch.
#[test]
fn third_literal_is_not_looked_at(rt: HostRuntime) -> Result<(), Fail> {
    let mut visits = 0;
    let mut watches = start(rt.alloc(), 201)?;
    for i in 1..101u32 {
        attach(&mut watches, 201, &with_first(201, 2 * i, 2 * i + 1), i)?;
    }
    watches.assume(Lit { code: -1 });
    assert!(rt; watches.propagate(&mut visits).is_none());
    assert!(rt; visits == 0);
    Ok(())
}

/// Attaches three clauses, of which the second stands before the third, and deletes it.
fn delete_second(rt: &impl Abort, watches: &mut Watches, alloc: Global) -> Result<(), AllocError>
    requires { IsAtStart 3 watches.old }
    ensures { IsAtStart 3 watches.new }
{
    attach(watches, 3, &two(3, 1, 2), 1)?;
    let c = attach(watches, 3, &two(3, -2, 3), 2)?;
    let d = attach(watches, 3, &two(3, -2, -3), 3)?;
    assert!(rt; d.word == 16 && watches.behind(c) == Some(d));
    delete(watches, alloc, 3, c)
}

/// A clause that is gone makes nothing true, and the one behind it has taken its place.
fn follow_third(rt: &impl Abort, watches: &mut Watches)
    requires { IsAtStart 3 watches.old }
{
    assert!(rt; denies_first(watches));
    assert!(rt; has_values(watches, false));
    let trail = watches.trail();
    assert!(rt; trail.len() == 3);
    assert!(rt; trail[2].reason.clause() == Some(ClauseRef { word: 8 }));
}

#[test]
fn clause_is_deleted(rt: HostRuntime) -> Result<(), Fail> {
    let mut watches = start(rt.alloc(), 3)?;
    delete_second(&rt, &mut watches, rt.alloc())?;
    follow_third(&rt, &mut watches);
    Ok(())
}

/// Attaches the clause that variable 2 is true where variable 1 is, which was decided.
fn attach_pending(watches: &mut Watches) -> Result<ClauseRef, AllocError>
    requires { watches.old ≡ first_decided }
    ensures { IfOk result (λ c. IsPendingFor (lit (pos 2)) c watches.new) }
{
    watches.attach(&[Lit { code: -1 }, Lit { code: 2 }], 7)
}

/// It makes its literal true next, at the level of the decision.
fn follow_pending(rt: &impl Abort, watches: &mut Watches) -> Result<(), AllocError>
    requires { watches.old ≡ first_decided }
{
    let c = attach_pending(watches)?;
    watches.imply(Lit { code: 2 }, c);
    let trail = watches.trail();
    assert!(rt; trail.len() == 2);
    let entry = trail[1];
    assert!(rt; entry.lit == Lit { code: 2 } && entry.level == 1);
    assert!(rt; entry.reason.clause() == Some(c));
    let mut visits = 0;
    assert!(rt; watches.propagate(&mut visits).is_none());
    Ok(())
}

#[test]
fn pending_clause_makes_its_literal_true(rt: HostRuntime) -> Result<(), Fail> {
    let mut watches = Watches::new(rt.alloc(), Arena::new(rt.alloc()), 2)?;
    watches.assume(Lit { code: 1 });
    follow_pending(&rt, &mut watches)?;
    Ok(())
}
