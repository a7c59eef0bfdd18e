//! Clauses that are attached at level 0, whatever their literals are there.

ghost use Rattle.std.specs.Prelude.{◌≡◌, All, None, Ok, OnErr, true, false};
ghost use Rattle.sat_clause.specs.Learned.{IsSimple};
ghost use Rattle.sat_clause.specs.Literal.{IsWithin};
ghost use Rattle.sat_core.specs.SearchStore.{IsLeveled};
ghost use Rattle.sat_core.specs.Start.{IsStanding, IsTaken};
ghost use Rattle.sat_watch.specs.Choice.{FreeSays};
ghost use Rattle.sat_watch.specs.Watched.{AreFalse, is_false};
ghost use Rattle.sat_watch.specs.Watches.{AreInPlace};

use sat_clause::Lit;
use sat_watch::Watches;
use std::alloc::{AllocError, Global};

/// How a clause stands at level 0.
#[derive(Clone, Copy, Debug)]
enum Standing {
    /// Each literal is false.
    False,
    /// This literal is open, and the others are false.
    Unit(Lit),
    /// One literal is true, or two are not false.
    Free,
}

/// Whether a literal is not false.
fn is_free(watches: &Watches, l: Lit) -> bool
    requires { IsWithin watches.now.vars l }
    ensures free { result ≡ true → is_false watches.now.trail l ≡ false }
    ensures not_free { result ≡ false → is_false watches.now.trail l ≡ true }
{
    watches.value(l).unwrap_or(true)
}

/// The first position from this one on whose literal is not false, if there is one.
fn free_position(watches: &Watches, lits: &[Lit], from: usize) -> Option<usize>
    requires { All (IsWithin watches.now.vars) lits.now }
    ensures { FreeSays watches.now.trail lits.now from result }
{
    for k in from..lits.len() {
        if is_free(watches, lits[k]) {
            return Some(k);
        }
    }
    None
}

/// How a clause without a variable twice stands at level 0.
fn how_it_stands(watches: &Watches, lits: &[Lit]) -> Standing
    requires simple { IsSimple watches.now.vars lits.now }
    requires level { watches.now.level ≡ 0 }
    requires leveled { IsLeveled watches.now }
    ensures { IsStanding watches.now lits.now result }
{
    let Some(i) = free_position(watches, lits, 0) else {
        return Standing::False;
    };
    if free_position(watches, lits, i + 1).is_some() {
        return Standing::Free;
    }
    let l = lits[i];
    if watches.value(l).is_some() {
        return Standing::Free;
    }
    Standing::Unit(l)
}

/// Attaches a clause without a variable twice at level 0. Where one literal is open and the others
/// are false, that one is made true. Or it says that the clause is false.
///
/// # Errors
/// Where memory is short; nothing changes.
pub(crate) fn attach_at_start(
    watches: &mut Watches,
    lits: &[Lit],
    id: u32,
) -> Result<bool, AllocError>
    requires simple { IsSimple watches.old.vars lits.now }
    requires level { watches.old.level ≡ 0 }
    requires leveled { IsLeveled watches.old }
    requires stand { AreInPlace 0 watches.old.clauses }
    requires quiet { watches.old.pending ≡ None }
    ensures attached { result ≡ Ok true → IsTaken watches.old watches.new lits.now id }
    ensures is_false { result ≡ Ok false → AreFalse watches.old.trail lits.now }
    ensures same { result ≡ Ok false → watches.new ≡ watches.old }
    ensures err { OnErr result (watches.new ≡ watches.old) }
{
    match how_it_stands(watches, lits) {
        Standing::False => Ok(false),
        Standing::Free => {
            watches.attach(lits, id)?;
            Ok(true)
        }
        Standing::Unit(l) => {
            let c = watches.attach(lits, id)?;
            watches.imply(l, c);
            Ok(true)
        }
    }
}
