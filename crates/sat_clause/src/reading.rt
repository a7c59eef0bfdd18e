//! What a clause says where some literals are false.

ghost use Rattle.std.specs.Prelude.{◌≡◌, ◌≤◌, ℕ, List, All};
ghost use Rattle.sat_clause.specs.Literal.{IsWithin, is_among};
ghost use Rattle.sat_clause.specs.Rup.{reading_of};

use crate::Lit;
use crate::limits::LITERAL_LIMIT;

/// What a clause says where some literals are false. Its other literals are open, and one that
/// stands in it twice counts once.
#[derive(Clone, Copy)]
pub enum Reading {
    /// No literal is open, so the clause is false.
    Conflict,
    /// One literal is open, and the clause makes it true.
    Unit(Lit),
    /// One literal is open, and it is true already: its negation is among the false ones.
    Satisfied,
    /// Two or more literals are open.
    Unresolved,
}

/// What knows of each literal of the variables 1 to a number whether it is false.
pub trait FalseLiterals {
    ghost use Rattle.sat_clause.specs.declared.literal.Lit.{Lit};

    ghost most: { Self → ℕ };

    ghost falses: { Self → List Lit };

    /// Whether the literal is false.
    fn is_false(&self, l: Lit) -> bool
        requires { IsWithin (most self.now) l }
        ensures { result ≡ is_among (falses self.now) l };
}

/// What the clause says, where these literals are false.
pub fn read_clause<F: FalseLiterals>(literals: &F, clause: &[Lit]) -> Reading
    requires few { F.most literals.now ≤ LITERAL_LIMIT }
    requires within { All (IsWithin (F.most literals.now)) clause.now }
    ensures value { result ≡ reading_of (F.falses literals.now) clause.now }
    ensures within { (l : Lit) → result ≡ Reading.Unit l → IsWithin (F.most literals.now) l }
{
    let mut open: Option<Lit> = None;
    for l in clause {
        if literals.is_false(*l) {
            continue;
        }
        let Some(first) = open else {
            open = Some(*l);
            continue;
        };
        if first != *l {
            return Reading::Unresolved;
        }
    }
    let Some(last) = open else {
        return Reading::Conflict;
    };
    if literals.is_false(last.negation()) {
        return Reading::Satisfied;
    }
    Reading::Unit(last)
}
