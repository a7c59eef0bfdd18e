//! Numbers at the front of a line, in the quick way: each is read in one pass over its bytes, and
//! put where it stays. What is out of the ordinary is left to the reader of any line.
ghost use Rattle.std.specs.Prelude.{◌∷◌, [], ◌++◌, pos, map, All, IsTrue};
ghost use Rattle.sat_clause.specs.Literal.{IsWithin};
ghost use Rattle.sat_text.specs.FrontNumbers.{TakesFront};
ghost use Rattle.sat_text.specs.ReadBack.{IsIdNumber};

use crate::step_line::{MOST_ID, MOST_VARIABLE};
use fpga_text::Line;
use sat_clause::{Lit, VARIABLE_LIMIT};

/// Puts the literals up to the next 0 in place of these. It answers whether they were all in order.
pub fn front_literals(lits: &mut Vec<Lit>, line: &mut Line<'_>) -> bool
    ensures taken { IsTrue result
        → TakesFront line.old.words line.new.words
        (map (λ l. l.code) lits.new.items ++ pos 0 ∷ []) }
    ensures within { IsTrue result → All (IsWithin VARIABLE_LIMIT) lits.new.items }
{
    lits.clear();
    while let Some(number) = line.next_number() {
        if number == 0 {
            return true;
        }
        if number.unsigned_abs() > MOST_VARIABLE {
            return false;
        }
        let Ok(()) = lits.push(Lit {
            code: number as i32,
        }) else {
            return false;
        };
    }
    false
}

/// Puts the hints up to the next 0 in place of these. It answers whether they were all in order.
pub fn front_hints(hints: &mut Vec<i64>, line: &mut Line<'_>) -> bool
    ensures taken { IsTrue result
        → TakesFront line.old.words line.new.words (hints.new.items ++ pos 0 ∷ []) }
    ensures ids { IsTrue result → All IsIdNumber hints.new.items }
{
    hints.clear();
    while let Some(number) = line.next_number() {
        if number == 0 {
            return true;
        }
        if number < 0 || number as u64 > MOST_ID {
            return false;
        }
        let Ok(()) = hints.push(number) else {
            return false;
        };
    }
    false
}
