//! The printed form of a formula, as DIMACS has it.
ghost use Rattle.std.specs.Prelude.{◌≡◌, ◌≤◌, ◌++◌, true, length, flat_map, All, IsOk, OnOk, OnErr};
ghost use Rattle.desk_io.specs.ShelfState.{after_append, FailsToAppend};
ghost use Rattle.desk_io.specs.Writing.{Writes};
ghost use Rattle.fpga_text.specs.Bytes.{Bytes};
ghost use Rattle.sat_clause.specs.Literal.{IsWithin};
ghost use Rattle.sat_text.specs.CnfText.{ReadsCnf};
ghost use Rattle.sat_text.specs.Printed.{clause_text, cnf_text, head_text, number_text};

use crate::clauses::write_clauses;
use crate::row::NUMBER_ROOM;
use arrayvec::ArrayString;
use desk_io::{BlockWriter, Failed, Prints, Shelf, append_text};
use itoa::Buffer;
use sat_clause::{CLAUSE_LIMIT, Formula, VARIABLE_LIMIT};

/// Room for a head line: two numbers of 10 digits, and 8 signs.
const HEAD_ROOM: usize = 32;

/// A number, and a blank after it.
pub fn spaced(number: i64) -> ArrayString<NUMBER_ROOM>
    ensures { result.bytes ≡ number_text number }
{
    let mut text = ArrayString::new();
    text.push_str(Buffer::new().format(number));
    text.push_str(" ");
    text
}

/// Writes a short text.
pub fn write_short<const N: usize, S: Shelf>(
    writer: &mut BlockWriter,
    shelf: &mut S,
    text: &ArrayString<N>,
) -> Result<(), Failed>
    requires { (S.state shelf.old).is_created ≡ true }
    ensures { Writes (S.state shelf.old) writer.old text.now.bytes (S.state shelf.new) writer.new
        result }
{
    writer.write(shelf, text.as_bytes())
}

/// The head line of a formula.
fn head_text(formula: &Formula) -> ArrayString<HEAD_ROOM>
    ensures line { result.bytes ≡ head_text formula.now.cnf }
    ensures few { formula.now.cnf.vars ≤ VARIABLE_LIMIT }
{
    let mut line = ArrayString::new();
    line.push_str("p cnf ");
    line.push_str(Buffer::new().format(formula.vars()));
    line.push_str(" ");
    line.push_str(Buffer::new().format(formula.len()));
    line.push_str("\n");
    line
}

/// Prints a formula: the head line, and each clause on a line.
pub struct CnfText;

impl Prints<Formula> for CnfText {
    ghost use Rattle.sat_text.specs.Printed.{cnf_text};
    ghost use Rattle.sat_text.specs.ReadBack.{ReadsBackIfFew};

    ghost text = { λ formula. cnf_text formula.cnf };

    ghost known = { λ formula. ReadsBackIfFew formula.cnf };

    fn print<S: Shelf>(
        &self,
        writer: &mut BlockWriter,
        shelf: &mut S,
        formula: &Formula,
    ) -> Result<(), Failed> {
        let Ok(()) = write_short(writer, shelf, &head_text(formula)) else {
            return Err(Failed);
        };
        write_clauses(writer, shelf, formula)
    }
}

/// Appends the printed form of a formula to the created file: the head line `p cnf VARS CLAUSES`,
/// and each clause on a line, as DIMACS has them. It takes no memory of its own.
///
/// It fails only where the shelf does, and then a front part of the printed form was appended. What
/// is printed of a formula with at most 40,000,000 clauses reads back as it is.
pub fn write_cnf<S: Shelf>(formula: &Formula, shelf: &mut S) -> Result<(), Failed>
    requires { (S.state shelf.old).is_created ≡ true }
    ensures ok { OnOk result (S.state shelf.new ≡ after_append (S.state shelf.old)
        (cnf_text formula.now.cnf)) }
    ensures err { OnErr result (FailsToAppend (S.state shelf.old) (cnf_text formula.now.cnf)
        (S.state shelf.new)) }
    ensures reads { length formula.now.cnf.clauses ≤ CLAUSE_LIMIT → OnOk result
        (ReadsCnf (cnf_text formula.now.cnf) formula.now.cnf) }
    ensures read_back { (text : Bytes) → ReadsCnf text formula.now.cnf → ReadsCnf
        (cnf_text formula.now.cnf) formula.now.cnf }
{
    append_text(&CnfText, shelf, formula)
}
