//! The clauses of a formula as text. As many rows as have room are made together, the last one
//! first, and copied once.
ghost use Rattle.std.specs.Prelude.{◌≡◌, ◌≤◌, ◌<◌, ◌+◌, ◌-◌, ◌*◌, ◌++◌, true, drop, flat_map, length, take, All, IfOk, IfSome, IsTrue, OnErr, OnOk};
ghost use Rattle.desk_io.specs.ShelfState.{FailsToAppend};
ghost use Rattle.desk_io.specs.Writing.{Writes};
ghost use Rattle.sat_clause.specs.Literal.{IsWithin};
ghost use Rattle.sat_text.specs.Printed.{clause_text};
ghost use Rattle.sat_text.specs.Rows.{IsWrittenTo, between};
ghost use Rattle.sat_text.specs.declared.row.TheConstants.{NUMBER_ROOM, ROW_ROOM};

use crate::digits::DigitTable;
use crate::row::{
    NUMBER_ROOM, PIECE_LIMIT, ROW_ROOM, RowRoom, put_byte, put_numbers, row_room, write_from,
    write_row,
};
use desk_io::{BlockWriter, Failed, Shelf};
use sat_clause::{Formula, Lit};

/// Room for the `0` and the newline that end a row.
const END_ROOM: usize = 2;

/// Whether a row of this clause has room in so many bytes, whatever its literals are.
fn has_room(clause: &[Lit], free: usize) -> bool
    ensures { IsTrue result → length clause.now * NUMBER_ROOM + 2 ≤ free }
{
    clause.len() <= PIECE_LIMIT && clause.len() * NUMBER_ROOM + END_ROOM <= free
}

/// The first clause from one on whose row has no room behind those before it, or the number of
/// clauses.
fn end_of_rows(formula: &Formula, first: u32, many: u32) -> u32
    requires from { first ≤ many }
    requires many { many ≡ length formula.now.cnf.clauses }
    ensures from { first ≤ result }
    ensures within { result ≤ many }
{
    let mut free = ROW_ROOM;
    let mut end = first;
    while end < many {
        let clause = formula.clause(end);
        if !has_room(clause, free) {
            break;
        }
        free -= clause.len() * NUMBER_ROOM + END_ROOM;
        end += 1;
    }
    end
}

/// Puts the row of a clause before an end, where it has room, and gives where it begins.
fn put_row(room: &mut RowRoom, digits: &DigitTable, clause: &[Lit], end: usize) -> Option<usize>
    requires { end ≤ ROW_ROOM }
    ensures before { IfSome result (λ start. start ≤ end) }
    ensures put { IfSome result (λ start. drop start room.new
        ≡ clause_text clause.now ++ drop end room.old) }
{
    if !has_room(clause, end) {
        return None;
    }
    let start = put_byte(room, b'\n', end);
    let start = put_byte(room, b'0', start);
    Some(put_numbers(room, digits, clause, start))
}

/// Puts the rows of the clauses from one to the one before another at the end of the room, where
/// they have room, and gives where they begin.
fn put_rows(
    room: &mut RowRoom,
    digits: &DigitTable,
    formula: &Formula,
    first: u32,
    behind: u32,
) -> Option<usize>
    requires order { first ≤ behind }
    requires within { behind ≤ length formula.now.cnf.clauses }
    ensures before { IfSome result (λ start. start ≤ ROW_ROOM) }
    ensures put { IfSome result (λ start. drop start room.new
        ≡ flat_map clause_text (between first behind formula.now.cnf.clauses)) }
    ensures within { IfSome result (λ _. All (All (IsWithin formula.now.cnf.vars))
        (between first behind formula.now.cnf.clauses)) }
{
    let mut start = ROW_ROOM;
    for i in (first..behind).rev() {
        let Some(at) = put_row(room, digits, formula.clause(i), start) else {
            return None;
        };
        start = at;
    }
    Some(start)
}

/// Writes the rows of clauses from one on, together as far as they have room and else the first
/// alone, and gives the first clause that is left.
fn write_some<S: Shelf>(
    room: &mut RowRoom,
    digits: &DigitTable,
    writer: &mut BlockWriter,
    shelf: &mut S,
    formula: &Formula,
    first: u32,
) -> Result<u32, Failed>
    requires created { (S.state shelf.old).is_created ≡ true }
    requires within { first < length formula.now.cnf.clauses }
    ensures ok { IfOk result (λ next. IsWrittenTo formula.now.cnf first next (S.state shelf.old)
        writer.old (S.state shelf.new) writer.new) }
    ensures err { OnErr result (FailsToAppend (S.state shelf.old)
        (writer.old ++ flat_map clause_text (drop first formula.now.cnf.clauses))
        (S.state shelf.new)) }
{
    let behind = end_of_rows(formula, first, formula.len());
    if first < behind {
        if let Some(start) = put_rows(room, digits, formula, first, behind) {
            let Ok(()) = write_from(room, writer, shelf, start) else {
                return Err(Failed);
            };
            return Ok(behind);
        }
    }
    let Ok(()) = write_row(room, digits, writer, shelf, formula.clause(first), b'\n') else {
        return Err(Failed);
    };
    Ok(first + 1)
}

/// Writes the clauses.
pub fn write_clauses<S: Shelf>(
    writer: &mut BlockWriter,
    shelf: &mut S,
    formula: &Formula,
) -> Result<(), Failed>
    requires { (S.state shelf.old).is_created ≡ true }
    ensures written { Writes (S.state shelf.old) writer.old
        (flat_map clause_text formula.now.cnf.clauses) (S.state shelf.new) writer.new result }
    ensures within { OnOk result
        (All (All (IsWithin formula.now.cnf.vars)) formula.now.cnf.clauses) }
{
    let mut room = row_room();
    let digits = DigitTable::new();
    let mut next = 0;
    while next < formula.len() {
        let Ok(others) = write_some(&mut room, &digits, writer, shelf, formula, next) else {
            return Err(Failed);
        };
        next = others;
    }
    Ok(())
}
