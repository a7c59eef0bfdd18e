//! The printed form of a log, as LRAT has it.
ghost use Rattle.std.specs.Prelude.{ℕ, ◌≡◌, ◌++◌, true, pos, codes, flat_map, OnOk, OnErr};
ghost use Rattle.desk_io.specs.ShelfState.{after_append, FailsToAppend};
ghost use Rattle.desk_io.specs.Writing.{Writes};
ghost use Rattle.fpga_text.specs.Bytes.{Bytes};
ghost use Rattle.sat_text.specs.LratText.{ReadsLrat};
ghost use Rattle.sat_text.specs.Printed.{closed_text, literal_text, log_text, number_text, step_text};
ghost use Rattle.sat_text.specs.Steps.{viewed};

use crate::digits::DigitTable;
use crate::row::{NUMBER_ROOM, RowRoom, row_room, write_row};
use crate::write::{spaced, write_short};
use arrayvec::ArrayString;
use desk_io::{BlockWriter, Failed, Prints, Shelf, append_text};
use itoa::Buffer;
use sat_clause::{Lit, Log, StepView};

/// Room for an id of 10 digits, a `d`, and two blanks.
const START_ROOM: usize = 16;

/// An id, and a blank after it.
fn id_start(id: u32) -> ArrayString<NUMBER_ROOM>
    ensures { result.bytes ≡ number_text (pos id) }
{
    spaced(i64::from(id))
}

/// What stands before the ids of a deletion.
fn deletion_start(id: u32) -> ArrayString<START_ROOM>
    ensures { result.bytes ≡ number_text (pos id) ++ codes "d " }
{
    let mut text = ArrayString::new();
    text.push_str(Buffer::new().format(id));
    text.push_str(" ");
    text.push_str("d ");
    text
}

/// Writes the literals of an added clause, and its hints.
fn write_clause_and_hints<S: Shelf>(
    room: &mut RowRoom,
    digits: &DigitTable,
    writer: &mut BlockWriter,
    shelf: &mut S,
    clause: &[Lit],
    hints: &[i64],
) -> Result<(), Failed>
    requires { (S.state shelf.old).is_created ≡ true }
    ensures { Writes (S.state shelf.old) writer.old
        ((flat_map literal_text clause.now ++ codes "0 ") ++ closed_text hints.now)
        (S.state shelf.new) writer.new result }
{
    let Ok(()) = write_row(room, digits, writer, shelf, clause, b' ') else {
        return Err(Failed);
    };
    write_row(room, digits, writer, shelf, hints, b'\n')
}

/// Writes a step.
fn write_step<S: Shelf>(
    room: &mut RowRoom,
    digits: &DigitTable,
    writer: &mut BlockWriter,
    shelf: &mut S,
    step: &StepView<'_>,
) -> Result<(), Failed>
    requires { (S.state shelf.old).is_created ≡ true }
    ensures { Writes (S.state shelf.old) writer.old (step_text (viewed step.now))
        (S.state shelf.new)
        writer.new result }
{
    if step.erase {
        let Ok(()) = write_short(writer, shelf, &deletion_start(step.id)) else {
            return Err(Failed);
        };
        return write_row(room, digits, writer, shelf, step.hints, b'\n');
    }
    let Ok(()) = write_short(writer, shelf, &id_start(step.id)) else {
        return Err(Failed);
    };
    write_clause_and_hints(room, digits, writer, shelf, step.lits, step.hints)
}

/// Prints a log: each step on a line.
pub struct LratText;

impl Prints<Log> for LratText {
    ghost use Rattle.sat_text.specs.Printed.{log_text};

    ghost text = { λ log. log_text log.steps };

    fn print<S: Shelf>(
        &self,
        writer: &mut BlockWriter,
        shelf: &mut S,
        log: &Log,
    ) -> Result<(), Failed> {
        let mut room = row_room();
        let digits = DigitTable::new();
        for i in 0..log.len() {
            let Ok(()) = write_step(&mut room, &digits, writer, shelf, &log.step(i)) else {
                return Err(Failed);
            };
        }
        Ok(())
    }
}

/// Appends the printed form of a log to the created file, each step on a line, as LRAT has them. It
/// takes no memory of its own.
///
/// It fails only where the shelf does, and then a front part of the printed form was appended. What
/// is printed of a log that was read reads back as it is.
pub fn write_lrat<S: Shelf>(log: &Log, shelf: &mut S) -> Result<(), Failed>
    requires { (S.state shelf.old).is_created ≡ true }
    ensures ok { OnOk result (S.state shelf.new ≡ after_append (S.state shelf.old)
        (log_text log.now.steps)) }
    ensures err { OnErr result (FailsToAppend (S.state shelf.old) (log_text log.now.steps)
        (S.state shelf.new)) }
    ensures read_back { (inputs : ℕ) (text : Bytes) → ReadsLrat inputs text log.now.steps
        → ReadsLrat
        inputs (log_text log.now.steps) log.now.steps }
{
    append_text(&LratText, shelf, log)
}
