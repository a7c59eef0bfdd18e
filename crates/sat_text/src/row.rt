//! Rows of numbers as text. A row is made from its last digit on, in room that is kept from row to
//! row, and then copied once.
ghost use Rattle.std.specs.Prelude.{◌≡◌, ◌<◌, ◌≤◌, ◌+◌, ◌*◌, ◌++◌, ◌∷◌, [], true, codes, decimal, drop, flat_map, length};
ghost use Rattle.desk_io.specs.ShelfState.{FailsToAppend};
ghost use Rattle.desk_io.specs.Writing.{Writes};
ghost use Rattle.sat_text.specs.Printed.{number_text, sign_text};

use crate::digits::DigitTable;
use desk_io::{BlockWriter, Failed, Shelf};
use itoa::write_digits;
use sat_clause::Lit;

/// How many numbers of a row are made at a time.
pub const PIECE_LIMIT: usize = 64;

/// Room for a number of 64 bits with its sign, and the blank behind it.
pub const NUMBER_ROOM: usize = 24;

/// Room for the numbers of a piece, and what ends a row.
pub const ROW_ROOM: usize = 1538;

/// Room in which rows are made. What is in it is of no account between two rows.
pub type RowRoom = [u8; ROW_ROOM];

/// What is printed as a whole number.
pub trait AsNumber {
    ghost use Rattle.std.specs.Prelude.{ℤ};

    /// The number.
    ghost number: { Self → ℤ };

    fn as_number(&self) -> i64
        ensures { result ≡ number self.now };
}

impl AsNumber for i64 {
    ghost number = { λ n. n };

    fn as_number(&self) -> i64 {
        *self
    }
}

impl AsNumber for Lit {
    ghost number = { λ l. l.code };

    fn as_number(&self) -> i64 {
        i64::from(self.code)
    }
}

/// Room in which no row was made yet.
pub fn row_room() -> RowRoom {
    [0; ROW_ROOM]
}

/// Puts a byte before an end, and gives where it is.
pub fn put_byte(room: &mut RowRoom, byte: u8, end: usize) -> usize
    requires some { 1 ≤ end }
    requires within { end ≤ ROW_ROOM }
    ensures before { result + 1 ≡ end }
    ensures put { drop result room.new ≡ byte ∷ drop end room.old }
{
    room[end - 1] = byte;
    end - 1
}

/// Puts three bytes before an end, and gives where they begin.
fn put_three(room: &mut RowRoom, bytes: [u8; 3], end: usize) -> usize
    requires enough { 3 ≤ end }
    requires within { end ≤ ROW_ROOM }
    ensures before { result + 3 ≡ end }
    ensures put { drop result room.new ≡ bytes ++ drop end room.old }
{
    let [first, second, third] = bytes;
    let end = put_byte(room, third, end);
    let end = put_byte(room, second, end);
    put_byte(room, first, end)
}

/// Puts the digits of a number before an end, and gives where they begin.
fn put_digits(room: &mut RowRoom, digits: &DigitTable, number: u64, end: usize) -> usize
    requires enough { 20 ≤ end }
    requires within { end ≤ ROW_ROOM }
    ensures near { end ≤ result + 20 }
    ensures before { result ≤ end }
    ensures put { drop result room.new ≡ decimal number ++ drop end room.old }
{
    if number < 1000 {
        return write_digits(number, room, end);
    }
    let end = put_three(room, digits.last_three(number), end);
    write_digits(number / 1000, room, end)
}

/// Puts the sign of a number before its digits, and gives where the text begins. A minus stands
/// there in any case, and is none of the text of a number that has no sign.
fn put_sign(room: &mut RowRoom, number: i64, start: usize) -> usize
    requires enough { 1 ≤ start }
    requires within { start ≤ ROW_ROOM }
    ensures near { start ≤ result + 1 }
    ensures before { result ≤ start }
    ensures put { drop result room.new ≡ sign_text number ++ drop start room.old }
{
    room[start - 1] = b'-';
    start - usize::from(number < 0)
}

/// Puts a number and a blank before an end, and gives where they begin.
fn put_number(room: &mut RowRoom, digits: &DigitTable, number: i64, end: usize) -> usize
    requires enough { NUMBER_ROOM ≤ end }
    requires within { end ≤ ROW_ROOM }
    ensures near { end ≤ result + NUMBER_ROOM }
    ensures before { result ≤ end }
    ensures put { drop result room.new ≡ number_text number ++ drop end room.old }
{
    let end = put_byte(room, b' ', end);
    let start = put_digits(room, digits, number.unsigned_abs(), end);
    put_sign(room, number, start)
}

/// Puts numbers, each with a blank behind it, before an end, and gives where they begin.
pub fn put_numbers<T: AsNumber>(
    room: &mut RowRoom,
    digits: &DigitTable,
    numbers: &[T],
    end: usize,
) -> usize
    requires enough { length numbers.now * NUMBER_ROOM ≤ end }
    requires within { end ≤ ROW_ROOM }
    ensures before { result ≤ end }
    ensures put { drop result room.new
        ≡ flat_map (λ n. number_text (T.number n)) numbers.now ++ drop end room.old }
{
    let mut start = end;
    for i in (0..numbers.len()).rev() {
        start = put_number(room, digits, numbers[i].as_number(), start);
    }
    start
}

/// Writes what stands in the room from a place on.
pub fn write_from<S: Shelf>(
    room: &RowRoom,
    writer: &mut BlockWriter,
    shelf: &mut S,
    start: usize,
) -> Result<(), Failed>
    requires created { (S.state shelf.old).is_created ≡ true }
    requires within { start ≤ ROW_ROOM }
    ensures { Writes (S.state shelf.old) writer.old (drop start room.now) (S.state shelf.new)
        writer.new result }
{
    writer.write(shelf, &room[start..])
}

/// Writes numbers, each with a blank behind it, and then what stands behind the last piece of them.
///
/// Rows of up to 64 numbers are written at once.
pub fn write_row<T: AsNumber, S: Shelf>(
    room: &mut RowRoom,
    digits: &DigitTable,
    writer: &mut BlockWriter,
    shelf: &mut S,
    numbers: &[T],
    last: u8,
) -> Result<(), Failed>
    requires { (S.state shelf.old).is_created ≡ true }
    ensures { Writes (S.state shelf.old) writer.old
        (flat_map (λ n. number_text (T.number n)) numbers.now ++ 48 ∷ last ∷ [])
        (S.state shelf.new) writer.new result }
{
    let mut rest = numbers;
    while rest.len() > PIECE_LIMIT {
        let (piece, others) = rest.split_at(PIECE_LIMIT);
        let start = put_numbers(room, digits, piece, ROW_ROOM);
        let Ok(()) = write_from(room, writer, shelf, start) else {
            return Err(Failed);
        };
        rest = others;
    }
    let end = put_byte(room, last, ROW_ROOM);
    let end = put_byte(room, b'0', end);
    let start = put_numbers(room, digits, rest, end);
    write_from(room, writer, shelf, start)
}
