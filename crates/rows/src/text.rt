//! The texts of files.
ghost use Rattle.std.specs.Prelude.{◌≡◌, IfErr, IfOk, OnOk, string_bytes};
ghost use Rattle.desk_io.specs.Reading.{IsWhole};
ghost use Rattle.rows.specs.Unread.{IsUnread};

use crate::stop::RowsError;
use desk_io::{Desk, read_file};
use fpga_problem::TEXT_BYTES;
use std::alloc::{AllocError, Global};
use std::str;

/// The text of the file with this name, which has at most 67,108,864 bytes. The error is `File` of
/// a file that was not read, `Text` of bytes that are no text, or `Memory`.
pub fn text<D: Desk>(alloc: Global, desk: &mut D, name: &str) -> Result<String, RowsError>
    ensures whole { IfOk result (λ text. IsWhole (D.state desk.old).files name.now
        (string_bytes text)) }
    ensures unread { IfErr result (IsUnread (D.state desk.old).files (D.state desk.old).faults
        (D.state desk.new) name.now) }
    ensures quiet { OnOk result ((D.state desk.new).faults ≡ (D.state desk.old).faults) }
    ensures files { (D.state desk.new).files ≡ (D.state desk.old).files }
{
    let bytes = match read_file(alloc, desk, name, TEXT_BYTES) {
        Ok(bytes) => bytes,
        Err(stop) => return Err(RowsError::File(stop)),
    };
    let text = match str::from_utf8(&bytes) {
        Ok(text) => text,
        Err(fault) => return Err(RowsError::Text(fault)),
    };
    let Ok(text) = String::from_str(alloc, text) else {
        return Err(RowsError::Memory(AllocError));
    };
    Ok(text)
}
