//! Why the system refuses a file.
ghost use Rattle.std.specs.Prelude.{◌≡◌, IsTrue};
ghost use Rattle.code_words.specs.Errors.{error_phrase};
ghost use Rattle.code_words.specs.Phrases.{is_phrase};

use crate::phrases::*;
use std::io::ErrorKind;

/// Why the system refuses to read or to write a file, by the kind of its error: a phrase of
/// printable ASCII on one line, with no stop at its end.
pub fn system_error(kind: ErrorKind) -> &'static str
    ensures says { result.now ≡ error_phrase kind }
    ensures phrase { IsTrue (is_phrase result.now) }
{
    match kind {
        ErrorKind::NotFound => ERROR_NOT_FOUND,
        ErrorKind::PermissionDenied => ERROR_PERMISSION_DENIED,
        ErrorKind::IsADirectory => ERROR_IS_A_DIRECTORY,
        ErrorKind::NotADirectory => ERROR_NOT_A_DIRECTORY,
        ErrorKind::InvalidFilename => ERROR_INVALID_FILENAME,
        ErrorKind::FilesystemLoop => ERROR_FILESYSTEM_LOOP,
        ErrorKind::ReadOnlyFilesystem => ERROR_READ_ONLY_FILESYSTEM,
        ErrorKind::StorageFull => ERROR_STORAGE_FULL,
        ErrorKind::QuotaExceeded => ERROR_QUOTA_EXCEEDED,
        ErrorKind::FileTooLarge => ERROR_FILE_TOO_LARGE,
        ErrorKind::Interrupted => ERROR_INTERRUPTED,
        ErrorKind::BrokenPipe => ERROR_BROKEN_PIPE,
        ErrorKind::OutOfMemory => ERROR_OUT_OF_MEMORY,
        _ => ERROR_OTHER,
    }
}
