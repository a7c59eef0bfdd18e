//! Why the rows are not gone through to the end.
use desk_io::ReadStop;
use std::alloc::AllocError;
use std::io;
use std::str::Utf8Error;
use thiserror::Error;

/// Why the rows are not gone through to the end.
#[derive(Debug, Drop, Error)]
pub enum RowsError {
    /// A file is not there, is too long, or was not read.
    #[error(transparent)]
    File(#[from] ReadStop),
    /// A file is no text.
    #[error(transparent)]
    Text(#[from] Utf8Error),
    /// Memory ran out.
    #[error(transparent)]
    Memory(#[from(alloc)] AllocError),
    /// A line was not printed.
    #[error(transparent)]
    Output(#[from] io::Error),
}
