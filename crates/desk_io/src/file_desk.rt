//! A desk of files of the system. What they hold is not told.
ghost use Rattle.std.specs.Prelude.{◌≡◌, ◌≤◌, ◌<◌, ◌↔◌, false, length, IfOk, IsSome, None, Some};
ghost use Rattle.std.specs.IoError.{error_kind};
ghost use Rattle.desk_io.specs.Files.{RisesByOne};
ghost use Rattle.desk_io.specs.SystemFiles.{file_desk_state};

use crate::desk::{Desk, Failed};
use std::fs;
use std::io::{self, ErrorKind, Read};
use std::marker::Model;
use std::rt::Files;

/// Reads files of the system, whose names are paths. A read that a signal interrupts is tried
/// again. It keeps what kind of error the system gave last.
#[derive(Drop)]
pub struct FileDesk<'a, R: Files> {
    rt: &'a R,
    file: Option<R::File>,
    faults: u64,
    last_error: Option<ErrorKind>,
}

impl<'a, R: Files> Model for FileDesk<'a, R> {
    ghost use Rattle.std.specs.Prelude.{◌≡◌, is_some, nat_lt};
    ghost use Rattle.desk_io.specs.SystemFiles.{FileDeskView};

    ghost Value = { FileDeskView };

    ghost view = { λ d. record {
      is_started = is_some d.file;
      faults = d.faults;
      last_error = d.last_error;
    } };

    ghost invariant = { λ d. is_some d.last_error ≡ nat_lt 0 d.faults };
}

impl<'a, R: Files> FileDesk<'a, R> {
    /// A desk where nothing is started.
    pub fn new(rt: &'a R) -> FileDesk<'a, R>
        ensures { result ≡ record { is_started = false; faults = 0; last_error = None } }
    {
        FileDesk {
            rt,
            file: None,
            faults: 0,
            last_error: None,
        }
    }

    /// What kind of error the system gave with the last fault; None where there was no fault.
    pub fn last_error(&self) -> Option<ErrorKind>
        ensures value { result ≡ self.now.last_error }
        ensures there { IsSome result ↔ (0 < self.now.faults) }
    {
        self.last_error
    }

    // Counts a fault, and keeps what the system says of it.
    fn fail(&mut self, error: io::Error) -> Failed
        ensures risen { RisesByOne self.old.faults self.new.faults }
        ensures error { self.new.last_error ≡ Some (error_kind error) }
        ensures is_started { self.new.is_started ≡ self.old.is_started }
    {
        self.faults = self.faults.saturating_add(1);
        self.last_error = Some(error.kind());
        Failed
    }
}

impl<'a, R: Files> Desk for FileDesk<'a, R> {
    ghost state = { file_desk_state };

    fn start(&mut self, name: &str) -> Result<(), Failed> {
        match fs::open(self.rt, name) {
            Ok(file) => {
                self.file = Some(file);
                Ok(())
            }
            Err(error) => {
                self.file = None;
                Err(self.fail(error))
            }
        }
    }

    fn read(&mut self, buf: &mut [u8]) -> Result<usize, Failed> {
        let Some(file) = &mut self.file else {
            unreachable!()
        };
        match read_through(file, buf) {
            Ok(count) => Ok(count),
            Err(error) => Err(self.fail(error)),
        }
    }
}

// Reads as often as signals interrupt it.
fn read_through<F: Read>(file: &mut F, buf: &mut [u8]) -> io::Result<usize>
    ensures { IfOk result (λ count. count ≤ length buf.old) }
{
    for _ in 0..u64::MAX {
        match file.read(buf) {
            Err(e) if e.kind() == ErrorKind::Interrupted => {}
            answer => return answer,
        }
    }
    Err(ErrorKind::Interrupted.into())
}
