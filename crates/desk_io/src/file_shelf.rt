//! A shelf of files of the system. What they hold is not told.
ghost use Rattle.std.specs.Prelude.{◌≡◌, false, true, None, Some};
ghost use Rattle.std.specs.IoError.{error_kind};
ghost use Rattle.desk_io.specs.Files.{RisesByOne};
ghost use Rattle.desk_io.specs.SystemFiles.{file_shelf_state};

use crate::desk::Failed;
use crate::shelf::Shelf;
use crate::shelf_faults::ShelfFaults;
use std::fs::{self, OpenFile};
use std::io::{self, ErrorKind, Write};
use std::marker::Model;
use std::rt::Files;

/// Writes files of the system, whose names are paths, and says bytes to standard output.
///
/// Every error that the system reports is a fault. `finish` asks the system to put the file on its
/// disk; that a disk keeps what it took is not known. `say` writes through to standard output.
/// It keeps what kind of error the system gave last on a file, and on standard output.
#[derive(Drop)]
pub struct FileShelf<'a, R: Files + Print> {
    rt: &'a R,
    file: Option<R::File>,
    faults: ShelfFaults,
    file_error: Option<ErrorKind>,
    say_error: Option<ErrorKind>,
}

impl<'a, R: Files + Print> Model for FileShelf<'a, R> {
    ghost use Rattle.std.specs.Prelude.{is_some};
    ghost use Rattle.desk_io.specs.SystemFiles.{FileShelfView};

    ghost Value = { FileShelfView };

    ghost view = { λ s. record {
      is_created = is_some s.file;
      faults = s.faults.count;
      say_failed = s.faults.in_say;
      file_error = s.file_error;
      say_error = s.say_error;
    } };
}

impl<'a, R: Files + Print> FileShelf<'a, R> {
    /// A shelf where nothing is created.
    pub fn new(rt: &'a R) -> FileShelf<'a, R>
        ensures { result ≡ record {
          is_created = false;
          faults = 0;
          say_failed = false;
          file_error = None;
          say_error = None;
        } }
    {
        FileShelf {
            rt,
            file: None,
            faults: ShelfFaults::new(),
            file_error: None,
            say_error: None,
        }
    }

    /// What kind of error the system gave with the last fault on a file; None where there was none.
    pub fn file_error(&self) -> Option<ErrorKind>
        ensures { result ≡ self.now.file_error }
    {
        self.file_error
    }

    /// What kind of error the system gave with the last fault in a `say`; None where there was
    /// none.
    pub fn say_error(&self) -> Option<ErrorKind>
        ensures { result ≡ self.now.say_error }
    {
        self.say_error
    }

    // Counts a fault on a file, and keeps what the system says of it.
    fn fail(&mut self, error: io::Error) -> Failed
        ensures risen { RisesByOne self.old.faults self.new.faults }
        ensures error { self.new.file_error ≡ Some (error_kind error) }
        ensures others { self.new.say_error ≡ self.old.say_error }
        ensures in_say { self.new.say_failed ≡ false }
        ensures is_created { self.new.is_created ≡ self.old.is_created }
    {
        self.file_error = Some(error.kind());
        self.faults.add(false)
    }

    // Counts a fault in a `say`, and keeps what the system says of it.
    fn fail_in_say(&mut self, error: io::Error) -> Failed
        ensures risen { RisesByOne self.old.faults self.new.faults }
        ensures error { self.new.say_error ≡ Some (error_kind error) }
        ensures others { self.new.file_error ≡ self.old.file_error }
        ensures in_say { self.new.say_failed ≡ true }
        ensures is_created { self.new.is_created ≡ self.old.is_created }
    {
        self.say_error = Some(error.kind());
        self.faults.add(true)
    }
}

impl<'a, R: Files + Print> Shelf for FileShelf<'a, R> {
    ghost state = { file_shelf_state };

    fn create(&mut self, name: &str) -> Result<(), Failed> {
        match fs::create(self.rt, name) {
            Ok(file) => {
                self.file = Some(file);
                Ok(())
            }
            Err(error) => {
                self.file = None;
                Err(self.fail(error))
            }
        }
    }

    fn append(&mut self, piece: &[u8]) -> Result<(), Failed> {
        let Some(file) = &mut self.file else {
            unreachable!()
        };
        match file.write_all(piece) {
            Ok(()) => Ok(()),
            Err(error) => Err(self.fail(error)),
        }
    }

    fn finish(&mut self) -> Result<(), Failed> {
        let Some(mut file) = self.file.take() else {
            unreachable!()
        };
        match put_down(&mut file) {
            Ok(()) => Ok(()),
            Err(error) => Err(self.fail(error)),
        }
    }

    fn say(&mut self, piece: &[u8]) -> Result<(), Failed> {
        match put_out(self.rt, piece) {
            Ok(()) => Ok(()),
            Err(error) => Err(self.fail_in_say(error)),
        }
    }
}

// Waits until the system has the bytes of a file on its disk, and hears of a write that fails late.
// What takes no such call, as a pipe or a terminal, has no disk.
fn put_down<F: Write + OpenFile>(file: &mut F) -> io::Result<()> {
    file.flush()?;
    match file.sync_all() {
        Err(e) if e.kind() == ErrorKind::InvalidInput => Ok(()),
        answer => answer,
    }
}

// Writes bytes to standard output, and sees that they come out.
fn put_out(rt: &impl Print, piece: &[u8]) -> io::Result<()> {
    let mut output = io::writer(rt);
    output.write_all(piece)?;
    output.flush()
}
