//! A writer that gathers small pieces into blocks.
ghost use Rattle.std.specs.Prelude.{◌≡◌, ◌≤◌, ◌<◌, ◌+◌, ◌-◌, ◌++◌, [], true, length, OnOk, OnErr};
ghost use Rattle.desk_io.specs.ShelfState.{FailsToAppend, after_append};
ghost use Rattle.desk_io.specs.Writing.{Writes};

use crate::desk::Failed;
use crate::shelf::Shelf;
use std::marker::Model;

/// How many bytes may wait.
const CAPACITY: usize = 16384;

/// Bytes that wait to be appended to the created file of a shelf, at most a block of them.
/// A writer allocates nothing. What waits in it when it goes is lost, so flush it at the end.
#[derive(Drop)]
pub struct BlockWriter {
    block: [u8; CAPACITY],
    len: usize,
}

impl Model for BlockWriter {
    ghost use Rattle.std.specs.Prelude.{ℕ, ◌≤◌, List, take};
    ghost use Rattle.desk_io.specs.declared.block_writer.TheConstants.{CAPACITY};

    ghost Value = { List ℕ };

    ghost view = { λ w. take w.len w.block };

    ghost invariant = { λ w. w.len ≤ CAPACITY };
}

impl BlockWriter {
    /// A writer where nothing waits.
    pub fn new() -> BlockWriter
        ensures { result ≡ [] }
    {
        BlockWriter {
            block: [0; CAPACITY],
            len: 0,
        }
    }

    /// Writes a text behind what waits. The shelf is called only where the text has no room.
    /// It fails where the shelf does; what waits then is not told.
    pub fn write<S: Shelf>(&mut self, shelf: &mut S, text: &[u8]) -> Result<(), Failed>
        requires { (S.state shelf.old).is_created ≡ true }
        ensures { Writes (S.state shelf.old) self.old text.now (S.state shelf.new) self.new result }
    {
        if text.len() <= CAPACITY - self.len {
            self.put_behind(text);
            return Ok(());
        }
        self.flush(shelf)?;
        if text.len() <= CAPACITY {
            self.put_behind(text);
            return Ok(());
        }
        shelf.append(text)
    }

    /// Writes two texts, the second behind the first, as `write` does.
    pub fn write_both<S: Shelf>(
        &mut self,
        shelf: &mut S,
        first: &[u8],
        second: &[u8],
    ) -> Result<(), Failed>
        requires { (S.state shelf.old).is_created ≡ true }
        ensures { Writes (S.state shelf.old) self.old (first.now ++ second.now) (S.state shelf.new)
            self.new result }
    {
        let Ok(()) = self.write(shelf, first) else {
            return Err(Failed);
        };
        self.write(shelf, second)
    }

    /// Appends what waits. It fails where the shelf does; what waits then is not told.
    pub fn flush<S: Shelf>(&mut self, shelf: &mut S) -> Result<(), Failed>
        requires { (S.state shelf.old).is_created ≡ true }
        ensures ok { OnOk result (S.state shelf.new ≡ after_append (S.state shelf.old) self.old) }
        ensures empty { OnOk result (self.new ≡ []) }
        ensures err { OnErr result
            (FailsToAppend (S.state shelf.old) self.old (S.state shelf.new)) }
    {
        if self.len == 0 {
            return Ok(());
        }
        shelf.append(&self.block[..self.len])?;
        self.len = 0;
        Ok(())
    }

    // Puts a text behind what waits, where it has room.
    fn put_behind(&mut self, text: &[u8])
        requires { length self.old + length text.now ≤ CAPACITY }
        ensures { self.new ≡ self.old ++ text.now }
    {
        let end = self.len + text.len();
        self.block[self.len..end].copy_from_slice(text);
        self.len = end;
    }
}
