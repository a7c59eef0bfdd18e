//! A place where files are written.
ghost use Rattle.std.specs.Prelude.{◌≡◌, true, OnOk, OnErr};
ghost use Rattle.desk_io.specs.ShelfState.{ShelfState, after_create, after_append, after_finish, after_say};
ghost use Rattle.desk_io.specs.ShelfState.{FailsToAppend, FailsToCreate, FailsToFinish, FailsToSay};

use crate::desk::Failed;

/// A place where files are written one at a time, and where bytes are said.
///
/// It counts its faults: a call answers `Failed` only where the count has risen, and any other
/// answer leaves it. It tells too whether the last fault was in a `say`.
pub trait Shelf {
    /// What the shelf tells of itself.
    ghost state: { Self → ShelfState };

    /// Makes an empty file, or empties an old one. Where it fails none is created, and what
    /// became of a file of this name is not told.
    fn create(&mut self, name: &str) -> Result<(), Failed>
        ensures ok { OnOk result (state self.new ≡ after_create (state self.old) name.now) }
        ensures err { OnErr result (FailsToCreate (state self.old) name.now (state self.new)) };

    /// Adds a piece to the created file. Where it fails a front of the piece was added.
    fn append(&mut self, piece: &[u8]) -> Result<(), Failed>
        requires { (state self.old).is_created ≡ true }
        ensures ok { OnOk result (state self.new ≡ after_append (state self.old) piece.now) }
        ensures err { OnErr result (FailsToAppend (state self.old) piece.now (state self.new)) };

    /// Ends the created file, which stays as it is also where this fails.
    fn finish(&mut self) -> Result<(), Failed>
        requires { (state self.old).is_created ≡ true }
        ensures ok { OnOk result (state self.new ≡ after_finish (state self.old)) }
        ensures err { OnErr result (FailsToFinish (state self.old) (state self.new)) };

    /// Adds to the bytes said. Where it fails a front of the piece was said.
    fn say(&mut self, piece: &[u8]) -> Result<(), Failed>
        ensures ok { OnOk result (state self.new ≡ after_say (state self.old) piece.now) }
        ensures err { OnErr result (FailsToSay (state self.old) piece.now (state self.new)) };
}
