//! A source of files.
ghost use Rattle.std.specs.Prelude.{◌≡◌, ◌<◌, ◌≤◌, true, length, IfOk, OnOk, OnErr};
ghost use Rattle.desk_io.specs.DeskState.{AreNext, DeskState, FailsToRead, FailsToStart, after_read, after_start};
ghost use Rattle.desk_io.specs.Files.{IsThere};

use thiserror::Error;

/// The answer of a call that failed: the system refused it, or there was no memory for it.
#[derive(Clone, Copy, Debug, Error)]
#[error("a file was refused")]
pub struct Failed;

/// A source of named files, of which one at a time is read from its start.
///
/// It counts its faults: a call answers `Failed` only where the count has risen, and any other
/// answer leaves it. A desk that tells its files also tells the name that its last fault was on.
pub trait Desk {
    /// What the desk tells of itself.
    ghost state: { Self → DeskState };

    /// Starts to read a file from its first byte. It fails where no file has this name, or where
    /// the system refuses; then nothing is started.
    fn start(&mut self, name: &str) -> Result<(), Failed>
        ensures ok { OnOk result (state self.new ≡ after_start (state self.old) name.now) }
        ensures there { OnOk result (IsThere (state self.old).files name.now) }
        ensures err { OnErr result (FailsToStart (state self.old) name.now (state self.new)) };

    /// Reads the next bytes into the front of a buffer, and says how many, which is 0 only where
    /// none are left. It fails where the system refuses; then the file stays started.
    fn read(&mut self, buf: &mut [u8]) -> Result<usize, Failed>
        requires started { (state self.old).is_started ≡ true }
        requires room { 0 < length buf.old }
        ensures bound { IfOk result (λ n. n ≤ length buf.old) }
        ensures ok { IfOk result (λ n. state self.new ≡ after_read (state self.old) n) }
        ensures bytes { IfOk result (λ n. AreNext n (state self.old).left buf.new) }
        ensures err { OnErr result (FailsToRead (state self.old) (state self.new)) };
}
