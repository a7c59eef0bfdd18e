//! A whole file of a desk.
ghost use Rattle.std.specs.Prelude.{true, ◌≡◌, ◌<◌, ◌≤◌, ◌^◌, IfOk, IsErrOf, vec_len};
ghost use Rattle.desk_io.specs.Files.{IsThere, RisesByOne};
ghost use Rattle.desk_io.specs.Reading.{FaultIsOn, HasTaken, HasTakenOneMore, IsWhole};

use crate::desk::Desk;
use std::alloc::Global;
use thiserror::Error;

/// Why a file was not read.
#[derive(Clone, Copy, Debug, Error)]
pub enum ReadStop {
    /// The desk failed: the file is not there, or a read of it was refused.
    #[error("the file is not there, or a read of it was refused")]
    Fault,
    /// The file has more bytes than the limit.
    #[error("the file has more bytes than its limit")]
    TooLong,
    /// There was no memory for the bytes.
    #[error("there is no memory for the file")]
    Memory,
}

/// How many bytes are read at a time.
const BLOCK: usize = 16384;

/// The bytes of a file, of which there may be at most `limit`.
///
/// It gives `Fault` where no file has this name or the desk fails, and only then a fault is
/// counted, and no more than one; it does not come once more bytes than the limit were taken. It
/// gives `TooLong` where the file has more bytes than the limit, of which one more than the limit
/// was then taken; and `Memory` where there was no room for its bytes.
pub fn read_file<D: Desk>(
    alloc: Global,
    desk: &mut D,
    name: &str,
    limit: u64,
) -> Result<Vec<u8>, ReadStop>
    requires { limit < 2 ^ 63 }
    ensures bytes { IfOk result (λ v. IsWhole (D.state desk.old).files name.now v.items) }
    ensures short { IfOk result (λ v. vec_len v ≤ limit) }
    ensures files { (D.state desk.new).files ≡ (D.state desk.old).files }
    ensures fault { IsErrOf result ReadStop.Fault
        → RisesByOne (D.state desk.old).faults (D.state desk.new).faults }
    ensures fault_on { IsErrOf result ReadStop.Fault
        → FaultIsOn (D.state desk.old).files name.now (D.state desk.new).fault_name }
    ensures fault_early { IsErrOf result ReadStop.Fault → (D.state desk.new).is_started ≡ true
        → HasTaken (D.state desk.old).files name.now limit (D.state desk.new).left }
    ensures there { ¬ IsErrOf result ReadStop.Fault → IsThere (D.state desk.old).files name.now }
    ensures no_fault { ¬ IsErrOf result ReadStop.Fault
        → (D.state desk.new).faults ≡ (D.state desk.old).faults }
    ensures no_fault_name { ¬ IsErrOf result ReadStop.Fault
        → (D.state desk.new).fault_name ≡ (D.state desk.old).fault_name }
    ensures too_long { IsErrOf result ReadStop.TooLong
        → HasTakenOneMore (D.state desk.old).files name.now limit (D.state desk.new).left }
    ensures memory { IsErrOf result ReadStop.Memory
        → HasTaken (D.state desk.old).files name.now limit (D.state desk.new).left }
{
    let Ok(()) = desk.start(name) else {
        return Err(ReadStop::Fault);
    };
    let mut bytes = Vec::new(alloc);
    let mut block = [0u8; BLOCK];
    loop {
        let room = (limit + 1 - bytes.len() as u64).min(BLOCK as u64) as usize;
        let Ok(count) = desk.read(&mut block[..room]) else {
            return Err(ReadStop::Fault);
        };
        if count == 0 {
            return Ok(bytes);
        }
        if (bytes.len() + count) as u64 > limit {
            return Err(ReadStop::TooLong);
        }
        let Ok(()) = bytes.extend_from_slice(&block[..count]) else {
            return Err(ReadStop::Memory);
        };
    }
}
