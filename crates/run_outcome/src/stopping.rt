//! What a run comes to where its work stopped.
ghost use Rattle.std.specs.Prelude.{◌≡◌};
ghost use Rattle.run_outcome.specs.Report.{stop_outcome, unread_outcome};

use crate::outcome::Outcome;
use crate::size_cause::SizeCause;
use crate::slot::Slot;
use crate::text_file::TextFile;
use fpga_problem::FileFault;
use fpga_text::TextFault;
use route_sweep::Stop;

/// What the run comes to by where its work on the clauses of a problem stopped.
pub fn stop_outcome(stop: Stop) -> Outcome
    ensures { result ≡ stop_outcome stop }
{
    match stop {
        Stop::Fault { slot } => Outcome::WriteFault {
            slot: Slot::File(slot),
        },
        Stop::TooManyClauses { count } => Outcome::Limit {
            file: None,
            code: SizeCause::FormulaClauses.code(),
            count,
        },
        Stop::TooManyHeld { count } => Outcome::Limit {
            file: None,
            code: SizeCause::ClausesOfTurns.code(),
            count,
        },
        Stop::Memory => Outcome::OutOfMemory,
    }
}

/// What the run comes to by why a file gives no value.
pub fn unread_outcome(file: TextFile, fault: FileFault) -> Outcome
    ensures { result ≡ unread_outcome file fault }
{
    match fault {
        FileFault::Desk => Outcome::ReadFault { file },
        FileFault::TooLong => Outcome::Limit {
            file: Some(file),
            code: SizeCause::FileBytes(file).code(),
            count: file.byte_limit() + 1,
        },
        FileFault::Text(TextFault::Bad { line, code }) => Outcome::InputFault { file, line, code },
        FileFault::Text(TextFault::Limit { code, count }) => Outcome::Limit {
            file: Some(file),
            code,
            count,
        },
        FileFault::Text(TextFault::Memory) => Outcome::OutOfMemory,
    }
}
