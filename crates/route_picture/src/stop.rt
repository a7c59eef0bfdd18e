//! Why no picture is printed.
ghost use Rattle.std.specs.Prelude.{◌≡◌};
ghost use Rattle.route_picture.specs.Stop.{status_of, status_of_fault};

use crate::given_file::GivenFile;
use fpga_problem::Refusal;
use fpga_text::TextFault;

/// Why no picture is printed.
#[derive(Clone, Copy)]
pub(crate) enum Stop {
    /// The words are not taken.
    Usage,
    /// A file is not there, or the system refused a read.
    Unread(GivenFile),
    /// A file is longer than what is read.
    TooLong(GivenFile),
    /// A text has a fault, or does not fit the others.
    Faulty(Refusal),
    /// The file of names has at this line the name of no net.
    NoNet { line: u64 },
    /// The file of names has none.
    NoNames,
    /// The text of a routing has a fault.
    BadRouted(TextFault),
    /// The routing is not legal within its reach: the first line with a cause against it.
    Illegal { line: u64, cause: u32 },
    /// Memory ran out.
    Memory,
    /// Standard output does not take the picture.
    Unprinted,
}

impl Stop {
    /// The exit status.
    pub(crate) fn status(self) -> u8
        ensures { result ≡ status_of self }
    {
        match self {
            Stop::Faulty(refusal) => status_of_fault(refusal.fault),
            Stop::BadRouted(fault) => status_of_fault(fault),
            Stop::TooLong(_) | Stop::NoNet { .. } | Stop::NoNames | Stop::Illegal { .. } => 3,
            Stop::Usage => 4,
            Stop::Unread(_) => 5,
            Stop::Unprinted => 6,
            Stop::Memory => 7,
        }
    }
}

// The exit status where a text has this fault.
fn status_of_fault(fault: TextFault) -> u8
    ensures { result ≡ status_of_fault fault }
{
    match fault {
        TextFault::Bad { .. } | TextFault::Limit { .. } => 3,
        TextFault::Memory => 7,
    }
}
