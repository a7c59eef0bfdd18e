//! The files that a problem is read from.
ghost use Rattle.std.specs.Prelude.{◌≡◌};

use crate::refusal::Refusal;
use crate::unread::{FileFault, Unread};
use fpga_text::TextFault;
use std::fmt;

/// A file that a problem is read from.
#[derive(Clone, Copy, Debug)]
pub enum TextFile {
    Architecture,
    Netlist,
    Placement,
    Route,
}

impl TextFile {
    /// The text of this file is refused for this fault.
    pub(crate) fn refused(self, fault: TextFault) -> Refusal
        ensures { result ≡ record { file = self; fault = fault } }
    {
        Refusal { file: self, fault }
    }

    /// This file gives no value for this reason.
    pub(crate) fn unread(self, fault: FileFault) -> Unread
        ensures { result ≡ record { file = self; fault = fault } }
    {
        Unread { file: self, fault }
    }
}

impl fmt::Display for TextFile {
    fn fmt<W: fmt::Write>(&self, f: &mut fmt::Formatter<W>) -> fmt::Result {
        match self {
            TextFile::Architecture => write!(f, "architecture"),
            TextFile::Netlist => write!(f, "netlist"),
            TextFile::Placement => write!(f, "placement"),
            TextFile::Route => write!(f, "route"),
        }
    }
}
