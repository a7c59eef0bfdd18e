//! Which file gives no value, and why.
use crate::text_file::TextFile;
use fpga_text::TextFault;
use thiserror::Error;

/// Why a file gives no value.
#[derive(Clone, Copy, Debug, Error)]
pub enum FileFault {
    /// The desk failed: the file is not there, or a read of it was refused.
    #[error("the file is not there, or a read of it was refused")]
    Desk,
    /// The file has more bytes than it may have.
    #[error("the file has more bytes than it may have")]
    TooLong,
    /// The text of the file is refused for this fault; or memory ran out before it was taken apart.
    #[error("{0}")]
    Text(TextFault),
}

/// Which file of a problem gives no value, and why. What does not fit is a fault of the route.
#[derive(Clone, Copy, Debug, Error)]
#[error("{file} file: {fault}")]
pub struct Unread {
    pub file: TextFile,
    pub fault: FileFault,
}
