//! Which text is refused, and why.
use crate::text_file::TextFile;
use fpga_text::TextFault;
use thiserror::Error;

/// Which text is refused, and its fault. What does not fit is a fault of the route.
#[derive(Clone, Copy, Debug, Error)]
#[error("{file} file: {fault}")]
pub struct Refusal {
    pub file: TextFile,
    pub fault: TextFault,
}
