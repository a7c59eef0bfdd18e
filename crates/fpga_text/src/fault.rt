//! What keeps a text from being read.
use std::alloc::AllocError;
use thiserror::Error;

/// What keeps a text from being read.
#[derive(Clone, Copy, Debug, Error)]
pub enum TextFault {
    /// The first bad line of the text, and what is wrong with it.
    #[error("line {line}: code {code}")]
    Bad { line: u64, code: u32 },
    /// The text has more of something than is read, and how many.
    #[error("code {code}: {count} is past the limit")]
    Limit { code: u32, count: u64 },
    /// Memory ran out.
    #[error("out of memory")]
    Memory,
}

impl From<AllocError> for TextFault {
    ghost use Rattle.std.specs.Prelude.{◌≡◌};
    ghost use Rattle.fpga_text.specs.declared.fault.TextFault.TheVariants.{Memory};

    ghost from_gives = { λ _ e. e ≡ Memory };

    fn from(_: AllocError) -> TextFault {
        TextFault::Memory
    }
}
