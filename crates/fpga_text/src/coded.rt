//! What can be wrong with a text, by the code that a report gives.
ghost use Rattle.std.specs.Prelude.{◌≡◌};
ghost use Rattle.fpga_text.specs.declared.fault.TextFault.TheVariants.{Bad, Limit};

use crate::fault::TextFault;

/// What can be wrong with the texts of one kind, each cause with a code of its own.
pub trait Coded: Copy {
    ghost use Rattle.std.specs.Prelude.{ℕ};

    /// The code of a cause.
    ghost code_of: { Self → ℕ };

    /// The number that a report gives.
    fn code(self) -> u32
        ensures { result ≡ code_of self };

    /// The fault of the line with this number.
    fn at(self, line: u64) -> TextFault
        ensures { result ≡ Bad line (code_of self) }
    {
        TextFault::Bad {
            line,
            code: self.code(),
        }
    }

    /// The fault of a text with so many of something.
    fn past(self, count: u64) -> TextFault
        ensures { result ≡ Limit (code_of self) count }
    {
        TextFault::Limit {
            code: self.code(),
            count,
        }
    }
}
