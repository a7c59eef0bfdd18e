//! The size that an array line says.
ghost use Rattle.std.specs.Prelude.{IfOk, IfErr};
ghost use Rattle.fpga_text.specs.SizeLines.{size_said};
ghost use Rattle.fpga_types.specs.ArraySize.{IsSizeFault, SaysSize};

use crate::grid::Grid;
use crate::limits::SIDE_LIMIT;
use fpga_text::{SizeLine, whole_number_of};
use thiserror::Error;

/// Why an array line says no size.
#[derive(Clone, Copy, Debug, Error)]
pub enum SizeFault {
    /// A word is no number, or 0.
    #[error("a word is no number, or 0")]
    NoNumber,
    /// More columns, or else more rows, than may be.
    #[error("{count} is more than an array may have")]
    PastLimit { count: u64 },
}

impl Grid {
    /// The array that these words say.
    ///
    /// # Errors
    /// `NoNumber` where one of them is no whole number, or 0; `PastLimit` where both are numbers
    /// and one is more than 100, with the first that is.
    pub fn said_by(size: &SizeLine<'_>) -> Result<Grid, SizeFault>
        ensures ok { IfOk result (SaysSize (size_said size.now)) }
        ensures err { IfErr result (IsSizeFault (size_said size.now)) }
    {
        let Some(nx) = whole_number_of(size.nx) else {
            return Err(SizeFault::NoNumber);
        };
        let Some(ny) = whole_number_of(size.ny) else {
            return Err(SizeFault::NoNumber);
        };
        if nx == 0 {
            return Err(SizeFault::NoNumber);
        }
        if ny == 0 {
            return Err(SizeFault::NoNumber);
        }
        if nx > u64::from(SIDE_LIMIT) {
            return Err(SizeFault::PastLimit { count: nx });
        }
        if ny > u64::from(SIDE_LIMIT) {
            return Err(SizeFault::PastLimit { count: ny });
        }
        Ok(Grid {
            nx: nx as u32,
            ny: ny as u32,
        })
    }
}
