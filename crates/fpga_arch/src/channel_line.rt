//! What a line of channels along rows or columns says.
ghost use Rattle.std.specs.Prelude.{◌≡◌, IfOk, IfErr};
ghost use Rattle.fpga_text.specs.FirstFault.{IsFaultOf};
ghost use Rattle.fpga_arch.specs.ChannelLines.{IsChannel, channel_fault};
ghost use Rattle.fpga_arch.specs.ChannelLines as spec;

use crate::cause::Cause;
use fpga_text::{Coded, Line, TextFault};

/// The width that the words behind the keyword say, in millionths, or what is wrong with them where
/// an earlier line says this width.
pub fn read_channel(earlier: Option<u64>, line: &mut Line<'_>) -> Result<u64, TextFault>
    ensures ok { IfOk result (IsChannel earlier line.old.words) }
    ensures err { IfErr result
        (IsFaultOf (channel_fault earlier line.old.number line.old.words)) }
    ensures number { line.new.number ≡ line.old.number }
{
    let number = line.number();
    if !line.next_is(b"uniform") {
        return Err(Cause::NotUniform.at(number));
    }
    let Some(width) = line.next_millionths() else {
        return Err(Cause::NoNumber.at(number));
    };
    if differs_from(earlier, width) {
        return Err(Cause::OtherWidth.at(number));
    }
    Ok(width)
}

/// Whether there is an earlier width, and it is another one.
pub fn differs_from(earlier: Option<u64>, width: u64) -> bool
    ensures { result ≡ spec.differs_from earlier width }
{
    match earlier {
        None => false,
        Some(earlier) => earlier != width,
    }
}
