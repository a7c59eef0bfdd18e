//! The width that a word says.
ghost use Rattle.std.specs.Prelude.{◌≡◌, ◌≤◌, IfSome};
ghost use Rattle.fpga_types.specs.declared.limits.TheConstants.{WIDTH_LIMIT};
ghost use Rattle.rows.specs.Width.{width_said};

use fpga_text::whole_number_of;
use fpga_types::WIDTH_LIMIT;

/// The width that a word says, from 1 to 64, if it says one.
pub fn width_of(word: &str) -> Option<u32>
    ensures said { result ≡ width_said word.now }
    ensures within { IfSome result (λ width. (1 ≤ width) × (width ≤ WIDTH_LIMIT)) }
{
    let Some(width) = whole_number_of(word.as_bytes()) else {
        return None;
    };
    if width < 1 || u64::from(WIDTH_LIMIT) < width {
        return None;
    }
    Some(width as u32)
}
