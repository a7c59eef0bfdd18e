//! The architecture of a generated problem.
ghost use Rattle.std.specs.Prelude.{◌≡◌, IfOk};
ghost use Rattle.route_gen.specs.Generated.{generated_architecture};

use std::alloc::{AllocError, Global};

/// The architecture of every generated problem.
pub fn architecture_text(alloc: Global) -> Result<Vec<u8>, AllocError>
    ensures { IfOk result (λ text. text.items ≡ generated_architecture) }
{
    let mut text = Vec::from_slice(
        alloc,
        b"io_rat 1\nchan_width_io 1\nchan_width_x uniform 1\nchan_width_y uniform 1\n",
    )?;
    text.extend_from_slice(b"inpin class: 0 bottom\ninpin class: 0 bottom\n")?;
    text.extend_from_slice(
        b"inpin class: 0 bottom\ninpin class: 0 bottom\noutpin class: 1 bottom\n",
    )?;
    text.extend_from_slice(
        b"switch_block_type subset\nFc_type fractional\nFc_output 1\nFc_input 1\nFc_pad 1\n",
    )?;
    text.extend_from_slice(
        b"segment frequency: 1 length: 1 wire_switch: 0 opin_switch: 0 Frac_cb: 1 Frac_sb: 1\n",
    )?;
    Ok(text)
}
