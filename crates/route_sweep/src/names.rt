//! The names of the files that a search writes.
ghost use Rattle.std.specs.Prelude.{◌≡◌, ◌++◌, string_bytes, IfOk};
ghost use Rattle.route_sweep.specs.Asked.{asked};
ghost use Rattle.route_sweep.specs.Names.{numbered_prefix, proof_prefix};

use crate::asking::Ask;
use itoa::Buffer;
use std::alloc::{AllocError, Global};

/// A name made of a prefix and an ending.
pub fn file_name(alloc: Global, prefix: &str, ending: &str) -> Result<String, AllocError>
    ensures { IfOk result (λ name. string_bytes name ≡ prefix.now ++ ending.now) }
{
    let mut name = String::from_str(alloc, prefix)?;
    name.push_str(ending)?;
    Ok(name)
}

/// What the names for a width begin with.
fn with_width(alloc: Global, prefix: &str, width: u32) -> Result<String, AllocError>
    ensures { IfOk result (λ name. string_bytes name ≡ numbered_prefix prefix.now width) }
{
    let mut name = file_name(alloc, prefix, ".w")?;
    name.push_str(Buffer::new().format(width))?;
    Ok(name)
}

/// What the names of the clauses and of the log begin with.
pub fn name_prefix(alloc: Global, ask: &Ask<'_>, width: u32) -> Result<String, AllocError>
    ensures { IfOk result (λ name. string_bytes name ≡ proof_prefix (asked ask.now) width) }
{
    if ask.numbered {
        return with_width(alloc, ask.prefix, width);
    }
    String::from_str(alloc, ask.prefix)
}
