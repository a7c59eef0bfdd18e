//! The names of the files that are written.
ghost use Rattle.std.specs.Prelude.{◌≡◌, ◌++◌, string_bytes, IfOk};

use std::alloc::{AllocError, Global};

/// The name that has this ending behind the prefix.
pub fn file_name(alloc: Global, prefix: &str, ending: &str) -> Result<String, AllocError>
    ensures { IfOk result (λ name. string_bytes name ≡ prefix.now ++ ending.now) }
{
    let mut name = String::from_str(alloc, prefix)?;
    name.push_str(ending)?;
    Ok(name)
}
