//! Names that are looked for among others, along a tree: a look-up takes a time by the logarithm of
//! their number.
ghost use Rattle.std.specs.Prelude.{◌≡◌, [], IfOk, is_some, option_map};
ghost use Rattle.fpga_types.specs.Names.{number_in};
ghost use Rattle.fault_names.specs.Lookups as spec;
ghost use Rattle.fault_names.specs.Lookups.{Holds, bytes_of};

use fpga_types::number_name;
use std::alloc::{AllocError, Global};
use std::collections::BTreeMap;

/// The first of these names that is none of the others.
///
/// # Errors
/// Memory ran out.
pub(crate) fn first_apart<'a>(
    alloc: Global,
    names: &[&'a [u8]],
    others: &[&'a [u8]],
) -> Result<Option<&'a [u8]>, AllocError>
    ensures { IfOk result (λ found. option_map (λ name. name.now) found
        ≡ spec.first_apart (bytes_of others.now) (bytes_of names.now)) }
{
    let held = held_of(alloc, others)?;
    for name in names {
        if !is_held(&held, *name) {
            return Ok(Some(*name));
        }
    }
    Ok(None)
}

/// The first of these names that stands before among them, and is none of the others.
///
/// # Errors
/// Memory ran out.
pub(crate) fn first_again<'a>(
    alloc: Global,
    names: &[&'a [u8]],
    others: &[&'a [u8]],
) -> Result<Option<&'a [u8]>, AllocError>
    ensures { IfOk result (λ found. option_map (λ name. name.now) found
        ≡ spec.first_again (bytes_of others.now) [] (bytes_of names.now)) }
{
    let held = held_of(alloc, others)?;
    let mut before = BTreeMap::new(alloc);
    for name in names {
        if is_held(&before, *name) && !is_held(&held, *name) {
            return Ok(Some(*name));
        }
        number_name(&mut before, *name, 0)?;
    }
    Ok(None)
}

fn is_held<'a>(held: &BTreeMap<&'a [u8], usize>, name: &'a [u8]) -> bool
    ensures { result ≡ is_some (number_in held.now name.now) }
{
    held.contains_key(&name)
}

// The names, each once.
fn held_of<'a>(alloc: Global, names: &[&'a [u8]]) -> Result<BTreeMap<&'a [u8], usize>, AllocError>
    ensures { IfOk result (Holds (bytes_of names.now)) }
{
    let mut held = BTreeMap::new(alloc);
    for name in names {
        number_name(&mut held, *name, 0)?;
    }
    Ok(held)
}
