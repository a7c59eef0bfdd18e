//! Numbers by name.
ghost use Rattle.std.specs.Prelude.{OnOk};
ghost use Rattle.fpga_types.specs.Names.{GainsName};

use std::alloc::AllocError;
use std::collections::BTreeMap;

/// Gives a name this number, unless it has one. A tree holds the names, so that none can be made
/// to collide.
///
/// # Errors
/// Where memory is short.
pub fn number_name<'a>(
    numbers: &mut BTreeMap<&'a [u8], usize>,
    name: &'a [u8],
    number: usize,
) -> Result<(), AllocError>
    ensures { OnOk result (GainsName numbers.old name.now number numbers.new) }
{
    if numbers.contains_key(&name) {
        return Ok(());
    }
    numbers.insert(name, number)?;
    Ok(())
}
