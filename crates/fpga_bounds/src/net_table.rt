//! The nets of a netlist by their names.
ghost use Rattle.std.specs.Prelude.{◌≡◌, ◌<◌, IfOk, IfSome, length};
ghost use Rattle.fpga_bounds.specs.NetTable.{number_named};

use fpga_types::{Net, number_name};
use std::alloc::{AllocError, Global};
use std::collections::BTreeMap;
use std::marker::Model;

/// Nets that are found by name. Of two with one name the first is found.
#[derive(Drop)]
pub struct NetTable<'a> {
    nets: &'a [Net],
    numbers: BTreeMap<&'a [u8], usize>,
}

impl<'a> Model for NetTable<'a> {
    ghost use Rattle.std.specs.Prelude.{List};
    ghost use Rattle.fpga_types.specs.declared.netlist.Net.{Net};
    ghost use Rattle.fpga_bounds.specs.NetTable.{AreNumbered};

    ghost Value = { List Net };

    ghost view = { λ t. t.nets.now };

    ghost invariant = { λ t. AreNumbered t.nets.now t.numbers };
}

impl<'a> NetTable<'a> {
    /// The table of these nets.
    ///
    /// # Errors
    /// Where memory is short.
    pub fn of(alloc: Global, nets: &'a [Net]) -> Result<NetTable<'a>, AllocError>
        ensures { IfOk result (λ table. table ≡ nets.now) }
    {
        let mut numbers = BTreeMap::new(alloc);
        for (i, net) in nets.iter().enumerate() {
            number_name(&mut numbers, net.name.bytes.as_slice(), i)?;
        }
        Ok(NetTable { nets, numbers })
    }

    /// The nets, by number.
    pub fn as_slice(&self) -> &'a [Net]
        ensures { result.now ≡ self.now }
    {
        self.nets
    }

    /// The number of the first net with this name.
    pub fn number_of(&self, name: &'a [u8]) -> Option<usize>
        ensures number { result ≡ number_named self.now name.now }
        ensures within { IfSome result (λ number. number < length self.now) }
    {
        self.numbers.get(&name).copied()
    }
}
