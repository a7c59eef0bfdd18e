//! Names with their numbers.
ghost use Rattle.std.specs.Prelude.{◌≡◌, ◌<◌, ◌^◌, [], false, length, OnErr, OnOk, IfSome};
ghost use Rattle.fpga_text.specs.Said.{has_text};
ghost use Rattle.fpga_net.specs.Names.{names_with, number_of};

use std::alloc::{AllocError, Global};
use std::collections::BTreeMap;
use std::marker::Model;

/// Names, each once, in the order in which they came. It borrows their bytes.
///
/// They are found along a tree, so that a look-up takes a time by the logarithm of their number,
/// whatever the names are.
#[derive(Drop)]
pub struct NameTable<'a> {
    names: Vec<&'a [u8]>,
    numbers: BTreeMap<&'a [u8], usize>,
}

impl<'a> Model for NameTable<'a> {
    ghost use Rattle.std.specs.Prelude.{List, ℕ};
    ghost use Rattle.fpga_net.specs.Names.{AreNumbered, bytes_of};

    ghost Value = { List (List ℕ) };

    ghost view = { λ t. bytes_of t.names.items };

    ghost invariant = { λ t. AreNumbered (bytes_of t.names.items) t.numbers };
}

impl<'a> NameTable<'a> {
    /// No name.
    pub fn new(alloc: Global) -> NameTable<'a>
        ensures { result ≡ [] }
    {
        NameTable {
            names: Vec::new(alloc),
            numbers: BTreeMap::new(alloc),
        }
    }

    /// How many names there are.
    pub fn len(&self) -> usize
        ensures count { result ≡ length self.now }
        ensures small { result < 2 ^ 63 }
    {
        self.names.len()
    }

    /// Whether a name is among them.
    pub fn contains(&self, name: &'a [u8]) -> bool
        ensures { result ≡ has_text self.now name.now }
    {
        self.number_of(name).is_some()
    }

    /// The number of a name, if it is among them.
    pub fn number_of(&self, name: &'a [u8]) -> Option<usize>
        ensures number { result ≡ number_of self.now name.now }
        ensures within { IfSome result (λ number. number < length self.now) }
    {
        self.numbers.get(&name).copied()
    }

    /// Adds a name at the end, unless it is among them.
    pub fn add(&mut self, name: &'a [u8]) -> Result<(), AllocError>
        ensures ok { OnOk result (self.new ≡ names_with self.old name.now) }
        ensures err { OnErr result (self.new ≡ self.old) }
    {
        if self.contains(name) {
            return Ok(());
        }
        self.add_new(name)
    }

    /// Adds a name at the end, which is not among them.
    pub fn add_new(&mut self, name: &'a [u8]) -> Result<(), AllocError>
        requires { has_text self.old name.now ≡ false }
        ensures ok { OnOk result (self.new ≡ names_with self.old name.now) }
        ensures err { OnErr result (self.new ≡ self.old) }
    {
        let number = self.len();
        self.names.reserve(1)?;
        self.numbers.insert(name, number)?;
        self.names.push_reserved(name);
        Ok(())
    }
}
