//! The nets of the pinlists that were read, by their names.
ghost use Rattle.std.specs.Prelude.{◌≡◌, ◌<◌, ◌^◌, [], Some, length, map, IfErr, IfOk, IfSome, OnOk};
ghost use Rattle.std.specs.List.{list_any};
ghost use Rattle.fpga_text.specs.Said.{has_text};
ghost use Rattle.fpga_net.specs.Entries as spec;
ghost use Rattle.fpga_net.specs.Entries.{
  Connects,
  IsRefusedUses,
  drive_again,
  entries_having,
  entries_with,
  lacks_driver as without_driver,
  lacks_sink as without_sink,
  names_in,
  nets_in,
  TakesUses,
};
ghost use Rattle.fpga_net.specs.Names.{number_of};
ghost use Rattle.fpga_net.specs.NetUses.{use_said};

use crate::cause::Cause;
use crate::names::NameTable;
use crate::net_draft::NetDraft;
use crate::net_use::{NetUse, shares_class, takes_ordinary};
use fpga_text::{Coded, TextFault};
use fpga_types::{NET_LIMIT, Net};
use std::alloc::{AllocError, Global};
use std::marker::Model;

/// The nets of the pinlists that were read, in the order in which they first stood.
#[derive(Drop)]
pub struct NetTable<'a> {
    alloc: Global,
    names: NameTable<'a>,
    nets: Vec<NetDraft<'a>>,
}

impl<'a> Model for NetTable<'a> {
    ghost use Rattle.std.specs.Prelude.{◌≡◌, List};
    ghost use Rattle.fpga_net.specs.Entries.{Entry, names_in};

    ghost Value = { List Entry };

    ghost view = { λ t. t.nets.items };

    ghost invariant = { λ t. t.names ≡ names_in t.nets.items };
}

impl<'a> NetTable<'a> {
    /// No net.
    pub fn new(alloc: Global) -> NetTable<'a>
        ensures { result ≡ [] }
    {
        NetTable {
            alloc,
            names: NameTable::new(alloc),
            nets: Vec::new(alloc),
        }
    }

    /// How many nets there are.
    pub fn len(&self) -> usize
        ensures { result ≡ length self.now }
    {
        self.nets.len()
    }

    /// The names of the nets with their numbers.
    pub fn names(&self) -> &NameTable<'a>
        ensures { result.now ≡ names_in self.now }
    {
        &self.names
    }

    /// Adds the pins of a pinlist that stands on this line to their nets, or finds what is wrong
    /// with the pinlist. After an error some were added.
    pub fn connect(
        &mut self,
        uses: &[NetUse<'a>],
        globals: &NameTable<'a>,
        line: u64,
    ) -> Result<(), TextFault>
        ensures ok { OnOk result
            (Connects (has_text globals.now) self.old self.new (map use_said uses.now) line) }
        ensures err { IfErr result
            (IsRefusedUses (has_text globals.now) self.old (map use_said uses.now) line) }
    {
        let Ok(()) = self.add_all(uses, globals) else {
            return Err(TextFault::Memory);
        };
        if self.drive_again(uses, globals) {
            return Err(Cause::Drivers.at(line));
        }
        if takes_ordinary(uses, globals) {
            return Err(Cause::GlobalPin.at(line));
        }
        if shares_class(uses, globals) {
            return Err(Cause::SharedClass.at(line));
        }
        if self.len() > NET_LIMIT {
            return Err(Cause::PastLimit.past(NET_LIMIT as u64 + 1));
        }
        Ok(())
    }

    /// Adds these pins to their nets. After an error some were added.
    fn add_all(&mut self, uses: &[NetUse<'a>], globals: &NameTable<'a>) -> Result<(), AllocError>
        ensures { OnOk result
            (TakesUses (has_text globals.now) self.old self.new (map use_said uses.now)) }
    {
        for used in uses {
            self.add(used, globals)?;
        }
        Ok(())
    }

    /// Adds a pin to its net.
    fn add(&mut self, used: &NetUse<'a>, globals: &NameTable<'a>) -> Result<(), AllocError>
        ensures { OnOk result
            (self.new ≡ entries_with (has_text globals.now) self.old (use_said used.now)) }
    {
        let number = self.number_for(used.net, globals)?;
        self.nets[number].add(used.at, used.pin.output)?;
        Ok(())
    }

    /// The number of the net with a name. There is one afterwards, if there was none.
    fn number_for(&mut self, name: &'a [u8], globals: &NameTable<'a>) -> Result<usize, AllocError>
        ensures entries { OnOk result
            (self.new ≡ entries_having (has_text globals.now) self.old name.now) }
        ensures number { IfOk result
            (λ number. number_of (names_in self.new) name.now ≡ Some number) }
        ensures within { IfOk result (λ number. number < length self.new) }
    {
        if let Some(number) = self.names.number_of(name) {
            return Ok(number);
        }
        let number = self.nets.len();
        let net = NetDraft::new(self.alloc, name, globals.contains(name));
        self.nets.reserve(1)?;
        self.names.add_new(name)?;
        self.nets.push_reserved(net);
        Ok(number)
    }

    /// Whether two pins drive the net with a name.
    fn is_twice_driven(&self, name: &'a [u8]) -> bool
        ensures { result ≡ spec.is_twice_driven self.now name.now }
    {
        let Some(number) = self.names.number_of(name) else {
            return false;
        };
        self.nets[number].is_driven_twice()
    }

    /// Whether one of these pins drives its net, which is ordinary and has two drivers.
    fn drive_again(&self, uses: &[NetUse<'a>], globals: &NameTable<'a>) -> bool
        ensures { result
            ≡ drive_again (has_text globals.now) self.now (map use_said uses.now) }
    {
        for used in uses {
            if used.pin.output && self.is_twice_driven(used.net) && !globals.contains(used.net) {
                return true;
            }
        }
        false
    }

    /// Whether an ordinary net has no driver.
    pub fn lacks_driver(&self) -> bool
        ensures { result ≡ list_any without_driver self.now }
    {
        for net in &self.nets {
            if net.lacks_driver() {
                return true;
            }
        }
        false
    }

    /// Whether an ordinary net has no sink.
    pub fn lacks_sink(&self) -> bool
        ensures { result ≡ list_any without_sink self.now }
    {
        for net in &self.nets {
            if net.lacks_sink() {
                return true;
            }
        }
        false
    }

    /// The nets, with all their pins.
    pub fn finish(self) -> Result<Vec<Net>, AllocError>
        ensures { IfOk result (λ nets. nets.items ≡ nets_in self.entry) }
    {
        let NetTable {
            alloc,
            names: _,
            nets,
        } = self;
        let mut finished = Vec::with_capacity(alloc, nets.len())?;
        for net in nets {
            finished.push(net.finish(alloc)?)?;
        }
        Ok(finished)
    }
}
