//! The nets that are to be routed, in the order in which they are.

use crate::costs::PIN;
use crate::pins::Pins;
use crate::row::{at, short};
use crate::rows::Rows;
use crate::sites::{SIDES, opened_tracks, pin_at, spec_of, touched_cell};
use fpga_types::{Arch, BlockKind, Net, Netlist, PinRef, Placement};
use std::alloc::{AllocError, Global};

/// A cell along a pin by which a net may leave its driver.
#[derive(Clone, Copy)]
pub(crate) struct Start {
    pub pin: u32,
    pub cell: u32,
    /// The tracks that the pin opens, a bit for each.
    pub opened: u64,
    /// What it costs to leave by this pin of the class and not by the one that the netlist names.
    pub extra: u32,
}

/// The ordinary nets of a netlist, those with most sinks first.
#[derive(Drop)]
pub(crate) struct Nets {
    /// The number of each in the netlist.
    numbers: Vec<u32>,
    /// The classes that each is to reach.
    sinks: Rows<u32>,
    starts: Rows<Start>,
}

/// What the pins of nets are made of.
#[derive(Clone, Copy)]
struct Given<'a> {
    arch: &'a Arch,
    netlist: &'a Netlist,
    placement: &'a Placement,
    pins: &'a Pins,
    width: u32,
}

impl Nets {
    /// The ordinary nets of a netlist, in channels of so many tracks.
    pub(crate) fn new<'a>(
        alloc: Global,
        arch: &'a Arch,
        netlist: &'a Netlist,
        placement: &'a Placement,
        pins: &'a Pins,
        width: u32,
    ) -> Result<Nets, AllocError> {
        let given = Given {
            arch,
            netlist,
            placement,
            pins,
            width,
        };
        let mut nets = Nets {
            numbers: Vec::new(alloc),
            sinks: Rows::new(alloc)?,
            starts: Rows::new(alloc)?,
        };
        for key in ordered(alloc, netlist)? {
            nets.add(given, short((key & 0xffff_ffff) as usize))?;
        }
        Ok(nets)
    }

    /// How many there are.
    pub(crate) fn count(&self) -> usize {
        self.numbers.len()
    }

    /// The number of a net in the netlist.
    pub(crate) fn number(&self, net: usize) -> u32 {
        at(&self.numbers, net)
    }

    /// The classes that a net is to reach.
    pub(crate) fn sinks_of(&self, net: usize) -> &[u32] {
        self.sinks.row(net)
    }

    /// The cells along the pins by which a net may leave its driver.
    pub(crate) fn starts_of(&self, net: usize) -> &[Start] {
        self.starts.row(net)
    }

    /// Adds a net of the netlist.
    fn add(&mut self, given: Given<'_>, number: u32) -> Result<(), AllocError> {
        let nets = given.netlist.nets.as_slice();
        if number as usize >= nets.len() {
            return Ok(());
        }
        let net = &nets[number as usize];
        self.numbers.push(number)?;
        for sink in net.sinks.as_slice() {
            self.add_sink(given, *sink)?;
        }
        self.sinks.close()?;
        if let Some(driver) = net.driver {
            self.add_driver(given, driver)?;
        }
        self.starts.close()
    }

    /// Adds the class of a sink.
    fn add_sink(&mut self, given: Given<'_>, sink: PinRef) -> Result<(), AllocError> {
        let blocks = given.netlist.blocks.as_slice();
        if sink.block as usize >= blocks.len() {
            return Ok(());
        }
        let kind = blocks[sink.block as usize].kind;
        self.sinks.push(given.pins.class_of(given.arch, kind, sink.block, sink.pin))
    }

    /// Adds the cells along the pins of the driver's class.
    fn add_driver(&mut self, given: Given<'_>, driver: PinRef) -> Result<(), AllocError> {
        let blocks = given.netlist.blocks.as_slice();
        if driver.block as usize >= blocks.len() {
            return Ok(());
        }
        let kind = blocks[driver.block as usize].kind;
        if !matches!(kind, BlockKind::Logic) {
            return self.add_start(given, kind, driver, 0);
        }
        for pin in 0..short(given.arch.pins.as_slice().len()) {
            if may_drive(given.arch, driver.pin, pin) {
                let extra = if pin == driver.pin { 0 } else { PIN as u32 };
                let block = driver.block;
                self.add_start(given, kind, PinRef { block, pin }, extra)?;
            }
        }
        Ok(())
    }

    /// Adds the cells along a pin of a driver.
    fn add_start(
        &mut self,
        given: Given<'_>,
        kind: BlockKind,
        driver: PinRef,
        extra: u32,
    ) -> Result<(), AllocError> {
        let Given { arch, width, .. } = given;
        let places = given.placement.places.as_slice();
        let grid = given.placement.grid;
        if driver.block as usize >= places.len() || width == 0 || width > 64 {
            return Ok(());
        }
        let Some(there) = pin_at(arch, kind, places[driver.block as usize], driver.pin) else {
            return Ok(());
        };
        let opened = opened_tracks(arch, grid, width, there);
        let pin = given.pins.number_of(driver.block, driver.pin);
        for side in SIDES {
            if let Some(cell) = touched_cell(arch, grid, there, side) {
                self.starts.push(Start {
                    pin,
                    cell,
                    opened,
                    extra,
                })?;
            }
        }
        Ok(())
    }
}

/// Whether an ordinary net may leave a logic block by the one pin if the netlist names the other.
fn may_drive(arch: &Arch, named: u32, pin: u32) -> bool {
    let (Some(own), Some(spec)) = (spec_of(arch, named), spec_of(arch, pin)) else {
        return false;
    };
    spec.output && !spec.global && spec.class == own.class
}

/// The numbers of the ordinary nets, those with most sinks first, and of equal ones the first net;
/// in the upper half of each number stands how many sinks its net lacks to the most.
fn ordered(alloc: Global, netlist: &Netlist) -> Result<Vec<u64>, AllocError> {
    let mut keys = Vec::new(alloc);
    for (number, net) in netlist.nets.as_slice().iter().enumerate() {
        if !net.global {
            keys.push(order_key(net, short(number)))?;
        }
    }
    keys.sort()?;
    Ok(keys)
}

/// What a net is ordered by.
fn order_key(net: &Net, number: u32) -> u64 {
    let lacking = u32::MAX - short(net.sinks.as_slice().len());
    ((lacking as u64) << 32) | number as u64
}
