//! The nets of a global route, each with its own cells and with what its pins open there.
ghost use Rattle.std.specs.Prelude.{◌≤◌, IfSome};
ghost use Rattle.fpga_types.specs.Pins.{HasPin};
ghost use Rattle.fpga_types.specs.declared.limits.TheConstants.{WIDTH_LIMIT};

use crate::row::{at, put, short};
use crate::rows::{Keyed, Rows, grouped};
use crate::sites::{SIDES, opened_tracks, spec_of, touched_cell};
use fpga_types::{Arch, Elem, ElemKind, Grid, PinAt, RouteText, Slot, WIDTH_LIMIT, cell_number};
use std::alloc::{AllocError, Global};

/// A net that has sinks: its slots and its sinks, each from the first number on and before the
/// last.
#[derive(Clone, Copy)]
pub(crate) struct OwnNet {
    pub slots_from: u32,
    pub slots_to: u32,
    pub sinks_from: u32,
    pub sinks_to: u32,
}

/// A sink, and the tracks that its pin opens in the cell of a slot.
#[derive(Clone, Copy)]
pub(crate) struct Entry {
    pub sink: u32,
    pub tracks: u64,
}

/// The nets of a global route, their slots and their sinks.
#[derive(Drop)]
pub(crate) struct OwnNets {
    /// The cell of each slot.
    cells: Vec<u32>,
    /// The tracks of each slot that pins of the driver open.
    starts: Vec<u64>,
    /// The sinks that each slot leads to.
    entries: Rows<u32>,
    all_entries: Vec<Entry>,
    /// Those with most sinks first.
    nets: Vec<OwnNet>,
    /// How many sinks there are.
    pub sinks: u32,
}

/// Nets that are being read.
#[derive(Drop)]
struct Draft {
    cells: Vec<u32>,
    /// The first slot of the net in hand.
    begun: u32,
    starts: Vec<u64>,
    /// The slot that was last seen in each cell.
    last: Vec<u32>,
    entries: Vec<Entry>,
    keys: Vec<Keyed>,
    nets: Vec<OwnNet>,
    sinks: u32,
}

impl OwnNets {
    /// The nets of a route that has these slots, those of one net behind those of another, on an
    /// array of so many cells.
    pub(crate) fn new(
        alloc: Global,
        arch: &Arch,
        route: &RouteText,
        slots: &[Slot],
        width: u32,
        cells: u32,
    ) -> Result<OwnNets, AllocError> {
        let grid = route.grid;
        let mut draft = Draft {
            cells: Vec::with_capacity(alloc, slots.len())?,
            begun: 0,
            starts: vec![in alloc; 0; slots.len()]?,
            last: vec![in alloc; u32::MAX; cells as usize]?,
            entries: Vec::new(alloc),
            keys: Vec::new(alloc),
            nets: Vec::new(alloc),
            sinks: 0,
        };
        for (number, net) in route.nets.as_slice().iter().enumerate() {
            draft.add_slots(grid, short(number), slots)?;
            draft.add_net(arch, grid, width, net.elems.as_slice())?;
        }
        let entries = grouped(alloc, short(slots.len()), &draft.keys)?;
        let nets = ordered(alloc, &draft.nets)?;
        Ok(OwnNets {
            cells: draft.cells,
            starts: draft.starts,
            entries,
            all_entries: draft.entries,
            nets,
            sinks: draft.sinks,
        })
    }

    /// How many nets there are.
    pub(crate) fn count(&self) -> usize {
        self.nets.len()
    }

    /// A net, or one without slots.
    pub(crate) fn net(&self, number: usize) -> OwnNet {
        if number < self.nets.len() {
            return self.nets[number];
        }
        OwnNet {
            slots_from: 0,
            slots_to: 0,
            sinks_from: 0,
            sinks_to: 0,
        }
    }

    /// The most slots that a net has.
    pub(crate) fn most_slots(&self) -> u32 {
        let mut most = 0;
        for net in self.nets.as_slice() {
            most = net.slots_to.saturating_sub(net.slots_from).max(most);
        }
        most
    }

    /// The cell of a slot.
    pub(crate) fn cell(&self, slot: u32) -> u32 {
        at(&self.cells, slot as usize)
    }

    /// The tracks of a slot that pins of the driver open.
    pub(crate) fn starts(&self, slot: u32) -> u64 {
        let place = slot as usize;
        if place < self.starts.len() {
            self.starts[place]
        } else {
            0
        }
    }

    /// The sinks that a slot leads to, by number among all of them.
    pub(crate) fn entries_of(&self, slot: u32) -> &[u32] {
        self.entries.row(slot as usize)
    }

    /// A sink that some slot leads to.
    pub(crate) fn entry(&self, number: u32) -> Entry {
        let place = number as usize;
        if place < self.all_entries.len() {
            return self.all_entries[place];
        }
        Entry {
            sink: u32::MAX,
            tracks: 0,
        }
    }
}

impl Draft {
    /// Adds the next of these slots, as far as they are of the net at a position.
    fn add_slots(&mut self, grid: Grid, position: u32, slots: &[Slot]) -> Result<(), AllocError> {
        self.begun = short(self.cells.len());
        for number in self.cells.len()..slots.len() {
            let Slot { net, cell } = slots[number];
            if net != position || !grid.has_cell(cell) {
                break;
            }
            let cell = cell_number(grid, cell);
            put(&mut self.last, cell as usize, short(number));
            self.cells.push(cell)?;
        }
        Ok(())
    }

    /// Adds a net with the slots that were added last, if there are some.
    fn add_net(
        &mut self,
        arch: &Arch,
        grid: Grid,
        width: u32,
        elems: &[Elem],
    ) -> Result<(), AllocError> {
        let slots_to = short(self.cells.len());
        if self.begun == slots_to {
            return Ok(());
        }
        let sinks_from = self.sinks;
        let mut before = None;
        for e in elems {
            self.add_line(arch, grid, width, before, *e)?;
            before = Some(*e);
        }
        self.nets.push(OwnNet {
            slots_from: self.begun,
            slots_to,
            sinks_from,
            sinks_to: self.sinks,
        })?;
        Ok(())
    }

    /// Adds what a line of the net says, and the one before it.
    fn add_line(
        &mut self,
        arch: &Arch,
        grid: Grid,
        width: u32,
        before: Option<Elem>,
        e: Elem,
    ) -> Result<(), AllocError> {
        match e.kind {
            ElemKind::Opin => Ok(self.add_out(arch, grid, width, e)),
            ElemKind::Sink => self.add_end(arch, grid, width, before),
            ElemKind::Source | ElemKind::Ipin | ElemKind::ChanX | ElemKind::ChanY => Ok(()),
        }
    }

    /// Adds the tracks that the pin of an OPIN line opens.
    fn add_out(&mut self, arch: &Arch, grid: Grid, width: u32, e: Elem) {
        let Some(pin) = own_pin(arch, e) else {
            return;
        };
        let tracks = tracks_of(arch, grid, width, pin);
        for side in SIDES {
            if let Some(cell) = touched_cell(arch, grid, pin, side) {
                self.start(cell, tracks);
            }
        }
    }

    /// Adds the tracks of a cell that a pin of the driver opens.
    fn start(&mut self, cell: u32, tracks: u64) {
        let slot = at(&self.last, cell as usize) as usize;
        if slot >= self.begun as usize && slot < self.starts.len() {
            self.starts[slot] |= tracks;
        }
    }

    /// Adds the slots that lead to the next sink, whose pin the line before its own names.
    fn add_end(
        &mut self,
        arch: &Arch,
        grid: Grid,
        width: u32,
        before: Option<Elem>,
    ) -> Result<(), AllocError> {
        let sink = self.sinks;
        self.sinks = sink.saturating_add(1);
        let Some(line) = before else {
            return Ok(());
        };
        let Some(pin) = own_pin(arch, line) else {
            return Ok(());
        };
        let tracks = tracks_of(arch, grid, width, pin);
        for side in SIDES {
            if let Some(cell) = touched_cell(arch, grid, pin, side) {
                self.enter(cell, sink, tracks)?;
            }
        }
        Ok(())
    }

    /// Lets the slot of the net in a cell lead to a sink, whose pin opens these tracks there.
    fn enter(&mut self, cell: u32, sink: u32, tracks: u64) -> Result<(), AllocError> {
        let slot = at(&self.last, cell as usize);
        if slot < self.begun || slot as usize >= self.cells.len() {
            return Ok(());
        }
        let item = short(self.entries.len());
        self.keys.push(Keyed { key: slot, item })?;
        self.entries.push(Entry { sink, tracks })?;
        Ok(())
    }
}

/// The pin of a line, if the architecture has it.
fn own_pin(arch: &Arch, e: Elem) -> Option<PinAt>
    ensures { IfSome result (HasPin arch.now) }
{
    let pin = e.pin()?;
    match pin {
        PinAt::Pad { .. } => Some(pin),
        PinAt::Pin { pin: number, .. } => {
            if number as usize >= arch.pins.as_slice().len() {
                return None;
            }
            Some(pin)
        }
    }
}

/// The tracks that a pin opens, a bit for each.
fn tracks_of(arch: &Arch, grid: Grid, width: u32, pin: PinAt) -> u64
    requires { HasPin arch.now pin }
{
    if width == 0 || width > WIDTH_LIMIT {
        return 0;
    }
    opened_tracks(arch, grid, width, pin)
}

/// The nets, those with most sinks first, and of equal ones the first.
fn ordered(alloc: Global, nets: &[OwnNet]) -> Result<Vec<OwnNet>, AllocError> {
    let mut keys = Vec::with_capacity(alloc, nets.len())?;
    for (number, net) in nets.iter().enumerate() {
        let lacking = u32::MAX - net.sinks_to.saturating_sub(net.sinks_from);
        keys.push(((lacking as u64) << 32) | short(number) as u64)?;
    }
    keys.sort()?;
    let mut row = Vec::with_capacity(alloc, nets.len())?;
    for key in keys {
        let number = (key & 0xffff_ffff) as usize;
        if number < nets.len() {
            row.push(nets[number])?;
        }
    }
    Ok(row)
}
