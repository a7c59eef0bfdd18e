//! Which clauses demand something of a net.
ghost use Rattle.std.specs.Prelude.{◌≡◌, ◌<◌, Some, length, slice_get};
ghost use Rattle.cell_clauses.specs.Demands.{demands, is_entry_of, is_use_of, says_of};
ghost use Rattle.cell_clauses.specs.Held.{frame_in};

use crate::frame::PlacedWindow;
use crate::window::WindowNet;
use sat_clause::Lit;

impl<'a> PlacedWindow<'a> {
    /// The net at a place among those of the window.
    pub fn net(&self, place: u32) -> WindowNet
        requires { place < length (frame_in self.now).nets }
        ensures { slice_get (frame_in self.now).nets place ≡ Some result }
    {
        self.nets[place as usize]
    }

    /// Whether a clause demands something of the net at this place, and of no other: that it uses
    /// one of some cells, or comes to a sink by one of some pins. All other clauses hold where a
    /// net uses no cell and comes to no sink.
    pub fn demands(&self, net: u32, clause: &[Lit]) -> bool
        requires { net < length (frame_in self.now).nets }
        ensures { result ≡ demands (frame_in self.now) net clause.now }
    {
        clause.iter().all(|l| self.says_of(net, *l))
    }

    /// Whether a literal says that the net uses a cell or comes to a sink by a pin.
    fn says_of(&self, net: u32, l: Lit) -> bool
        requires { net < length (frame_in self.now).nets }
        ensures { result ≡ says_of (frame_in self.now) net l }
    {
        if !l.is_positive() {
            return false;
        }
        let place = l.variable() - 1;
        self.is_use_of(net, place) || self.is_entry_of(net, place)
    }

    /// Whether the variable at a place says that the net uses a cell.
    fn is_use_of(&self, net: u32, place: u32) -> bool
        requires { net < length (frame_in self.now).nets }
        ensures { result ≡ is_use_of (frame_in self.now) net place }
    {
        let cells = self.sizes.cells;
        let first = net * cells;
        first <= place && place < first + cells
    }

    /// Whether the variable at a place says by which pin the net comes to a sink.
    fn is_entry_of(&self, net: u32, place: u32) -> bool
        ensures { result ≡ is_entry_of (frame_in self.now) net place }
    {
        let first = self.sizes.count();
        if place < first {
            return false;
        }
        let pins = self.arch.pins.as_slice().len() as u32 + 1;
        let Some(arrival) = self
            .arrivals
            .as_slice()
            .get(((place - first) / pins) as usize)
        else {
            return false;
        };
        arrival.net == net
    }
}
