//! The nets of a window, and their sinks.
ghost use Rattle.std.specs.Prelude.{◌≡◌, ◌<◌, ◌≤◌, ◌++◌, ◌||◌, [], ◌∷◌, All, IfOk, OnOk, filter_map, length, map};
ghost use Rattle.std.specs.List.{cons_option, list_any};
ghost use Rattle.cell_clauses.specs.Frames.{arrivals_of, held_nets, is_held, ordinary_net as net_of, window_arrivals as arrivals_in};
ghost use Rattle.cell_clauses.specs.Held.{is_sink_held as sink_held, placed_of};
ghost use Rattle.cell_clauses.specs.declared.window.Arrival.{Arrival as ArrivalOf};
ghost use Rattle.fpga_types.specs.Terminals.{terminal_in};
ghost use Rattle.fpga_types.specs.declared.limits.TheConstants.{NET_LIMIT};
ghost use Rattle.fpga_types.specs.declared.problem.Terminal.{Terminal as TerminalOf};
ghost use Rattle.route_bound.specs.Corners.{has_corner_in};
ghost use Rattle.route_bound.specs.Ranges.{corners_of};

use crate::placed::Placed;
use crate::window::{Arrival, WindowNet};
use fpga_types::{Net, PinRef, Terminal};
use route_bound::{CornerRange, is_inside};
use std::alloc::{AllocError, Global};

impl<'a> Placed<'a> {
    /// The nets of which the cells with one of these corners hold a terminal.
    ///
    /// # Errors
    /// Where memory is short.
    pub fn nets_held(&self, alloc: Global, range: CornerRange) -> Result<Vec<WindowNet>, AllocError>
        requires { length self.now.netlist.now.nets ≤ NET_LIMIT }
        ensures { IfOk result (λ nets. nets.items
            ≡ held_nets (placed_of self.now) (has_corner_in (corners_of range))) }
    {
        let mut nets = Vec::new(alloc);
        for (number, net) in self.netlist.nets.as_slice().iter().enumerate() {
            self.add_net(&mut nets, range, number as u32, net)?;
        }
        Ok(nets)
    }

    /// Adds a net, if the cells hold a terminal of it.
    fn add_net(
        &self,
        nets: &mut Vec<WindowNet>,
        range: CornerRange,
        number: u32,
        net: &Net,
    ) -> Result<(), AllocError>
        ensures { OnOk result (nets.new.items ≡ nets.old.items ++ cons_option
            (net_of (placed_of self.now) (has_corner_in (corners_of range)) number net.now) []) }
    {
        let Some(held) = self.held_net(range, number, net) else {
            return Ok(());
        };
        nets.push(held)?;
        Ok(())
    }

    /// The net, if it is an ordinary one and the cells hold a terminal of it.
    fn held_net(&self, range: CornerRange, number: u32, net: &Net) -> Option<WindowNet>
        ensures { result
            ≡ net_of (placed_of self.now) (has_corner_in (corners_of range)) number net.now }
    {
        if net.global {
            return None;
        }
        let Some(pin) = net.driver else {
            return None;
        };
        let Some(driver) = self.terminal(pin) else {
            return None;
        };
        if !self.has_held(range, driver, net.sinks.as_slice()) {
            return None;
        }
        Some(WindowNet { number, driver })
    }

    /// Whether the cells hold the driver, where there is a sink, or one of the sinks.
    fn has_held(&self, range: CornerRange, driver: Terminal, sinks: &[PinRef]) -> bool
        ensures { result ≡ list_any
            (λ (at : TerminalOf).
            is_held (placed_of self.now) (has_corner_in (corners_of range)) driver
            || is_held (placed_of self.now) (has_corner_in (corners_of range)) at)
            (filter_map (terminal_in (placed_of self.now)) sinks.now) }
    {
        let held = is_inside(self.arch, self.placement.grid, range, driver);
        self.has_sink_held(range, held, sinks)
    }

    /// Whether there is a sink at one of these pins, and the cells hold it or its driver.
    fn has_sink_held(&self, range: CornerRange, held: bool, sinks: &[PinRef]) -> bool
        ensures { result ≡ list_any (sink_held (placed_of self.now) range held) sinks.now }
    {
        sinks.iter().any(|pin| self.is_sink_held(range, held, *pin))
    }

    /// Whether there is a sink at this pin, and the cells hold it or its driver.
    fn is_sink_held(&self, range: CornerRange, held: bool, pin: PinRef) -> bool
        ensures { result ≡ sink_held (placed_of self.now) range held pin }
    {
        let Some(at) = self.terminal(pin) else {
            return false;
        };
        held || is_inside(self.arch, self.placement.grid, range, at)
    }

    /// The sinks of the nets of a window, net by net.
    ///
    /// # Errors
    /// Where memory is short.
    pub fn arrivals(&self, alloc: Global, nets: &[WindowNet]) -> Result<Vec<Arrival>, AllocError>
        requires { length nets.now ≤ NET_LIMIT }
        ensures value { IfOk result
            (λ arrivals. arrivals.items ≡ arrivals_in (placed_of self.now) nets.now) }
        ensures low { IfOk result
            (λ arrivals. All (λ (a : ArrivalOf). a.net < length nets.now) arrivals.items) }
    {
        let mut arrivals = Vec::new(alloc);
        for (place, net) in nets.iter().enumerate() {
            self.add_arrivals(&mut arrivals, place as u32, *net)?;
        }
        Ok(arrivals)
    }

    /// Adds the sinks of a net.
    fn add_arrivals(
        &self,
        arrivals: &mut Vec<Arrival>,
        place: u32,
        net: WindowNet,
    ) -> Result<(), AllocError>
        ensures { OnOk result (arrivals.new.items
            ≡ arrivals.old.items ++ arrivals_of (placed_of self.now) (place, net)) }
    {
        let nets = self.netlist.nets.as_slice();
        let number = net.number as usize;
        if number >= nets.len() {
            return Ok(());
        }
        self.add_sinks(arrivals, place, nets[number].sinks.as_slice())
    }

    /// Adds the sinks at these pins.
    fn add_sinks(
        &self,
        arrivals: &mut Vec<Arrival>,
        place: u32,
        sinks: &[PinRef],
    ) -> Result<(), AllocError>
        ensures { OnOk result (arrivals.new.items ≡ arrivals.old.items
            ++ map (λ (at : TerminalOf). record { net = place; at = at })
            (filter_map (terminal_in (placed_of self.now)) sinks.now)) }
    {
        for pin in sinks {
            self.add_sink(arrivals, place, *pin)?;
        }
        Ok(())
    }

    /// Adds the sink at a pin, if it is there.
    fn add_sink(
        &self,
        arrivals: &mut Vec<Arrival>,
        place: u32,
        pin: PinRef,
    ) -> Result<(), AllocError>
        ensures { OnOk result (arrivals.new.items ≡ arrivals.old.items
            ++ map (λ (at : TerminalOf). record { net = place; at = at })
            (filter_map (terminal_in (placed_of self.now)) (pin ∷ []))) }
    {
        let Some(at) = self.terminal(pin) else {
            return Ok(());
        };
        arrivals.push(Arrival { net: place, at })?;
        Ok(())
    }
}
