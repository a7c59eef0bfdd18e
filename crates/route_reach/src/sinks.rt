//! The clauses that say that each sink is reached.
ghost use Rattle.std.specs.Prelude.{◌≡◌, ◌+◌, ◌*◌, ◌<◌, ◌≤◌, ◌++◌, ℕ, All, Some, filter, filter_map, false, flat_map, length, map, option_map, slice_index_or};
ghost use Rattle.std.specs.Option.{option_to_list};
ghost use Rattle.fpga_bounds.specs.Pairs.{AreDistinct};
ghost use Rattle.fpga_types.specs.Pins.{HasPin};
ghost use Rattle.fpga_types.specs.Slots.{adjacent, numbered_nets, slots};
ghost use Rattle.fpga_types.specs.declared.grid.PinAt.{PinAt as Pin};
ghost use Rattle.fpga_types.specs.declared.limits.TheConstants.{WIDTH_LIMIT};
ghost use Rattle.fpga_types.specs.Problem.{RoutingProblem};
ghost use Rattle.route_encode.specs.Added.{graph_of};
ghost use Rattle.route_encode.specs.Adding.{Adds, HasRoom};
ghost use Rattle.route_encode.specs.Encoding.{below, place_of};
ghost use Rattle.route_reach.specs.Encoding.{frame_of, sinks_reached};
ghost use Rattle.route_reach.specs.Ends.{ins, sink_pin};
ghost use Rattle.route_reach.specs.SinkClauses.{line_clauses, lines_clauses, sink_lits, slot_lits};
ghost use Rattle.route_reach.specs.WireClauses.{HasWires};
ghost use Rattle.sat_clause.specs.Literal.{IsWithin};

use crate::clause_row::{ClauseRow, MOST_LITS};
use crate::ends::sink_pin;
use crate::near::touched_slots;
use crate::numbers::SlotNumbers;
use crate::variables::WireVariables;
use fpga_bounds::PlacedProblem;
use fpga_graph::{Graph, MOST_TRACKS};
use fpga_types::{Elem, PinAt};
use route_encode::add_clause;
use sat_clause::Formula;

/// What the clauses of sinks are made of.
#[derive(Drop)]
pub(crate) struct SinkReach<'a> {
    pub variables: WireVariables,
    pub width: u32,
    pub graph: &'a Graph<'a>,
    pub numbers: &'a SlotNumbers<'a>,
    ghost few_tracks: { width ≤ WIDTH_LIMIT },
    ghost tracks: { graph.now.width ≡ width },
    ghost wires: { variables.wires ≡ length numbers.now * width },
    ghost distinct: { AreDistinct numbers.now },
}

impl<'a> SinkReach<'a> {
    /// Adds for each SINK line of the ordinary nets that it is reached.
    pub(crate) fn add_sinks(&self, formula: &mut Formula, problem: &PlacedProblem)
        requires graph { self.now.graph.now ≡ graph_of self.now.width problem.now }
        requires numbers { self.now.numbers.now ≡ slots problem.now.route }
        requires vars { HasWires self.now.variables.wires self.now.variables.reach formula.old }
        requires room { HasRoom formula.old
            (flat_map (sinks_reached (frame_of self.now.width self.now.variables.reach problem.now))
            (numbered_nets problem.now.route)) }
        ensures { Adds formula.old
            (flat_map (sinks_reached (frame_of self.now.width self.now.variables.reach problem.now))
            (numbered_nets problem.now.route)) formula.new }
    {
        let mut row = ClauseRow::new();
        let nets = problem.route().nets.as_slice();
        for n in 0..nets.len() {
            let net = &nets[n];
            if !net.global {
                self.add_lines(formula, &mut row, n as u32, net.elems.as_slice());
            }
        }
    }

    /// Adds for each SINK line among those of the net at a position that it is reached.
    fn add_lines(&self, formula: &mut Formula, row: &mut ClauseRow, net: u32, elems: &[Elem])
        requires pins { All (HasPin self.now.graph.now.arch)
            (filter_map sink_pin (adjacent elems.now)) }
        requires vars { HasWires self.now.variables.wires self.now.variables.reach formula.old }
        requires room { HasRoom formula.old (lines_clauses self.now.variables.wires
            self.now.variables.reach self.now.graph.now self.now.numbers.now net elems.now) }
        ensures { Adds formula.old (lines_clauses self.now.variables.wires
            self.now.variables.reach self.now.graph.now self.now.numbers.now net elems.now)
            formula.new }
    {
        for i in 1..elems.len() {
            self.add_line(formula, row, net, elems[i - 1], elems[i]);
        }
    }

    /// Adds of two lines that stand next to each other that the SINK is reached, if the second is
    /// one.
    fn add_line(&self, formula: &mut Formula, row: &mut ClauseRow, net: u32, before: Elem, e: Elem)
        requires pin { (pin : Pin) → sink_pin (before, e) ≡ Some pin
            → HasPin self.now.graph.now.arch pin }
        requires vars { HasWires self.now.variables.wires self.now.variables.reach formula.old }
        requires room { HasRoom formula.old (line_clauses self.now.variables.wires
            self.now.variables.reach self.now.graph.now self.now.numbers.now net (before, e)) }
        ensures { Adds formula.old (line_clauses self.now.variables.wires
            self.now.variables.reach self.now.graph.now self.now.numbers.now net (before, e))
            formula.new }
    {
        let Some(pin) = sink_pin(Some(before), e) else {
            return;
        };
        self.fill_sink(row, net, pin);
        add_clause(formula, row.as_slice());
    }

    /// Makes the clause that says that the pin is reached by the net at a position.
    fn fill_sink(&self, row: &mut ClauseRow, net: u32, pin: PinAt)
        requires { HasPin self.now.graph.now.arch pin }
        ensures clause { row.new ≡ sink_lits self.now.variables.wires self.now.variables.reach
            self.now.graph.now self.now.numbers.now net pin }
        ensures within { All
            (IsWithin (self.now.variables.wires * (self.now.variables.reach + 2))) row.new }
    {
        row.clear();
        let opened = self.graph.opened(pin);
        let touched = touched_slots(self.graph, self.numbers, net, pin);
        for slot in touched.as_slice() {
            self.push_opened(row, *slot, &opened);
        }
    }

    /// Puts for each marked track at the end of a clause that the slot's wire of it is reached.
    fn push_opened(&self, row: &mut ClauseRow, slot: u32, opened: &[bool; MOST_TRACKS])
        requires slot { slot < length self.now.numbers.now }
        requires room { length row.old + self.now.width ≤ MOST_LITS }
        requires within { All
            (IsWithin (self.now.variables.wires * (self.now.variables.reach + 2))) row.old }
        ensures lits { row.new ≡ row.old ++ slot_lits self.now.variables.wires
            self.now.variables.reach self.now.width opened.now slot }
        ensures few { length row.new ≤ length row.old + self.now.width }
        ensures within { All
            (IsWithin (self.now.variables.wires * (self.now.variables.reach + 2))) row.new }
    {
        let reach = self.variables.reach;
        for track in 0..self.width {
            if opened[track as usize] {
                row.push(self.variables.reached(slot * self.width + track, reach));
            }
        }
    }
}
