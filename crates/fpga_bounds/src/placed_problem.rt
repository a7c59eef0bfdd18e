//! Four values that fit, with the slots, the steps and the pin steps of the route.
ghost use Rattle.std.specs.Prelude.{◌≡◌, ◌≤◌, ◌*◌, All, length, IfOk};
ghost use Rattle.fpga_text.specs.FirstFault.{Answers};
ghost use Rattle.fpga_bounds.specs.Problem.{AreListed, IsPinStepTouching, IsStepMeeting, IsStepWithin};
ghost use Rattle.fpga_types.specs.Fits.{Fits, problem_faults};
ghost use Rattle.fpga_types.specs.Given.{IsGiven};
ghost use Rattle.fpga_types.specs.Legal.{route_of};
ghost use Rattle.fpga_types.specs.Problem.{problem_of};
ghost use Rattle.fpga_types.specs.Slots.{pairs, pin_steps, slots, steps};
ghost use Rattle.fpga_types.specs.declared.limits.TheConstants.{NET_LIMIT};

use crate::copy::copied_route;
use crate::design::Design;
use crate::pairs::pair_count;
use crate::pin_list::pin_steps_of;
use crate::problem_check::fitting_problem;
use crate::slot_table::SlotTable;
use crate::step_list::steps_of;
use fpga_text::TextFault;
use fpga_types::{
    Arch, Netlist, PinStep, Placement, RouteStep, RouteText, SLOT_LIMIT, STEP_LIMIT, Slot,
};
use std::alloc::{AllocError, Global};
use std::marker::Model;

/// An architecture, a netlist, its placement and a global route of it that fit, with the slots, the
/// steps and the pin steps of the route. Contracts see the four values.
#[derive(Drop)]
pub struct PlacedProblem {
    arch: Arch,
    netlist: Netlist,
    placement: Placement,
    route: RouteText,
    table: SlotTable,
    steps: Vec<RouteStep>,
    pin_steps: Vec<PinStep>,
    pairs: u64,
}

impl Model for PlacedProblem {
    ghost use Rattle.fpga_types.specs.Problem.{RoutingProblem, problem_of};
    ghost use Rattle.fpga_bounds.specs.Problem.{IsPosed};

    ghost Value = { RoutingProblem };

    ghost view = { λ p. problem_of p.arch p.netlist p.placement p.route };

    ghost invariant = { λ p. IsPosed (problem_of p.arch p.netlist p.placement p.route)
        p.table p.steps.items p.pin_steps.items p.pairs };
}

/// Takes four values that were read for one another, if they fit. They are dropped on a refusal.
///
/// # Errors
/// `Bad` has the first line of the route at which a code holds, with the least code that holds
/// there:
/// - 501: the array line: the placement's array has another size;
/// - 502: the end, which counts as the line after the last: a net of the netlist that is not global
///   has no Net line;
/// - 503: a Net line with a name that the netlist does not have, or of a global net for one that is
///   not, or the reverse;
/// - 504: a Net line with the name of an earlier one;
/// - 505: a SOURCE that is not the driver of its net;
/// - 506: a SINK that is no sink of its net;
/// - 507: a SINK that stands earlier in its net, or the last line of a net of which a sink has no
///   SINK line;
/// - 508: an OPIN that is no pin of the driver's block and class that takes ordinary nets, nor the
///   driver's pad; an IPIN that is no input pin of a placed logic block that takes ordinary nets,
///   nor a placed output pad; a SINK after an IPIN of another place, class or pad;
/// - 509: a channel after an OPIN, or an IPIN after a channel, where the pin does not touch the
///   cell;
/// - 510: a channel after a channel where the cells do not meet;
/// - 511: an element other than a SINK that equals an earlier one of its net, and does not stand
///   after a SINK;
/// - 512: an element other than an IPIN or a SINK that equals no earlier one of its net, and stands
///   after a SINK;
/// - 513: a pin of an earlier net;
/// - 514: an element that may not stand after the one before it, or the last line of a net that is
///   no SINK.
///
/// `Limit` has the code 515 and the count 200,001: more than 200,000 slots. `Memory` comes where
/// memory is short.
///
/// Takes time that grows with the elements, blocks and pins times the logarithm of their number,
/// and memory in proportion to them.
pub fn fit(
    alloc: Global,
    arch: Arch,
    net: Netlist,
    place: Placement,
    route: RouteText,
) -> Result<PlacedProblem, TextFault>
    requires { IsGiven (problem_of arch net place route) }
    ensures { Answers (problem_faults (problem_of arch net place route))
        (λ problem. problem ≡ problem_of arch net place route) result }
{
    let table = match fitting_table(alloc, &arch, &net, &place, &route) {
        Ok(table) => table,
        Err(fault) => return Err(fault),
    };
    let Ok(problem) = posed(alloc, arch, net, place, route, table) else {
        return Err(TextFault::Memory);
    };
    Ok(problem)
}

/// The table of the slots of the route, if the values fit, or their first fault.
fn fitting_table(
    alloc: Global,
    arch: &Arch,
    netlist: &Netlist,
    placement: &Placement,
    route: &RouteText,
) -> Result<SlotTable, TextFault>
    requires { IsGiven (problem_of arch.now netlist.now placement.now route.now) }
    ensures { Answers (problem_faults (problem_of arch.now netlist.now placement.now route.now))
        (λ table. table ≡ slots route.now) result }
{
    let Ok(design) = Design::of(alloc, arch, netlist, placement, route) else {
        return Err(TextFault::Memory);
    };
    fitting_problem(alloc, &design)
}

/// The problem of four values that fit, where these are the slots of the route.
fn posed(
    alloc: Global,
    arch: Arch,
    netlist: Netlist,
    placement: Placement,
    route: RouteText,
    table: SlotTable,
) -> Result<PlacedProblem, AllocError>
    requires given { IsGiven (problem_of arch netlist placement route) }
    requires fits { Fits (problem_of arch netlist placement route) }
    requires slots { table ≡ slots route }
    ensures { IfOk result (λ problem. problem ≡ problem_of arch netlist placement route) }
{
    let Ok(lists) = lists_of(alloc, &route, table) else {
        return Err(AllocError);
    };
    let Lists {
        table,
        steps,
        pin_steps,
        pairs,
    } = lists;
    Ok(PlacedProblem {
        arch,
        netlist,
        placement,
        route,
        table,
        steps,
        pin_steps,
        pairs,
    })
}

/// The slots of a route, with its steps, its pin steps and how many pairs of slots take one cell.
// Apart from the four values, which each early exit would have to let go.
#[derive(Drop)]
struct Lists {
    table: SlotTable,
    steps: Vec<RouteStep>,
    pin_steps: Vec<PinStep>,
    pairs: u64,
}

/// What a route lists, where these are its slots.
fn lists_of(alloc: Global, route: &RouteText, table: SlotTable) -> Result<Lists, AllocError>
    requires few { length route.now.nets ≤ NET_LIMIT }
    requires slots { table ≡ slots route.now }
    ensures { IfOk result (λ lists. AreListed route.now lists.table lists.steps.items
        lists.pin_steps.items lists.pairs) }
{
    let steps = steps_of(alloc, route.nets.as_slice(), &table)?;
    let pin_steps = pin_steps_of(alloc, route.nets.as_slice(), &table)?;
    // One more of them would take more than 8 TiB.
    if steps.len() > STEP_LIMIT || pin_steps.len() > STEP_LIMIT {
        return Err(AllocError);
    }
    let pairs = pair_count(alloc, table.as_slice())?;
    Ok(Lists {
        table,
        steps,
        pin_steps,
        pairs,
    })
}

impl PlacedProblem {
    /// The architecture.
    pub fn arch(&self) -> &Arch
        ensures value { result.now ≡ self.now.arch }
        ensures given { IsGiven self.now }
        ensures fits { Fits self.now }
    {
        &self.arch
    }

    /// The netlist.
    pub fn netlist(&self) -> &Netlist
        ensures value { result.now ≡ self.now.netlist }
        ensures given { IsGiven self.now }
        ensures fits { Fits self.now }
    {
        &self.netlist
    }

    /// The placement.
    pub fn placement(&self) -> &Placement
        ensures value { result.now ≡ self.now.placement }
        ensures given { IsGiven self.now }
        ensures fits { Fits self.now }
    {
        &self.placement
    }

    /// The route.
    pub fn route(&self) -> &RouteText
        ensures value { result.now ≡ self.now.route }
        ensures given { IsGiven self.now }
        ensures fits { Fits self.now }
    {
        &self.route
    }

    /// The slots, by number.
    pub fn slots(&self) -> &[Slot]
        ensures value { result.now ≡ slots self.now.route }
        ensures limit { length result.now ≤ SLOT_LIMIT }
        ensures fits { Fits self.now }
    {
        self.table.as_slice()
    }

    /// The steps, in line order.
    pub fn steps(&self) -> &[RouteStep]
        ensures value { result.now ≡ steps self.now.route }
        ensures limit { length result.now ≤ STEP_LIMIT }
        ensures within { All (IsStepWithin (slots self.now.route)) result.now }
        ensures meet { All (IsStepMeeting self.now.route.grid (slots self.now.route)) result.now }
    {
        self.steps.as_slice()
    }

    /// The pin steps, in line order.
    pub fn pin_steps(&self) -> &[PinStep]
        ensures value { result.now ≡ pin_steps self.now.route }
        ensures limit { length result.now ≤ STEP_LIMIT }
        ensures touching { All (IsPinStepTouching self.now) result.now }
    {
        self.pin_steps.as_slice()
    }

    /// How many pairs of slots are of different nets and take one cell.
    pub fn pairs(&self) -> u64
        ensures value { result ≡ length (pairs (slots self.now.route)) }
        ensures limit { result ≤ SLOT_LIMIT * SLOT_LIMIT }
    {
        self.pairs
    }

    /// A copy of the route in which each channel line has the track of its slot.
    pub fn copy_with_tracks(&self, alloc: Global, tracks: &[u32]) -> Result<RouteText, AllocError>
        requires { length tracks.now ≡ length (slots self.now.route) }
        ensures { IfOk result (λ route. route ≡ route_of self.now.route tracks.now) }
    {
        copied_route(alloc, &self.route, &self.table, tracks)
    }
}
