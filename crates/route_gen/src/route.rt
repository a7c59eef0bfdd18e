//! The global route of a generated problem.
ghost use Rattle.std.specs.Prelude.{◌≡◌, ◌*◌, ◌<◌, ◌≤◌, All, IfOk, length};
ghost use Rattle.fpga_route.specs.Printed.{printed};
ghost use Rattle.fpga_types.specs.declared.limits.TheConstants.{SIDE_LIMIT};
ghost use Rattle.route_gen.specs.Routes as spec;

use crate::draws::Sink;
use crate::location::Location;
use crate::netlist::net_name;
use crate::trace::trace;
use desk_io::{MemShelf, write_file};
use fpga_route::WholeRoute;
use fpga_types::{Grid, Items, Name, RouteNet, RouteText};
use std::alloc::{AllocError, Global};

/// The route of a net, by its number and its sink.
fn route_net(alloc: Global, side: u32, net: u32, sink: Sink) -> Result<RouteNet, AllocError>
    requires side { (1 ≤ side) × (side ≤ SIDE_LIMIT) }
    requires net { net < side * side }
    requires sink { sink.block < side * side }
    ensures { IfOk result (λ route. route ≡ spec.route_net side (net, sink)) }
{
    let driver = Location::of(side, net);
    let elems = trace(alloc, driver, Location::of(side, sink.block), sink.pin)?;
    let name = net_name(alloc, net)?;
    Ok(RouteNet {
        k: u64::from(net),
        name: Name {
            bytes: Items::of(name),
        },
        global: false,
        line: 0,
        elems: Items::of(elems),
        kept: Items::of(Vec::new(alloc)),
    })
}

/// The routes of nets to their sinks.
fn route_nets(alloc: Global, side: u32, sinks: &[Sink]) -> Result<Vec<RouteNet>, AllocError>
    requires side { (1 ≤ side) × (side ≤ SIDE_LIMIT) }
    requires count { length sinks.now ≤ side * side }
    requires sinks { All (λ (sink : Sink). sink.block < side * side) sinks.now }
    ensures { IfOk result (λ nets. nets.items ≡ spec.route_nets side sinks.now) }
{
    let mut nets = Vec::new(alloc);
    for (net, sink) in sinks.iter().enumerate() {
        nets.push(route_net(alloc, side, net as u32, *sink)?)?;
    }
    Ok(nets)
}

/// The text of a route.
fn printed_route(alloc: Global, route: &RouteText) -> Result<Vec<u8>, AllocError>
    ensures { IfOk result (λ text. text.items ≡ printed route.now) }
{
    let mut shelf = MemShelf::new(alloc, Vec::new(alloc));
    let Ok(()) = write_file(&WholeRoute, &mut shelf, "route", route) else {
        return Err(AllocError);
    };
    let Some(text) = shelf.into_file("route") else {
        unreachable!()
    };
    Ok(text)
}

/// The text of the route of nets to their sinks, on an array of this side.
pub fn route_text(alloc: Global, side: u32, sinks: &[Sink]) -> Result<Vec<u8>, AllocError>
    requires side { (1 ≤ side) × (side ≤ SIDE_LIMIT) }
    requires count { length sinks.now ≤ side * side }
    requires sinks { All (λ (sink : Sink). sink.block < side * side) sinks.now }
    ensures { IfOk result (λ text. text.items ≡ printed (spec.route_to side sinks.now)) }
{
    let route = RouteText {
        grid: Grid { nx: side, ny: side },
        grid_line: 0,
        lines: 0,
        nets: Items::of(route_nets(alloc, side, sinks)?),
    };
    printed_route(alloc, &route)
}
