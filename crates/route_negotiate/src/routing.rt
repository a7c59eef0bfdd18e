//! What a search finds: the wires of each net, path by path.
ghost use Rattle.std.specs.Prelude.{◌≡◌, [], All, IfOk, IfSome, OnOk, length};
ghost use Rattle.fpga_types.specs.Placed.{IsWire};
ghost use Rattle.route_negotiate.specs.Routings.{AreWithin};

use crate::board::Board;
use crate::fabric::cell_count;
use crate::row::{put, short};
use crate::tree::Tree;
use crate::wires::{cell_of as cell_number_of, track_of};
use fpga_types::{Grid, PinAt, Wire, cell_of};
use std::alloc::{AllocError, Global};

/// A path of a net, from its driver or from a wire of an earlier path to a sink.
#[derive(Clone, Copy)]
pub struct Path {
    /// The pin by which it leaves the driver; where there is none, its first wire stands in an
    /// earlier path of the net.
    pub leaves: Option<PinAt>,
    /// How many wires it has.
    pub length: u32,
    /// The pin of the sink that it comes to.
    pub enters: PinAt,
}

/// The paths of a net, and the wires of all, those of one path behind those of another.
#[derive(Drop)]
pub struct NetPaths {
    pub wires: Vec<Wire>,
    pub paths: Vec<Path>,
}

/// A wire by number, if it is one of the array with so many tracks.
fn wire_at(grid: Grid, width: u32, wire: u32) -> Option<Wire>
    ensures { IfSome result (IsWire grid width) }
{
    let number = cell_number_of(wire);
    let track = track_of(wire);
    if number >= cell_count(grid) || track >= width {
        return None;
    }
    Some(Wire {
        cell: cell_of(grid, number),
        track,
    })
}

/// Adds the wires of the array with these numbers: how many.
fn add_wires(
    wires: &mut Vec<Wire>,
    grid: Grid,
    width: u32,
    numbers: &[u32],
) -> Result<u32, AllocError>
    requires { All (IsWire grid width) wires.old.items }
    ensures { All (IsWire grid width) wires.new.items }
{
    let mut count: u32 = 0;
    for number in numbers {
        if let Some(wire) = wire_at(grid, width, *number) {
            wires.push(wire)?;
            count = count.saturating_add(1);
        }
    }
    Ok(count)
}

/// Adds a path of a tree.
fn add_path(
    net: &mut NetPaths,
    board: &Board<'_>,
    width: u32,
    tree: &Tree,
    number: usize,
) -> Result<(), AllocError>
    requires { All (IsWire board.now.placement.now.grid width) net.old.wires.items }
    ensures { All (IsWire board.now.placement.now.grid width) net.new.wires.items }
{
    if number >= tree.steps.len() {
        return Ok(());
    }
    let step = tree.steps[number];
    let leaves = if step.fresh {
        board.pin_at(tree.leaves)
    } else {
        None
    };
    let Some(enters) = board.pin_at(step.pin) else {
        return Ok(());
    };
    let grid = board.placement.grid;
    let length = add_wires(&mut net.wires, grid, width, tree.wires_of(number))?;
    net.paths.push(Path {
        leaves,
        length,
        enters,
    })?;
    Ok(())
}

/// For each net of the netlist, by number, the place of its tree among those of ordinary nets; or
/// that there is none.
pub(crate) fn tree_places(alloc: Global, board: &Board<'_>) -> Result<Vec<u32>, AllocError>
    ensures { IfOk result (λ places. length places.items
        ≡ length board.now.netlist.now.nets) }
{
    let count = board.netlist.nets.as_slice().len();
    let mut places = vec![in alloc; u32::MAX; count]?;
    for net in 0..board.nets.count() {
        put(&mut places, board.nets.number(net) as usize, short(net));
    }
    Ok(places)
}

/// The paths of each net of the netlist, by number, of the trees of the ordinary ones.
pub(crate) fn all_paths(
    alloc: Global,
    board: &Board<'_>,
    width: u32,
    trees: &[Tree],
) -> Result<Vec<NetPaths>, AllocError>
    ensures each { IfOk result (λ nets. length nets.items ≡ length board.now.netlist.now.nets) }
    ensures within { IfOk result
        (λ nets. AreWithin board.now.placement.now.grid width nets.items) }
{
    let places = tree_places(alloc, board)?;
    paths_at(alloc, board, width, trees, &places)
}

/// The paths of the trees at these places, where there are some.
fn paths_at(
    alloc: Global,
    board: &Board<'_>,
    width: u32,
    trees: &[Tree],
    places: &[u32],
) -> Result<Vec<NetPaths>, AllocError>
    ensures each { IfOk result (λ nets. length nets.items ≡ length places.now) }
    ensures within { IfOk result
        (λ nets. AreWithin board.now.placement.now.grid width nets.items) }
{
    let mut nets = Vec::with_capacity(alloc, places.len())?;
    add_paths(&mut nets, alloc, board, width, trees, places)?;
    Ok(nets)
}

/// Adds the paths of the trees at these places to none.
fn add_paths(
    nets: &mut Vec<NetPaths>,
    alloc: Global,
    board: &Board<'_>,
    width: u32,
    trees: &[Tree],
    places: &[u32],
) -> Result<(), AllocError>
    requires { nets.old.items ≡ [] }
    ensures each { OnOk result (length nets.new.items ≡ length places.now) }
    ensures within { OnOk result
        (AreWithin board.now.placement.now.grid width nets.new.items) }
{
    for place in places {
        nets.push(paths_of(alloc, board, width, trees, *place as usize)?)?;
    }
    Ok(())
}

/// The paths of the tree at a place, if there is one.
fn paths_of(
    alloc: Global,
    board: &Board<'_>,
    width: u32,
    trees: &[Tree],
    place: usize,
) -> Result<NetPaths, AllocError>
    ensures { IfOk result
        (λ net. All (IsWire board.now.placement.now.grid width) net.wires.items) }
{
    let (wires, paths) = if place < trees.len() {
        (trees[place].path.len(), trees[place].steps.len())
    } else {
        (0, 0)
    };
    let mut net = NetPaths {
        wires: Vec::with_capacity(alloc, wires)?,
        paths: Vec::with_capacity(alloc, paths)?,
    };
    if place < trees.len() {
        add_tree(&mut net, board, width, &trees[place])?;
    }
    Ok(net)
}

/// Adds the paths of a tree.
fn add_tree(
    net: &mut NetPaths,
    board: &Board<'_>,
    width: u32,
    tree: &Tree,
) -> Result<(), AllocError>
    requires { All (IsWire board.now.placement.now.grid width) net.old.wires.items }
    ensures { All (IsWire board.now.placement.now.grid width) net.new.wires.items }
{
    for number in 0..tree.steps.len() {
        add_path(net, board, width, tree, number)?;
    }
    Ok(())
}
