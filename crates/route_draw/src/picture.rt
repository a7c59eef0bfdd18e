//! A whole picture.
ghost use Rattle.std.specs.Prelude.{◌≡◌, ◌++◌, ℕ, Bool, IfOk, List, OnOk, codes, string_bytes};
ghost use Rattle.route_draw.specs.Blamed.{blame_of};
ghost use Rattle.route_draw.specs.Crowded.{AreCrowded};
ghost use Rattle.route_draw.specs.Cut.{cut_of};
ghost use Rattle.route_draw.specs.Parts.{Adds};
ghost use Rattle.route_draw.specs.Picture.{IsBody, IsPicture, IsPictureOf, IsRoutedPicture};
ghost use Rattle.route_draw.specs.Wires.{AreLanes, Layout, layout_of};

use crate::array::append_array;
use crate::blocks::{append_blocks, append_global_nets};
use crate::caption::{append_counts, key};
use crate::crowded::append_crowded;
use crate::cut::{ShownCut, append_cut};
use crate::emphasis::Emphasis;
use crate::head::{append_head, below, beside, far_corner};
use crate::lanes::Lanes;
use crate::nets::append_nets;
use crate::ruler::append_rulers;
use crate::scale::Point;
use fpga_bounds::PlacedProblem;
use fpga_types::{Grid, RouteText};
use std::alloc::{AllocError, Global};

/// The picture of a problem and its route, where each channel has `width` tracks.
///
/// Each net of the route has a colour, and each of its wires is drawn on its track. Where all
/// tracks of the route are 0, it is a global route, and the nets of a cell are drawn side by side.
/// A cell is red that wants more tracks than the width: those up to the highest track of its
/// channel lines, and in a global route one for each net. Where names are given for `emphasis`, the
/// nets with these names are bold, and the others pale. Behind blocks and nets a band lies over
/// each cell of `cut`, if one is given.
///
/// Takes time and memory that grow with the array, the width, the blocks and the elements, and time
/// with the nets by the logarithm of the number of names.
pub fn draw<'a>(
    alloc: Global,
    problem: &'a PlacedProblem,
    width: u32,
    emphasis: &Emphasis<'a>,
    cut: Option<ShownCut<'_>>,
) -> Result<String, AllocError>
    ensures { IfOk result (λ text. IsPicture problem.now width (blame_of emphasis.now)
        (cut_of cut.entry) (string_bytes text)) }
{
    let mut lanes = Lanes::of(alloc, problem, width)?;
    draw_route(
        alloc,
        problem,
        problem.route(),
        width,
        &mut lanes,
        emphasis,
        cut,
    )
}

/// The picture of a routing of a problem, in which a net may have several wires of a cell: like
/// `draw`, but each wire on its track, and all nets alike.
pub fn draw_routed(
    alloc: Global,
    problem: &PlacedProblem,
    found: &RouteText,
    width: u32,
) -> Result<String, AllocError>
    ensures { IfOk result (λ text.
        IsRoutedPicture problem.now found.now width (string_bytes text)) }
{
    let mut lanes = Lanes::on_tracks(alloc, found, width)?;
    draw_route(
        alloc,
        problem,
        found,
        width,
        &mut lanes,
        &Emphasis::Alike,
        None,
    )
}

// The picture of a route of a problem whose wires stand so.
fn draw_route<'a>(
    alloc: Global,
    problem: &'a PlacedProblem,
    route: &'a RouteText,
    width: u32,
    lanes: &mut Lanes,
    emphasis: &Emphasis<'a>,
    cut: Option<ShownCut<'_>>,
) -> Result<String, AllocError>
    ensures { IfOk result (λ text. (on_tracks : Bool) →
        AreLanes (layout_of on_tracks route.now width) lanes.old →
        IsPictureOf (record problem.now { route = route.now }) (layout_of on_tracks route.now width)
        (blame_of emphasis.now) (cut_of cut.entry) (string_bytes text)) }
{
    let marks = crowded_marks(alloc, route, lanes, width)?;
    let far = far_corner(route.grid, problem.placement().places.as_slice());
    let mut out = front(alloc, route.grid, width, far, marks.lines)?;
    append_cut(&mut out, alloc, route.grid, cut)?;
    append_body(&mut out, alloc, problem, route, lanes, emphasis)?;
    out.push_str(marks.text.as_str())?;
    out.push_str("</g>\n")?;
    append_rulers(&mut out, route.grid, below(route.grid), beside(route.grid))?;
    append_counts(&mut out, problem, width, emphasis)?;
    out.push_str(marks.key.as_str())?;
    out.push_str("</svg>\n")?;
    Ok(out)
}

// The marks on crowded cells, the key, which says how many these are, and how many lines the
// caption has with it.
#[derive(Drop)]
struct Marks {
    text: String,
    key: String,
    lines: u64,
}

fn crowded_marks(
    alloc: Global,
    route: &RouteText,
    lanes: &Lanes,
    width: u32,
) -> Result<Marks, AllocError>
    ensures { IfOk result (λ marks. (on_tracks : Bool) →
        AreLanes (layout_of on_tracks route.now width) lanes.now →
        AreCrowded (layout_of on_tracks route.now width) (string_bytes marks.text)
        (string_bytes marks.key)) }
{
    let grid = route.grid;
    let mut text = String::new(alloc);
    let crowded = append_crowded(&mut text, grid, lanes.needs(), width)?;
    let key = key(alloc, grid, crowded)?;
    let lines = if crowded == 0 { 2 } else { 3 };
    Ok(Marks { text, key, lines })
}

// What stands before the blocks.
fn front(
    alloc: Global,
    grid: Grid,
    width: u32,
    far: Point,
    lines: u64,
) -> Result<String, AllocError>
    ensures { IfOk result (λ text. (head : List ℕ) × (string_bytes text ≡ codes "<svg " ++ head)) }
{
    let head = head(alloc, grid, width, far, lines)?;
    let mut out = String::new(alloc);
    append_front(&mut out, head.as_str())?;
    Ok(out)
}

fn append_front(out: &mut String, head: &str) -> Result<(), AllocError>
    ensures { OnOk result
        (string_bytes out.new ≡ string_bytes out.old ++ codes "<svg " ++ head.now) }
{
    out.push_str("<svg ")?;
    out.push_str(head)
}

// The head behind its first word, and the array.
fn head(
    alloc: Global,
    grid: Grid,
    width: u32,
    far: Point,
    lines: u64,
) -> Result<String, AllocError> {
    let mut out = String::new(alloc);
    append_head(&mut out, grid, width, far, lines)?;
    append_array(&mut out, grid, width)?;
    Ok(out)
}

// Appends the blocks and the nets.
fn append_body<'a>(
    out: &mut String,
    alloc: Global,
    problem: &'a PlacedProblem,
    route: &'a RouteText,
    lanes: &mut Lanes,
    emphasis: &Emphasis<'a>,
) -> Result<(), AllocError>
    ensures { OnOk result ((layout : Layout) → AreLanes layout lanes.old →
        Adds (IsBody (record problem.now { route = route.now }) layout (blame_of emphasis.now))
        (string_bytes out.old) (string_bytes out.new)) }
{
    let netlist = problem.netlist();
    let arch = problem.arch();
    append_blocks(out, alloc, problem, netlist.blocks.as_slice())?;
    append_global_nets(out, alloc, problem, emphasis, netlist.nets.as_slice())?;
    append_nets(
        out,
        alloc,
        arch,
        route.grid,
        lanes,
        emphasis,
        route.nets.as_slice(),
    )?;
    Ok(())
}
