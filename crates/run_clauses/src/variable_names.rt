//! Clauses as text, behind comments that say which variable is which net's cell and track.
ghost use Rattle.std.specs.Prelude.{◌≡◌, ◌≤◌, ◌<◌, ◌++◌, true, codes, decimal, length};
ghost use Rattle.arrayvec.specs.ArrayString.{array_string_len};
ghost use Rattle.desk_io.specs.Writing.{Writes};
ghost use Rattle.fpga_types.specs.declared.limits.TheConstants.{WIDTH_LIMIT};
ghost use Rattle.route_sweep.specs.NetNames.{name_at};
ghost use Rattle.run_clauses.specs.VariableNames as spec;
ghost use Rattle.run_clauses.specs.VariableNames.{name_line, names_if, names_text, slot_lines};

use arrayvec::ArrayString;
use desk_io::{BlockWriter, Failed, Prints, Shelf};
use fpga_bounds::PlacedProblem;
use fpga_types::{Axis, Cell, RouteText};
use itoa::Buffer;
use route_encode::Variables;
use sat_clause::{Formula, Lit};
use sat_text::CnfText;

/// Room for what stands on either side of a name: three numbers of 11 digits, and 20 signs.
const SIDE_ROOM: usize = 64;

// What stands before the name of a net.
fn before_net(literal: Lit) -> ArrayString<SIDE_ROOM>
    ensures { result.bytes ≡ spec.before_net literal }
{
    let mut side = ArrayString::new();
    side.push_str("c ");
    side.push_str(Buffer::new().format(literal.code));
    side.push_str(" ");
    side.push_str("net ");
    side
}

// What stands before the place of a cell.
fn before_place(axis: Axis) -> &'static str
    ensures value { result.now ≡ spec.before_place axis }
    ensures room { length result.now ≡ 8 }
{
    match axis {
        Axis::X => " CHANX (",
        Axis::Y => " CHANY (",
    }
}

// A track of a cell, and the end of the line.
fn track_said(cell: Cell, track: u32) -> ArrayString<SIDE_ROOM>
    ensures { result.bytes ≡ spec.track_said cell track }
{
    let mut side = ArrayString::new();
    push_place(&mut side, cell);
    side.push_str(") track ");
    side.push_str(Buffer::new().format(track));
    side.push_str("\n");
    side
}

// The place of a cell, with what stands before it.
fn push_place(side: &mut ArrayString<SIDE_ROOM>, cell: Cell)
    requires { array_string_len side.old ≤ 8 }
    ensures bytes { side.new.bytes ≡ side.old.bytes ++ spec.before_place cell.axis ++ decimal cell.x
        ++ codes "," ++ decimal cell.y }
    ensures room { array_string_len side.new ≤ 37 }
{
    side.push_str(before_place(cell.axis));
    side.push_str(Buffer::new().format(cell.x));
    side.push_str(",");
    side.push_str(Buffer::new().format(cell.y));
}

// The name of a net by its position among those of a route; empty where there is none.
fn net_name(route: &RouteText, position: u32) -> &[u8]
    ensures { result.now ≡ name_at route.now position }
{
    let Some(net) = route.nets.as_slice().get(position as usize) else {
        return b"";
    };
    net.name.bytes.as_slice()
}

// Writes what stands on one side of a name.
fn write_side<S: Shelf>(
    writer: &mut BlockWriter,
    shelf: &mut S,
    side: &ArrayString<SIDE_ROOM>,
) -> Result<(), Failed>
    requires { (S.state shelf.old).is_created ≡ true }
    ensures { Writes (S.state shelf.old) writer.old side.now.bytes (S.state shelf.new) writer.new
        result }
{
    writer.write(shelf, side.as_bytes())
}

// Writes a name and what stands behind it.
fn write_end<S: Shelf>(
    writer: &mut BlockWriter,
    shelf: &mut S,
    name: &[u8],
    cell: Cell,
    track: u32,
) -> Result<(), Failed>
    requires { (S.state shelf.old).is_created ≡ true }
    ensures { Writes (S.state shelf.old) writer.old (name.now ++ spec.track_said cell track)
        (S.state shelf.new) writer.new result }
{
    let Ok(()) = writer.write(shelf, name) else {
        return Err(Failed);
    };
    write_side(writer, shelf, &track_said(cell, track))
}

// Writes the line of a literal.
fn write_line<S: Shelf>(
    writer: &mut BlockWriter,
    shelf: &mut S,
    literal: Lit,
    name: &[u8],
    cell: Cell,
    track: u32,
) -> Result<(), Failed>
    requires { (S.state shelf.old).is_created ≡ true }
    ensures { Writes (S.state shelf.old) writer.old (name_line literal name.now cell track)
        (S.state shelf.new) writer.new result }
{
    let Ok(()) = write_side(writer, shelf, &before_net(literal)) else {
        return Err(Failed);
    };
    write_end(writer, shelf, name, cell, track)
}

// Writes the lines of a slot, by its net and its cell.
fn write_slot<S: Shelf>(
    writer: &mut BlockWriter,
    shelf: &mut S,
    variables: Variables,
    number: u32,
    name: &[u8],
    cell: Cell,
) -> Result<(), Failed>
    requires created { (S.state shelf.old).is_created ≡ true }
    requires number { number < variables.slots }
    ensures { Writes (S.state shelf.old) writer.old
        (slot_lines variables.width number name.now cell) (S.state shelf.new) writer.new result }
{
    for track in 0..variables.width {
        let literal = variables.has(number, track);
        let Ok(()) = write_line(writer, shelf, literal, name, cell, track) else {
            return Err(Failed);
        };
    }
    Ok(())
}

// Writes the lines of all slots of a problem.
fn write_names<S: Shelf>(
    writer: &mut BlockWriter,
    shelf: &mut S,
    problem: &PlacedProblem,
    width: u32,
) -> Result<(), Failed>
    requires created { (S.state shelf.old).is_created ≡ true }
    requires width { width ≤ WIDTH_LIMIT }
    ensures { Writes (S.state shelf.old) writer.old (names_text width problem.now.route)
        (S.state shelf.new) writer.new result }
{
    let slots = problem.slots();
    let route = problem.route();
    let variables = Variables {
        slots: slots.len() as u32,
        width,
    };
    for number in 0..variables.slots {
        let slot = slots[number as usize];
        let name = net_name(route, slot.net);
        let Ok(()) = write_slot(writer, shelf, variables, number, name, slot.cell) else {
            return Err(Failed);
        };
    }
    Ok(())
}

// Writes them, if they are asked for.
fn write_names_if<S: Shelf>(
    asked: bool,
    writer: &mut BlockWriter,
    shelf: &mut S,
    problem: &PlacedProblem,
    width: u32,
) -> Result<(), Failed>
    requires created { (S.state shelf.old).is_created ≡ true }
    requires width { width ≤ WIDTH_LIMIT }
    ensures { Writes (S.state shelf.old) writer.old (names_if asked width problem.now.route)
        (S.state shelf.new) writer.new result }
{
    if asked {
        return write_names(writer, shelf, problem, width);
    }
    Ok(())
}

/// The clauses of a problem, and whether their variables are named.
#[derive(Clone, Copy)]
pub(crate) struct NamedClauses<'a> {
    /// The problem.
    pub problem: &'a PlacedProblem,
    /// How many tracks each channel has, from 1 to 64.
    pub width: u32,
    /// Whether comments before the clauses name the variables.
    pub names: bool,
    /// The clauses, of which each variable up to that of the last slot's last track says that a
    /// slot has a track.
    pub formula: &'a Formula,
    ghost in_range: { width ≤ WIDTH_LIMIT },
}

/// Prints clauses as DIMACS has them, behind a comment for each track of each slot where they are
/// asked for: `c VARIABLE net NAME CHANX (X,Y) track TRACK`.
pub(crate) struct NamedText;

impl<'a> Prints<NamedClauses<'a>> for NamedText {
    ghost use Rattle.fpga_route.specs.ReadBack.{IsPrintable};
    ghost use Rattle.run_clauses.specs.VariableNames.{ReadsBehindNames, named_text};

    ghost text = { λ item. named_text item.names item.width item.problem.now.route
        item.formula.now.cnf };

    ghost known = { λ item. ReadsBehindNames item.names item.width item.problem.now.route
        item.formula.now.cnf };

    fn print<S: Shelf>(
        &self,
        writer: &mut BlockWriter,
        shelf: &mut S,
        item: &NamedClauses<'a>,
    ) -> Result<(), Failed> {
        let _few = item.problem.slots();
        let Ok(()) = write_names_if(item.names, writer, shelf, item.problem, item.width) else {
            return Err(Failed);
        };
        CnfText.print(writer, shelf, item.formula)
    }
}
