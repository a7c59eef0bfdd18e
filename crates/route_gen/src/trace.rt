//! The elements of a net of a generated problem.
ghost use Rattle.std.specs.Int.{abs_diff};
ghost use Rattle.std.specs.Prelude.{◌≡◌, ◌<◌, ◌≤◌, ◌^◌, ◌∷◌, ◌++◌, [], IfOk, OnOk};
ghost use Rattle.fpga_types.specs.declared.limits.TheConstants.{SIDE_LIMIT};
ghost use Rattle.route_gen.specs.Traces as spec;

use crate::location::Location;
use fpga_types::{Elem, ElemKind, Label};
use std::alloc::{AllocError, Global};

/// The class of the inputs of a block.
pub const INPUT_CLASS: u32 = 0;

/// The class of the output of a block.
pub const OUTPUT_CLASS: u32 = 1;

/// The pin that is the output of a block. The inputs come before it.
pub const OUTPUT_PIN: u32 = 4;

/// An element. Its line has a number when the text is read.
fn elem_at(kind: ElemKind, at: Location, label: Label, number: u32) -> Elem
    ensures { result ≡ spec.elem_at kind at label number }
{
    Elem {
        kind,
        x: at.column,
        y: at.row,
        label,
        number,
        line: 0,
    }
}

/// A channel cell, with track 0.
fn channel(kind: ElemKind, x: u32, y: u32) -> Elem
    ensures { result ≡ spec.channel kind x y }
{
    elem_at(kind, Location { column: x, row: y }, Label::Track, 0)
}

/// The number that stands so many steps from one towards another.
fn towards(from: u32, to: u32, steps: u32) -> u32
    requires { (steps ≤ abs_diff from to) × (to < 2 ^ 31) }
    ensures { result ≡ spec.towards from to steps }
{
    if to < from {
        from - steps
    } else {
        from + steps
    }
}

/// Adds a channel cell.
fn push_channel(elems: &mut Vec<Elem>, kind: ElemKind, x: u32, y: u32) -> Result<(), AllocError>
    ensures { OnOk result (elems.new.items ≡ elems.old.items ++ spec.channel kind x y ∷ []) }
{
    elems.push(channel(kind, x, y))?;
    Ok(())
}

/// Adds the cells above a row, from one column to another.
fn push_row(elems: &mut Vec<Elem>, row: u32, from: u32, to: u32) -> Result<(), AllocError>
    requires { (from ≤ SIDE_LIMIT) × (to ≤ SIDE_LIMIT) }
    ensures { OnOk result (elems.new.items ≡ elems.old.items ++ spec.along_row row from to) }
{
    for steps in 0..from.abs_diff(to) + 1 {
        push_channel(elems, ElemKind::ChanX, towards(from, to, steps), row)?;
    }
    Ok(())
}

/// Adds the cells to the right of a column, from one row to another.
fn push_column(elems: &mut Vec<Elem>, column: u32, from: u32, to: u32) -> Result<(), AllocError>
    requires { (from ≤ SIDE_LIMIT) × (to ≤ SIDE_LIMIT) }
    ensures { OnOk result (elems.new.items ≡ elems.old.items ++ spec.along_column column from to) }
{
    for steps in 0..from.abs_diff(to) + 1 {
        push_channel(elems, ElemKind::ChanY, column, towards(from, to, steps))?;
    }
    Ok(())
}

/// Adds the way in a column from the channel above one row to that above another.
fn push_way(elems: &mut Vec<Elem>, column: u32, from: u32, to: u32) -> Result<(), AllocError>
    requires { (from < SIDE_LIMIT) × (to < SIDE_LIMIT) }
    ensures { OnOk result (elems.new.items ≡ elems.old.items ++ spec.to_row column from to) }
{
    if from < to {
        push_column(elems, column, from + 1, to)?;
        return push_channel(elems, ElemKind::ChanX, column, to);
    }
    if to < from {
        push_column(elems, column, from, to + 1)?;
        return push_channel(elems, ElemKind::ChanX, column, to);
    }
    Ok(())
}

/// The elements of a net from a driver to a pin of a sink.
pub fn trace(
    alloc: Global,
    driver: Location,
    sink: Location,
    pin: u32,
) -> Result<Vec<Elem>, AllocError>
    requires driver { spec.IsOnArray driver }
    requires sink { spec.IsOnArray sink }
    ensures { IfOk result (λ elems. elems.items ≡ spec.trace driver sink pin) }
{
    let mut elems = Vec::new(alloc);
    elems.push(elem_at(ElemKind::Source, driver, Label::Class, OUTPUT_CLASS))?;
    elems.push(elem_at(ElemKind::Opin, driver, Label::Pin, OUTPUT_PIN))?;
    push_row(&mut elems, driver.row - 1, driver.column, sink.column)?;
    push_way(&mut elems, sink.column, driver.row - 1, sink.row - 1)?;
    elems.push(elem_at(ElemKind::Ipin, sink, Label::Pin, pin))?;
    elems.push(elem_at(ElemKind::Sink, sink, Label::Class, INPUT_CLASS))?;
    Ok(elems)
}
