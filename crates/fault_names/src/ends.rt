//! What a netlist, a placement or a route lacks, by its name.
ghost use Rattle.std.specs.Prelude.{◌≡◌, ◌++◌, [], IfOk, OnOk, option_map, string_bytes};
ghost use Rattle.std.specs.Option.{option_map_or};
ghost use Rattle.fault_names.specs.Ends as spec;
ghost use Rattle.fault_names.specs.Ends.{block_names, block_said, driver_said, names_of, net_said, no_line_said, no_place_said, no_sink_said, none_said, not_ordinary, second_said};
ghost use Rattle.fault_names.specs.Lookups.{bytes_of};
ghost use Rattle.fault_names.specs.NameBytes.{name_said};

use crate::lookup::{first_again, first_apart};
use crate::name_bytes::append_name;
use crate::pin_nets::add_pin_nets;
use crate::words_behind::{add_behind, add_first_words};
use fpga_types::{PinSpec, RouteNet};
use std::alloc::{AllocError, Global};

/// Appends which ordinary net of a netlist, where logic blocks have these pins, has a driver a
/// second time, or else which one has none.
///
/// # Errors
/// Memory ran out; then a front part may have been appended.
pub fn append_driver(
    alloc: Global,
    out: &mut String,
    pins: &[PinSpec],
    text: &[u8],
) -> Result<(), AllocError>
    ensures { OnOk result
        (string_bytes out.new ≡ string_bytes out.old ++ driver_said pins.now text.now) }
{
    match twice_driven(alloc, pins, text)? {
        Some(name) => append_second(out, name),
        None => append_none(out, one_sided(alloc, pins, text, false)?),
    }
}

/// Appends which ordinary net of a netlist has no sink.
///
/// # Errors
/// Memory ran out; then a front part may have been appended.
pub fn append_no_sink(
    alloc: Global,
    out: &mut String,
    pins: &[PinSpec],
    text: &[u8],
) -> Result<(), AllocError>
    ensures { OnOk result
        (string_bytes out.new ≡ string_bytes out.old ++ no_sink_said pins.now text.now) }
{
    append_net(out, one_sided(alloc, pins, text, true)?)
}

/// Appends which block of a netlist has no line in a placement.
///
/// # Errors
/// Memory ran out; then a front part may have been appended.
pub fn append_no_place(
    alloc: Global,
    out: &mut String,
    text: &[u8],
    place: &[u8],
) -> Result<(), AllocError>
    ensures { OnOk result
        (string_bytes out.new ≡ string_bytes out.old ++ no_place_said text.now place.now) }
{
    append_block(out, unplaced(alloc, text, place)?)
}

/// Appends which ordinary net of a netlist is none of these of a route.
///
/// # Errors
/// Memory ran out; then a front part may have been appended.
pub fn append_no_line(
    alloc: Global,
    out: &mut String,
    text: &[u8],
    nets: &[RouteNet],
) -> Result<(), AllocError>
    ensures { OnOk result
        (string_bytes out.new ≡ string_bytes out.old ++ no_line_said text.now nets.now) }
{
    append_net(out, unrouted(alloc, text, nets)?)
}

// ---- which

// The first ordinary net that has a driver a second time.
fn twice_driven<'a>(
    alloc: Global,
    pins: &[PinSpec],
    text: &'a [u8],
) -> Result<Option<&'a [u8]>, AllocError>
    ensures { IfOk result (λ found. option_map (λ name. name.now) found
        ≡ spec.twice_driven pins.now text.now) }
{
    let others = not_ordinary(alloc, text)?;
    let mut names = Vec::new(alloc);
    add_pin_nets(&mut names, pins, text, true)?;
    first_again(alloc, &names, &others)
}

// The first ordinary net on the pins of one direction that is on none of the other.
fn one_sided<'a>(
    alloc: Global,
    pins: &[PinSpec],
    text: &'a [u8],
    drives: bool,
) -> Result<Option<&'a [u8]>, AllocError>
    ensures { IfOk result (λ found. option_map (λ name. name.now) found
        ≡ spec.one_sided drives pins.now text.now) }
{
    let mut others = not_ordinary(alloc, text)?;
    add_pin_nets(&mut others, pins, text, !drives)?;
    let mut names = Vec::new(alloc);
    add_pin_nets(&mut names, pins, text, drives)?;
    first_apart(alloc, &names, &others)
}

// The first block without a line in a placement.
fn unplaced<'a>(
    alloc: Global,
    text: &'a [u8],
    place: &'a [u8],
) -> Result<Option<&'a [u8]>, AllocError>
    ensures { IfOk result (λ found. option_map (λ name. name.now) found
        ≡ spec.unplaced text.now place.now) }
{
    let names = block_names(alloc, text)?;
    let mut others = Vec::new(alloc);
    add_first_words(&mut others, place)?;
    first_apart(alloc, &names, &others)
}

// The first ordinary net that is none of these.
fn unrouted<'a>(
    alloc: Global,
    text: &'a [u8],
    nets: &'a [RouteNet],
) -> Result<Option<&'a [u8]>, AllocError>
    ensures { IfOk result (λ found. option_map (λ name. name.now) found
        ≡ spec.unrouted text.now nets.now) }
{
    let mut others = not_ordinary(alloc, text)?;
    add_names(&mut others, nets)?;
    let mut names = Vec::new(alloc);
    add_behind(&mut names, text, b"pinlist:")?;
    first_apart(alloc, &names, &others)
}

// What a pinlist may name but ordinary nets.
fn not_ordinary<'a>(alloc: Global, text: &'a [u8]) -> Result<Vec<&'a [u8]>, AllocError>
    ensures { IfOk result (λ names. bytes_of names.items ≡ not_ordinary text.now) }
{
    let mut names = Vec::new(alloc);
    names.push(b"open".as_slice())?;
    add_behind(&mut names, text, b".global")?;
    Ok(names)
}

// The names of the blocks.
fn block_names<'a>(alloc: Global, text: &'a [u8]) -> Result<Vec<&'a [u8]>, AllocError>
    ensures { IfOk result (λ names. bytes_of names.items ≡ block_names text.now) }
{
    let mut names = Vec::new(alloc);
    add_behind(&mut names, text, b".input")?;
    add_behind(&mut names, text, b".output")?;
    add_behind(&mut names, text, b".clb")?;
    Ok(names)
}

// Adds the names of nets.
fn add_names<'a>(names: &mut Vec<&'a [u8]>, nets: &'a [RouteNet]) -> Result<(), AllocError>
    ensures { OnOk result
        (bytes_of names.new.items ≡ bytes_of names.old.items ++ names_of nets.now) }
{
    for net in nets {
        names.push(net.name.bytes.as_slice())?;
    }
    Ok(())
}

// ---- the words

// Appends a net, if there is one.
fn append_net(out: &mut String, found: Option<&[u8]>) -> Result<(), AllocError>
    ensures { OnOk result (string_bytes out.new ≡ string_bytes out.old
        ++ option_map_or net_said (option_map (λ name. name.now) found.entry) []) }
{
    match found {
        Some(name) => append_named(out, ": net ", name),
        None => Ok(()),
    }
}

// Appends a net that has a second driver.
fn append_second(out: &mut String, name: &[u8]) -> Result<(), AllocError>
    ensures { OnOk result (string_bytes out.new ≡ string_bytes out.old ++ second_said name.now) }
{
    append_named(out, ": net ", name)?;
    out.push_str(" has a second one here")?;
    Ok(())
}

// Appends a net that has no driver, if there is one.
fn append_none(out: &mut String, found: Option<&[u8]>) -> Result<(), AllocError>
    ensures { OnOk result (string_bytes out.new ≡ string_bytes out.old
        ++ option_map_or none_said (option_map (λ name. name.now) found.entry) []) }
{
    let Some(name) = found else {
        return Ok(());
    };
    append_named(out, ": net ", name)?;
    out.push_str(" has none")
}

// Appends a block, if there is one.
fn append_block(out: &mut String, found: Option<&[u8]>) -> Result<(), AllocError>
    ensures { OnOk result (string_bytes out.new ≡ string_bytes out.old
        ++ option_map_or block_said (option_map (λ name. name.now) found.entry) []) }
{
    match found {
        Some(name) => append_named(out, ": block ", name),
        None => Ok(()),
    }
}

// Appends a name behind these words.
fn append_named(out: &mut String, lead: &str, name: &[u8]) -> Result<(), AllocError>
    ensures { OnOk result
        (string_bytes out.new ≡ string_bytes out.old ++ (lead.now ++ name_said name.now)) }
{
    out.push_str(lead)?;
    append_name(out, name)
}
