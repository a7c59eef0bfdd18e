//! The shape of a block, and the name in it.
ghost use Rattle.std.specs.Prelude.{◌≡◌, ◌++◌, OnOk, string_bytes};
ghost use Rattle.route_draw.specs.Label.{IsLabel, label, label_opening, shape, shown_name};
ghost use Rattle.route_draw.specs.Parts.{Adds};

use crate::escape::append_escaped;
use crate::path::append_rectangle;
use crate::scale::Point;
use std::alloc::{AllocError, Global};

/// How many bytes of a name are shown in a block. The whole stands in the title of its group, which
/// a viewer shows under the pointer.
const LABEL: usize = 14;

// The least and the largest size of its letters.
const LEAST: u64 = 25;

const LARGEST: u64 = 150;

/// A rectangle that a block is drawn as.
#[derive(Clone, Copy)]
pub(crate) struct Area {
    pub(crate) at: Point,
    pub(crate) width: u64,
    pub(crate) height: u64,
}

/// Appends the rectangle of a block.
pub(crate) fn append_shape(out: &mut String, area: Area) -> Result<(), AllocError>
    ensures { OnOk result (string_bytes out.new
        ≡ string_bytes out.old ++ shape area.at.x area.at.y area.width area.height) }
{
    out.push_str("<path d=\"")?;
    append_rectangle(out, area.at, area.width, area.height)?;
    out.push_str("\"/>")?;
    Ok(())
}

/// Appends the name of a block along the longer side of its rectangle, if it has room there.
pub(crate) fn append_label(
    out: &mut String,
    alloc: Global,
    area: Area,
    name: &[u8],
) -> Result<(), AllocError>
    ensures { OnOk result (Adds (IsLabel name.now) (string_bytes out.old) (string_bytes out.new)) }
{
    let Area { width, height, .. } = area;
    let letters = (name.len().min(LABEL) as u64).max(1);
    let along = width.max(height).saturating_mul(3) / 2 / letters;
    let across = width.min(height).saturating_mul(2) / 3;
    let size = along.min(across).min(LARGEST);
    if size < LEAST {
        return Ok(());
    }
    let placed = placed(alloc, area, size)?;
    append_named(out, placed.as_str(), name)?;
    Ok(())
}

fn append_named(out: &mut String, placed: &str, name: &[u8]) -> Result<(), AllocError>
    ensures { OnOk result
        (string_bytes out.new ≡ string_bytes out.old ++ label placed.now name.now) }
{
    append_opening(out, placed)?;
    append_shown(out, name)?;
    out.push_str("</text>")?;
    Ok(())
}

fn append_opening(out: &mut String, placed: &str) -> Result<(), AllocError>
    ensures { OnOk result
        (string_bytes out.new ≡ string_bytes out.old ++ label_opening placed.now) }
{
    write!(out, "<text transform=\"matrix({placed}\">")
}

// A name as it is shown: of a long one the front, and two dots.
fn append_shown(out: &mut String, name: &[u8]) -> Result<(), AllocError>
    ensures { OnOk result (string_bytes out.new ≡ string_bytes out.old ++ shown_name name.now) }
{
    if name.len() <= LABEL {
        return append_escaped(out, name);
    }
    append_escaped(out, &name[..LABEL - 2])?;
    out.push_str("..")?;
    Ok(())
}

// Where letters of this size stand around the middle of a rectangle: upwards where it is higher
// than wide.
fn placed(alloc: Global, area: Area, size: u64) -> Result<String, AllocError> {
    let Area { at, width, height } = area;
    let lower = size.saturating_mul(7) / 20;
    let Point { x, y } = at.moved(width / 2, height / 2);
    let mut out = String::new(alloc);
    if width < height {
        let x = x.saturating_add(lower);
        write!(out, "0 1 1 0 {x} {y})\" font-size=\"{size}")?;
    } else {
        let y = y.saturating_sub(lower);
        write!(out, "1 0 0 -1 {x} {y})\" font-size=\"{size}")?;
    }
    Ok(out)
}
