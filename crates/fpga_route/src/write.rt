//! The printed form of a route text.
ghost use Rattle.std.specs.Prelude.{◌≡◌, ◌++◌, ◌≤◌, true, codes, decimal, OnOk, OnErr};
ghost use Rattle.arrayvec.specs.ArrayString.{array_string_len};
ghost use Rattle.desk_io.specs.ShelfState.{after_append, FailsToAppend};
ghost use Rattle.fpga_route.specs.Forms.{kind_word, label_word};
ghost use Rattle.fpga_route.specs.Printed.{after_name, before_name, in_six_places, printed, printed_elem, printed_head};
ghost use Rattle.fpga_route.specs.ReadBack.{IsPrintable, ReadsBack};

use arrayvec::ArrayString;
use desk_io::{BlockWriter, Failed, Prints, Shelf, append_text, print_both, print_each};
use fpga_types::{Elem, ElemKind, Grid, Label, Name, RouteNet, RouteText};
use itoa::Buffer;

/// Room for the longest line of an element: a kind in 6 places, three numbers of 10 digits, a label
/// of 6, and 10 signs.
const LINE_ROOM: usize = 64;

/// The word of a kind, with the blanks before it that make it six places wide.
fn kind_in_six_places(kind: ElemKind) -> &'static str
    ensures { result.now ≡ in_six_places (kind_word kind) }
{
    match kind {
        ElemKind::Source => "SOURCE",
        ElemKind::Opin => "  OPIN",
        ElemKind::ChanX => " CHANX",
        ElemKind::ChanY => " CHANY",
        ElemKind::Ipin => "  IPIN",
        ElemKind::Sink => "  SINK",
    }
}

/// The word of a label.
fn label_word(label: Label) -> &'static str
    ensures { result.now ≡ label_word label }
{
    match label {
        Label::Class => "Class:",
        Label::Pin => "Pin:",
        Label::Pad => "Pad:",
        Label::Track => "Track:",
    }
}

/// An element line.
fn printed_elem(elem: &Elem) -> ArrayString<LINE_ROOM>
    ensures { result.bytes ≡ printed_elem elem.now }
{
    let mut line = ArrayString::new();
    line.push_str(kind_in_six_places(elem.kind));
    push_place(&mut line, elem.x, elem.y);
    line.push_str(label_word(elem.label));
    push_number(&mut line, elem.number);
    line
}

/// A place, with what stands round it.
fn push_place(line: &mut ArrayString<LINE_ROOM>, x: u32, y: u32)
    requires { array_string_len line.old ≤ 6 }
    ensures bytes { line.new.bytes ≡ line.old.bytes ++ codes " (" ++ decimal x ++ codes ","
        ++ decimal y ++ codes ")  " }
    ensures room { array_string_len line.new ≤ 32 }
{
    line.push_str(" (");
    line.push_str(Buffer::new().format(x));
    line.push_str(",");
    line.push_str(Buffer::new().format(y));
    line.push_str(")  ");
}

/// The number that ends an element line, with what stands round it.
fn push_number(line: &mut ArrayString<LINE_ROOM>, number: u32)
    requires { array_string_len line.old ≤ 38 }
    ensures { line.new.bytes ≡ line.old.bytes ++ codes " " ++ decimal number ++ codes "  \n" }
{
    line.push_str(" ");
    line.push_str(Buffer::new().format(number));
    line.push_str("  \n");
}

/// What stands before the name of a net.
fn before_name(k: u64) -> ArrayString<LINE_ROOM>
    ensures { result.bytes ≡ before_name k }
{
    let mut line = ArrayString::new();
    line.push_str("\n\nNet ");
    line.push_str(Buffer::new().format(k));
    line.push_str(" (");
    line
}

/// What stands behind the name of a net.
fn after_name(global: bool) -> &'static str
    ensures { result.now ≡ after_name global }
{
    if global {
        "): global net connecting:\n\n"
    } else {
        ")\n\n"
    }
}

/// The two head lines.
fn printed_head(grid: Grid) -> ArrayString<LINE_ROOM>
    ensures { result.bytes ≡ printed_head grid }
{
    let mut lines = ArrayString::new();
    lines.push_str("Array size: ");
    lines.push_str(Buffer::new().format(grid.nx));
    lines.push_str(" x ");
    lines.push_str(Buffer::new().format(grid.ny));
    lines.push_str(" logic blocks.\n\nRouting:");
    lines
}

/// Prints an element line.
struct ElemLine;

impl Prints<Elem> for ElemLine {
    ghost use Rattle.fpga_route.specs.Printed.{printed_elem};

    ghost text = { printed_elem };

    fn print<S: Shelf>(
        &self,
        writer: &mut BlockWriter,
        shelf: &mut S,
        item: &Elem,
    ) -> Result<(), Failed> {
        writer.write(shelf, printed_elem(item).as_bytes())
    }
}

/// Prints a kept line, with its newline.
struct KeptLine;

impl Prints<Name> for KeptLine {
    ghost use Rattle.fpga_route.specs.Printed.{printed_kept};

    ghost text = { printed_kept };

    fn print<S: Shelf>(
        &self,
        writer: &mut BlockWriter,
        shelf: &mut S,
        item: &Name,
    ) -> Result<(), Failed> {
        writer.write_both(shelf, item.bytes.as_slice(), b"\n")
    }
}

/// Prints what stands before the name of a net.
struct LineStart;

impl Prints<RouteNet> for LineStart {
    ghost use Rattle.fpga_route.specs.Printed.{before_name};

    ghost text = { λ net. before_name net.k };

    fn print<S: Shelf>(
        &self,
        writer: &mut BlockWriter,
        shelf: &mut S,
        item: &RouteNet,
    ) -> Result<(), Failed> {
        writer.write(shelf, before_name(item.k).as_bytes())
    }
}

/// Prints the name of a net and what stands behind it.
struct LineEnd;

impl Prints<RouteNet> for LineEnd {
    ghost use Rattle.std.specs.Prelude.{◌++◌};
    ghost use Rattle.fpga_route.specs.Printed.{after_name};

    ghost text = { λ net. net.name ++ after_name net.global };

    fn print<S: Shelf>(
        &self,
        writer: &mut BlockWriter,
        shelf: &mut S,
        item: &RouteNet,
    ) -> Result<(), Failed> {
        let end = after_name(item.global);
        writer.write_both(shelf, item.name.bytes.as_slice(), end.as_bytes())
    }
}

/// Prints the Net line of a net.
struct NetLine;

impl Prints<RouteNet> for NetLine {
    ghost use Rattle.fpga_route.specs.Printed.{printed_net_line};

    ghost text = { printed_net_line };

    fn print<S: Shelf>(
        &self,
        writer: &mut BlockWriter,
        shelf: &mut S,
        item: &RouteNet,
    ) -> Result<(), Failed> {
        print_both(&LineStart, &LineEnd, writer, shelf, item)
    }
}

/// Prints the lines of a net: its elements, or the kept lines of a global one.
struct OwnLines;

impl Prints<RouteNet> for OwnLines {
    ghost use Rattle.fpga_route.specs.Printed.{printed_own};

    ghost text = { printed_own };

    fn print<S: Shelf>(
        &self,
        writer: &mut BlockWriter,
        shelf: &mut S,
        item: &RouteNet,
    ) -> Result<(), Failed> {
        if item.global {
            return print_each(&KeptLine, writer, shelf, item.kept.as_slice());
        }
        print_each(&ElemLine, writer, shelf, item.elems.as_slice())
    }
}

/// Prints a net: its Net line and its lines.
struct WholeNet;

impl Prints<RouteNet> for WholeNet {
    ghost use Rattle.fpga_route.specs.Printed.{printed_net};

    ghost text = { printed_net };

    fn print<S: Shelf>(
        &self,
        writer: &mut BlockWriter,
        shelf: &mut S,
        item: &RouteNet,
    ) -> Result<(), Failed> {
        print_both(&NetLine, &OwnLines, writer, shelf, item)
    }
}

/// Prints the two head lines of a route.
struct HeadLines;

impl Prints<RouteText> for HeadLines {
    ghost use Rattle.fpga_route.specs.Printed.{printed_head};

    ghost text = { λ route. printed_head route.grid };

    fn print<S: Shelf>(
        &self,
        writer: &mut BlockWriter,
        shelf: &mut S,
        item: &RouteText,
    ) -> Result<(), Failed> {
        writer.write(shelf, printed_head(item.grid).as_bytes())
    }
}

/// Prints the nets of a route and the newline at the end.
struct Body;

impl Prints<RouteText> for Body {
    ghost use Rattle.fpga_route.specs.Printed.{printed_body};

    ghost text = { printed_body };

    fn print<S: Shelf>(
        &self,
        writer: &mut BlockWriter,
        shelf: &mut S,
        item: &RouteText,
    ) -> Result<(), Failed> {
        let Ok(()) = print_each(&WholeNet, writer, shelf, item.nets.as_slice()) else {
            return Err(Failed);
        };
        writer.write(shelf, b"\n")
    }
}

/// Prints a route: its two head lines, its nets and a newline at the end.
pub struct WholeRoute;

impl Prints<RouteText> for WholeRoute {
    ghost use Rattle.fpga_route.specs.Printed.{printed};
    ghost use Rattle.fpga_route.specs.ReadBack.{IsPrintable, ReadsBack};

    ghost text = { printed };

    ghost known = { λ route. IsPrintable route → ReadsBack route };

    fn print<S: Shelf>(
        &self,
        writer: &mut BlockWriter,
        shelf: &mut S,
        item: &RouteText,
    ) -> Result<(), Failed> {
        print_both(&HeadLines, &Body, writer, shelf, item)
    }
}

/// Appends the printed form of a route to the created file. It takes no memory of its own.
///
/// It fails only where the shelf does, and then a front part of the printed form was appended.
///
/// The printed form of a route that can be printed has no fault and reads as an equal route, but
/// for the numbers of lines.
pub fn write_route<S: Shelf>(route: &RouteText, shelf: &mut S) -> Result<(), Failed>
    requires { (S.state shelf.old).is_created ≡ true }
    ensures ok { OnOk result (S.state shelf.new ≡ after_append (S.state shelf.old)
        (printed route.now)) }
    ensures err { OnErr result (FailsToAppend (S.state shelf.old) (printed route.now)
        (S.state shelf.new)) }
    ensures read_back { IsPrintable route.now → ReadsBack route.now }
{
    append_text(&WholeRoute, shelf, route)
}
