//! Which form a line of a route text has, by its words.
ghost use Rattle.std.specs.Prelude.{◌≡◌, map, option_map};
ghost use Rattle.fpga_route.specs.Forms as spec;
ghost use Rattle.fpga_route.specs.Lines.{net_said, elem_said, form_said};

use crate::words::{enclosed, kind_named, label_named, place_said};
use fpga_text::{FirstWords, Line, is_text};
use fpga_types::{ElemKind, Label};

/// The parts of a Net line.
#[derive(Clone, Copy)]
pub struct NetLine<'a> {
    pub k: &'a [u8],
    pub name: &'a [u8],
    pub global: bool,
}

/// The parts of an element line.
#[derive(Clone, Copy)]
pub struct ElemLine<'a> {
    pub kind: ElemKind,
    pub x: &'a [u8],
    pub y: &'a [u8],
    pub label: Label,
    pub number: &'a [u8],
}

/// The forms of a line after the head.
#[derive(Clone, Copy)]
pub enum LineForm<'a> {
    /// The first line of a net.
    Net(NetLine<'a>),
    /// An element of a net.
    Elem(ElemLine<'a>),
    /// A block of a global net.
    Block,
    /// A channel that spans several cells.
    Span,
    /// No form of a later line.
    Other,
}

/// The form of a line after the head, of which no word was taken yet.
#[tactic(auto, using(crate::proofs::FormLemmas::later_form_take))]
pub fn form_of<'a>(line: &mut Line<'a>) -> LineForm<'a>
    ensures { form_said result ≡ spec.later_form line.old.words }
{
    let words = FirstWords::of(line);
    sort_line(words.as_slice())
}

/// The form of a line after the head, by its words.
fn sort_line<'a>(words: &[&'a [u8]]) -> LineForm<'a>
    ensures { form_said result ≡ spec.later_form (map (λ w. w.now) words.now) }
{
    if let Some(net) = net_line(words) {
        return LineForm::Net(net);
    }
    if let Some(elem) = elem_line(words) {
        return LineForm::Elem(elem);
    }
    if is_block(words) {
        return LineForm::Block;
    }
    if is_span(words) {
        return LineForm::Span;
    }
    LineForm::Other
}

/// Whether the line is `Routing:`.
pub fn is_routing(words: &[&[u8]]) -> bool
    ensures { result ≡ spec.is_routing (map (λ w. w.now) words.now) }
{
    matches!(words, [word] if is_text(word, b"Routing:"))
}

/// The parts of `Net k (name)` or of `Net k (name): global net connecting:`.
fn net_line<'a>(words: &[&'a [u8]]) -> Option<NetLine<'a>>
    ensures { option_map net_said result ≡ spec.net_words (map (λ w. w.now) words.now) }
{
    match words {
        [net, k, name] => {
            if !is_text(net, b"Net") {
                return None;
            }
            named_net(k, false, enclosed(name, b"(", b")"))
        }
        [net, k, name, global, word, connecting] => {
            if !is_global_frame(net, global, word, connecting) {
                return None;
            }
            named_net(k, true, enclosed(name, b"(", b"):"))
        }
        _ => None,
    }
}

/// Whether these words stand round the number and the name of a global net.
fn is_global_frame(net: &[u8], global: &[u8], word: &[u8], connecting: &[u8]) -> bool
    ensures { result ≡ spec.is_global_frame net.now global.now word.now connecting.now }
{
    is_text(net, b"Net")
        && is_text(global, b"global")
        && is_text(word, b"net")
        && is_text(connecting, b"connecting:")
}

/// The parts of a Net line, if it has a name and the name is not empty.
fn named_net<'a>(k: &'a [u8], global: bool, name: Option<&'a [u8]>) -> Option<NetLine<'a>>
    ensures { option_map net_said result
        ≡ spec.named_net k.now global (option_map (λ n. n.now) name.entry) }
{
    let Some(name) = name else {
        return None;
    };
    if name.is_empty() {
        return None;
    }
    Some(NetLine { k, name, global })
}

/// The parts of an element line.
fn elem_line<'a>(words: &[&'a [u8]]) -> Option<ElemLine<'a>>
    ensures { option_map elem_said result ≡ spec.elem_words (map (λ w. w.now) words.now) }
{
    let [kind, place, label, number] = words else {
        return None;
    };
    let Some(kind) = kind_named(kind) else {
        return None;
    };
    let Some(place) = place_said(place) else {
        return None;
    };
    let Some(label) = label_named(label) else {
        return None;
    };
    if !kind.takes(label) {
        return None;
    }
    Some(ElemLine {
        kind,
        x: place.x,
        y: place.y,
        label,
        number,
    })
}

/// Whether the first word is `Block`.
fn is_block(words: &[&[u8]]) -> bool
    ensures { result ≡ spec.is_block (map (λ w. w.now) words.now) }
{
    let [word, ..] = words else {
        return false;
    };
    is_text(word, b"Block")
}

/// Whether the first word is a kind and the third is `to`.
fn is_span(words: &[&[u8]]) -> bool
    ensures { result ≡ spec.is_span (map (λ w. w.now) words.now) }
{
    let [kind, _, to, ..] = words else {
        return false;
    };
    kind_named(kind).is_some() && is_text(to, b"to")
}
