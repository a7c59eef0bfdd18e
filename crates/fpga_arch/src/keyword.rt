//! The words that lines of an architecture are told by.
ghost use Rattle.std.specs.Prelude.{◌≡◌, ◌<◌};
ghost use Rattle.fpga_arch.specs.Keywords as spec;
ghost use Rattle.fpga_arch.specs.Keywords.{place_of};

use fpga_text::Word;

/// The first word of a line that is used.
#[derive(Clone, Copy)]
pub enum Keyword {
    /// How many pads stand at a place of the border.
    IoRat,
    /// The width of the channels beside the pads.
    WidthIo,
    /// The width of the channels along rows.
    WidthX,
    /// The width of the channels along columns.
    WidthY,
    /// A pin that a net drives.
    Inpin,
    /// A pin that drives a net.
    Outpin,
    /// The pattern of the switch blocks.
    SwitchBlock,
    /// Whether the pins open a part of the tracks or a number of them.
    FcType,
    /// How many tracks a pin opens that drives its net.
    FcOutput,
    /// How many tracks a pin opens that a net drives.
    FcInput,
    /// How many tracks a pad opens.
    FcPad,
    /// A kind of wires.
    Segment,
}

/// All keywords.
pub const KEYWORDS: [Keyword; 12] = [
    Keyword::IoRat,
    Keyword::WidthIo,
    Keyword::WidthX,
    Keyword::WidthY,
    Keyword::Inpin,
    Keyword::Outpin,
    Keyword::SwitchBlock,
    Keyword::FcType,
    Keyword::FcOutput,
    Keyword::FcInput,
    Keyword::FcPad,
    Keyword::Segment,
];

impl Keyword {
    /// The place of the keyword among all, from 0 on.
    pub fn place(self) -> usize
        ensures place { result ≡ place_of self }
        ensures below { result < 12 }
    {
        match self {
            Keyword::IoRat => 0,
            Keyword::WidthIo => 1,
            Keyword::WidthX => 2,
            Keyword::WidthY => 3,
            Keyword::Inpin => 4,
            Keyword::Outpin => 5,
            Keyword::SwitchBlock => 6,
            Keyword::FcType => 7,
            Keyword::FcOutput => 8,
            Keyword::FcInput => 9,
            Keyword::FcPad => 10,
            Keyword::Segment => 11,
        }
    }
}

/// The keyword that a word is.
pub fn keyword_of(word: Word<'_>) -> Option<Keyword>
    ensures { result ≡ spec.keyword_of word.entry.text.now }
{
    if word.is(b"io_rat") {
        return Some(Keyword::IoRat);
    }
    if word.is(b"chan_width_io") {
        return Some(Keyword::WidthIo);
    }
    if word.is(b"chan_width_x") {
        return Some(Keyword::WidthX);
    }
    if word.is(b"chan_width_y") {
        return Some(Keyword::WidthY);
    }
    if word.is(b"inpin") {
        return Some(Keyword::Inpin);
    }
    if word.is(b"outpin") {
        return Some(Keyword::Outpin);
    }
    if word.is(b"switch_block_type") {
        return Some(Keyword::SwitchBlock);
    }
    if word.is(b"Fc_type") {
        return Some(Keyword::FcType);
    }
    if word.is(b"Fc_output") {
        return Some(Keyword::FcOutput);
    }
    if word.is(b"Fc_input") {
        return Some(Keyword::FcInput);
    }
    if word.is(b"Fc_pad") {
        return Some(Keyword::FcPad);
    }
    if word.is(b"segment") {
        return Some(Keyword::Segment);
    }
    None
}
