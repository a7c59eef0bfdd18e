//! The value of an architecture text as far as it was read.
ghost use Rattle.std.specs.Prelude.{◌≡◌, true};
ghost use Rattle.std.specs.List.{list_all};
ghost use Rattle.fpga_arch.specs.Drafts.{marked};

use crate::cause::Cause;
use crate::channel_line::{differs_from, read_channel};
use crate::keyword::{KEYWORDS, Keyword, keyword_of};
use crate::pin_line::read_pin;
use crate::segment_line::read_segment;
use crate::words::{next_fraction, next_pattern, next_share};
use fpga_text::{Coded, Line, TextFault};
use fpga_types::{Arch, FcSpec, Items, PAD_LIMIT, Pattern, PinSpec};
use std::alloc::Global;
use std::marker::Model;

/// For each keyword whether it had a line, the width of the channels, if one had a line, and what
/// the lines say.
#[derive(Drop)]
pub struct Draft {
    flags: [bool; 12],
    width: Option<u64>,
    io_rat: u32,
    pins: Vec<PinSpec>,
    pattern: Pattern,
    fractional: bool,
    output: u64,
    input: u64,
    pad: u64,
}

impl Model for Draft {
    ghost use Rattle.fpga_arch.specs.Drafts.{Progress, IsDraft};

    ghost Value = { Progress };

    ghost view = { λ d. record {
      flags = d.flags;
      width = d.width;
      arch = record {
        io_rat = d.io_rat;
        pins = d.pins.items;
        pattern = d.pattern;
        fc = record {
          fractional = d.fractional;
          output = d.output;
          input = d.input;
          pad = d.pad;
        };
      };
    } };

    ghost invariant = { λ d. IsDraft d.flags d.io_rat d.pins.items d.output d.input d.pad };
}

impl Draft {
    ghost use Rattle.fpga_types.specs.ArchSound.{IsSoundArch};
    ghost use Rattle.fpga_arch.specs.Drafts.{START, Takes, TakesText, stands_in};
    ghost use Rattle.fpga_arch.specs.Keywords.{keywords};
    ghost use Rattle.fpga_arch.specs.declared.keyword.Keyword.TheVariants.{
      IoRat,
      WidthIo,
      WidthX,
      WidthY,
      Inpin,
      Outpin,
      SwitchBlock,
      FcType,
      FcOutput,
      FcInput,
      FcPad,
      Segment,
    };

    /// No line was read.
    pub fn new(alloc: Global) -> Draft
        ensures { result ≡ START }
    {
        Draft {
            flags: [false; 12],
            width: None,
            io_rat: 0,
            pins: Vec::new(alloc),
            pattern: Pattern::Subset,
            fractional: false,
            output: 0,
            input: 0,
            pad: 0,
        }
    }

    /// Whether the keyword had a line.
    fn stands(&self, keyword: Keyword) -> bool
        ensures { result ≡ stands_in self.now.flags keyword }
    {
        self.flags[keyword.place()]
    }

    /// Whether all keywords had a line.
    pub fn is_whole(&self) -> bool
        ensures { result ≡ list_all (stands_in self.now.flags) keywords }
    {
        KEYWORDS.iter().all(|keyword| self.stands(*keyword))
    }

    /// Takes a line of the text, of which no word was taken yet.
    pub fn take_text(&mut self, line: &mut Line<'_>) -> Result<(), TextFault>
        ensures { TakesText self.old self.new line.old result }
    {
        let Some(word) = line.next_word() else {
            return Ok(());
        };
        let Some(keyword) = keyword_of(word) else {
            return Ok(());
        };
        self.take_line(keyword, line)
    }

    /// Takes a line with this keyword, of which no other word was taken yet.
    fn take_line(&mut self, keyword: Keyword, line: &mut Line<'_>) -> Result<(), TextFault>
        ensures { Takes keyword self.old self.new line.old result }
    {
        match keyword {
            Keyword::IoRat => self.take_pads(line),
            Keyword::WidthIo => self.take_pad_width(line),
            Keyword::WidthX => self.take_row_width(line),
            Keyword::WidthY => self.take_column_width(line),
            Keyword::Inpin => self.take_input(line),
            Keyword::Outpin => self.take_output(line),
            Keyword::SwitchBlock => self.take_pattern(line),
            Keyword::FcType => self.take_share_type(line),
            Keyword::FcOutput => self.take_output_share(line),
            Keyword::FcInput => self.take_input_share(line),
            Keyword::FcPad => self.take_pad_share(line),
            Keyword::Segment => self.take_segment(line),
        }
    }

    /// Takes a line of pads.
    fn take_pads(&mut self, line: &mut Line<'_>) -> Result<(), TextFault>
        ensures { Takes IoRat self.old self.new line.old result }
    {
        let number = line.number();
        let Some(pads) = line.next_whole() else {
            return Err(Cause::NoNumber.at(number));
        };
        if pads == 0 {
            return Err(Cause::NoNumber.at(number));
        }
        if pads > u64::from(PAD_LIMIT) {
            return Err(Cause::PastLimit.past(pads));
        }
        if self.stands(Keyword::IoRat) {
            return Err(Cause::Repeated.at(number));
        }
        self.io_rat = pads as u32;
        mark(&mut self.flags, Keyword::IoRat);
        Ok(())
    }

    /// Takes a line of the channels beside the pads.
    fn take_pad_width(&mut self, line: &mut Line<'_>) -> Result<(), TextFault>
        ensures { Takes WidthIo self.old self.new line.old result }
    {
        let number = line.number();
        let Some(width) = line.next_millionths() else {
            return Err(Cause::NoNumber.at(number));
        };
        if differs_from(self.width, width) {
            return Err(Cause::OtherWidth.at(number));
        }
        if self.stands(Keyword::WidthIo) {
            return Err(Cause::Repeated.at(number));
        }
        self.width = Some(width);
        mark(&mut self.flags, Keyword::WidthIo);
        Ok(())
    }

    /// Takes a line of the channels along rows.
    fn take_row_width(&mut self, line: &mut Line<'_>) -> Result<(), TextFault>
        ensures { Takes WidthX self.old self.new line.old result }
    {
        let width = match read_channel(self.width, line) {
            Ok(width) => width,
            Err(fault) => return Err(fault),
        };
        if self.stands(Keyword::WidthX) {
            return Err(Cause::Repeated.at(line.number()));
        }
        self.width = Some(width);
        mark(&mut self.flags, Keyword::WidthX);
        Ok(())
    }

    /// Takes a line of the channels along columns.
    fn take_column_width(&mut self, line: &mut Line<'_>) -> Result<(), TextFault>
        ensures { Takes WidthY self.old self.new line.old result }
    {
        let width = match read_channel(self.width, line) {
            Ok(width) => width,
            Err(fault) => return Err(fault),
        };
        if self.stands(Keyword::WidthY) {
            return Err(Cause::Repeated.at(line.number()));
        }
        self.width = Some(width);
        mark(&mut self.flags, Keyword::WidthY);
        Ok(())
    }

    /// Takes a line of a pin that a net drives.
    fn take_input(&mut self, line: &mut Line<'_>) -> Result<(), TextFault>
        ensures { Takes Inpin self.old self.new line.old result }
    {
        let pin = match read_pin(self.pins.as_slice(), false, line) {
            Ok(pin) => pin,
            Err(fault) => return Err(fault),
        };
        let Ok(()) = self.pins.push(pin) else {
            return Err(TextFault::Memory);
        };
        mark(&mut self.flags, Keyword::Inpin);
        Ok(())
    }

    /// Takes a line of a pin that drives a net.
    fn take_output(&mut self, line: &mut Line<'_>) -> Result<(), TextFault>
        ensures { Takes Outpin self.old self.new line.old result }
    {
        let pin = match read_pin(self.pins.as_slice(), true, line) {
            Ok(pin) => pin,
            Err(fault) => return Err(fault),
        };
        let Ok(()) = self.pins.push(pin) else {
            return Err(TextFault::Memory);
        };
        mark(&mut self.flags, Keyword::Outpin);
        Ok(())
    }

    /// Takes a line of the switch blocks.
    fn take_pattern(&mut self, line: &mut Line<'_>) -> Result<(), TextFault>
        ensures { Takes SwitchBlock self.old self.new line.old result }
    {
        let number = line.number();
        let Some(pattern) = next_pattern(line) else {
            return Err(Cause::NoPattern.at(number));
        };
        if self.stands(Keyword::SwitchBlock) {
            return Err(Cause::Repeated.at(number));
        }
        self.pattern = pattern;
        mark(&mut self.flags, Keyword::SwitchBlock);
        Ok(())
    }

    /// Takes the line that says what the shares are of.
    fn take_share_type(&mut self, line: &mut Line<'_>) -> Result<(), TextFault>
        ensures { Takes FcType self.old self.new line.old result }
    {
        let number = line.number();
        let Some(fractional) = next_fraction(line) else {
            return Err(Cause::NoNumber.at(number));
        };
        if self.stands(Keyword::FcType) {
            return Err(Cause::Repeated.at(number));
        }
        self.fractional = fractional;
        mark(&mut self.flags, Keyword::FcType);
        Ok(())
    }

    /// Takes a line of the share of pins that drive nets.
    fn take_output_share(&mut self, line: &mut Line<'_>) -> Result<(), TextFault>
        ensures { Takes FcOutput self.old self.new line.old result }
    {
        let number = line.number();
        let Some(share) = next_share(line) else {
            return Err(Cause::NoNumber.at(number));
        };
        if self.stands(Keyword::FcOutput) {
            return Err(Cause::Repeated.at(number));
        }
        self.output = share;
        mark(&mut self.flags, Keyword::FcOutput);
        Ok(())
    }

    /// Takes a line of the share of pins that nets drive.
    fn take_input_share(&mut self, line: &mut Line<'_>) -> Result<(), TextFault>
        ensures { Takes FcInput self.old self.new line.old result }
    {
        let number = line.number();
        let Some(share) = next_share(line) else {
            return Err(Cause::NoNumber.at(number));
        };
        if self.stands(Keyword::FcInput) {
            return Err(Cause::Repeated.at(number));
        }
        self.input = share;
        mark(&mut self.flags, Keyword::FcInput);
        Ok(())
    }

    /// Takes a line of the share of pads.
    fn take_pad_share(&mut self, line: &mut Line<'_>) -> Result<(), TextFault>
        ensures { Takes FcPad self.old self.new line.old result }
    {
        let number = line.number();
        let Some(share) = next_share(line) else {
            return Err(Cause::NoNumber.at(number));
        };
        if self.stands(Keyword::FcPad) {
            return Err(Cause::Repeated.at(number));
        }
        self.pad = share;
        mark(&mut self.flags, Keyword::FcPad);
        Ok(())
    }

    /// Takes a segment line.
    fn take_segment(&mut self, line: &mut Line<'_>) -> Result<(), TextFault>
        ensures { Takes Segment self.old self.new line.old result }
    {
        let number = line.number();
        let said = read_segment(line);
        if !said.has_length {
            return Err(Cause::SegmentLength.at(number));
        }
        if said.is_long {
            return Err(Cause::SegmentLength.at(number));
        }
        if said.is_sparse {
            return Err(Cause::SparseSegment.at(number));
        }
        mark(&mut self.flags, Keyword::Segment);
        Ok(())
    }

    /// The architecture, once all keywords had a line.
    pub fn finish(self) -> Arch
        ensures arch { result ≡ self.arch }
        ensures sound { list_all (stands_in self.flags) keywords ≡ true → IsSoundArch result }
    {
        Arch {
            io_rat: self.io_rat,
            pins: Items::of(self.pins),
            pattern: self.pattern,
            fc: FcSpec {
                fractional: self.fractional,
                output: self.output,
                input: self.input,
                pad: self.pad,
            },
        }
    }
}

/// Notes that a keyword has a line.
fn mark(flags: &mut [bool; 12], keyword: Keyword)
    ensures { flags.new ≡ marked flags.old keyword }
{
    flags[keyword.place()] = true;
}
