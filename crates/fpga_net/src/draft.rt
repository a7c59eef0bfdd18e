//! What was read of a netlist text so far.
ghost use Rattle.std.specs.Prelude.{◌≡◌, ◌+◌, List, ℕ, [], IfErr, IfOk, OnOk};
ghost use Rattle.fpga_text.specs.FirstFault.{AnswersFault, IsFaultOf};
ghost use Rattle.fpga_net.specs.Codes.{before_all};
ghost use Rattle.fpga_net.specs.Forms.{Begins, Globals, Pinlist, Subblock, form_of as form_said_by};

use crate::begun::{BegunBlock, only_word};
use crate::cause::Cause;
use crate::forms::{LineForm, form_of};
use crate::limits::BLOCK_LIMIT;
use crate::listed::{ListedBlock, finish_all, misses_pins, rest_words};
use crate::names::NameTable;
use crate::net_table::NetTable;
use crate::net_use::pins_of;
use fpga_text::{Coded, Line, TextFault};
use fpga_types::{Arch, BlockKind, Items, Netlist};
use std::alloc::{AllocError, Global};
use std::marker::Model;

/// The blocks and nets of the lines that were taken, and what the next line's codes look at.
#[derive(Drop)]
pub struct Draft<'a, 'b> {
    alloc: Global,
    arch: &'b Arch,
    globals: NameTable<'a>,
    begun: Option<BegunBlock<'a>>,
    in_logic: bool,
    names: NameTable<'a>,
    blocks: Vec<ListedBlock<'a>>,
    nets: NetTable<'a>,
}

impl<'a, 'b> Model for Draft<'a, 'b> {
    ghost use Rattle.std.specs.Prelude.{option_map};
    ghost use Rattle.fpga_net.specs.Begun.{begun_said};
    ghost use Rattle.fpga_net.specs.Drafts.{Progress};

    ghost Value = { Progress };

    ghost view = { λ d. record {
      context = record {
        arch = d.arch.now;
        globals = d.globals;
        begun = option_map begun_said d.begun;
        in_logic = d.in_logic;
        names = d.names;
        blocks = d.blocks.items;
      };
      entries = d.nets;
    } };
}

impl<'a, 'b> Draft<'a, 'b> {
    ghost use Rattle.fpga_net.specs.Drafts.{IsKept, ListsBlock, TakesForm, form_fault, last_fault};
    ghost use Rattle.fpga_net.specs.Value.{netlist_before};

    /// No line was taken.
    pub fn new(alloc: Global, arch: &'b Arch, globals: NameTable<'a>) -> Draft<'a, 'b>
        ensures { result ≡ record {
          context = before_all arch.now globals.entry;
          entries = [];
        } }
    {
        Draft {
            alloc,
            arch,
            globals,
            begun: None,
            in_logic: false,
            names: NameTable::new(alloc),
            blocks: Vec::new(alloc),
            nets: NetTable::new(alloc),
        }
    }

    /// Takes a line of which no word was taken yet. After an error the draft is spoilt.
    pub fn take_line(&mut self, line: &mut Line<'a>) -> Result<(), TextFault>
        requires { IsKept self.old }
        ensures ok { OnOk result
            (TakesForm self.old self.new line.old.number (form_said_by line.old.words)) }
        ensures err { IfErr result (IsFaultOf
            (form_fault self.old.context line.old.number (form_said_by line.old.words))) }
    {
        let number = line.number();
        match form_of(line) {
            LineForm::Begins(kind) => self.begin_block(kind, line, number),
            LineForm::Pinlist => self.take_pinlist(line, number),
            LineForm::Subblock => self.pass_subblock(number),
            LineForm::Globals => self.pass_globals(number),
            LineForm::Other => Err(Cause::LineForm.at(number)),
        }
    }

    /// Takes a line that begins a block, of which the first word was taken.
    fn begin_block(
        &mut self,
        kind: BlockKind,
        line: &mut Line<'a>,
        number: u64,
    ) -> Result<(), TextFault>
        requires { IsKept self.old }
        ensures ok { OnOk result (TakesForm self.old self.new number (Begins kind line.old.words)) }
        ensures err { IfErr result
            (IsFaultOf (form_fault self.old.context number (Begins kind line.old.words))) }
    {
        let Some(name) = only_word(line) else {
            return Err(Cause::LineForm.at(number));
        };
        if self.names.contains(name) {
            return Err(Cause::SameName.at(number));
        }
        if self.begun.is_some() {
            return Err(Cause::NoPinlist.at(number));
        }
        if self.names.len() == BLOCK_LIMIT {
            return Err(Cause::PastLimit.past(BLOCK_LIMIT as u64 + 1));
        }
        let Ok(()) = self.names.add_new(name) else {
            return Err(TextFault::Memory);
        };
        self.begun = Some(BegunBlock { name, kind });
        self.in_logic = false;
        Ok(())
    }

    /// Takes a subblock line.
    fn pass_subblock(&mut self, number: u64) -> Result<(), TextFault>
        requires { IsKept self.old }
        ensures ok { OnOk result (TakesForm self.old self.new number Subblock) }
        ensures err { IfErr result (IsFaultOf (form_fault self.old.context number Subblock)) }
    {
        if !self.in_logic {
            return Err(Cause::LineForm.at(number));
        }
        if self.begun.is_some() {
            return Err(Cause::NoPinlist.at(number));
        }
        Ok(())
    }

    /// Takes a line of global nets. Their names were collected before.
    fn pass_globals(&mut self, number: u64) -> Result<(), TextFault>
        requires { IsKept self.old }
        ensures ok { OnOk result ((nets : List (List ℕ))
            → TakesForm self.old self.new number (Globals nets)) }
        ensures err { IfErr result (λ fault. (nets : List (List ℕ))
            → IsFaultOf (form_fault self.old.context number (Globals nets)) fault) }
    {
        if self.begun.is_some() {
            return Err(Cause::NoPinlist.at(number));
        }
        self.in_logic = false;
        Ok(())
    }

    /// Takes a pinlist, of which the first word was taken.
    fn take_pinlist(&mut self, line: &mut Line<'a>, number: u64) -> Result<(), TextFault>
        requires { IsKept self.old }
        ensures ok { OnOk result (TakesForm self.old self.new number (Pinlist line.old.words)) }
        ensures err { IfErr result
            (IsFaultOf (form_fault self.old.context number (Pinlist line.old.words))) }
    {
        let block = match self.listed_block(line, number) {
            Ok(block) => block,
            Err(fault) => return Err(fault),
        };
        let count = self.blocks.len() as u32;
        let Ok(uses) = block.uses(self.alloc, self.arch, count) else {
            return Err(TextFault::Memory);
        };
        match self.nets.connect(&uses, &self.globals, number) {
            Ok(()) => {}
            Err(fault) => return Err(fault),
        }
        self.in_logic = block.is_logic();
        self.begun = None;
        let Ok(()) = self.blocks.push(block) else {
            return Err(TextFault::Memory);
        };
        Ok(())
    }

    /// The block with the next words of a line as its pinlist.
    fn listed_block(&self, line: &mut Line<'a>, number: u64) -> Result<ListedBlock<'a>, TextFault>
        ensures ok { IfOk result (ListsBlock self.now.context line.old.words) }
        ensures err { IfErr result
            (IsFaultOf (form_fault self.now.context number (Pinlist line.old.words))) }
    {
        let Some(begun) = self.begun else {
            return Err(Cause::LineForm.at(number));
        };
        let pins = pins_of(self.arch, begun.kind).len();
        let Ok(words) = rest_words(self.alloc, line, pins + 1) else {
            return Err(TextFault::Memory);
        };
        if misses_pins(begun.kind, pins, &words) {
            return Err(Cause::PinCount.at(number));
        }
        Ok(ListedBlock::new(begun.name, begun.kind, words))
    }

    /// The netlist of the lines that were taken, or what is wrong with the end of the text, which
    /// has this number.
    pub fn finish(self, end: u64) -> Result<Netlist, TextFault>
        requires { IsKept self }
        ensures { AnswersFault (last_fault self.entry.context end)
            (λ netlist. netlist ≡ netlist_before self.entry.context) result }
    {
        if self.begun.is_some() {
            return Err(Cause::NoPinlist.at(end));
        }
        if self.nets.lacks_driver() {
            return Err(Cause::Drivers.at(end));
        }
        if self.nets.lacks_sink() {
            return Err(Cause::NoSink.at(end));
        }
        let Ok(netlist) = self.netlist() else {
            return Err(TextFault::Memory);
        };
        Ok(netlist)
    }

    /// The netlist of the lines that were taken.
    fn netlist(self) -> Result<Netlist, AllocError>
        requires { IsKept self }
        ensures { IfOk result (λ netlist. netlist ≡ netlist_before self.entry.context) }
    {
        let blocks = finish_all(self.alloc, &self.blocks, self.nets.names())?;
        let nets = self.nets.finish()?;
        Ok(Netlist {
            nets: Items::of(nets),
            blocks: Items::of(blocks),
        })
    }
}
