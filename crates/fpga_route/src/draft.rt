//! The value of a route text as far as it was read.
ghost use Rattle.std.specs.Prelude.{◌≡◌, [], None, OnOk, IfOk, IfErr};
ghost use Rattle.fpga_text.specs.FirstFault.{IsFaultOf};
ghost use Rattle.fpga_route.specs.Forms.{Net, Elem as ElemForm, Block, later_form};
ghost use Rattle.fpga_route.specs.Lines.{net_said, elem_said};
ghost use Rattle.fpga_route.specs.Standings.{later_fault};

use crate::cause::Cause;
use crate::forms::{ElemLine, LineForm, NetLine, form_of};
use crate::open_net::OpenNet;
use crate::standing::{Standing, net_number, read_elem};
use fpga_text::{Coded, Line, TextFault};
use fpga_types::{Grid, Items, Name, RouteNet};
use std::alloc::{AllocError, Global};
use std::marker::Model;

/// The array, the nets whose lines were all read, and the net whose lines are being read.
#[derive(Drop)]
pub struct Draft {
    alloc: Global,
    grid: Grid,
    closed: Vec<RouteNet>,
    open_net: Option<OpenNet>,
}

impl Model for Draft {
    ghost use Rattle.std.specs.Prelude.{◌+◌, ◌≤◌, length, option_to_list};
    ghost use Rattle.fpga_types.specs.declared.limits.TheConstants.{NET_LIMIT};
    ghost use Rattle.fpga_route.specs.Drafts.{Progress};

    ghost Value = { Progress };

    ghost view = { λ d. record { grid = d.grid; closed = d.closed.items; open_net = d.open_net } };

    ghost invariant = { λ d.
        length d.closed.items + length (option_to_list d.open_net) ≤ NET_LIMIT };
}

impl Draft {
    ghost use Rattle.fpga_route.specs.Drafts.{
      AddsElem,
      BeginsNet,
      KeepsLine,
      TakesLine,
      standing_of,
      nets_begun,
    };

    /// No net was begun.
    pub fn new(alloc: Global, grid: Grid) -> Draft
        ensures { result ≡ record { grid = grid; closed = []; open_net = None } }
    {
        Draft {
            alloc,
            grid,
            closed: Vec::new(alloc),
            open_net: None,
        }
    }

    /// Where the next line stands.
    fn standing(&self) -> Standing
        ensures { result ≡ standing_of self.now }
    {
        let begun = self.closed.len();
        match &self.open_net {
            None => Standing {
                grid: self.grid,
                nets: begun as u32,
                in_global: None,
            },
            Some(net) => Standing {
                grid: self.grid,
                nets: begun as u32 + 1,
                in_global: Some(net.is_global()),
            },
        }
    }

    /// The net whose lines were read is closed.
    fn close_net(&mut self) -> Result<(), AllocError>
        ensures { OnOk result (self.new ≡ record self.old {
          closed = nets_begun self.old;
          open_net = None;
        }) }
    {
        let Some(net) = self.open_net.take() else {
            return Ok(());
        };
        self.closed.push(net.close())?;
        Ok(())
    }

    /// Takes a line after the head, of which no word was taken yet.
    pub fn take_line(&mut self, line: &mut Line<'_>) -> Result<(), TextFault>
        ensures ok { OnOk result (TakesLine self.old self.new line.old) }
        ensures err { IfErr result (IsFaultOf
            (later_fault (standing_of self.old) line.old.number (later_form line.old.words))) }
    {
        let number = line.number();
        let raw = line.raw();
        match form_of(line) {
            LineForm::Net(net) => self.begin_net(&net, number),
            LineForm::Elem(elem) => self.add_elem(&elem, number),
            LineForm::Block => self.keep_line(raw, number),
            LineForm::Span => Err(Cause::SpannedChannel.at(number)),
            LineForm::Other => Err(Cause::LineForm.at(number)),
        }
    }

    /// Takes a Net line.
    fn begin_net(&mut self, net: &NetLine<'_>, line: u64) -> Result<(), TextFault>
        ensures ok { OnOk result (BeginsNet self.old self.new (net_said net.now) line) }
        ensures err { IfErr result (IsFaultOf
            (later_fault (standing_of self.old) line (Net (net_said net.now)))) }
    {
        let k = match net_number(self.standing(), net, line) {
            Ok(k) => k,
            Err(fault) => return Err(fault),
        };
        let Ok(name) = name_of(self.alloc, net.name) else {
            return Err(TextFault::Memory);
        };
        let Ok(()) = self.close_net() else {
            return Err(TextFault::Memory);
        };
        self.open_net = Some(OpenNet::new(self.alloc, k, name, net.global, line));
        Ok(())
    }

    /// Takes an element line.
    fn add_elem(&mut self, parts: &ElemLine<'_>, line: u64) -> Result<(), TextFault>
        ensures ok { OnOk result (AddsElem self.old self.new (elem_said parts.now) line) }
        ensures err { IfErr result (IsFaultOf
            (later_fault (standing_of self.old) line (ElemForm (elem_said parts.now)))) }
    {
        let elem = match read_elem(self.standing(), parts, line) {
            Ok(elem) => elem,
            Err(fault) => return Err(fault),
        };
        let Some(net) = &mut self.open_net else {
            unreachable!()
        };
        let Ok(()) = net.push_elem(elem) else {
            return Err(TextFault::Memory);
        };
        Ok(())
    }

    /// Takes a Block line with these bytes.
    fn keep_line(&mut self, raw: &[u8], line: u64) -> Result<(), TextFault>
        ensures ok { OnOk result (KeepsLine self.old self.new raw.now line) }
        ensures err { IfErr result (IsFaultOf (later_fault (standing_of self.old) line Block)) }
    {
        if self.standing().in_global != Some(true) {
            return Err(Cause::LineForm.at(line));
        }
        let Ok(name) = name_of(self.alloc, raw) else {
            return Err(TextFault::Memory);
        };
        let Some(net) = &mut self.open_net else {
            unreachable!()
        };
        let Ok(()) = net.push_kept(name) else {
            return Err(TextFault::Memory);
        };
        Ok(())
    }

    /// The nets that were begun.
    pub fn finish(self) -> Result<Vec<RouteNet>, AllocError>
        ensures { IfOk result (λ nets. nets.items ≡ nets_begun self) }
    {
        let mut draft = self;
        draft.close_net()?;
        Ok(draft.closed)
    }
}

/// A name with these bytes.
fn name_of(alloc: Global, bytes: &[u8]) -> Result<Name, AllocError>
    ensures { IfOk result (λ name. name ≡ bytes.now) }
{
    let copy = Vec::from_slice(alloc, bytes)?;
    Ok(Name {
        bytes: Items::of(copy),
    })
}
