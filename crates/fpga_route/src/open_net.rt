//! A net of a route whose lines are still being read.
ghost use Rattle.std.specs.Prelude.{◌≡◌, [], ◌∷◌, ◌++◌, OnOk};

use fpga_types::{Elem, Items, Name, RouteNet};
use std::alloc::{AllocError, Global};
use std::marker::Model;

/// A net whose lines are still being read.
#[derive(Drop)]
pub struct OpenNet {
    k: u64,
    name: Name,
    global: bool,
    line: u64,
    elems: Vec<Elem>,
    kept: Vec<Name>,
}

impl Model for OpenNet {
    ghost use Rattle.fpga_types.specs.declared.route.RouteNet.{RouteNet};

    ghost Value = { RouteNet };

    ghost view = { λ n. record {
      k = n.k;
      name = n.name;
      global = n.global;
      line = n.line;
      elems = n.elems.items;
      kept = n.kept.items;
    } };
}

impl OpenNet {
    /// A net without lines.
    pub fn new(alloc: Global, k: u64, name: Name, global: bool, line: u64) -> OpenNet
        ensures { result ≡ record {
          k = k;
          name = name;
          global = global;
          line = line;
          elems = [];
          kept = [];
        } }
    {
        OpenNet {
            k,
            name,
            global,
            line,
            elems: Vec::new(alloc),
            kept: Vec::new(alloc),
        }
    }

    /// Whether the net is global.
    pub fn is_global(&self) -> bool
        ensures { result ≡ self.now.global }
    {
        self.global
    }

    /// Adds an element at the end.
    pub fn push_elem(&mut self, elem: Elem) -> Result<(), AllocError>
        ensures { OnOk result (self.new ≡ record self.old { elems = self.old.elems ++ elem ∷ [] }) }
    {
        self.elems.push(elem)?;
        Ok(())
    }

    /// Adds a line to keep at the end.
    pub fn push_kept(&mut self, line: Name) -> Result<(), AllocError>
        ensures { OnOk result (self.new ≡ record self.old { kept = self.old.kept ++ line ∷ [] }) }
    {
        self.kept.push(line)?;
        Ok(())
    }

    /// The net, with all its lines.
    pub fn close(self) -> RouteNet
        ensures { result ≡ self }
    {
        RouteNet {
            k: self.k,
            name: self.name,
            global: self.global,
            line: self.line,
            elems: Items::of(self.elems),
            kept: Items::of(self.kept),
        }
    }
}
