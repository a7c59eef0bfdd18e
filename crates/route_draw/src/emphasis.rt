//! Which nets a picture is to show beside the others.
ghost use Rattle.std.specs.Prelude.{◌≡◌, ◌↔◌, [], IsTrue, OnOk};
ghost use Rattle.route_draw.specs.Blamed.{GainsBlamed, blame_of, is_blamed, mark_of};

use std::alloc::{AllocError, Global};
use std::collections::BTreeSet;
use std::marker::Model;

/// Names of nets. It borrows their bytes.
///
/// They are found along a tree, so that a look-up takes a time by the logarithm of their number,
/// whatever the names are.
#[derive(Drop)]
pub struct NetNames<'a> {
    names: BTreeSet<&'a [u8]>,
}

impl<'a> Model for NetNames<'a> {
    ghost use Rattle.std.specs.Prelude.{List, ℕ, map};
    ghost use Rattle.std.specs.Borrow.{Bor};

    ghost Value = { List (List ℕ) };

    ghost view = { λ t. map (λ (name : Bor (List ℕ)). name.now) t.names.keys };
}

impl<'a> NetNames<'a> {
    /// No name.
    pub fn new(alloc: Global) -> NetNames<'a>
        ensures { result ≡ [] }
    {
        NetNames {
            names: BTreeSet::new(alloc),
        }
    }

    /// Whether there is none.
    pub fn is_empty(&self) -> bool
        ensures { IsTrue result ↔ (self.now ≡ []) }
    {
        self.names.is_empty()
    }

    /// Whether a net with this name is among them.
    pub fn contains(&self, name: &'a [u8]) -> bool
        ensures { result ≡ is_blamed self.now name.now }
    {
        self.names.contains(&name)
    }

    /// Adds a name, which may be among them.
    pub fn add(&mut self, name: &'a [u8]) -> Result<(), AllocError>
        ensures { OnOk result (GainsBlamed self.old name.now self.new) }
    {
        self.names.insert(name)?;
        Ok(())
    }
}

/// Which nets are to be seen.
#[derive(Drop)]
pub enum Emphasis<'a> {
    /// All nets alike.
    Alike,
    /// The nets with these names bold, and the others pale.
    Blamed(NetNames<'a>),
}

impl<'a> Emphasis<'a> {
    /// What stands before the class of a net with this name.
    pub(crate) fn mark(&self, name: &'a [u8]) -> &'static str
        ensures { result.now ≡ mark_of (blame_of self.now) name.now }
    {
        match self {
            Emphasis::Alike => "",
            Emphasis::Blamed(names) => {
                if names.contains(name) {
                    return "b ";
                }
                "f "
            }
        }
    }
}
