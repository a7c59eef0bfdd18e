//! The texts of the files.
ghost use Rattle.std.specs.Prelude.{◌≡◌};
ghost use Rattle.std.specs.Option.{option_copied};

use fpga_problem::FourTexts;
use std::marker::Model;

/// The bytes of the four files, and those of the file of names and of the file with a routing, if
/// they are asked for.
#[derive(Drop)]
pub(crate) struct FileTexts {
    pub(crate) architecture: Vec<u8>,
    pub(crate) netlist: Vec<u8>,
    pub(crate) placement: Vec<u8>,
    pub(crate) route: Vec<u8>,
    pub(crate) names: Option<Vec<u8>>,
    pub(crate) routed: Option<Vec<u8>>,
}

impl Model for FileTexts {
    ghost use Rattle.std.specs.Prelude.{option_map};
    ghost use Rattle.route_picture.specs.Files.{GivenTexts};

    ghost Value = { GivenTexts };

    ghost view = { λ t. record {
      four = record {
        architecture = t.architecture.items;
        netlist = t.netlist.items;
        placement = t.placement.items;
        route = t.route.items;
      };
      names = option_map (λ bytes. bytes.items) t.names;
      routed = option_map (λ bytes. bytes.items) t.routed;
    } };
}

impl FileTexts {
    /// Those of the four files, lent.
    pub(crate) fn four(&self) -> FourTexts<'_>
        ensures { result ≡ self.now.four }
    {
        FourTexts {
            architecture: &self.architecture,
            netlist: &self.netlist,
            placement: &self.placement,
            route: &self.route,
        }
    }

    /// Those of the file of names, lent.
    pub(crate) fn names(&self) -> Option<&[u8]>
        ensures { option_copied result ≡ self.now.names }
    {
        match &self.names {
            Some(bytes) => Some(bytes.as_slice()),
            None => None,
        }
    }

    /// Those of the file with a routing, lent.
    pub(crate) fn routed(&self) -> Option<&[u8]>
        ensures { option_copied result ≡ self.now.routed }
    {
        match &self.routed {
            Some(bytes) => Some(bytes.as_slice()),
            None => None,
        }
    }
}
