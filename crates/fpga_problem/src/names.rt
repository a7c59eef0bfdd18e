//! The names of the files of a problem.
ghost use Rattle.std.specs.Prelude.{◌≡◌};
ghost use Rattle.fpga_problem.specs.Files.{names_said, placed_names_of, placed_names_said};

/// The names of the files of a problem.
#[derive(Clone, Copy)]
pub struct FourNames<'a> {
    /// The name of the architecture file.
    pub architecture: &'a str,
    /// The name of the netlist file.
    pub netlist: &'a str,
    /// The name of the placement file.
    pub placement: &'a str,
    /// The name of the route file.
    pub route: &'a str,
}

/// The names of the files of a placed netlist, which a problem has beside its route.
#[derive(Clone, Copy)]
pub struct ThreeNames<'a> {
    /// The name of the architecture file.
    pub architecture: &'a str,
    /// The name of the netlist file.
    pub netlist: &'a str,
    /// The name of the placement file.
    pub placement: &'a str,
}

impl<'a> FourNames<'a> {
    /// Those of the files of its placed netlist.
    pub fn placed(&self) -> ThreeNames<'a>
        ensures { placed_names_said result ≡ placed_names_of (names_said self.now) }
    {
        ThreeNames {
            architecture: self.architecture,
            netlist: self.netlist,
            placement: self.placement,
        }
    }
}
