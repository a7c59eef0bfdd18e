//! What is to be named of a fault, and by which files.
ghost use Rattle.std.specs.Prelude.{◌≡◌};
ghost use Rattle.router_says.specs.AtFault as spec;

use fpga_problem::TextFile as ProblemFile;
use run_outcome::TextFile;

/// What is to be named.
#[derive(Clone, Copy)]
pub(crate) enum Sought {
    /// The line as it stands.
    Standing,
    /// The keywords that have no line.
    Keywords,
    /// A net with a second driver, or without one.
    Drivers,
    /// A net without a sink.
    NoSink,
    /// An ordinary net on a pin for global nets.
    GlobalPin,
    /// A net on two pins of a class.
    SharedClass,
    /// A block without a place.
    NoPlace,
    /// A net without a Net line.
    NoLine,
    /// A line of a routed file, or a net that has none there.
    Routed,
}

/// What is sought where this code is told of this file.
pub(crate) fn sought_of(file: TextFile, code: u32) -> Sought
    ensures { result ≡ spec.sought_of file code }
{
    match (file, code) {
        (TextFile::Problem(ProblemFile::Architecture), 101) => Sought::Keywords,
        (TextFile::Problem(ProblemFile::Netlist), 204) => Sought::Drivers,
        (TextFile::Problem(ProblemFile::Netlist), 205) => Sought::NoSink,
        (TextFile::Problem(ProblemFile::Netlist), 206) => Sought::GlobalPin,
        (TextFile::Problem(ProblemFile::Netlist), 207) => Sought::SharedClass,
        (TextFile::Problem(ProblemFile::Placement), 305) => Sought::NoPlace,
        (TextFile::Problem(ProblemFile::Route), 502) => Sought::NoLine,
        _ => Sought::Standing,
    }
}

/// The two files whose texts say what is sought, where the file alone does not.
pub(crate) fn two_files(sought: Sought) -> Option<(TextFile, TextFile)>
    ensures { result ≡ spec.two_files sought }
{
    let netlist = TextFile::Problem(ProblemFile::Netlist);
    match sought {
        Sought::Standing | Sought::Keywords => None,
        Sought::Drivers | Sought::NoSink | Sought::GlobalPin | Sought::SharedClass => {
            Some((TextFile::Problem(ProblemFile::Architecture), netlist))
        }
        Sought::NoPlace => Some((netlist, TextFile::Problem(ProblemFile::Placement))),
        Sought::NoLine => Some((netlist, TextFile::Problem(ProblemFile::Route))),
        Sought::Routed => Some((netlist, TextFile::Routed)),
    }
}
