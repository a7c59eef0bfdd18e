//! The files that commands read, by number and by word, and how long they may be.
ghost use Rattle.std.specs.Prelude.{◌≡◌, ◌≤◌, length};
ghost use Rattle.run_outcome.specs.Report.{byte_limit, file_word};
ghost use Rattle.run_outcome.specs.SizeCauses.{file_number};

use fpga_problem::{TEXT_BYTES, TextFile as ProblemFile};

/// How many bytes a CNF file, an LRAT file or a model may have.
pub const PROOF_BYTES: u64 = 2_147_483_648;

/// A file that a command reads.
#[derive(Clone, Copy)]
pub enum TextFile {
    /// A file that a problem is read from.
    Problem(ProblemFile),
    Cnf,
    Lrat,
    Routed,
    Model,
}

impl TextFile {
    /// The number of the file among those of all commands.
    pub fn number(self) -> u32
        ensures { result ≡ file_number self }
    {
        match self {
            TextFile::Problem(ProblemFile::Architecture) => 1,
            TextFile::Problem(ProblemFile::Netlist) => 2,
            TextFile::Problem(ProblemFile::Placement) => 3,
            TextFile::Problem(ProblemFile::Route) => 4,
            TextFile::Cnf => 5,
            TextFile::Lrat => 6,
            TextFile::Routed => 7,
            TextFile::Model => 8,
        }
    }

    /// How many bytes the file may have.
    pub(crate) fn byte_limit(self) -> u64
        ensures { result ≡ byte_limit self }
    {
        match self {
            TextFile::Cnf | TextFile::Lrat | TextFile::Model => PROOF_BYTES,
            TextFile::Problem(_) | TextFile::Routed => TEXT_BYTES,
        }
    }

    /// The word for the file in a report.
    pub fn word(self) -> &'static str
        ensures value { result.now ≡ file_word self }
        ensures short { length result.now ≤ 12 }
    {
        match self {
            TextFile::Problem(ProblemFile::Architecture) => "architecture",
            TextFile::Problem(ProblemFile::Netlist) => "netlist",
            TextFile::Problem(ProblemFile::Placement) => "placement",
            TextFile::Problem(ProblemFile::Route) => "route",
            TextFile::Cnf => "cnf",
            TextFile::Lrat => "lrat",
            TextFile::Routed => "routed",
            TextFile::Model => "model",
        }
    }
}
