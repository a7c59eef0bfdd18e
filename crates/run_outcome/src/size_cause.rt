//! The sizes that pass a limit, and the codes by which reports name them.
ghost use Rattle.std.specs.Prelude.{◌≡◌};
ghost use Rattle.run_outcome.specs.SizeCauses.{size_code};

use crate::text_file::TextFile;

/// What passes its limit, where no line of a text does.
#[derive(Clone, Copy)]
pub enum SizeCause {
    /// The clauses of a problem.
    FormulaClauses,
    /// The nets of a problem that is to be made, where there are not as many blocks.
    GeneratedNets,
    /// The clauses that all searches that take turns would hold.
    ClausesOfTurns,
    /// The bytes of a file.
    FileBytes(TextFile),
}

impl SizeCause {
    /// The code by which reports name it.
    pub fn code(self) -> u32
        ensures { result ≡ size_code self }
    {
        match self {
            SizeCause::FormulaClauses => 901,
            SizeCause::GeneratedNets => 903,
            SizeCause::ClausesOfTurns => 904,
            SizeCause::FileBytes(file) => 910 + file.number(),
        }
    }
}
