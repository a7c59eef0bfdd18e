//! Why words give no job.
ghost use Rattle.std.specs.Prelude.{◌≡◌};
ghost use Rattle.router_words.specs.Refusal.{code_of};

use thiserror::Error;

/// Why words are not taken.
#[derive(Clone, Copy, Debug, Error)]
pub enum Refusal {
    /// There is no first word, or it names no command.
    #[error("the first word names no command")]
    Command,
    /// The form of the command does not take the words behind it.
    #[error("the command does not take these words")]
    Form,
    /// A word that is to be a number is no whole number in its range.
    #[error("a word is no whole number in its range")]
    Number,
    /// An option is given without one that it needs, or with one that it excludes.
    #[error("an option is given without one that it needs, or with one that it excludes")]
    Clash,
    /// A file that the job may write has the name of one that it reads.
    #[error("a file that the job may write has the name of one that it reads")]
    Overwriting,
}

impl Refusal {
    /// The code that a report gives.
    pub fn code(self) -> u32
        ensures { result ≡ code_of self }
    {
        match self {
            Refusal::Command => 1,
            Refusal::Form => 2,
            Refusal::Number => 3,
            Refusal::Clash => 4,
            Refusal::Overwriting => 5,
        }
    }
}

/// Why there is no job.
#[derive(Clone, Copy, Debug, Error)]
pub enum WordsFault {
    /// The words are not taken.
    #[error("{0}")]
    Refused(Refusal),
    /// Memory ran out.
    #[error("out of memory")]
    Memory,
}
