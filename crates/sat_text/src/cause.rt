//! What can be wrong with a line of a CNF or an LRAT text.

use fpga_text::Coded;

/// What is wrong with a line of a CNF or an LRAT text.
#[derive(Clone, Copy)]
pub enum Cause {
    /// CNF: no head line where one is due, or a second one.
    HeadForm,
    /// CNF: a number is due and is none, or is negative in the head line.
    CnfNumber,
    /// CNF: a literal of a variable that is not there.
    Variable,
    /// CNF: another number of clauses, or no 0 behind the last one.
    ClauseCount,
    /// CNF: more variables or clauses than are read.
    SizeLimit,
    /// LRAT: a number is due and is none, or an id is not positive.
    StepNumber,
    /// LRAT: neither an added clause nor a deletion.
    StepForm,
    /// LRAT: the id of an added clause is not above all earlier ones.
    IdOrder,
    /// LRAT: a negative hint; in full LRAT, one of a clause without literals.
    HintSign,
    /// LRAT: an id, a hint or a literal that is greater than those that are read.
    NumberLimit,
}

impl Coded for Cause {
    ghost use Rattle.sat_text.specs.Causes.{code_of};

    ghost code_of = { code_of };

    fn code(self) -> u32 {
        match self {
            Cause::HeadForm => 601,
            Cause::CnfNumber => 602,
            Cause::Variable => 603,
            Cause::ClauseCount => 604,
            Cause::SizeLimit => 605,
            Cause::StepNumber => 701,
            Cause::StepForm => 702,
            Cause::IdOrder => 703,
            Cause::HintSign => 704,
            Cause::NumberLimit => 705,
        }
    }
}
