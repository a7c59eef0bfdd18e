//! What can be wrong with a line of a model text.

use fpga_text::Coded;

/// What is wrong with a line of a model text.
#[derive(Clone, Copy)]
pub enum Cause {
    /// The solver has found no model.
    NoModel,
    /// A number is due and is none.
    Number,
    /// A number stands behind the 0 that ends the literals.
    BehindEnd,
    /// A literal of a variable that is not there.
    Variable,
    /// A variable is said to be true and to be false.
    BothWays,
    /// No 0 ends the literals.
    NoEnd,
}

impl Coded for Cause {
    ghost use Rattle.model_text.specs.Causes.{code_of};

    ghost code_of = { code_of };

    fn code(self) -> u32 {
        match self {
            Cause::NoModel => 1001,
            Cause::Number => 1002,
            Cause::BehindEnd => 1003,
            Cause::Variable => 1004,
            Cause::BothWays => 1005,
            Cause::NoEnd => 1006,
        }
    }
}
