//! Whether a search may go on, as its caller decides.
#![tactic(auto)]

ghost use Rattle.std.specs.Prelude.{◌≡◌, false};

/// Whether a search may go on, as its caller decides.
pub trait Patience {
    /// It has said no.
    ghost is_over: { Self → Type 0 };

    /// Whether the search may go on. Once it has said no it says nothing else.
    fn goes_on(&mut self) -> bool
        ensures ends { result ≡ false → is_over self.new }
        ensures stays { is_over self.old → result ≡ false };
}

/// The patience of a caller that sets no limit.
#[derive(Clone, Copy)]
pub struct Forever;

impl Patience for Forever {
    ghost is_over = { λ _. ⊥ };

    fn goes_on(&mut self) -> bool {
        true
    }
}
