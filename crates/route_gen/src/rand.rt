//! Numbers drawn by the sample `rand` of the ANSI C standard.
ghost use Rattle.std.specs.Prelude.{◌≡◌, ◌<◌, ◌^◌};
ghost use Rattle.route_gen.specs.Draws.{after_rand, answer_of};

use std::marker::Model;

/// How many states there are.
const STATES: u64 = 1 << 31;

/// The sample `rand` of the ANSI C standard, with a state of 31 bits.
#[derive(Drop)]
pub struct Rand {
    state: u32,
}

impl Model for Rand {
    ghost use Rattle.std.specs.Prelude.{ℕ, ◌<◌, ◌^◌};

    ghost Value = { ℕ };

    ghost view = { λ r. r.state };

    ghost invariant = { λ r. r.state < 2 ^ 31 };
}

impl Rand {
    /// Draws from a seed.
    pub fn new(seed: u32) -> Rand
        requires { seed < 2 ^ 31 }
        ensures { result ≡ seed }
    {
        Rand { state: seed }
    }

    /// The next number, below 32,768.
    pub fn draw(&mut self) -> u32
        ensures state { self.new ≡ after_rand self.old }
        ensures answer { result ≡ answer_of self.new }
        ensures within { result < 32768 }
    {
        let next = (u64::from(self.state) * 1_103_515_245 + 12_345) % STATES;
        self.state = next as u32;
        self.state / 65_536
    }
}
