//! Rows of bits.

ghost use Rattle.std.specs.Prelude.{◌≡◌, ◌≢◌, ◌*◌, ◌<◌, ◌≤◌, ℕ, IfOk, OnOk, length, true, false};
ghost use Rattle.sat_check.specs.Bits.{is_set};

use std::alloc::{AllocError, Global};
use std::marker::Model;

/// A row of bits, in words of 64.
#[derive(Drop)]
pub(crate) struct Bits {
    words: Vec<u64>,
}

impl Model for Bits {
    ghost use Rattle.std.specs.Prelude.{ℕ, List};

    ghost Value = { List ℕ };

    ghost view = { λ b. b.words.items };
}

impl Bits {
    /// A row of at least so many bits, none of which is set.
    pub(crate) fn new(alloc: Global, count: usize) -> Result<Bits, AllocError>
        ensures many { IfOk result (λ b. count ≤ 64 * length b) }
        ensures clear { IfOk result (λ b. (at : ℕ) → is_set b at ≡ false) }
    {
        Ok(Bits {
            words: vec![in alloc; 0; count / 64 + 1]?,
        })
    }

    /// Whether a bit is set.
    pub(crate) fn get(&self, at: usize) -> bool
        requires { at < 64 * length self.now }
        ensures { result ≡ is_set self.now at }
    {
        (self.words[at / 64] >> (at % 64)) & 1 == 1
    }

    /// Sets a bit.
    pub(crate) fn set(&mut self, at: usize)
        requires { at < 64 * length self.old }
        ensures many { length self.new ≡ length self.old }
        ensures here { is_set self.new at ≡ true }
        ensures others { (i : ℕ) → i ≢ at → is_set self.new i ≡ is_set self.old i }
    {
        self.words[at / 64] |= 1 << (at % 64);
    }

    /// Makes the row one of at least so many bits. What comes is not set.
    pub(crate) fn widen(&mut self, count: usize) -> Result<(), AllocError>
        ensures many { OnOk result (count ≤ 64 * length self.new) }
        ensures no_fewer { length self.old ≤ length self.new }
        ensures same { (at : ℕ) → is_set self.new at ≡ is_set self.old at }
    {
        while self.words.len() <= count / 64 {
            self.words.push(0)?;
        }
        Ok(())
    }

    /// Takes a bit away.
    pub(crate) fn clear(&mut self, at: usize)
        requires { at < 64 * length self.old }
        ensures many { length self.new ≡ length self.old }
        ensures here { is_set self.new at ≡ false }
        ensures others { (i : ℕ) → i ≢ at → is_set self.new i ≡ is_set self.old i }
    {
        self.words[at / 64] &= !(1 << (at % 64));
    }
}
