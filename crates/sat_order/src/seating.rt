//! Numbers in a row, with the place of each.

ghost use Rattle.std.specs.Prelude.{◌≡◌, ◌<◌, ◌≤◌, IfOk, ℕ, length, slice_index};
ghost use Rattle.sat_order.specs.Heap.{IsSeated, exchanged};

use sat_clause::VARIABLE_LIMIT;
use std::alloc::{AllocError, Global};
use std::marker::Model;

/// The numbers below a size in some order, and beside them the place of each number.
#[derive(Drop)]
pub(crate) struct Seating {
    order: Vec<u32>,
    places: Vec<u32>,
}

impl Model for Seating {
    ghost use Rattle.std.specs.Prelude.{length};
    ghost use Rattle.sat_order.specs.Heap.{Seats, IsSeated};

    ghost Value = { Seats };

    ghost view = { λ s. record { order = s.order.items; places = s.places.items } };

    ghost invariant = { λ s. IsSeated (length s.order.items)
        (record { order = s.order.items; places = s.places.items }) };
}

/// The numbers below this one, rising.
fn rising(alloc: Global, size: u32) -> Result<Vec<u32>, AllocError>
    ensures many { IfOk result (λ numbers. length numbers.items ≡ size) }
    ensures own { IfOk result (λ numbers. (i : ℕ) → i < size → slice_index numbers.items i ≡ i) }
{
    let mut numbers = Vec::with_capacity(alloc, size as usize)?;
    for number in 0..size {
        numbers.push_reserved(number);
    }
    Ok(numbers)
}

impl Seating {
    /// The numbers below a size, rising.
    pub(crate) fn new(alloc: Global, size: u32) -> Result<Seating, AllocError>
        requires { size ≤ VARIABLE_LIMIT }
        ensures seated { IfOk result (IsSeated size) }
        ensures rising { IfOk result
            (λ s. (i : ℕ) → i < size → slice_index s.order i ≡ i) }
    {
        Ok(Seating {
            order: rising(alloc, size)?,
            places: rising(alloc, size)?,
        })
    }

    /// The number at a place.
    pub(crate) fn at(&self, place: usize) -> u32
        requires { place < length self.now.order }
        ensures value { result ≡ slice_index self.now.order place }
        ensures seated { IsSeated (length self.now.order) self.now }
        ensures within { result < length self.now.order }
    {
        self.order[place]
    }

    /// The place of a number.
    pub(crate) fn place(&self, number: u32) -> usize
        requires { number < length self.now.order }
        ensures value { result ≡ slice_index self.now.places number }
        ensures seated { IsSeated (length self.now.order) self.now }
        ensures within { result < length self.now.order }
    {
        self.places[number as usize] as usize
    }

    /// Exchanges the numbers at two places.
    pub(crate) fn swap(&mut self, i: usize, j: usize)
        requires i { i < length self.old.order }
        requires j { j < length self.old.order }
        ensures exchanged { self.new ≡ exchanged self.old i j }
        ensures old { IsSeated (length self.old.order) self.old }
        ensures seated { IsSeated (length self.old.order) self.new }
    {
        let x = self.order[i];
        let y = self.order[j];
        self.order[i] = y;
        self.order[j] = x;
        self.places[x as usize] = j as u32;
        self.places[y as usize] = i as u32;
    }
}
