//! Variables by their activity.

ghost use Rattle.std.specs.Prelude.{◌≡◌, ◌+◌, ◌-◌, ◌^◌, ◌≤◌, IfNone, IfOk, IfSome, IsFalse, IsTrue, false, length, replicate, slice_set, true};
ghost use Rattle.sat_order.specs.Heap.{IsHeap, IsSeated};
ghost use Rattle.sat_order.specs.Order.{AreAsleep, IsAhead, IsBehind, IsBest, IsEmpty, IsVariable, IsWhole, activity_of, scaled};

use crate::bit_set::BitSet;
use crate::seating::Seating;
use crate::sift::{enter, heapify, leave, sift_up};
use sat_clause::VARIABLE_LIMIT;
use std::alloc::{AllocError, Global};
use std::marker::Model;

/// The variables 1 to a number, each with an activity, some of them held.
///
/// To take, put back or bump a variable takes a time by the logarithm of their number; to take one
/// of activity 0 may read a word for each 64 variables besides. To tell an activity takes the same
/// time whatever the number, and to rescale a time by their number. Nothing but [`Order::new`]
/// takes memory.
#[derive(Drop)]
pub struct Order {
    activities: Vec<u64>,
    // a heap in the first seats
    seats: Seating,
    count: usize,
    // held variables of activity 0 that are not in the heap
    idle: BitSet,
}

impl Model for Order {
    ghost use Rattle.std.specs.Prelude.{length};
    ghost use Rattle.sat_order.specs.Heap.{held_of};
    ghost use Rattle.sat_order.specs.Order.{OrderState, IsOrderStore, joined};

    ghost Value = { OrderState };

    ghost view = { λ o. record {
      vars = length o.activities.items;
      activities = o.activities.items;
      held = joined (held_of o.count o.seats) o.idle;
    } };

    ghost invariant = { λ o. IsOrderStore o.activities o.seats o.count o.idle };
}

/// Divides each activity by 2^40, rounding down.
fn scale(activities: &mut Vec<u64>)
    ensures { activities.new.items ≡ scaled activities.old.items }
{
    for activity in activities.iter_mut() {
        *activity /= 1 << 40;
    }
}

/// Whether the first of the heap comes before all that are idle.
fn is_ahead(seats: &Seating, activities: &[u64], idle: &mut BitSet, count: usize) -> bool
    requires seated { IsSeated (length activities.now) seats.now }
    requires count { count ≤ length activities.now }
    requires heap { IsHeap activities.now seats.now count 0 }
    requires asleep { AreAsleep activities.now idle.old }
    ensures idle { idle.new ≡ idle.old }
    ensures some { IsTrue result → 1 ≤ count }
    ensures ahead { IsTrue result → IsAhead activities.now seats.now idle.old }
    ensures behind { IsFalse result → IsBehind activities.now seats.now count idle.old }
{
    if count == 0 {
        return false;
    }
    let first = seats.at(0);
    if activities[first as usize] > 0 {
        return true;
    }
    let Some(least) = idle.least() else {
        return true;
    };
    first < least
}

impl Order {
    /// All variables from 1 on, held with activity 0.
    pub fn new(alloc: Global, vars: u32) -> Result<Order, AllocError>
        requires { vars ≤ VARIABLE_LIMIT }
        ensures { IfOk result (λ o. o ≡ record {
          vars = vars;
          activities = replicate vars 0;
          held = replicate vars true;
        }) }
    {
        Ok(Order {
            activities: vec![in alloc; 0; vars as usize]?,
            seats: Seating::new(alloc, vars)?,
            count: 0,
            idle: BitSet::full(alloc, vars)?,
        })
    }

    /// Takes out the least of the held variables that have the greatest activity, if one is held.
    pub fn take_best(&mut self) -> Option<u32>
        ensures best { IfSome result (IsBest self.old) }
        ensures taken { IfSome result
            (λ v. self.new ≡ record self.old { held = slice_set self.old.held (v - 1) false }) }
        ensures none { IfNone result (IsEmpty self.old) }
        ensures kept { IfNone result (self.new ≡ self.old) }
    {
        if is_ahead(&self.seats, &self.activities, &mut self.idle, self.count) {
            let first = leave(&mut self.seats, &self.activities, self.count);
            self.count -= 1;
            return Some(first + 1);
        }
        let Some(least) = self.idle.least() else {
            return None;
        };
        self.idle.remove(least);
        Some(least + 1)
    }

    /// Puts a variable in, which changes nothing where it is held.
    pub fn put_back(&mut self, v: u32)
        requires { IsVariable self.old v }
        ensures { self.new ≡ record self.old { held = slice_set self.old.held (v - 1) true } }
    {
        let number = v - 1;
        // A bit is looked at before what takes more memory.
        if self.idle.has(number) {
            return;
        }
        if self.seats.place(number) < self.count {
            return;
        }
        if self.activities[number as usize] == 0 {
            self.idle.insert(number);
            return;
        }
        enter(&mut self.seats, &self.activities, self.count, number);
        self.count += 1;
    }

    /// Adds to the activity of a variable, held or not.
    pub fn bump(&mut self, v: u32, by: u64)
        requires variable { IsVariable self.old v }
        requires sum { activity_of self.old v + by ≤ 2 ^ 62 }
        ensures { self.new ≡ record self.old {
          activities = slice_set self.old.activities (v - 1) (activity_of self.old v + by);
        } }
    {
        let number = v - 1;
        self.activities[number as usize] += by;
        if self.idle.has(number) {
            self.idle.remove(number);
            enter(&mut self.seats, &self.activities, self.count, number);
            self.count += 1;
            return;
        }
        let place = self.seats.place(number);
        if place < self.count {
            sift_up(&mut self.seats, &self.activities, self.count, place);
        }
    }

    /// The activity of a variable, held or not.
    pub fn activity(&self, v: u32) -> u64
        requires { IsVariable self.now v }
        ensures value { result ≡ activity_of self.now v }
        ensures whole { IsWhole self.now }
    {
        self.activities[v as usize - 1]
    }

    /// Divides every activity by 2^40, rounding down.
    pub fn rescale(&mut self)
        ensures { self.new ≡ record self.old { activities = scaled self.old.activities } }
    {
        scale(&mut self.activities);
        heapify(&mut self.seats, &self.activities, self.count);
    }
}
