//! A row of places in one block of memory: the functions that hold the pointer to it.
//!
//! A place is empty or holds a value. No other module touches a pointer.

ghost use Rattle.std.specs.Prelude.{◌≡◌, ℕ, ◌<◌, ◌≤◌, [], List, Option, Some, None, map, length, take, drop, replicate, get_or, slice_set, IfOk, ⊤};
ghost use Rattle.std.specs.Vec.Ownership.{FitsInBlock};
ghost use base.Fml.{ftrue};
ghost use denote.RawPtr.{Ptr, null_ptr};
ghost use Rattle.sat_arena.specs.Places.{IsHeld, IsRun};
ghost use Rattle.sat_arena.specs.Ownership.{owns_claim, lends_row, owns_row};

use std::alloc::{AllocError, Allocator};
use std::marker::{Model, PhantomData};
use std::mem::{align_of, size_of};
use std::{ptr, slice};

/// Where a row begins. It owns nothing.
pub struct Start<T> {
    address: *mut T,
}

impl<T> Clone for Start<T> {
    ghost is_clone = { λ before after. after ≡ before };

    ghost is_infallible = { λ _. ⊤ };

    fn clone(&self) -> Result<Start<T>, AllocError> {
        Ok(*self)
    }
}

impl<T> Copy for Start<T> {}

impl<T> Start<T> {
    /// Where a row without places begins.
    pub(crate) fn nowhere() -> Start<T>
        ensures { result.address ≡ null_ptr }
    {
        Start {
            address: ptr::null_mut(),
        }
    }
}

/// What owns the places of a row. It takes no room itself. To drop it forgets the places.
#[derive(Drop)]
pub struct Places<T> {
    owner: PhantomData<*const T>,
    ghost start: { Ptr },
    ghost slots: { List (Option T) },
}

impl<T> Model for Places<T> {
    ghost also_owns = { λ places. owns_row T.row places.start places.slots };

    ghost also_shares = { λ places _ κ. lends_row T.row places.start places.slots κ };
}

/// The right to give the memory of a row back to where it is from. It takes no room itself.
pub struct Claim<T, A: Allocator> {
    owner: PhantomData<*const (T, A)>,
    ghost start: { Ptr },
    ghost count: { ℕ },
    ghost alloc: { A },
}

impl<T, A: Allocator> Model for Claim<T, A> {
    ghost also_owns = { λ c. owns_claim T.row (A.dealloc_token c.alloc) c.start c.count };

    ghost also_shares = { λ _ _ _. ftrue };
}

/// A row of `count` empty places.
pub(crate) fn allocate<T, A: Allocator>(
    alloc: &A,
    count: usize,
) -> Result<(Start<T>, Places<T>, Claim<T, A>), AllocError>
    requires { FitsInBlock T.row count }
    ensures { IfOk result (λ r.
        (r.1.start ≡ r.0.address) × (r.1.slots ≡ replicate count None)
        × (r.2.start ≡ r.0.address) × (r.2.count ≡ count) × (r.2.alloc ≡ alloc.now)) }
{
    match alloc.allocate(count * size_of::<T>(), align_of::<T>()) {
        Ok(block) => {
            let start = Start {
                address: block as *mut T,
            };
            Ok((
                start,
                Places { owner: PhantomData },
                Claim { owner: PhantomData },
            ))
        }
        Err(error) => Err(error),
    }
}

/// Gives the memory of a row back. The values that its places hold are forgotten.
pub(crate) fn deallocate<T, A: Allocator>(
    alloc: &A,
    start: Start<T>,
    count: usize,
    places: Places<T>,
    claim: Claim<T, A>,
)
    requires { (places.start ≡ start.address) × (length places.slots ≡ count)
        × (claim.start ≡ start.address) × (claim.count ≡ count) × (claim.alloc ≡ alloc.now)
        × (1 ≤ count) }
{
    let Places { owner: _ } = places;
    let Claim { owner: _ } = claim;
    unsafe {
        alloc.deallocate(
            start.address as *mut u8,
            count * size_of::<T>(),
            align_of::<T>(),
        );
    }
}

impl<T> Places<T> {
    /// The places of a row that has none.
    pub(crate) fn none(start: Start<T>) -> Places<T>
        requires { start.address ≡ null_ptr }
        ensures { (result.start ≡ start.address) × (result.slots ≡ []) }
    {
        Places { owner: PhantomData }
    }

    /// Puts a value into a place. What the place held is forgotten.
    pub(crate) fn write(&mut self, start: Start<T>, index: usize, value: T)
        requires { (start.address ≡ self.old.start) × (index < length self.old.slots) }
        ensures { (self.new.start ≡ self.old.start)
            × (self.new.slots ≡ slice_set self.old.slots index (Some value)) }
    {
        unsafe { start.address.add(index).write(value) }
    }

    /// The value that a place holds.
    pub(crate) fn get(&self, start: Start<T>, index: usize) -> &T
        requires { (start.address ≡ self.now.start) × IsHeld self.now.slots index }
        ensures { get_or self.now.slots index None ≡ Some result.now }
    {
        unsafe { &*start.address.add(index) }
    }

    /// The values of `len` places that follow each other, the first of them at `from`.
    pub(crate) fn slice(&self, start: Start<T>, from: usize, len: usize) -> &[T]
        requires { (start.address ≡ self.now.start) × (1 ≤ length self.now.slots)
            × IsRun self.now.slots from len }
        ensures { take len (drop from self.now.slots) ≡ map Some result.now }
    {
        unsafe { slice::from_raw_parts(start.address.add(from), len) }
    }
}
