//! The block of one value, by its raw pointer: a room without a value, and a spot with one.
ghost use Rattle.std.specs.Prelude.{◌≡◌, MatchResult};
ghost use Rattle.std.specs.Box.Ownership.{box_owns};
ghost use denote.Struct.Lending.{lent_at};

use std::alloc::Allocator;
use std::marker::{Model, Send, Sync};
use std::mem::{align_of, size_of};

/// The block for one value, which is not there yet.
///
/// It can't be dropped: [`Room::fill`] and [`Room::free`] spend it.
pub(crate) struct Room<T, A: Allocator> {
    at: *mut T,
    heap: A,
}

impl<T, A: Allocator> Model for Room<T, A> {
    ghost use Rattle.raw_place.specs.Blocks.{room_owns};

    ghost also_owns = { λ room. room_owns (A.dealloc_token room.heap) T.row room.at };
}

impl<T, A: Allocator> Room<T, A> {
    /// A block from the allocator, whose handle comes back where memory runs out.
    pub fn take(heap: A) -> Result<Room<T, A>, A>
        ensures { MatchResult result (λ room. room.heap ≡ heap) (λ back. back ≡ heap) }
    {
        match heap.allocate(size_of::<T>(), align_of::<T>()) {
            Ok(block) => Ok(Room {
                at: block as *mut T,
                heap,
            }),
            Err(_) => Err(heap),
        }
    }

    /// Moves the value into the block.
    pub fn fill(self, value: T) -> Spot<T, A>
        ensures { result.value ≡ value }
    {
        let Room { at, heap } = self;
        unsafe {
            at.write(value);
        }
        Spot { at, heap }
    }

    /// Gives the block back, and hands out the allocator's handle.
    pub fn free(self) -> A
        ensures { result ≡ self.heap }
    {
        unsafe {
            self.heap
                .deallocate(self.at as *mut u8, size_of::<T>(), align_of::<T>());
        }
        let Room { at: _, heap } = self;
        heap
    }
}

/// The raw pointer to one value in a block of its own, with the handle of the allocator that the block goes back to.
///
/// It can't be dropped: [`Spot::leave`] spends it.
pub(crate) struct Spot<T, A: Allocator> {
    at: *mut T,
    heap: A,
    pub ghost value: { T },
}

impl<T, A: Allocator> Model for Spot<T, A> {
    ghost also_owns = { λ spot. box_owns (A.dealloc_token spot.heap) T.row spot.at spot.value };

    ghost also_shares = { λ spot _ κ. lent_at T.row spot.at spot.value κ };
}

impl<T, A: Allocator> Spot<T, A> {
    ghost use Rattle.raw_place.specs.Lent.{spot_follows};
    ghost use Rattle.std.specs.Borrow.{sem};

    /// The value, lent.
    pub fn get(&self) -> &T
        ensures { result.now ≡ self.now.value }
    {
        unsafe { &*self.at }
    }

    /// The value, lent to be changed where it lies.
    pub fn lend(&mut self) -> &mut T
        ensures* writes_back { sem 𝓛 (spot_follows T.row A.row A.Allocator self.entry result) }
        ensures value { result.now ≡ self.old.value }
    {
        unsafe { &mut *self.at }
    }

    /// Moves the value out, and leaves its room.
    pub fn leave(self) -> (T, Room<T, A>)
        ensures { result.0 ≡ self.value }
    {
        let Spot { at, heap } = self;
        let value = unsafe { at.read() };
        (value, Room { at, heap })
    }
}

unsafe impl<T: Send, A: Allocator + Send> Send for Spot<T, A> {}

unsafe impl<T: Sync, A: Allocator + Sync> Sync for Spot<T, A> {}
