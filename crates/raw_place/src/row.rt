//! Values side by side in one block, by the raw pointer to the first; and raw pointers as such values, to the values of a vector.
ghost use Rattle.std.specs.Prelude.{◌≡◌, ◌≤◌, ◌<◌, ◌^◌, List, length, [], ◌∷◌, ◌++◌, MatchResult, ℕ, slice_index_or, vec_len};
ghost use Rattle.std.specs.Borrow.{sem};
ghost use Rattle.std.specs.Ptr.{Ptr, ptr_add};
ghost use Rattle.std.specs.Vec.{vec_follows_item, vec_ptr};
ghost use Rattle.std.specs.Vec.Ownership.{vec_owns, vec_shares, FitsInBlock};

use std::alloc::Allocator;
use std::marker::{Model, Send, Sync};
use std::mem::{align_of, size_of};

/// The raw pointer to the first of `len` values, in a block that has room for `room`; where `room` is 0 there is no block,
/// and the pointer is not followed.
///
/// It can't be dropped: [`Row::free`] spends it, once it has no value.
pub(crate) struct Row<T, A: Allocator> {
    at: *mut T,
    len: usize,
    room: usize,
    heap: A,
    pub ghost items: { List T },
    ghost counted: { (len ≡ length items) × (len ≤ room) },
    ghost small: { room < 2 ^ 63 },
}

impl<T, A: Allocator> Model for Row<T, A> {
    ghost also_owns = { λ row. vec_owns (A.dealloc_token row.heap) T.row row.at row.len row.room row.items };

    ghost also_shares = { λ row _ κ. vec_shares T.row row.at row.len row.room row.items κ };
}

impl<T, A: Allocator> Row<T, A> {
    /// A row that has no value and no block.
    pub fn empty(heap: A) -> Row<T, A>
        ensures { result.items ≡ [] }
    {
        let mut none: [T; 0] = [];
        Row {
            at: &raw mut none as *mut T,
            len: 0,
            room: 0,
            heap,
        }
    }

    /// A row that has no value yet, in a block from the allocator, whose handle comes back where memory runs out.
    pub fn with_room(heap: A, room: usize) -> Result<Row<T, A>, A>
        requires some { 0 < room }
        requires fits { FitsInBlock T.row room }
        ensures { MatchResult result (λ row. (row.items ≡ []) × (row.room ≡ room)) (λ back. back ≡ heap) }
    {
        match heap.allocate(room * size_of::<T>(), align_of::<T>()) {
            Ok(block) => Ok(Row {
                at: block as *mut T,
                len: 0,
                room,
                heap,
            }),
            Err(_) => Err(heap),
        }
    }

    /// The values, lent.
    pub fn as_slice(&self) -> &[T]
        ensures items { result.now ≡ self.now.items }
        ensures bounded { length self.now.items < 2 ^ 63 }
    {
        unsafe { std::slice::from_raw_parts(self.at.cast_const(), self.len) }
    }

    /// Moves a value behind the last one, where there is room.
    pub fn put(&mut self, value: T)
        requires { length self.old.items < self.old.room }
        ensures items { self.new.items ≡ self.old.items ++ value ∷ [] }
        ensures room { self.new.room ≡ self.old.room }
    {
        let len = self.len;
        unsafe {
            self.at.add(len).write(value);
        }
        self.len = len + 1;
    }

    /// Moves the last value out. Its place stays in the block.
    pub fn take_last(&mut self) -> T
        requires { 0 < length self.old.items }
        ensures { self.old.items ≡ self.new.items ++ result ∷ [] }
    {
        let last = self.len - 1;
        self.len = last;
        unsafe { self.at.add(last).read() }
    }

    /// Gives the block back, once it has no value, and hands out the allocator's handle.
    pub fn free(self) -> A
        requires { self.items ≡ [] }
        ensures { result ≡ self.heap }
    {
        if self.room > 0 {
            unsafe {
                self.heap.deallocate(
                    self.at as *mut u8,
                    self.room * size_of::<T>(),
                    align_of::<T>(),
                );
            }
        }
        let Row {
            at: _,
            len: _,
            room: _,
            heap,
        } = self;
        heap
    }
}

unsafe impl<T: Send, A: Allocator + Send> Send for Row<T, A> {}

unsafe impl<T: Sync, A: Allocator + Sync> Sync for Row<T, A> {}

/// The raw pointer to one of the values of a vector. It owns nothing: `first` is where the vector's values begin, and
/// `number` is this value's among them.
#[derive(Drop)]
pub(crate) struct Pointer<T> {
    at: *mut T,
    pub ghost first: { Ptr },
    pub ghost number: { ℕ },
}

impl<T> Model for Pointer<T> {
    ghost use Rattle.std.specs.Prelude.{ℕ};
    ghost use Rattle.std.specs.Ptr.{Ptr};
    ghost use Rattle.raw_place.specs.Ways.{leads};

    ghost also_owns = { λ p. leads T.row p.first p.number p.at };

    ghost also_shares = { λ p _ κ. leads T.row p.first p.number p.at };
}

impl<T> Pointer<T> {
    /// The pointer to the value `i` of a vector whose values begin at `first`.
    pub fn to<A: Allocator>(values: &Vec<T, A>, first: *mut T, i: usize) -> Pointer<T>
        requires within { i < vec_len values.now }
        requires begin { first ≡ vec_ptr values.now }
        ensures { (result.first ≡ vec_ptr values.now) × (result.number ≡ i) }
    {
        Pointer {
            at: unsafe { first.add(i) },
        }
    }

    /// Where the value is.
    pub fn at(&self) -> *mut T
        ensures { result ≡ ptr_add T.row self.now.number self.now.first }
    {
        self.at
    }
}

unsafe impl<T: Send> Send for Pointer<T> {}

unsafe impl<T: Sync> Sync for Pointer<T> {}

/// The value `_i` of a vector, lent, by the pointer to it.
pub(crate) fn seen<T, A: Allocator>(values: &Vec<T, A>, at: *mut T, _i: usize) -> &T
    requires within { _i < vec_len values.now }
    requires leads { at ≡ ptr_add T.row _i (vec_ptr values.now) }
    ensures { result.now ≡ slice_index_or values.now.items _i result.now }
{
    unsafe { &*at }
}

/// The value `_i` of a vector, lent to be changed, by the pointer to it.
pub(crate) fn lent<T, A: Allocator>(values: &mut Vec<T, A>, at: *mut T, _i: usize) -> &mut T
    requires within { _i < vec_len values.old }
    requires leads { at ≡ ptr_add T.row _i (vec_ptr values.old) }
    ensures* writes_back { sem 𝓛 (vec_follows_item T.row A.row A.Allocator values.entry _i result) }
    ensures value { result.now ≡ slice_index_or values.old.items _i result.now }
{
    unsafe { &mut *at }
}
