//! Values side by side, and the array of the raw pointers through which they are reached, seen as a list.
ghost use Rattle.std.specs.Prelude.{◌≡◌, ◌<◌, ◌^◌, [], ◌∷◌, ◌++◌, length, get_or, slice_get, slice_set, Some, MatchOption, vec_len};
ghost use Rattle.std.specs.Ptr.{ptr_add};
ghost use Rattle.std.specs.Vec.{vec_ptr};
ghost use Rattle.raw_place.specs.Led.{Led};

use crate::row::{Pointer, Row, lent, seen};
use std::alloc::Global;
use std::marker::Model;
use std::mem;

/// Values in the block of a vector, with an array of raw pointers, the pointer `i` to the value `i`. There are as many pointers
/// as values. Contracts see the list of the values.
///
/// It can't be dropped: [`Pointed::pop`] takes its values out, and [`Pointed::destroy_empty`] spends it.
pub(crate) struct Pointed<T> {
    values: Vec<T>,
    pointers: Row<Pointer<T>, Global>,
}

impl<T> Model for Pointed<T> {
    ghost use Rattle.std.specs.Prelude.{List};
    ghost use Rattle.std.specs.Coded.{coded_list};
    ghost use Rattle.raw_place.specs.Led.{Led};

    ghost Value = { List T };

    ghost coded = { coded_list T.code };

    ghost view = { λ p. p.values.items };

    ghost invariant = { λ p. Led p.values p.pointers.items };
}

impl<T> Pointed<T> {
    /// The values with a pointer to each.
    pub fn tie(values: Vec<T>, pointers: Row<Pointer<T>, Global>) -> Pointed<T>
        requires { Led values pointers.items }
        ensures { result ≡ values.items }
    {
        Pointed { values, pointers }
    }

    /// The number of the values.
    pub fn len(&self) -> usize
        ensures exact { result ≡ length self.now }
        ensures bounded { result < 2 ^ 63 }
    {
        self.values.len()
    }

    /// The value that the pointer `i` leads to.
    pub fn get(&self, i: usize) -> &T
        requires { i < length self.now }
        ensures value { slice_get self.now i ≡ Some result.now }
        ensures by_index { (d : T) → result.now ≡ get_or self.now i d }
    {
        let at = way(&self.values, &self.pointers, i);
        seen(&self.values, at, i)
    }

    /// Exchanges the value that the pointer `i` leads to and another.
    pub fn swap(&mut self, i: usize, with: &mut T)
        requires { i < length self.old }
        ensures placed { self.new ≡ slice_set self.old i with.old }
        ensures given { slice_get self.old i ≡ Some with.new }
        ensures by_index { (d : T) → with.new ≡ get_or self.old i d }
    {
        let at = way(&self.values, &self.pointers, i);
        mem::swap(lent(&mut self.values, at, i), with);
    }

    /// Takes the last pointer off, and the value that it led to.
    pub fn pop(&mut self) -> Option<T>
        ensures { MatchOption result ((self.old ≡ []) × (self.new ≡ [])) (λ last. self.old ≡ self.new ++ last ∷ []) }
    {
        if self.values.is_empty() {
            return None;
        }
        drop(self.pointers.take_last());
        Some(self.values.take_last())
    }

    /// Spends the owner, once it has no value.
    pub fn destroy_empty(self)
        requires { self ≡ [] }
    {
        let Pointed { values, pointers } = self;
        values.destroy_empty();
        let _heap = pointers.free();
    }
}

/// Where the pointer `i` leads to: the place of the value `i`.
fn way<T>(_values: &Vec<T>, pointers: &Row<Pointer<T>, Global>, i: usize) -> *mut T
    requires within { i < vec_len _values.now }
    requires led { Led _values.now pointers.now.items }
    ensures { result ≡ ptr_add T.row i (vec_ptr _values.now) }
{
    pointers.as_slice()[i].at()
}
