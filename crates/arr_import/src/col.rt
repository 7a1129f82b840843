//! A column: a window over the items of an array, with what it looks up once.
ghost use Rattle.std.specs.Prelude.{◌≡◌, IsTrue, is_none, is_some, ◌+◌, ◌<◌, ◌≤◌, ◌^◌};
ghost use Rattle.tree_model.specs.promise.TreeParts.{IsLive, dictionary_of};
ghost use Rattle.raw_array.specs.promise.Members.{members_of};
ghost use Rattle.data_types.specs.promise.KindTrees.{kind_in};
ghost use Rattle.data_types.specs.KindTrees.{NodesOk};
ghost use Rattle.data_types.specs.promise.TypedView.{typed_of};
ghost use Rattle.data_types.specs.TypedView.{kind_of, dict_in};
ghost use Rattle.data_types.specs.declared.typed.Typed.{out-Typed};
ghost use Rattle.arr_import.specs.Accesses.{access_of};
ghost use Rattle.layout_rules.specs.promise.Layout.{buffer, bytes, first};
ghost use Rattle.layout_rules.specs.promise.Walk.{first_fault};
ghost use Rattle.layout_rules.specs.promise.Values.{tree_items};
ghost use Rattle.arr_import.specs.Lent.{lent_bytes};
ghost use Rattle.data_types.specs.promise.Storage.{storage_of as storage_is};
ghost use Rattle.std.proofs.Props.{props};

use crate::access::{Access, access_of};
use data_types::{Storage, Typed, kinds_of_typed, storage_of};
use layout_rules::{lawful_has_no_fault, lawful_root};
use raw_array::RawArray;

/// A column: a window over the items of a lawful array, read in place. Its buffers are looked up once.
#[derive(Clone, Copy)]
pub struct Col<'a> {
    pub(crate) typed: &'a Typed,
    pub(crate) array: &'a RawArray,
    /// The first item, counted in the array's own window.
    pub(crate) start: u64,
    pub(crate) count: u64,
    /// The array's offset.
    pub(crate) offset: u64,
    pub(crate) storage: Storage,
    pub(crate) access: Access,
    pub(crate) validity: Option<&'a [u8]>,
    pub(crate) stored: &'a [u8],
    pub(crate) text: &'a [u8],
    ghost lawful: { IsTrue (is_none (first_fault (typed_of typed.now) array.now)) },
    ghost valid: { ∥ NodesOk (typed_of typed.now) ∥₁ },
    ghost within: { start + count ≤ tree_items array.now },
    ghost offset_is: { offset ≡ first (members_of array.now) },
    ghost storage_ok: { storage ≡ storage_is (kind_of typed.now) } by { Prim.hlevel props },
    ghost access_ok: { access ≡ access_of storage (is_some (dict_in (out-Typed typed.now).dict)) } by { Prim.hlevel props },
    ghost validity_is: { lent_bytes validity ≡ buffer (members_of array.now) 0 } by { Prim.hlevel props },
    ghost stored_is: { stored.now ≡ bytes (members_of array.now) 1 },
    ghost text_is: { text.now ≡ bytes (members_of array.now) 2 },
}

/// The validity bits of an array, where there are some.
pub fn validity_of(array: &RawArray) -> Option<&[u8]>
    requires { IsLive array.now }
    ensures { lent_bytes result ≡ buffer (members_of array.now) 0 }
{
    if array.n_buffers() > 0 {
        array.buffer(0)
    } else {
        None
    }
}

/// The bytes of a buffer, and none where it is absent or there is none of that number.
pub fn buffer_bytes(array: &RawArray, k: usize) -> &[u8]
    requires live { IsLive array.now }
    requires small { k < 2 ^ 63 }
    ensures { result.now ≡ bytes (members_of array.now) k }
{
    if (k as i64) < array.n_buffers() {
        match array.buffer(k) {
            Some(bytes) => bytes,
            None => &[],
        }
    } else {
        &[]
    }
}

impl<'a> Col<'a> {
    ghost use Rattle.std.specs.Prelude.{pos};
    ghost use Rattle.data_types.specs.KindTrees.{TypedOk};
    ghost use Rattle.layout_rules.specs.promise.Walk.{LayoutOk};
    ghost use Rattle.layout_rules.specs.promise.Values.{values_of};
    ghost use Rattle.arr_import.specs.Window.{whole, items_of};
    ghost use Rattle.arr_import.specs.Cols.{window_of};

    /// All items of an array that `layout_check::check_array` accepted.
    #[inline(always)]
    pub fn of(typed: &'a Typed, array: &'a RawArray) -> Col<'a>
        requires lawful { LayoutOk (typed_of typed.now) array.now }
        requires types { TypedOk (typed_of typed.now) }
        ensures window { window_of result ≡ whole (typed_of typed.now) array.now }
        ensures values { items_of (window_of result) ≡ values_of (typed_of typed.now) array.now }
    {
        lawful_has_no_fault(typed, array);
        lawful_root(typed, array);
        Col::window(typed, array, 0, array.length() as u64)
    }

    /// Some items of an array.
    #[inline(always)]
    pub(crate) fn window(typed: &'a Typed, array: &'a RawArray, start: u64, count: u64) -> Col<'a>
        requires lawful { IsTrue (is_none (first_fault (typed_of typed.now) array.now)) }
        requires valid { ∥ NodesOk (typed_of typed.now) ∥₁ }
        requires within { start + count ≤ tree_items array.now }
        ensures { window_of result ≡ record { typed = typed_of typed.now; array = array.now; start = start; count = count } }
    {
        lawful_has_no_fault(typed, array);
        lawful_root(typed, array);
        let storage = storage_of(&typed.kind);
        Col {
            typed,
            array,
            start,
            count,
            offset: array.offset() as u64,
            storage,
            access: access_of(storage, typed.dict.is_some()),
            validity: validity_of(array),
            stored: buffer_bytes(array, 1),
            text: buffer_bytes(array, 2),
        }
    }

    /// The number of items of the window.
    pub fn len(&self) -> i64
        ensures { result ≡ pos (window_of self.now).count }
    {
        lawful_has_no_fault(self.typed, self.array);
        lawful_root(self.typed, self.array);
        self.count as i64
    }

    /// What the column keeps, said of its window.
    pub(crate) fn window_is(&self)
        ensures kind { kind_in (window_of self.now).typed ≡ kind_of self.now.typed.now }
        ensures storage { storage_is (kind_in (window_of self.now).typed) ≡ self.now.storage }
        ensures dictionary { dictionary_of (window_of self.now).typed ≡ dict_in (out-Typed self.now.typed.now).dict }
    {
        kinds_of_typed(self.typed);
    }
}
