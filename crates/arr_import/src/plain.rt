//! Columns whose items are stored in place or between offsets, read with nothing to look up but the place. All else is
//! settled once, when the column is asked for.
ghost use Rattle.std.specs.Prelude.{◌≡◌, ◌↔◌, IsTrue, IfSome, IfNone, if◌then◌else◌, None, ◌+◌, ◌<◌, ◌≤◌, ℕ};
ghost use Rattle.data_types.specs.promise.Storage.{storage_of};
ghost use Rattle.data_types.specs.declared.storage.Storage.TheVariants as storages;
ghost use Rattle.data_types.specs.promise.Value.Value.{Null, Truth, Whole, Bits, Bytes};
ghost use Rattle.tree_model.specs.promise.TreeParts.{children_of};
ghost use Rattle.tree_model.specs.promise.TreeData.{trees};
ghost use Rattle.raw_array.specs.promise.Members.{members_of};
ghost use Rattle.layout_rules.specs.promise.Layout.{buffer, first, is_valid as is_valid_at};
ghost use Rattle.data_types.specs.promise.KindTrees.{kind_in};
ghost use Rattle.data_types.specs.TypedView.{dict_in, kids_of};
ghost use Rattle.layout_rules.specs.promise.Values.{readers};
ghost use Rattle.data_types.specs.declared.typed.Typed.{out-Typed};
ghost use Rattle.arr_import.specs.StoredItems.{AreBetween, IsThere, stored_item};
ghost use Rattle.arr_import.specs.Window.{item_at};
ghost use Rattle.arr_import.specs.Cols.{window_of};
ghost use Rattle.arr_import.specs.Plain.{IsBitThere, IsItemThere, IsPlain, IsPlainStorage, ShowsItems, is_valid_in, storage_in, valid_item};
ghost use Rattle.layout_rules.specs.promise.Rules.{window_limit};

use crate::col::Col;
use crate::stored::{bits_at, bytes_at, text_at, truth_at, whole_at};
use data_types::{Storage, kinds_of_typed};
use layout_rules::{lawful_has_no_fault, lawful_items_lie_within, lawful_root};

/// A column whose items are stored in place or between offsets, and are no indices of a dictionary.
#[derive(Clone, Copy)]
pub struct Plain<'a> {
    storage: Storage,
    /// The validity bits, where there are some.
    validity: Option<&'a [u8]>,
    stored: &'a [u8],
    text: &'a [u8],
    /// The place of the first item in the buffers.
    first: u64,
}

impl<'a> Col<'a> {
    /// What each item is, and that it can be read, where they have no dictionary.
    fn items_are_stored(&self)
        requires own { dict_in (out-Typed self.now.typed.now).dict ≡ None }
        ensures near { first (members_of self.now.array.now) + (self.now.start + self.now.count) ≤ window_limit }
        ensures there { (i : ℕ) → i < self.now.count
            → IsThere self.now.storage self.now.stored.now self.now.text.now (first (members_of self.now.array.now) + (self.now.start + i)) }
        ensures validity { (i : ℕ) → i < self.now.count
            → IsBitThere (buffer (members_of self.now.array.now) 0) (first (members_of self.now.array.now) + (self.now.start + i)) }
        ensures items { (i : ℕ) → i < self.now.count → item_at (window_of self.now) i
            ≡ (if is_valid_at (members_of self.now.array.now) (self.now.start + i)
            then stored_item self.now.storage (readers (trees (kids_of self.now.typed.now))) (members_of self.now.array.now)
            (children_of self.now.array.now) (self.now.start + i)
            else Null) }
    {
        kinds_of_typed(self.typed);
        lawful_has_no_fault(self.typed, self.array);
        lawful_root(self.typed, self.array);
        lawful_items_lie_within(self.typed, self.array);
    }

    /// The place of the window's first item in the buffers, also where the window is empty.
    fn first_place(&self) -> u64
        ensures { result ≡ first (members_of self.now.array.now) + self.now.start }
    {
        lawful_has_no_fault(self.typed, self.array);
        lawful_root(self.typed, self.array);
        self.offset + self.start
    }

    /// The column by its places, where its items are stored in place or between offsets, without a dictionary; none for any
    /// other column.
    pub fn plain(&self) -> Option<Plain<'a>>
        ensures some { IfSome result (λ plain. ShowsItems plain (window_of self.now).count (item_at (window_of self.now))) }
        ensures stored { IfSome result (λ plain. storage_in plain ≡ storage_of (kind_in (window_of self.now).typed)) }
        ensures only { IfSome result (λ plain. IsPlain (window_of self.now)) }
        ensures none { IfNone result (¬ IsPlain (window_of self.now)) }
    {
        self.window_is();
        if !is_plain(self.storage) || self.typed.dict.is_some() {
            return None;
        }
        self.items_are_stored();
        Some(Plain {
            storage: self.storage,
            validity: self.validity,
            stored: self.stored,
            text: self.text,
            first: self.first_place(),
        })
    }
}

/// Whether items that are stored so are read by their places.
fn is_plain(storage: Storage) -> bool
    ensures { IsTrue result ↔ IsPlainStorage storage }
{
    match storage {
        Storage::Truths
        | Storage::Wholes { .. }
        | Storage::Floats { .. }
        | Storage::Sized { .. }
        | Storage::Between { .. } => true,
        Storage::Nothing
        | Storage::Lists { .. }
        | Storage::FixedLists { .. }
        | Storage::Children
        | Storage::Views { .. } => false,
    }
}

impl<'a> Plain<'a> {
    /// How the items are stored ("Arrow Columnar Format", "Physical memory layout").
    pub fn storage(&self) -> Storage
        ensures { result ≡ storage_in self.now }
    {
        self.storage
    }

    /// Whether item `i`, counted from 0, isn't null ("Arrow Columnar Format", "Validity bitmaps").
    #[inline(always)]
    pub fn is_valid(&self, i: u64) -> bool
        requires { IsItemThere self.now i }
        ensures { result ≡ is_valid_in self.now i }
    {
        match self.validity {
            Some(bits) => truth_at(bits, self.first + i),
            None => true,
        }
    }
}

impl<'a> Plain<'a> {
    /// Item `i` of truth values. Where it is null, the answer is any.
    #[inline(always)]
    pub fn truth(&self, i: u64) -> bool
        requires there { IsItemThere self.now i }
        requires stored { storage_in self.now ≡ storages.Truths }
        ensures { valid_item self.now i ≡ Truth result }
    {
        truth_at(self.stored, self.first + i)
    }

    /// Item `i` of whole numbers of this many bits, with a sign or without. Where it is null, the answer is any.
    #[inline(always)]
    pub fn whole(&self, bits: u8, signed: bool, i: u64) -> i128
        requires there { IsItemThere self.now i }
        requires stored { storage_in self.now ≡ storages.Wholes bits signed }
        ensures { valid_item self.now i ≡ Whole result }
    {
        whole_at(self.stored, self.first + i, bits / 8, signed)
    }

    /// The bits of item `i` of floats of this many bits, in the low bits of the answer. Where it is null, the answer is any.
    #[inline(always)]
    pub fn float_bits(&self, bits: u8, i: u64) -> u64
        requires there { IsItemThere self.now i }
        requires stored { storage_in self.now ≡ storages.Floats bits }
        ensures { valid_item self.now i ≡ Bits result }
    {
        bits_at(self.stored, self.first + i, bits / 8)
    }

    /// The bytes of item `i` of this many bytes each. Where it is null, the answer is any.
    #[inline(always)]
    pub fn sized(&self, size: u32, i: u64) -> &'a [u8]
        requires there { IsItemThere self.now i }
        requires stored { storage_in self.now ≡ storages.Sized size }
        ensures { valid_item self.now i ≡ Bytes result.now }
    {
        bytes_at(self.stored, self.first + i, size)
    }

    /// The bytes of item `i` of texts or bytes between offsets, of 64 bits where they are wide and else of 32. Where it is
    /// null, the answer is any.
    #[inline(always)]
    pub fn between(&self, wide: bool, i: u64) -> &'a [u8]
        requires there { IsItemThere self.now i }
        requires stored { AreBetween wide (storage_in self.now) }
        ensures { valid_item self.now i ≡ Bytes result.now }
    {
        text_at(wide, self.stored, self.text, self.first + i)
    }
}
