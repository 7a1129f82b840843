//! The items of one kind alone: truth values, whole numbers, the bits of floats, and bytes. A column's access decides first, so
//! that the common types have a short way of their own; any other is read by how it is stored, and an index by its entry.
ghost use Rattle.std.specs.Prelude.{◌≡◌, ◌≢◌, true, false, None, ◌≤ℤ◌, ◌<ℤ◌, Bool, ℕ, ℤ, List, IfSome, IfNone, pos, ◌+◌, ◌<◌, if◌then◌else◌};
ghost use Rattle.data_types.specs.promise.Value.Value.{Null, Truth, Whole, Bits, Bytes};
ghost use Rattle.data_types.specs.declared.storage.Storage.TheVariants as storages;
ghost use Rattle.arr_import.specs.declared.access.Access.TheVariants as accesses;
ghost use Rattle.arr_import.specs.Accesses.{IsNumber};
ghost use Rattle.tree_model.specs.promise.TreeParts.{children_of};
ghost use Rattle.tree_model.specs.promise.TreeData.{trees};
ghost use Rattle.raw_array.specs.promise.Members.{members_of};
ghost use Rattle.data_types.specs.TypedView.{dict_in, kids_of};
ghost use Rattle.data_types.specs.declared.typed.Typed.{out-Typed};
ghost use Rattle.layout_rules.specs.promise.Layout.{natural, is_valid as is_valid_at};
ghost use Rattle.layout_rules.specs.promise.Values.{readers};
ghost use Rattle.arr_import.specs.StoredItems.{stored_item, AreBetween, IsOwn, IsViewStorage};
ghost use Rattle.arr_import.specs.Window.{item_at};
ghost use Rattle.arr_import.specs.Cols.{window_of};

use crate::access::Access;
use crate::col::Col;
use crate::stored::{bits_at, bytes_at, text_at, truth_at, whole_at};
use data_types::{Storage, kinds_of_typed};
use layout_rules::{lawful_has_no_fault, lawful_root};

impl<'a> Col<'a> {
    /// Item `i` where it is a truth value, also through a dictionary; none where it is null or of any other kind.
    #[inline(always)]
    pub fn truth(&self, i: i64) -> Option<bool>
        requires from { pos 0 ≤ℤ i }
        requires below { i <ℤ pos (window_of self.now).count }
        ensures some { IfSome result (λ truth. item_at (window_of self.now) (natural i) ≡ Truth truth) }
        ensures none { IfNone result ((truth : Bool) → item_at (window_of self.now) (natural i) ≢ Truth truth) }
    {
        let i = i as u64;
        self.access_is();
        match self.access {
            Access::Truths => self.own_truth(i),
            _ => self.entry_truth(i),
        }
    }

    /// Item `i` where it is a whole number: of an integer, date, time or duration, or a decimal's unscaled number. None as
    /// [`Col::truth`].
    #[inline(always)]
    pub fn whole(&self, i: i64) -> Option<i128>
        requires from { pos 0 ≤ℤ i }
        requires below { i <ℤ pos (window_of self.now).count }
        ensures some { IfSome result (λ number. item_at (window_of self.now) (natural i) ≡ Whole number) }
        ensures none { IfNone result ((number : ℤ) → item_at (window_of self.now) (natural i) ≢ Whole number) }
    {
        let i = i as u64;
        self.access_is();
        match self.access {
            Access::Int32 => self.own_whole(i, 32, true),
            Access::Int64 => self.own_whole(i, 64, true),
            Access::Int128 => self.own_whole(i, 128, true),
            _ => self.other_whole(i),
        }
    }

    /// The bits of item `i` where it is a float of 16, 32 or 64 bits, in the low bits of the answer. None as [`Col::truth`].
    #[inline(always)]
    pub fn bits(&self, i: i64) -> Option<u64>
        requires from { pos 0 ≤ℤ i }
        requires below { i <ℤ pos (window_of self.now).count }
        ensures some { IfSome result (λ bits. item_at (window_of self.now) (natural i) ≡ Bits bits) }
        ensures none { IfNone result ((bits : ℕ) → item_at (window_of self.now) (natural i) ≢ Bits bits) }
    {
        let i = i as u64;
        match self.storage {
            Storage::Floats { bits } => self.own_bits(i, bits),
            _ => self.entry_bits(i),
        }
    }

    /// The bytes of item `i` where it is a text, binary or of a fixed size, lent from the array's blocks. None as
    /// [`Col::truth`].
    #[inline(always)]
    pub fn bytes(&self, i: i64) -> Option<&'a [u8]>
        requires from { pos 0 ≤ℤ i }
        requires below { i <ℤ pos (window_of self.now).count }
        ensures some { IfSome result (λ bytes. item_at (window_of self.now) (natural i) ≡ Bytes bytes.now) }
        ensures none { IfNone result ((bytes : List ℕ) → item_at (window_of self.now) (natural i) ≢ Bytes bytes) }
    {
        let i = i as u64;
        self.access_is();
        match self.access {
            Access::Between32 => self.own_text(i, false),
            _ => self.rare_bytes(i),
        }
    }
}

impl<'a> Col<'a> {
    /// What an item is where it has no dictionary, or where it is null.
    pub(crate) fn own_item_is(&self, i: u64)
        requires inside { i < self.now.count }
        requires own { is_valid_at (members_of self.now.array.now) (self.now.start + i) ≡ true → dict_in (out-Typed self.now.typed.now).dict ≡ None }
        ensures { item_at (window_of self.now) i ≡ (if is_valid_at (members_of self.now.array.now) (self.now.start + i)
            then stored_item self.now.storage (readers (trees (kids_of self.now.typed.now))) (members_of self.now.array.now)
            (children_of self.now.array.now) (self.now.start + i)
            else Null) }
    {
        kinds_of_typed(self.typed);
        lawful_has_no_fault(self.typed, self.array);
        lawful_root(self.typed, self.array);
    }

    /// What the access says of the storage, and of the dictionary.
    fn access_is(&self)
        ensures truths { self.now.access ≡ accesses.Truths → self.now.storage ≡ storages.Truths }
        ensures between { self.now.access ≡ accesses.Between32 → AreBetween false self.now.storage }
        ensures int32 { self.now.access ≡ accesses.Int32 → self.now.storage ≡ storages.Wholes 32 true }
        ensures int64 { self.now.access ≡ accesses.Int64 → self.now.storage ≡ storages.Wholes 64 true }
        ensures int128 { self.now.access ≡ accesses.Int128 → self.now.storage ≡ storages.Wholes 128 true }
        ensures own { IsNumber self.now.access → dict_in (out-Typed self.now.typed.now).dict ≡ None }
    {}

    /// Only whole numbers have a dictionary.
    pub(crate) fn has_no_dictionary(&self)
        requires { IsOwn self.now.storage }
        ensures { dict_in (out-Typed self.now.typed.now).dict ≡ None }
    {
        kinds_of_typed(self.typed);
    }
}

impl<'a> Col<'a> {
    #[inline(always)]
    fn own_truth(&self, i: u64) -> Option<bool>
        requires inside { i < self.now.count }
        requires storage { self.now.storage ≡ storages.Truths }
        ensures some { IfSome result (λ truth. item_at (window_of self.now) i ≡ Truth truth) }
        ensures none { IfNone result ((truth : Bool) → item_at (window_of self.now) i ≢ Truth truth) }
    {
        self.has_no_dictionary();
        self.own_item_is(i);
        self.item_is_there(i);
        if !self.is_valid(i) {
            return None;
        }
        Some(truth_at(self.stored, self.place(i)))
    }

    #[inline(always)]
    fn own_whole(&self, i: u64, bits: u8, signed: bool) -> Option<i128>
        requires inside { i < self.now.count }
        requires storage { self.now.storage ≡ storages.Wholes bits signed }
        requires own { is_valid_at (members_of self.now.array.now) (self.now.start + i) ≡ true → dict_in (out-Typed self.now.typed.now).dict ≡ None }
        ensures some { IfSome result (λ number. item_at (window_of self.now) i ≡ Whole number) }
        ensures none { IfNone result ((number : ℤ) → item_at (window_of self.now) i ≢ Whole number) }
    {
        self.own_item_is(i);
        self.item_is_there(i);
        if !self.is_valid(i) {
            return None;
        }
        Some(whole_at(self.stored, self.place(i), bits / 8, signed))
    }

    #[inline(always)]
    fn own_bits(&self, i: u64, bits: u8) -> Option<u64>
        requires inside { i < self.now.count }
        requires storage { self.now.storage ≡ storages.Floats bits }
        ensures some { IfSome result (λ number. item_at (window_of self.now) i ≡ Bits number) }
        ensures none { IfNone result ((number : ℕ) → item_at (window_of self.now) i ≢ Bits number) }
    {
        self.has_no_dictionary();
        self.own_item_is(i);
        self.item_is_there(i);
        if !self.is_valid(i) {
            return None;
        }
        Some(bits_at(self.stored, self.place(i), bits / 8))
    }

    #[inline(always)]
    fn own_text(&self, i: u64, wide: bool) -> Option<&'a [u8]>
        requires inside { i < self.now.count }
        requires storage { AreBetween wide self.now.storage }
        ensures some { IfSome result (λ bytes. item_at (window_of self.now) i ≡ Bytes bytes.now) }
        ensures none { IfNone result ((bytes : List ℕ) → item_at (window_of self.now) i ≢ Bytes bytes) }
    {
        self.has_no_dictionary();
        self.own_item_is(i);
        self.item_is_there(i);
        if !self.is_valid(i) {
            return None;
        }
        Some(text_at(wide, self.stored, self.text, self.place(i)))
    }

    #[inline(always)]
    fn own_sized(&self, i: u64, size: u32) -> Option<&'a [u8]>
        requires inside { i < self.now.count }
        requires storage { self.now.storage ≡ storages.Sized size }
        ensures some { IfSome result (λ bytes. item_at (window_of self.now) i ≡ Bytes bytes.now) }
        ensures none { IfNone result ((bytes : List ℕ) → item_at (window_of self.now) i ≢ Bytes bytes) }
    {
        self.has_no_dictionary();
        self.own_item_is(i);
        self.item_is_there(i);
        if !self.is_valid(i) {
            return None;
        }
        Some(bytes_at(self.stored, self.place(i), size))
    }

    fn own_view(&self, i: u64) -> Option<&'a [u8]>
        requires inside { i < self.now.count }
        requires storage { IsViewStorage self.now.storage }
        ensures some { IfSome result (λ bytes. item_at (window_of self.now) i ≡ Bytes bytes.now) }
        ensures none { IfNone result ((bytes : List ℕ) → item_at (window_of self.now) i ≢ Bytes bytes) }
    {
        self.has_no_dictionary();
        self.own_item_is(i);
        if !self.is_valid(i) {
            return None;
        }
        Some(self.view(i))
    }
}

impl<'a> Col<'a> {
    #[inline(never)]
    fn entry_truth(&self, i: u64) -> Option<bool>
        requires { i < self.now.count }
        ensures some { IfSome result (λ truth. item_at (window_of self.now) i ≡ Truth truth) }
        ensures none { IfNone result ((truth : Bool) → item_at (window_of self.now) i ≢ Truth truth) }
    {
        let (home, place) = self.home_at(i);
        match home.storage {
            Storage::Truths => home.own_truth(place),
            _ => {
                home.own_item_is(place);
                None
            }
        }
    }

    /// A whole number, however it is stored.
    #[inline(never)]
    fn other_whole(&self, i: u64) -> Option<i128>
        requires { i < self.now.count }
        ensures some { IfSome result (λ number. item_at (window_of self.now) i ≡ Whole number) }
        ensures none { IfNone result ((number : ℤ) → item_at (window_of self.now) i ≢ Whole number) }
    {
        if self.typed.dict.is_some() {
            return self.entry_whole(i);
        }
        match self.storage {
            Storage::Wholes { bits, signed } => self.own_whole(i, bits, signed),
            _ => {
                self.own_item_is(i);
                None
            }
        }
    }

    fn entry_whole(&self, i: u64) -> Option<i128>
        requires { i < self.now.count }
        ensures some { IfSome result (λ number. item_at (window_of self.now) i ≡ Whole number) }
        ensures none { IfNone result ((number : ℤ) → item_at (window_of self.now) i ≢ Whole number) }
    {
        let (home, place) = self.home_at(i);
        match home.storage {
            Storage::Wholes { bits, signed } => home.own_whole(place, bits, signed),
            _ => {
                home.own_item_is(place);
                None
            }
        }
    }

    #[inline(never)]
    fn entry_bits(&self, i: u64) -> Option<u64>
        requires { i < self.now.count }
        ensures some { IfSome result (λ number. item_at (window_of self.now) i ≡ Bits number) }
        ensures none { IfNone result ((number : ℕ) → item_at (window_of self.now) i ≢ Bits number) }
    {
        let (home, place) = self.home_at(i);
        match home.storage {
            Storage::Floats { bits } => home.own_bits(place, bits),
            _ => {
                home.own_item_is(place);
                None
            }
        }
    }

    /// The same as [`Col::other_bytes`]. Its answer gets its room here, and so not for each item of [`Col::bytes`].
    #[inline(always)]
    fn rare_bytes(&self, i: u64) -> Option<&'a [u8]>
        requires { i < self.now.count }
        ensures some { IfSome result (λ bytes. item_at (window_of self.now) i ≡ Bytes bytes.now) }
        ensures none { IfNone result ((bytes : List ℕ) → item_at (window_of self.now) i ≢ Bytes bytes) }
    {
        match self.other_bytes(i) {
            Some(bytes) => Some(bytes),
            None => None,
        }
    }

    /// The bytes of an item, however they are stored.
    #[inline(never)]
    fn other_bytes(&self, i: u64) -> Option<&'a [u8]>
        requires { i < self.now.count }
        ensures some { IfSome result (λ bytes. item_at (window_of self.now) i ≡ Bytes bytes.now) }
        ensures none { IfNone result ((bytes : List ℕ) → item_at (window_of self.now) i ≢ Bytes bytes) }
    {
        match self.storage {
            Storage::Between { wide, .. } => self.own_text(i, wide),
            Storage::Sized { size } => self.own_sized(i, size),
            Storage::Views { .. } => self.own_view(i),
            _ => self.entry_bytes(i),
        }
    }

    fn entry_bytes(&self, i: u64) -> Option<&'a [u8]>
        requires { i < self.now.count }
        ensures some { IfSome result (λ bytes. item_at (window_of self.now) i ≡ Bytes bytes.now) }
        ensures none { IfNone result ((bytes : List ℕ) → item_at (window_of self.now) i ≢ Bytes bytes) }
    {
        let (home, place) = self.home_at(i);
        match home.storage {
            Storage::Between { wide, .. } => home.own_text(place, wide),
            Storage::Sized { size } => home.own_sized(place, size),
            Storage::Views { .. } => home.own_view(place),
            _ => {
                home.own_item_is(place);
                None
            }
        }
    }
}
