//! The items of a column without a dictionary.
ghost use Rattle.std.specs.Prelude.{◌≡◌, true, ◌==◌, ◌+◌, ◌*◌, ◌<◌, ◌≤◌, length, get_or};
ghost use Rattle.data_types.specs.promise.Packed.{bit};
ghost use Rattle.raw_array.specs.promise.Members.{members_of};
ghost use Rattle.tree_model.specs.promise.TreeData.{Released, trees};
ghost use Rattle.tree_model.specs.promise.TreeParts.{children_of, child_at};
ghost use Rattle.data_types.specs.TypedView.{kind_of, kids_of};
ghost use Rattle.layout_rules.specs.promise.Layout.{first, is_valid as is_valid_at};
ghost use Rattle.layout_rules.specs.promise.Values.{each, child_item, listed, readers, tree_items};
ghost use Rattle.arr_import.specs.StoredItems.{stored_item, IsThere, IsListStorage, AreItemsThere};
ghost use Rattle.data_types.specs.declared.storage.Storage.TheVariants as storages;
ghost use Rattle.data_types.specs.promise.Value.{values};
ghost use Rattle.data_types.specs.promise.Value.Value.{Items};
ghost use Rattle.arr_import.specs.Window.{items_of};
ghost use Rattle.arr_import.specs.Cols.{window_of};
ghost use Rattle.arr_import.specs.Shown.{Shows};
ghost use Rattle.layout_rules.specs.promise.Rules.{window_limit};

use crate::col::Col;
use crate::stored::{bits_at, bytes_at, start_at, text_at, truth_at, whole_at};
use crate::value_ref::ValueRef;
use bit_pack::bit_at;
use data_types::{Storage, kinds_of_typed};
use layout_rules::{lawful_has_no_fault, lawful_items_lie_within, lawful_parts, lawful_root};

impl<'a> Col<'a> {
    /// What the buffers have of an item.
    pub(crate) fn item_is_there(&self, i: u64)
        requires { i < self.now.count }
        ensures { IsThere self.now.storage self.now.stored.now self.now.text.now (first (members_of self.now.array.now) + (self.now.start + i)) }
    {
        kinds_of_typed(self.typed);
        lawful_has_no_fault(self.typed, self.array);
        lawful_items_lie_within(self.typed, self.array);
    }

    /// The place of an item in the buffers.
    #[inline(always)]
    pub(crate) fn place(&self, i: u64) -> u64
        requires { i < self.now.count }
        ensures { result ≡ first (members_of self.now.array.now) + (self.now.start + i) }
    {
        lawful_has_no_fault(self.typed, self.array);
        lawful_root(self.typed, self.array);
        self.offset + (self.start + i)
    }

    #[inline(always)]
    pub(crate) fn is_valid(&self, i: u64) -> bool
        requires { i < self.now.count }
        ensures { result ≡ is_valid_at (members_of self.now.array.now) (self.now.start + i) }
    {
        lawful_has_no_fault(self.typed, self.array);
        lawful_root(self.typed, self.array);
        match self.validity {
            Some(bits) => is_set(bits, self.place(i)),
            None => true,
        }
    }
}

impl<'a> Col<'a> {
    /// Some items of a child.
    #[inline(always)]
    pub(crate) fn child_items(&self, k: usize, from: u64, count: u64) -> Col<'a>
        requires inside { k < length (kids_of self.now.typed.now) }
        requires within { from + count ≤ tree_items (child_at self.now.array.now k) }
        ensures { window_of result
            ≡ record { typed = get_or (kids_of self.now.typed.now) k Released; array = child_at self.now.array.now k; start = from; count = count } }
    {
        kinds_of_typed(self.typed);
        lawful_has_no_fault(self.typed, self.array);
        lawful_root(self.typed, self.array);
        lawful_parts(self.typed, self.array);
        let kid = &self.typed.kids[k];
        let child = self.array.child(k);
        lawful_has_no_fault(kid, child);
        Col::window(kid, child, from, count)
    }
}

impl<'a> Col<'a> {
    /// What the one child has of an item.
    fn items_are_there(&self, i: u64)
        requires inside { i < self.now.count }
        requires list { IsListStorage self.now.storage }
        ensures one { length (kids_of self.now.typed.now) ≡ 1 }
        ensures live { length (children_of self.now.array.now) ≡ 1 }
        ensures few { tree_items (child_at self.now.array.now 0) ≤ window_limit }
        ensures items { AreItemsThere self.now.storage self.now.stored.now (first (members_of self.now.array.now) + (self.now.start + i))
            (tree_items (child_at self.now.array.now 0)) }
    {
        kinds_of_typed(self.typed);
        lawful_has_no_fault(self.typed, self.array);
        lawful_root(self.typed, self.array);
        lawful_parts(self.typed, self.array);
        lawful_items_lie_within(self.typed, self.array);
    }

    /// The items between two offsets.
    fn list(&self, wide: bool, i: u64) -> Col<'a>
        requires inside { i < self.now.count }
        requires storage { self.now.storage ≡ storages.Lists wide }
        ensures { listed wide (readers (trees (kids_of self.now.typed.now))) (members_of self.now.array.now) (children_of self.now.array.now)
            (self.now.start + i) ≡ Items (values (items_of (window_of result))) }
    {
        self.item_is_there(i);
        self.items_are_there(i);
        let place = self.place(i);
        let here = start_at(wide, self.stored, place);
        let next = start_at(wide, self.stored, place + 1);
        self.child_items(0, here, next - here)
    }

    /// This many items for each item.
    fn fixed_list(&self, size: u32, i: u64) -> Col<'a>
        requires inside { i < self.now.count }
        requires storage { self.now.storage ≡ storages.FixedLists size }
        ensures { Items (values (each (child_item (readers (trees (kids_of self.now.typed.now))) (children_of self.now.array.now))
            ((first (members_of self.now.array.now) + (self.now.start + i)) * size) size)) ≡ Items (values (items_of (window_of result))) }
    {
        self.items_are_there(i);
        let place = self.place(i);
        self.child_items(0, times(place, size), u64::from(size))
    }

    /// An item that isn't null, by how the type is stored.
    pub(crate) fn item(&self, i: u64) -> ValueRef<'a>
        requires inside { i < self.now.count }
        requires valid { is_valid_at (members_of self.now.array.now) (self.now.start + i) ≡ true }
        ensures { Shows result (stored_item self.now.storage (readers (trees (kids_of self.now.typed.now))) (members_of self.now.array.now)
            (children_of self.now.array.now) (self.now.start + i)) }
    {
        self.item_is_there(i);
        let place = self.place(i);
        match self.storage {
            Storage::Nothing => ValueRef::Null,
            Storage::Truths => ValueRef::Truth(truth_at(self.stored, place)),
            Storage::Wholes { bits, signed } => {
                ValueRef::Whole(whole_at(self.stored, place, bits / 8, signed))
            }
            Storage::Floats { bits } => ValueRef::Bits(bits_at(self.stored, place, bits / 8)),
            Storage::Sized { size } => ValueRef::Bytes(bytes_at(self.stored, place, size)),
            Storage::Between { wide, .. } => ValueRef::Bytes(text_at(
                wide,
                self.stored,
                self.text,
                place,
            )),
            Storage::Views { .. } => ValueRef::Bytes(self.view(i)),
            Storage::Lists { wide } => ValueRef::Items(self.list(wide, i)),
            Storage::FixedLists { size } => ValueRef::Items(self.fixed_list(size, i)),
            Storage::Children => ValueRef::Struct,
        }
    }
}

#[inline(always)]
fn is_set(bits: &[u8], place: u64) -> bool
    requires { place < 8 * length bits.now }
    ensures { result ≡ (bit bits.now place == 1) }
{
    bit_at(bits, place as usize)
}

fn times(place: u64, size: u32) -> u64
    requires { (place + 1) * size ≤ window_limit }
    ensures { result ≡ place * size }
{
    place * u64::from(size)
}
