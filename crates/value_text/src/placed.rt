//! Where the parts of an item stand: its index, the items of a list, the fields of a struct, and how long the text is that they make.
ghost use Rattle.std.specs.Prelude.{◌≡◌, ◌+◌, ◌-◌, ◌*◌, ◌/◌, ◌^◌, ◌<◌, ◌≤◌, ◌≤ℤ◌, ℕ, pos, true, false, IfSome, IfNone, None, Some, length, get_or};
ghost use Rattle.data_types.specs.promise.Storage.{storage_of as storage_is};
ghost use Rattle.data_types.specs.promise.Value.{values};
ghost use Rattle.data_types.specs.promise.Value.Value.{Fields, Items, Null};
ghost use Rattle.data_types.specs.declared.storage.Storage.TheVariants as storages;
ghost use Rattle.tree_model.specs.promise.TreeData.{Released, trees};
ghost use Rattle.tree_model.specs.promise.TreeParts.{child_at, children_of, dictionary_of};
ghost use Rattle.raw_array.specs.promise.Members.{members_of};
ghost use Rattle.data_types.specs.declared.typed.Typed.{out-Typed};
ghost use Rattle.data_types.specs.KindTrees.{NodesOk};
ghost use Rattle.data_types.specs.promise.TypedView.{typed_of};
ghost use Rattle.data_types.specs.TypedView.{kind_of, kids_of, dict_in};
ghost use Rattle.layout_rules.specs.promise.Layout.{buffer, bytes, first, is_valid as is_valid_at, natural, stored_number};
ghost use Rattle.layout_rules.specs.promise.Values.{child_item, each, listed, readers, row_items, tree_items, value_at};
ghost use Rattle.layout_rules.specs.promise.Walk.{LayoutOk};
ghost use Rattle.arr_import.specs.StoredItems.{AreItemsThere, IsIndexThere, IsListStorage, IsThere};
ghost use Rattle.arr_import.specs.Window.{index_at as index_in};
ghost use Rattle.layout_rules.specs.promise.Rules.{window_limit};
ghost use Rattle.value_text.specs.Lengths.{AreSums, TellsKids, ArePartsStorage, IsEmptyStorage, IsNested, IsNestedAt, text_length};

use crate::lengths::{FieldSums, Lengths, list_length, row_length, same_list, same_row};
use arr_import::{buffer_bytes, start_at, truth_at, validity_of, whole_at};
use data_types::{Storage, Typed, kinds_of_typed, storage_of};
use layout_rules::{lawful_items_lie_within, lawful_parts, lawful_root};
use raw_array::RawArray;

/// The place of an item in the buffers.
pub(crate) fn place_of(typed: &Typed, array: &RawArray, i: u64) -> u64
    requires lawful { LayoutOk (typed_of typed.now) array.now }
    requires inside { i < tree_items array.now }
    ensures place { result ≡ first (members_of array.now) + i }
    ensures near { result < window_limit }
{
    lawful_root(typed, array);
    array.offset() as u64 + i
}

/// What the buffers have of an item.
pub(crate) fn item_is_there(typed: &Typed, array: &RawArray, i: u64)
    requires lawful { LayoutOk (typed_of typed.now) array.now }
    requires types { NodesOk (typed_of typed.now) }
    requires inside { i < tree_items array.now }
    ensures { IsThere (storage_is (kind_of typed.now)) (bytes (members_of array.now) 1) (bytes (members_of array.now) 2) (first (members_of array.now) + i) }
{
    kinds_of_typed(typed);
    lawful_items_lie_within(typed, array);
}

/// What the one child has of a list's items.
fn items_are_there(typed: &Typed, array: &RawArray, i: u64)
    requires lawful { LayoutOk (typed_of typed.now) array.now }
    requires types { NodesOk (typed_of typed.now) }
    requires inside { i < tree_items array.now }
    requires list { IsListStorage (storage_is (kind_of typed.now)) }
    ensures one { length (kids_of typed.now) ≡ 1 }
    ensures live { length (children_of array.now) ≡ 1 }
    ensures few { tree_items (child_at array.now 0) ≤ window_limit }
    ensures items { AreItemsThere (storage_is (kind_of typed.now)) (bytes (members_of array.now) 1) (first (members_of array.now) + i)
        (tree_items (child_at array.now 0)) }
{
    kinds_of_typed(typed);
    lawful_root(typed, array);
    lawful_parts(typed, array);
    lawful_items_lie_within(typed, array);
}

/// The length of the text of a list between two offsets.
pub(crate) fn list_at(wide: bool, typed: &Typed, array: &RawArray, kids: &[Lengths], i: u64) -> u32
    requires lawful { LayoutOk (typed_of typed.now) array.now }
    requires types { NodesOk (typed_of typed.now) }
    requires kids { TellsKids kids.now (kids_of typed.now) array.now (length (kids_of typed.now)) }
    requires inside { i < tree_items array.now }
    requires storage { storage_is (kind_of typed.now) ≡ storages.Lists wide }
    ensures { result ≡ text_length (listed wide (readers (trees (kids_of typed.now))) (members_of array.now) (children_of array.now) i) }
{
    item_is_there(typed, array, i);
    items_are_there(typed, array, i);
    let place = place_of(typed, array, i);
    let offsets = buffer_bytes(array, 1);
    let here = start_at(wide, offsets, place) as usize;
    let next = start_at(wide, offsets, place + 1) as usize;
    list_length(&kids[0], here, next - here)
}

/// The length of the text of a list of this many items.
pub(crate) fn fixed_list_at(
    size: u32,
    typed: &Typed,
    array: &RawArray,
    kids: &[Lengths],
    i: u64,
) -> u32
    requires lawful { LayoutOk (typed_of typed.now) array.now }
    requires types { NodesOk (typed_of typed.now) }
    requires kids { TellsKids kids.now (kids_of typed.now) array.now (length (kids_of typed.now)) }
    requires inside { i < tree_items array.now }
    requires storage { storage_is (kind_of typed.now) ≡ storages.FixedLists size }
    ensures { result ≡ text_length (Items (values (each (child_item (readers (trees (kids_of typed.now))) (children_of array.now))
        ((first (members_of array.now) + i) * size) size))) }
{
    items_are_there(typed, array, i);
    let place = place_of(typed, array, i);
    list_length(&kids[0], times(place, size) as usize, size as usize)
}

fn times(place: u64, size: u32) -> u64
    requires { (place + 1) * size ≤ window_limit }
    ensures { result ≡ place * size }
{
    place * u64::from(size)
}

/// What the children have of a struct's items.
fn fields_are_there(typed: &Typed, array: &RawArray)
    requires lawful { LayoutOk (typed_of typed.now) array.now }
    requires storage { storage_is (kind_of typed.now) ≡ storages.Children }
    ensures many { (i : ℕ) → length (row_items (typed_of typed.now) array.now i) ≡ length (kids_of typed.now) }
    ensures within { (i k : ℕ) → i < tree_items array.now → k < length (kids_of typed.now)
        → first (members_of array.now) + i < tree_items (child_at array.now k) }
    ensures fields { (i k : ℕ) → k < length (kids_of typed.now) → get_or (row_items (typed_of typed.now) array.now i) k Null
        ≡ value_at (get_or (kids_of typed.now) k Released) (child_at array.now k) (first (members_of array.now) + i) }
{
    kinds_of_typed(typed);
    lawful_root(typed, array);
    lawful_items_lie_within(typed, array);
}

/// The length of the text of a field of a struct.
pub fn field_length_at(typed: &Typed, array: &RawArray, kids: &[Lengths], k: usize, i: u64) -> u32
    requires lawful { LayoutOk (typed_of typed.now) array.now }
    requires kids { TellsKids kids.now (kids_of typed.now) array.now (length (kids_of typed.now)) }
    requires field { k < length (kids_of typed.now) }
    requires inside { i < tree_items array.now }
    requires storage { storage_is (kind_of typed.now) ≡ storages.Children }
    ensures field { k < length (row_items (typed_of typed.now) array.now i) }
    ensures length { result ≡ text_length (get_or (row_items (typed_of typed.now) array.now i) k Null) }
{
    fields_are_there(typed, array);
    kids[k].at(place_of(typed, array, i) as usize)
}

/// The length of the text of a struct.
pub fn struct_length_at(
    typed: &Typed,
    array: &RawArray,
    kids: &[Lengths],
    sums: &FieldSums,
    i: u64,
) -> u32
    requires lawful { LayoutOk (typed_of typed.now) array.now }
    requires kids { TellsKids kids.now (kids_of typed.now) array.now (length (kids_of typed.now)) }
    requires sums { AreSums kids.now sums.now }
    requires inside { i < tree_items array.now }
    requires storage { storage_is (kind_of typed.now) ≡ storages.Children }
    ensures { result ≡ text_length (Fields (values (row_items (typed_of typed.now) array.now i))) }
{
    fields_are_there(typed, array);
    row_length(kids, sums, place_of(typed, array, i) as usize)
}

/// Items of no bytes, and nulls of a type without values, have a text of one byte.
fn texts_are_short(typed: &Typed, array: &RawArray)
    requires lawful { LayoutOk (typed_of typed.now) array.now }
    requires own { dict_in (out-Typed typed.now).dict ≡ None }
    requires storage { IsEmptyStorage (storage_is (kind_of typed.now)) }
    ensures { (i : ℕ) → text_length (value_at (typed_of typed.now) array.now i) ≡ 1 }
{
    kinds_of_typed(typed);
    lawful_root(typed, array);
}

/// Without validity bits, items of fixed lists and of structs are what their children's are.
fn parts_are_whole(typed: &Typed, array: &RawArray)
    requires lawful { LayoutOk (typed_of typed.now) array.now }
    requires types { NodesOk (typed_of typed.now) }
    requires own { dict_in (out-Typed typed.now).dict ≡ None }
    requires valid { buffer (members_of array.now) 0 ≡ None }
    requires parts { ArePartsStorage (storage_is (kind_of typed.now)) }
    ensures { (i : ℕ) → IsNestedAt (storage_is (kind_of typed.now)) typed.now array.now i (value_at (typed_of typed.now) array.now i) }
{
    kinds_of_typed(typed);
    lawful_root(typed, array);
}

/// Fixed lists have one child.
fn one_kid_is_there(typed: &Typed)
    requires types { NodesOk (typed_of typed.now) }
    requires list { IsListStorage (storage_is (kind_of typed.now)) }
    ensures { length (kids_of typed.now) ≡ 1 }
{
    kinds_of_typed(typed);
}

/// The one length of the texts of all fixed lists without validity bits; none where their items' differ.
fn same_fixed_lists(size: u32, typed: &Typed, array: &RawArray, kids: &[Lengths]) -> Option<u32>
    requires lawful { LayoutOk (typed_of typed.now) array.now }
    requires types { NodesOk (typed_of typed.now) }
    requires own { dict_in (out-Typed typed.now).dict ≡ None }
    requires kids { TellsKids kids.now (kids_of typed.now) array.now (length (kids_of typed.now)) }
    requires valid { buffer (members_of array.now) 0 ≡ None }
    requires storage { storage_is (kind_of typed.now) ≡ storages.FixedLists size }
    ensures { IfSome result (λ length. (i : ℕ) → i < tree_items array.now → length ≡ text_length (value_at (typed_of typed.now) array.now i)) }
{
    parts_are_whole(typed, array);
    kinds_of_typed(typed);
    lawful_root(typed, array);
    lawful_items_lie_within(typed, array);
    if size == 0 {
        return Some(same_list(0, 0));
    }
    one_kid_is_there(typed);
    match &kids[0] {
        Lengths::Same(one) => Some(same_list(*one, size as u64)),
        Lengths::Own(_) => None,
    }
}

/// The one length of the texts of all structs without validity bits; none where a field's differ.
fn same_structs(typed: &Typed, array: &RawArray, kids: &[Lengths], sums: &FieldSums) -> Option<u32>
    requires lawful { LayoutOk (typed_of typed.now) array.now }
    requires types { NodesOk (typed_of typed.now) }
    requires own { dict_in (out-Typed typed.now).dict ≡ None }
    requires kids { TellsKids kids.now (kids_of typed.now) array.now (length (kids_of typed.now)) }
    requires sums { AreSums kids.now sums.now }
    requires valid { buffer (members_of array.now) 0 ≡ None }
    requires storage { storage_is (kind_of typed.now) ≡ storages.Children }
    ensures { IfSome result (λ length. (i : ℕ) → i < tree_items array.now → length ≡ text_length (value_at (typed_of typed.now) array.now i)) }
{
    parts_are_whole(typed, array);
    fields_are_there(typed, array);
    same_row(kids, sums)
}

/// The one length of the texts of all items of an array without bytes for each, however many they are. None of any other array.
pub(crate) fn same_length(
    typed: &Typed,
    array: &RawArray,
    kids: &[Lengths],
    sums: &FieldSums,
) -> Option<u32>
    requires lawful { LayoutOk (typed_of typed.now) array.now }
    requires types { NodesOk (typed_of typed.now) }
    requires own { dict_in (out-Typed typed.now).dict ≡ None }
    requires kids { TellsKids kids.now (kids_of typed.now) array.now (length (kids_of typed.now)) }
    requires sums { AreSums kids.now sums.now }
    ensures { IfSome result (λ length. (i : ℕ) → i < tree_items array.now → length ≡ text_length (value_at (typed_of typed.now) array.now i)) }
{
    lawful_root(typed, array);
    let storage = storage_of(&typed.kind);
    match storage {
        Storage::Nothing | Storage::Sized { size: 0 } => {
            texts_are_short(typed, array);
            return Some(1);
        }
        _ => {}
    }
    if validity_of(array).is_some() {
        return None;
    }
    match storage {
        Storage::FixedLists { size } => same_fixed_lists(size, typed, array, kids),
        Storage::Children => same_structs(typed, array, kids, sums),
        _ => None,
    }
}

/// What a list or a struct is, by how its type is stored.
pub(crate) fn nested_is(typed: &Typed, array: &RawArray, i: u64)
    requires lawful { LayoutOk (typed_of typed.now) array.now }
    requires own { dict_in (out-Typed typed.now).dict ≡ None }
    requires nested { IsNested (value_at (typed_of typed.now) array.now i) }
    ensures { IsNestedAt (storage_is (kind_of typed.now)) typed.now array.now i (value_at (typed_of typed.now) array.now i) }
{
    kinds_of_typed(typed);
    lawful_root(typed, array);
}

/// Whether an item's own validity bit isn't clear.
pub(crate) fn is_valid(typed: &Typed, array: &RawArray, i: u64) -> bool
    requires lawful { LayoutOk (typed_of typed.now) array.now }
    requires inside { i < tree_items array.now }
    ensures { result ≡ is_valid_at (members_of array.now) i }
{
    lawful_root(typed, array);
    match validity_of(array) {
        Some(bits) => truth_at(bits, place_of(typed, array, i)),
        None => true,
    }
}

/// An item whose validity bit is clear is null.
pub(crate) fn clear_is_null(typed: &Typed, array: &RawArray, i: u64)
    requires lawful { LayoutOk (typed_of typed.now) array.now }
    requires clear { is_valid_at (members_of array.now) i ≡ false }
    ensures { value_at (typed_of typed.now) array.now i ≡ Null }
{
    kinds_of_typed(typed);
    lawful_root(typed, array);
}

/// What holds of the index that stands for an item whose validity bit isn't clear.
fn index_is_there(typed: &Typed, array: &RawArray, dict: &Typed, dictionary: &RawArray, i: u64)
    requires lawful { LayoutOk (typed_of typed.now) array.now }
    requires types { NodesOk (typed_of typed.now) }
    requires kinds { dict_in (out-Typed typed.now).dict ≡ Some (typed_of dict.now) }
    requires behind { dictionary_of array.now ≡ Some dictionary.now }
    requires inside { i < tree_items array.now }
    requires valid { is_valid_at (members_of array.now) i ≡ true }
    ensures there { IsIndexThere (storage_is (kind_of typed.now)) (members_of array.now) i (index_in (kind_of typed.now) (members_of array.now) i)
        (tree_items dictionary.now) }
    ensures value { value_at (typed_of dict.now) dictionary.now (index_in (kind_of typed.now) (members_of array.now) i)
        ≡ value_at (typed_of typed.now) array.now i }
    ensures few { tree_items dictionary.now ≤ window_limit }
{
    kinds_of_typed(typed);
    lawful_root(typed, array);
    lawful_parts(typed, array);
    lawful_items_lie_within(typed, array);
    lawful_root(dict, dictionary);
}

/// The index that stands for an item; none where its validity bit is clear.
pub(crate) fn index_at(
    typed: &Typed,
    array: &RawArray,
    dict: &Typed,
    dictionary: &RawArray,
    i: u64,
) -> Option<usize>
    requires lawful { LayoutOk (typed_of typed.now) array.now }
    requires types { NodesOk (typed_of typed.now) }
    requires kinds { dict_in (out-Typed typed.now).dict ≡ Some (typed_of dict.now) }
    requires behind { dictionary_of array.now ≡ Some dictionary.now }
    requires inside { i < tree_items array.now }
    ensures inside { IfSome result (λ index. index < tree_items dictionary.now) }
    ensures value { IfSome result (λ index. value_at (typed_of dict.now) dictionary.now index ≡ value_at (typed_of typed.now) array.now i) }
    ensures null { IfNone result (value_at (typed_of typed.now) array.now i ≡ Null) }
{
    if !is_valid(typed, array, i) {
        clear_is_null(typed, array, i);
        return None;
    }
    Some(valid_index(typed, array, dict, dictionary, i))
}

/// The index that stands for an item whose validity bit isn't clear.
fn valid_index(
    typed: &Typed,
    array: &RawArray,
    dict: &Typed,
    dictionary: &RawArray,
    i: u64,
) -> usize
    requires lawful { LayoutOk (typed_of typed.now) array.now }
    requires types { NodesOk (typed_of typed.now) }
    requires kinds { dict_in (out-Typed typed.now).dict ≡ Some (typed_of dict.now) }
    requires behind { dictionary_of array.now ≡ Some dictionary.now }
    requires inside { i < tree_items array.now }
    requires valid { is_valid_at (members_of array.now) i ≡ true }
    ensures inside { result < tree_items dictionary.now }
    ensures value { value_at (typed_of dict.now) dictionary.now result ≡ value_at (typed_of typed.now) array.now i }
{
    index_is_there(typed, array, dict, dictionary, i);
    match storage_of(&typed.kind) {
        Storage::Wholes { bits, signed } => index_of(bits, signed, typed, array, i) as usize,
        _ => 0,
    }
}

/// The number that is stored for an item, in this many bits.
fn index_of(bits: u8, signed: bool, typed: &Typed, array: &RawArray, i: u64) -> u64
    requires lawful { LayoutOk (typed_of typed.now) array.now }
    requires types { NodesOk (typed_of typed.now) }
    requires inside { i < tree_items array.now }
    requires storage { storage_is (kind_of typed.now) ≡ storages.Wholes bits signed }
    requires from { pos 0 ≤ℤ stored_number (bits / 8) signed (members_of array.now) i }
    requires near { natural (stored_number (bits / 8) signed (members_of array.now) i) < 2 ^ 63 }
    ensures { result ≡ natural (stored_number (bits / 8) signed (members_of array.now) i) }
{
    item_is_there(typed, array, i);
    let index = whole_at(
        buffer_bytes(array, 1),
        place_of(typed, array, i),
        bits / 8,
        signed,
    );
    number_of(index)
}

/// A number that isn't below 0.
pub(crate) fn number_of(index: i128) -> u64
    requires from { pos 0 ≤ℤ index }
    requires bound { natural index < 2 ^ 63 }
    ensures { result ≡ natural index }
{
    index as u64
}
