//! The lengths of the texts of an array's items, found before any text is made. Each item that the buffers of the array, of its
//! children and of its dictionaries hold is measured once, however often it is written.
ghost use Rattle.std.specs.Prelude.{◌≡◌, ◌+◌, ◌<◌, ◌≤◌, ◌^◌, ℕ, None, Some, IfOk, length, map, get_or};
ghost use Rattle.data_types.specs.promise.Value.{Value};
ghost use Rattle.tree_model.specs.promise.TreeData.{Released, trees};
ghost use Rattle.tree_model.specs.promise.TreeParts.{IsLive, child_at, children_of, dictionary_of};
ghost use Rattle.tree_model.specs.Tree.{Depth, depth_of_all};
ghost use Rattle.data_types.specs.declared.typed.Typed.{out-Typed};
ghost use Rattle.data_types.specs.promise.KindTrees.{most_levels};
ghost use Rattle.data_types.specs.KindTrees.{NodesOk, AllNodesOk, TypedOk};
ghost use Rattle.data_types.specs.promise.TypedView.{typed_of};
ghost use Rattle.data_types.specs.TypedView.{kids_of, dict_in};
ghost use Rattle.layout_rules.specs.promise.Values.{tree_items, value_at, values_of};
ghost use Rattle.layout_rules.specs.promise.Walk.{LayoutOk};
ghost use Rattle.arr_import.specs.Cols.{window_of};
ghost use Rattle.arr_import.specs.Window.{whole};
ghost use Rattle.value_text.specs.Lengths.{AreSums, Tells, TellsKids, IsNested, capped, text_length};
ghost use Rattle.data_types.specs.promise.ValueTexts.{lines_text};

use crate::lengths::{
    FieldSums, Lengths, bits_length, bytes_length, field_sums, lines_length, truth_length,
    whole_length,
};
use crate::placed::{fixed_list_at, index_at, list_at, nested_is, same_length, struct_length_at};
use crate::value::{count_items, number};
use crate::views::view_lengths;
use arr_import::{Col, ValueRef};
use data_types::{Storage, Typed, kinds_of_typed, storage_of};
use layout_rules::{lawful_parts, lawful_root};
use raw_array::RawArray;
use std::alloc::Global;
use unit_pass::NoMemory;

/// The length in bytes of the text of an array, as [`crate::items_text`] makes it, where 2^31 + 1 stands for each above 2^31.
pub(crate) fn text_length(alloc: Global, typed: &Typed, array: &RawArray) -> Result<u32, NoMemory>
    requires types { TypedOk (typed_of typed.now) }
    requires lawful { LayoutOk (typed_of typed.now) array.now }
    ensures { IfOk result (λ count. count ≡ capped (length (lines_text (values_of (typed_of typed.now) array.now)))) }
{
    lawful_root(typed, array);
    let lengths = measured_lengths(alloc, typed, array)?;
    Ok(lines_length(&lengths, array.length() as u64))
}

/// The length in bytes of the text of each item of a lawful array's window, where 2^31 + 1 stands for each above 2^31. Each item that
/// the buffers of the array and of the arrays below it hold is measured once, whatever points at it, and each byte is read once. Items
/// without bytes cost nothing, however many they are.
pub fn measured_lengths(alloc: Global, typed: &Typed, array: &RawArray) -> Result<Lengths, NoMemory>
    requires types { TypedOk (typed_of typed.now) }
    requires lawful { LayoutOk (typed_of typed.now) array.now }
    ensures { IfOk result (λ lengths. Tells lengths (value_at (typed_of typed.now) array.now) (tree_items array.now)) }
{
    lengths_of(alloc, typed, array)
}

/// The same of each child of a lawful array.
pub fn children_measured(
    alloc: Global,
    typed: &Typed,
    array: &RawArray,
) -> Result<Vec<Lengths>, NoMemory>
    requires types { TypedOk (typed_of typed.now) }
    requires lawful { LayoutOk (typed_of typed.now) array.now }
    ensures { IfOk result (λ kids. TellsKids kids.items (kids_of typed.now) array.now (length (kids_of typed.now))) }
{
    kinds_of_typed(typed);
    lawful_root(typed, array);
    lawful_parts(typed, array);
    kid_lengths(alloc, &typed.kids, array)
}

/// The lengths of the texts of all items of an array.
#[cycle(lengths)]
fn lengths_of(alloc: Global, typed: &Typed, array: &RawArray) -> Result<Lengths, NoMemory>
    requires lawful { LayoutOk (typed_of typed.now) array.now }
    requires levels { Depth (typed_of typed.now) ≤ most_levels }
    requires types { NodesOk (typed_of typed.now) }
    ensures { IfOk result (λ lengths. Tells lengths (value_at (typed_of typed.now) array.now) (tree_items array.now)) }
{
    lawful_root(typed, array);
    lawful_parts(typed, array);
    match (&typed.dict, array.dictionary()) {
        (Some(dict), Some(dictionary)) => {
            let entries = lengths_of(alloc, dict, dictionary)?;
            index_lengths(alloc, typed, array, dict, dictionary, &entries)
        }
        _ => {
            let kids = kid_lengths(alloc, &typed.kids, array)?;
            own_lengths(alloc, typed, array, &kids)
        }
    }
}

/// The same of each child.
#[cycle(lengths)]
fn kid_lengths(alloc: Global, kids: &[Typed], array: &RawArray) -> Result<Vec<Lengths>, NoMemory>
    requires lawful { (k : ℕ) → k < length (map typed_of kids.now) → LayoutOk (get_or (map typed_of kids.now) k Released) (child_at array.now k) }
    requires levels { 1 + depth_of_all (trees (map typed_of kids.now)) ≤ most_levels }
    requires types { AllNodesOk (trees (map typed_of kids.now)) }
    requires live { IsLive array.now }
    requires children { length (children_of array.now) ≡ length kids.now }
    ensures { IfOk result (λ lengths. TellsKids lengths.items (map typed_of kids.now) array.now (length (map typed_of kids.now))) }
{
    let mut lengths = Vec::new(alloc);
    for k in 0..kids.len() {
        lengths.push(lengths_of(alloc, &kids[k], array.child(k))?)?;
    }
    Ok(lengths)
}

/// The lengths of the texts of the items of an array of indices, by those of its dictionary's.
fn index_lengths(
    alloc: Global,
    typed: &Typed,
    array: &RawArray,
    dict: &Typed,
    dictionary: &RawArray,
    entries: &Lengths,
) -> Result<Lengths, NoMemory>
    requires lawful { LayoutOk (typed_of typed.now) array.now }
    requires types { TypedOk (typed_of typed.now) }
    requires kinds { dict_in (out-Typed typed.now).dict ≡ Some (typed_of dict.now) }
    requires behind { dictionary_of array.now ≡ Some dictionary.now }
    requires entries { Tells entries.now (value_at (typed_of dict.now) dictionary.now) (tree_items dictionary.now) }
    ensures { IfOk result (λ lengths. Tells lengths (value_at (typed_of typed.now) array.now) (tree_items array.now)) }
{
    let count = count_items(&Col::of(typed, array));
    let mut lengths = Vec::with_capacity(alloc, count as usize)?;
    for i in 0..count {
        lengths.push(match index_at(typed, array, dict, dictionary, i) {
            Some(index) => entries.at(index),
            None => 1,
        })?;
    }
    Ok(Lengths::Own(lengths))
}

/// The lengths of the texts of an array's items, by those of its children's: one for all where none has bytes of its own.
fn own_lengths(
    alloc: Global,
    typed: &Typed,
    array: &RawArray,
    kids: &[Lengths],
) -> Result<Lengths, NoMemory>
    requires lawful { LayoutOk (typed_of typed.now) array.now }
    requires types { TypedOk (typed_of typed.now) }
    requires own { dict_in (out-Typed typed.now).dict ≡ None }
    requires kids { TellsKids kids.now (kids_of typed.now) array.now (length (kids_of typed.now)) }
    ensures { IfOk result (λ lengths. Tells lengths (value_at (typed_of typed.now) array.now) (tree_items array.now)) }
{
    let sums = field_sums(alloc, kids)?;
    if let Some(length) = same_length(typed, array, kids, &sums) {
        return Ok(Lengths::Same(length));
    }
    match storage_of(&typed.kind) {
        Storage::Views { .. } => view_lengths(alloc, typed, array),
        _ => item_lengths(alloc, typed, array, kids, &sums),
    }
}

/// The length of the text of each item of an array.
fn item_lengths(
    alloc: Global,
    typed: &Typed,
    array: &RawArray,
    kids: &[Lengths],
    sums: &FieldSums,
) -> Result<Lengths, NoMemory>
    requires lawful { LayoutOk (typed_of typed.now) array.now }
    requires types { TypedOk (typed_of typed.now) }
    requires own { dict_in (out-Typed typed.now).dict ≡ None }
    requires kids { TellsKids kids.now (kids_of typed.now) array.now (length (kids_of typed.now)) }
    requires sums { AreSums kids.now sums.now }
    ensures { IfOk result (λ lengths. Tells lengths (value_at (typed_of typed.now) array.now) (tree_items array.now)) }
{
    let col = Col::of(typed, array);
    let count = count_items(&col);
    let mut room = Vec::new(alloc);
    let mut lengths = Vec::with_capacity(alloc, count as usize)?;
    for i in 0..count {
        lengths.push(item_length(&col, typed, array, kids, sums, i, &mut room)?)?;
    }
    Ok(Lengths::Own(lengths))
}

/// The length of the text of an item.
fn item_length(
    col: &Col<'_>,
    typed: &Typed,
    array: &RawArray,
    kids: &[Lengths],
    sums: &FieldSums,
    i: u64,
    room: &mut Vec<u8>,
) -> Result<u32, NoMemory>
    requires lawful { LayoutOk (typed_of typed.now) array.now }
    requires types { NodesOk (typed_of typed.now) }
    requires own { dict_in (out-Typed typed.now).dict ≡ None }
    requires kids { TellsKids kids.now (kids_of typed.now) array.now (length (kids_of typed.now)) }
    requires sums { AreSums kids.now sums.now }
    requires window { window_of col.now ≡ whole (typed_of typed.now) array.now }
    requires inside { i < tree_items array.now }
    requires small { i < 2 ^ 63 }
    ensures { IfOk result (λ count. count ≡ text_length (value_at (typed_of typed.now) array.now i)) }
{
    match col.value(number(i)) {
        ValueRef::Null => Ok(1),
        ValueRef::Truth(truth) => Ok(truth_length(truth)),
        ValueRef::Whole(whole) => whole_length(whole, room),
        ValueRef::Bits(bits) => bits_length(bits, room),
        ValueRef::Bytes(bytes) => Ok(bytes_length(bytes)),
        ValueRef::Items(_) | ValueRef::Struct => Ok(nested_length(typed, array, kids, sums, i)),
    }
}

/// The length of the text of a list or a struct.
fn nested_length(typed: &Typed, array: &RawArray, kids: &[Lengths], sums: &FieldSums, i: u64) -> u32
    requires lawful { LayoutOk (typed_of typed.now) array.now }
    requires types { NodesOk (typed_of typed.now) }
    requires own { dict_in (out-Typed typed.now).dict ≡ None }
    requires kids { TellsKids kids.now (kids_of typed.now) array.now (length (kids_of typed.now)) }
    requires sums { AreSums kids.now sums.now }
    requires inside { i < tree_items array.now }
    requires nested { IsNested (value_at (typed_of typed.now) array.now i) }
    ensures { result ≡ text_length (value_at (typed_of typed.now) array.now i) }
{
    nested_is(typed, array, i);
    match storage_of(&typed.kind) {
        Storage::Lists { wide } => list_at(wide, typed, array, kids, i),
        Storage::FixedLists { size } => fixed_list_at(size, typed, array, kids, i),
        Storage::Children => struct_length_at(typed, array, kids, sums, i),
        _ => 0,
    }
}
