//! The lengths of the texts of views ("Arrow Columnar Format", "Variable-size binary view layout"). Views may show the same bytes
//! any number of times; a data buffer's bytes are read once.
ghost use Rattle.std.specs.Prelude.{◌≡◌, ◌+◌, ◌*◌, ◌<◌, ◌≤◌, ◌^◌, ℕ, List, IfOk, if◌then◌else◌, None, true, drop, get_or, length, take};
ghost use Rattle.data_types.specs.KindTrees.{NodesOk, TypedOk};
ghost use Rattle.data_types.specs.promise.Packed.{meant, number_at};
ghost use Rattle.data_types.specs.promise.Storage.{storage_of as storage_is};
ghost use Rattle.data_types.specs.promise.TypedView.{typed_of};
ghost use Rattle.data_types.specs.TypedView.{dict_in, kind_of};
ghost use Rattle.data_types.specs.promise.Value.Value.{Bytes};
ghost use Rattle.data_types.specs.promise.ValueTexts.{is_plain};
ghost use Rattle.data_types.specs.declared.typed.Typed.{out-Typed};
ghost use Rattle.arr_import.specs.StoredItems.{IsViewStorage};
ghost use Rattle.layout_rules.specs.promise.Layout.{bytes, data_buffers, data_place, is_valid as is_valid_at, view_width};
ghost use Rattle.layout_rules.specs.promise.Values.{tree_items, value_at};
ghost use Rattle.layout_rules.specs.promise.Views.{view_data};
ghost use Rattle.layout_rules.specs.promise.Walk.{LayoutOk};
ghost use Rattle.layout_rules.specs.Within.{DataWithin};
ghost use Rattle.layout_rules.specs.promise.Rules.{window_limit};
ghost use Rattle.raw_array.specs.promise.Members.{members_of};
ghost use Rattle.tree_model.specs.promise.TreeParts.{IsLive};
ghost use Rattle.value_text.specs.Escapes.{AreEscapeCounts, CountsEscapes};
ghost use Rattle.value_text.specs.Lengths.{Tells, text_length};

use crate::escapes::is_plain;
use crate::lengths::{Lengths, bytes_length, escaped_length};
use crate::placed::{clear_is_null, is_valid, item_is_there, number_of, place_of};
use crate::value::count_items;
use arr_import::{Col, buffer_bytes, whole_at};
use data_types::{Typed, kinds_of_typed};
use layout_rules::{lawful_items_lie_within, lawful_root};
use raw_array::RawArray;
use std::alloc::Global;
use unit_pass::NoMemory;

/// The longest item that is in its view.
const MOST_IN_VIEW: i128 = 12;

/// Whether a byte stands as an escape, as a number.
#[inline(always)]
fn escapes_in(byte: u8) -> u64
    ensures is { result ≡ (if is_plain byte then 0 else 1) }
    ensures few { result ≤ 1 }
{
    if is_plain(byte) { 0 } else { 1 }
}

/// Of the first bytes, for each number of them, how many stand as escapes.
fn escape_counts(alloc: Global, bytes: &[u8]) -> Result<Vec<u64>, NoMemory>
    ensures { IfOk result (λ counts. CountsEscapes counts.items bytes.now) }
{
    let mut counts = Vec::with_capacity(alloc, bytes.len() + 1)?;
    let mut count = 0;
    counts.push(count)?;
    for i in 0..bytes.len() {
        count += escapes_in(bytes[i]);
        counts.push(count)?;
    }
    Ok(counts)
}

/// The same of each data buffer of an array of views.
fn all_counts(alloc: Global, array: &RawArray) -> Result<Vec<Vec<u64>>, NoMemory>
    requires live { IsLive array.now }
    ensures { IfOk result (λ counts. AreEscapeCounts counts.items (members_of array.now) (data_buffers (members_of array.now))) }
{
    let mut counts = Vec::new(alloc);
    let count = data_count(array);
    for k in 0..count {
        counts.push(escape_counts(alloc, buffer_bytes(array, k + 2))?)?;
    }
    Ok(counts)
}

/// How many data buffers there are.
fn data_count(array: &RawArray) -> usize
    requires { IsLive array.now }
    ensures count { result ≡ data_buffers (members_of array.now) }
    ensures few { result < 2 ^ 32 }
{
    (array.n_buffers() as usize).saturating_sub(3)
}

/// The length of the text of this many bytes, from one of them on, by how many of the first stand as escapes.
fn piece_length(counts: &[u64], from: usize, size: usize) -> u32
    requires there { from + size < length counts.now }
    ensures { (all : List ℕ) → CountsEscapes counts.now all → result ≡ text_length (Bytes (take size (drop from all))) }
{
    let escapes = counts[from + size].saturating_sub(counts[from]);
    escaped_length(size, escapes)
}

/// One of the four numbers of a view.
fn view_word(views: &[u8], place: u64, word: u64) -> i128
    requires there { (place + 1) * view_width ≤ length views.now }
    requires four { word < 4 }
    requires near { place ≤ window_limit }
    ensures { result ≡ meant 4 true (number_at views.now ((place * 4 + word) * 4) 4) }
{
    whole_at(views, place * 4 + word, 4, true)
}

/// Where the data of a view are, which isn't null.
fn view_is_there(typed: &Typed, array: &RawArray, i: u64)
    requires lawful { LayoutOk (typed_of typed.now) array.now }
    requires inside { i < tree_items array.now }
    requires own { dict_in (out-Typed typed.now).dict ≡ None }
    requires storage { IsViewStorage (storage_is (kind_of typed.now)) }
    requires valid { is_valid_at (members_of array.now) i ≡ true }
    ensures within { DataWithin (members_of array.now) i }
    ensures value { value_at (typed_of typed.now) array.now i ≡ Bytes (view_data (members_of array.now) i) }
{
    kinds_of_typed(typed);
    lawful_root(typed, array);
    lawful_items_lie_within(typed, array);
}

/// The length of the text of an item, by how many bytes of the data buffers stand as escapes.
fn view_length(typed: &Typed, array: &RawArray, counts: &[Vec<u64>], i: u64) -> u32
    requires lawful { LayoutOk (typed_of typed.now) array.now }
    requires types { NodesOk (typed_of typed.now) }
    requires own { dict_in (out-Typed typed.now).dict ≡ None }
    requires storage { IsViewStorage (storage_is (kind_of typed.now)) }
    requires counts { AreEscapeCounts counts.now (members_of array.now) (data_buffers (members_of array.now)) }
    requires inside { i < tree_items array.now }
    ensures { result ≡ text_length (value_at (typed_of typed.now) array.now i) }
{
    if !is_valid(typed, array, i) {
        clear_is_null(typed, array, i);
        return 1;
    }
    view_is_there(typed, array, i);
    item_is_there(typed, array, i);
    let views = buffer_bytes(array, 1);
    let place = place_of(typed, array, i);
    let size = view_word(views, place, 0);
    if size > MOST_IN_VIEW {
        let buffer = number_of(view_word(views, place, 2));
        let from = number_of(view_word(views, place, 3));
        let count = number_of(size);
        piece_length(&counts[buffer as usize], from as usize, count as usize)
    } else {
        let from = place as usize * 16 + 4;
        bytes_length(&views[from..from + size as usize])
    }
}

/// The lengths of the texts of the items of an array of views.
pub(crate) fn view_lengths(
    alloc: Global,
    typed: &Typed,
    array: &RawArray,
) -> Result<Lengths, NoMemory>
    requires lawful { LayoutOk (typed_of typed.now) array.now }
    requires types { TypedOk (typed_of typed.now) }
    requires own { dict_in (out-Typed typed.now).dict ≡ None }
    requires storage { IsViewStorage (storage_is (kind_of typed.now)) }
    ensures { IfOk result (λ lengths. Tells lengths (value_at (typed_of typed.now) array.now) (tree_items array.now)) }
{
    lawful_root(typed, array);
    let counts = all_counts(alloc, array)?;
    let count = count_items(&Col::of(typed, array));
    let mut lengths = Vec::with_capacity(alloc, count as usize)?;
    for i in 0..count {
        lengths.push(view_length(typed, array, &counts, i))?;
    }
    Ok(Lengths::Own(lengths))
}
