//! The text of an item of a column, appended to a text.
ghost use Rattle.std.specs.Prelude.{◌≡◌, ◌+◌, ◌<◌, ◌++◌, ◌^◌, if◌then◌else◌, pos, OnOk};
ghost use Rattle.data_types.specs.promise.Value.{Value, values};
ghost use Rattle.data_types.specs.promise.Value.Value.{Fields, Items, Null, Truth, Whole, Bits, Bytes};
ghost use Rattle.layout_rules.specs.promise.Values.{row_items};
ghost use Rattle.arr_import.specs.Cols.{window_of};
ghost use Rattle.arr_import.specs.Plain.{IsItemThere, IsPlainStorage, ShowsItems, is_valid_in, storage_in, valid_item};
ghost use Rattle.arr_import.specs.Window.{IsStruct, item_at, items_of};
ghost use Rattle.data_types.specs.promise.ValueTexts.{value_text};
ghost use Rattle.value_text.specs.Behind.{item_text};

use crate::bounded::BoundedText;
use crate::escapes::push_escaped;
use arr_import::{Col, Plain, ValueRef};
use data_types::Storage;
use unit_pass::NoMemory;

/// The number of a column's items.
pub(crate) fn count_items(col: &Col<'_>) -> u64
    ensures count { result ≡ (window_of col.now).count }
    ensures small { result < 2 ^ 63 }
{
    col.len() as u64
}

/// The number of an item as a column's calls take it.
pub(crate) fn number(i: u64) -> i64
    requires { i < 2 ^ 63 }
    ensures { result ≡ pos i }
{
    i as i64
}

/// Appends a truth value.
pub(crate) fn push_truth(text: &mut BoundedText, truth: bool) -> Result<(), NoMemory>
    ensures { OnOk result (text.new ≡ text.old ++ value_text (Truth truth)) }
{
    if truth {
        text.push_bytes(b"true")
    } else {
        text.push_bytes(b"false")
    }
}

/// Appends the bits of a float.
pub(crate) fn push_float(text: &mut BoundedText, bits: u64) -> Result<(), NoMemory>
    ensures { OnOk result (text.new ≡ text.old ++ value_text (Bits bits)) }
{
    text.push(b'x')?;
    text.push_bits(bits)
}

/// Appends bytes.
pub(crate) fn push_text(text: &mut BoundedText, bytes: &[u8]) -> Result<(), NoMemory>
    ensures { OnOk result (text.new ≡ text.old ++ value_text (Bytes bytes.now)) }
{
    text.push(b'=')?;
    push_escaped(text, bytes)
}

/// Appends the text of an item that is stored by its place.
#[inline(always)]
pub(crate) fn push_plain(text: &mut BoundedText, items: &Plain<'_>, i: u64) -> Result<(), NoMemory>
    requires there { IsItemThere items.now i }
    requires stored { IsPlainStorage (storage_in items.now) }
    ensures { OnOk result (text.new ≡ text.old ++ value_text (if is_valid_in items.now i then valid_item items.now i else Null)) }
{
    if !items.is_valid(i) {
        return text.push(b'~');
    }
    match items.storage() {
        Storage::Between { wide, .. } => push_text(text, items.between(wide, i)),
        Storage::Wholes { bits, signed } => text.push_whole(items.whole(bits, signed, i)),
        Storage::Floats { bits } => push_float(text, items.float_bits(bits, i)),
        Storage::Sized { size } => push_text(text, items.sized(size, i)),
        Storage::Truths => push_truth(text, items.truth(i)),
        _ => Ok(()),
    }
}

/// Appends the text of item `i` of a column.
#[cycle(texts)]
pub fn push_value(text: &mut BoundedText, col: &Col<'_>, i: u64) -> Result<(), NoMemory>
    requires inside { i < (window_of col.now).count }
    requires small { i < 2 ^ 63 }
    ensures { OnOk result (text.new ≡ text.old ++ value_text (item_at (window_of col.now) i)) }
{
    let i = number(i);
    match col.value(i) {
        ValueRef::Null => text.push(b'~'),
        ValueRef::Truth(truth) => push_truth(text, truth),
        ValueRef::Whole(number) => text.push_whole(number),
        ValueRef::Bits(bits) => push_float(text, bits),
        ValueRef::Bytes(bytes) => push_text(text, bytes),
        ValueRef::Items(items) => push_list(text, &items),
        ValueRef::Struct => {
            let (home, place) = col.home(i);
            push_struct(text, &home, place as u64)
        }
    }
}

/// Appends the text of the part of a list or a struct that has this number: behind a comma, unless it is the first.
#[cycle(texts)]
pub(crate) fn push_part(
    text: &mut BoundedText,
    number: u64,
    col: &Col<'_>,
    i: u64,
) -> Result<(), NoMemory>
    requires inside { i < (window_of col.now).count }
    requires small { i < 2 ^ 63 }
    ensures { OnOk result (text.new ≡ text.old ++ item_text number (item_at (window_of col.now) i)) }
{
    if number > 0 {
        text.push(b',')?;
    }
    push_value(text, col, i)
}

/// Appends the text of the part of a list that has this number, an item that is stored by its place.
#[inline(always)]
fn push_plain_part(text: &mut BoundedText, items: &Plain<'_>, i: u64) -> Result<(), NoMemory>
    requires there { IsItemThere items.now i }
    requires stored { IsPlainStorage (storage_in items.now) }
    ensures { OnOk result (text.new ≡ text.old ++ item_text i (if is_valid_in items.now i then valid_item items.now i else Null)) }
{
    if i > 0 {
        text.push(b',')?;
    }
    push_plain(text, items, i)
}

/// Appends the text of a list of all items of a column, which are stored by their places.
fn push_plain_list(text: &mut BoundedText, col: &Col<'_>, items: &Plain<'_>) -> Result<(), NoMemory>
    requires items { ShowsItems items.now (window_of col.now).count (item_at (window_of col.now)) }
    requires stored { IsPlainStorage (storage_in items.now) }
    ensures { OnOk result (text.new ≡ text.old ++ value_text (Items (values (items_of (window_of col.now))))) }
{
    text.push(b'[')?;
    for i in 0..count_items(col) {
        push_plain_part(text, items, i)?;
    }
    text.push(b']')
}

/// Appends the text of a list of all items of a column. An item has at least a byte, and a comma or a bracket behind it.
#[cycle(texts)]
fn push_list(text: &mut BoundedText, col: &Col<'_>) -> Result<(), NoMemory>
    ensures { OnOk result (text.new ≡ text.old ++ value_text (Items (values (items_of (window_of col.now))))) }
{
    let count = count_items(col);
    text.has_room(count * 2)?;
    if let Some(items) = col.plain() {
        return push_plain_list(text, col, &items);
    }
    text.push(b'[')?;
    for i in 0..count {
        push_part(text, i, col, i)?;
    }
    text.push(b']')
}

/// Appends the text of item `i` of a struct column: that item of each child.
#[cycle(texts)]
fn push_struct(text: &mut BoundedText, col: &Col<'_>, i: u64) -> Result<(), NoMemory>
    requires kind { IsStruct (window_of col.now).typed }
    requires inside { i < (window_of col.now).count }
    requires small { i < 2 ^ 63 }
    ensures { OnOk result (text.new ≡ text.old
        ++ value_text (Fields (values (row_items (window_of col.now).typed (window_of col.now).array ((window_of col.now).start + i))))) }
{
    col.rows_are_whole();
    text.push(b'{')?;
    for k in 0..col.n_children() {
        push_part(text, k as u64, &col.child(k), i)?;
    }
    text.push(b'}')
}
