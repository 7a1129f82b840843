//! Values that are kept, each with its own memory.
ghost use Rattle.std.specs.Prelude.{◌≡◌, ◌+◌, ◌<◌, ◌^◌, pos, map, IfOk};
ghost use Rattle.data_types.specs.promise.Value.{values};
ghost use Rattle.data_types.specs.promise.Value.Value.{Items, Fields};
ghost use Rattle.layout_rules.specs.promise.Layout.{natural};
ghost use Rattle.layout_rules.specs.promise.Values.{row_items};
ghost use Rattle.arr_import.specs.Cols.{window_of};
ghost use Rattle.arr_import.specs.Window.{IsStruct, item_at, items_of};
ghost use Rattle.pipe_top.specs.OwnedValues.{value_of};

use arr_import::{Col, ValueRef};
use std::alloc::Global;
use unit_pass::{Name, NoMemory};

/// A value that is kept. Contracts see the definition `value_of` of it.
#[derive(Debug, Drop)]
pub enum OwnedValue {
    Null,
    Truth(bool),
    /// Of an integer, a date, a time or a duration, or the unscaled number of a decimal of 128 bits.
    Whole(i128),
    /// The bits of a float, in the low bytes.
    Bits(u64),
    /// Of a text, a binary, an interval of several numbers or a decimal of 256 bits.
    Bytes(Name),
    /// The items of a list, or the entries of a map.
    Items(Vec<OwnedValue>),
    /// The fields of a struct, one for each child.
    Fields(Vec<OwnedValue>),
}

/// A list of these items.
fn list_of(items: Vec<OwnedValue>) -> OwnedValue
    ensures { value_of result ≡ Items (values (map value_of items.items)) }
{
    OwnedValue::Items(items)
}

/// A struct of these fields.
fn struct_of(fields: Vec<OwnedValue>) -> OwnedValue
    ensures { value_of result ≡ Fields (values (map value_of fields.items)) }
{
    OwnedValue::Fields(fields)
}

/// The number of a column's items.
pub(crate) fn count_items(col: &Col<'_>) -> u64
    ensures count { result ≡ (window_of col.now).count }
    ensures small { result < 2 ^ 63 }
{
    col.len() as u64
}

/// The number of an item as a column's calls take it.
fn number(i: u64) -> i64
    requires { i < 2 ^ 63 }
    ensures { result ≡ pos i }
{
    i as i64
}

/// Item `i` of a column.
#[cycle(kept)]
fn kept_value(alloc: Global, col: &Col<'_>, i: u64) -> Result<OwnedValue, NoMemory>
    requires inside { i < (window_of col.now).count }
    requires small { i < 2 ^ 63 }
    ensures { IfOk result (λ value. value_of value ≡ item_at (window_of col.now) i) }
{
    let i = number(i);
    match col.value(i) {
        ValueRef::Null => Ok(OwnedValue::Null),
        ValueRef::Truth(truth) => Ok(OwnedValue::Truth(truth)),
        ValueRef::Whole(number) => Ok(OwnedValue::Whole(number)),
        ValueRef::Bits(bits) => Ok(OwnedValue::Bits(bits)),
        ValueRef::Bytes(bytes) => Ok(OwnedValue::Bytes(Name::from_slice(alloc, bytes)?)),
        ValueRef::Items(items) => Ok(list_of(kept_items(alloc, &items)?)),
        ValueRef::Struct => {
            let (home, place) = col.home(i);
            Ok(struct_of(kept_fields(alloc, &home, place as u64)?))
        }
    }
}

/// All items of a column.
#[cycle(kept)]
fn kept_items(alloc: Global, col: &Col<'_>) -> Result<Vec<OwnedValue>, NoMemory>
    ensures { IfOk result (λ items. map value_of items.items ≡ items_of (window_of col.now)) }
{
    let mut items = Vec::new(alloc);
    for i in 0..count_items(col) {
        items.push(kept_value(alloc, col, i)?)?;
    }
    Ok(items)
}

/// The fields of item `i` of a struct column: that item of each child.
#[cycle(kept)]
pub(crate) fn kept_fields(alloc: Global, col: &Col<'_>, i: u64) -> Result<Vec<OwnedValue>, NoMemory>
    requires kind { IsStruct (window_of col.now).typed }
    requires inside { i < (window_of col.now).count }
    requires small { i < 2 ^ 63 }
    ensures { IfOk result (λ fields. map value_of fields.items
        ≡ row_items (window_of col.now).typed (window_of col.now).array ((window_of col.now).start + i)) }
{
    col.rows_are_whole();
    let mut fields = Vec::new(alloc);
    for k in 0..col.n_children() {
        fields.push(kept_value(alloc, &col.child(k), i)?)?;
    }
    Ok(fields)
}
