//! The items of lists, one list behind the other, as a column in the making.
ghost use Rattle.std.specs.Prelude.{◌<◌, ◌^◌, IfOk, OnOk};
ghost use Rattle.arr_import.specs.Cols.{window_of};
ghost use Rattle.arr_import.specs.Window.{item_at, items_of};
ghost use Rattle.col_build.specs.Encoding.{Fits};
ghost use Rattle.col_build.specs.Holding.{Holds};
ghost use Rattle.list_cols.specs.Listed.{AddsAll, TakesAll, listed};
ghost use Rattle.list_cols.specs.promise.Nested.{items_in};

use crate::runs::{count_items, list_at};
use arr_import::Col;
use col_build::Builder;
use column_fill::push_item;
use data_types::{DataType, Storage, clone_kind, storage_of};
use std::alloc::Global;
use unit_pass::NoMemory;

/// Adds all items of a column.
fn push_items(builder: &mut Builder, storage: Storage, items: &Col<'_>) -> Result<(), NoMemory>
    requires takes { TakesAll builder.old storage (items_of (window_of items.now)) }
    ensures { OnOk result (AddsAll (items_of (window_of items.now)) builder.old builder.new) }
{
    for i in 0..count_items(items) {
        push_item(builder, storage, items, i)?;
    }
    Ok(())
}

/// Adds the items of a list; a null has none.
fn push_list(
    builder: &mut Builder,
    storage: Storage,
    lists: &Col<'_>,
    i: u64,
) -> Result<(), NoMemory>
    requires inside { i < (window_of lists.now).count }
    requires small { i < 2 ^ 63 }
    requires takes { TakesAll builder.old storage (items_in (item_at (window_of lists.now) i)) }
    ensures { OnOk result (AddsAll (items_in (item_at (window_of lists.now) i)) builder.old builder.new) }
{
    match list_at(lists, i) {
        Some(items) => push_items(builder, storage, &items),
        None => Ok(()),
    }
}

/// A builder of this type that holds the items of all lists.
pub(crate) fn list_items(
    alloc: Global,
    kind: &DataType,
    lists: &Col<'_>,
) -> Result<Builder, NoMemory>
    requires items { Fits kind.now (listed (item_at (window_of lists.now)) (window_of lists.now).count) }
    ensures { IfOk result (λ builder. Holds builder kind.now (listed (item_at (window_of lists.now)) (window_of lists.now).count)) }
{
    let mut builder = Builder::new(alloc, clone_kind(alloc, kind)?);
    let storage = storage_of(kind);
    for i in 0..count_items(lists) {
        push_list(&mut builder, storage, lists, i)?;
    }
    Ok(builder)
}
