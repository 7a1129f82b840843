//! The rows of a chunk, kept.
ghost use Rattle.std.specs.Prelude.{◌≡◌, IfOk, map};
ghost use Rattle.data_types.specs.KindTrees.{TypedOk};
ghost use Rattle.data_types.specs.promise.TypedView.{typed_of};
ghost use Rattle.layout_rules.specs.promise.Values.{each, row_items, rows_of};
ghost use Rattle.layout_rules.specs.promise.Walk.{ChunkOk};
ghost use Rattle.arr_import.specs.Cols.{window_of};
ghost use Rattle.arr_import.specs.Window.{IsStruct};
ghost use Rattle.pipe_top.specs.OwnedValues.{row_of};

use crate::owned_value::{OwnedValue, count_items, kept_fields};
use arr_import::Col;
use data_types::{Typed, kinds_of_typed};
use layout_rules::chunks_are_tables;
use raw_array::RawArray;
use std::alloc::Global;
use unit_pass::NoMemory;

/// The rows of a chunk, each with a value of each column.
pub(crate) fn kept_rows(
    alloc: Global,
    typed: &Typed,
    chunk: &RawArray,
) -> Result<Vec<Vec<OwnedValue>>, NoMemory>
    requires chunk { ChunkOk (typed_of typed.now) chunk.now }
    requires types { TypedOk (typed_of typed.now) }
    ensures { IfOk result (λ rows. map row_of rows.items ≡ rows_of (typed_of typed.now) chunk.now) }
{
    kinds_of_typed(typed);
    chunks_are_tables();
    rows_in(alloc, &Col::of(typed, chunk))
}

fn rows_in(alloc: Global, table: &Col<'_>) -> Result<Vec<Vec<OwnedValue>>, NoMemory>
    requires { IsStruct (window_of table.now).typed }
    ensures { IfOk result (λ rows. map row_of rows.items
        ≡ each (row_items (window_of table.now).typed (window_of table.now).array) (window_of table.now).start (window_of table.now).count) }
{
    let mut rows = Vec::new(alloc);
    for i in 0..count_items(table) {
        rows.push(kept_fields(alloc, table, i)?)?;
    }
    Ok(rows)
}
