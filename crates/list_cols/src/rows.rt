//! How many rows there are once the lists of a column are spread out.
ghost use Rattle.std.specs.Prelude.{◌<◌, length};
ghost use Rattle.arr_import.specs.Cols.{window_of};
ghost use Rattle.arr_import.specs.Window.{item_at};
ghost use Rattle.data_types.specs.KindTrees.{TypedOk};
ghost use Rattle.data_types.specs.promise.TypedView.{typed_of};
ghost use Rattle.layout_rules.specs.promise.Values.{rows_of};
ghost use Rattle.layout_rules.specs.promise.Walk.{ChunkOk};
ghost use Rattle.tree_model.specs.promise.TreeParts.{children_of};
ghost use Rattle.list_cols.specs.Faults.{IsNamed};
ghost use Rattle.list_cols.specs.Listed.{listed};
ghost use Rattle.list_cols.specs.promise.Nested.{Explode};

use crate::kinds::list_column;
use crate::runs::{MOST_NAMED, count_items, list_length};
use arr_import::Col;
use data_types::{Typed, kinds_of_typed};
use layout_rules::{chunks_are_tables, lawful_trees};
use raw_array::RawArray;

/// How many rows there would be if the lists in a column of a chunk were spread out, where there are at most 2^31 - 1. It takes no
/// memory, and reads no item of a list.
pub fn exploded_rows(typed: &Typed, array: &RawArray, column: usize) -> Option<u64>
    requires types { TypedOk (typed_of typed.now) }
    requires chunk { ChunkOk (typed_of typed.now) array.now }
    requires inside { column < length (children_of (typed_of typed.now)) }
    ensures { IsNamed (length (Explode column (rows_of (typed_of typed.now) array.now))) result }
{
    kinds_of_typed(typed);
    lawful_trees();
    chunks_are_tables();
    count_listed(&list_column(typed, array, column))
}

/// How many items lists have in all, where there are at most 2^31 - 1.
fn count_listed(lists: &Col<'_>) -> Option<u64>
    ensures { IsNamed (length (listed (item_at (window_of lists.now)) (window_of lists.now).count)) result }
{
    let mut total = 0u64;
    for i in 0..count_items(lists) {
        let more = list_length(lists, i);
        if more > MOST_NAMED - total {
            return None;
        }
        total += more;
    }
    Some(total)
}
