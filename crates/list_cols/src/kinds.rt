//! The checked kinds of a chunk's columns, and what is read of them.
ghost use Rattle.std.specs.Prelude.{◌≡◌, ◌<◌, length};
ghost use Rattle.arr_import.specs.Cols.{window_of};
ghost use Rattle.arr_import.specs.Window.{item_at};
ghost use Rattle.data_types.specs.KindTrees.{TypedOk};
ghost use Rattle.data_types.specs.promise.TypedView.{typed_of};
ghost use Rattle.layout_rules.specs.promise.Values.{tree_items};
ghost use Rattle.layout_rules.specs.promise.Walk.{ChunkOk};
ghost use Rattle.tree_model.specs.promise.TreeParts.{child_at, children_of};
ghost use Rattle.list_cols.specs.Spreading.{list_at};

use arr_import::Col;
use data_types::{Typed, kinds_of_typed};
use layout_rules::chunks_are_tables;
use raw_array::RawArray;

/// The number of children.
pub(crate) fn child_count(typed: &Typed) -> usize
    ensures { result ≡ length (children_of (typed_of typed.now)) }
{
    kinds_of_typed(typed);
    typed.kids.len()
}

/// Those of a child.
pub(crate) fn child_kinds(typed: &Typed, k: usize) -> &Typed
    requires types { TypedOk (typed_of typed.now) }
    requires inside { k < length (children_of (typed_of typed.now)) }
    ensures is { typed_of result.now ≡ child_at (typed_of typed.now) k }
    ensures types { TypedOk (typed_of result.now) }
{
    kinds_of_typed(typed);
    &typed.kids[k]
}

/// The values of a chunk's rows in a column.
pub(crate) fn list_column<'a>(typed: &'a Typed, array: &'a RawArray, column: usize) -> Col<'a>
    requires types { TypedOk (typed_of typed.now) }
    requires chunk { ChunkOk (typed_of typed.now) array.now }
    requires inside { column < length (children_of (typed_of typed.now)) }
    ensures lists { item_at (window_of result) ≡ list_at column (typed_of typed.now) array.now }
    ensures count { (window_of result).count ≡ tree_items array.now }
{
    kinds_of_typed(typed);
    chunks_are_tables();
    Col::of(typed, array).child(column)
}
