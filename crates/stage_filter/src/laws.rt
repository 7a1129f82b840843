//! What the chunks that are made of rows of a chunk mean.
ghost use Rattle.std.specs.Prelude.{◌≡◌, ◌<◌, ℕ, List, length, get_or};
ghost use Rattle.data_types.specs.promise.Table.{Column, Dict};
ghost use Rattle.data_types.specs.declared.kind.DataType.{DataType as AType};
ghost use Rattle.tree_model.specs.promise.TreeParts.{child_at};
ghost use Rattle.tree_model.specs.Tree.{dictionary_at};
ghost use Rattle.raw_array.specs.promise.Members.{ArrayTree, Cost};
ghost use Rattle.raw_array.specs.Members.{Like};
ghost use Rattle.data_types.specs.promise.ColumnKinds.{type_of_columns};
ghost use Rattle.data_types.specs.promise.KindTrees.{KindTree};
ghost use Rattle.layout_rules.specs.promise.Values.{rows_of, values_of};
ghost use Rattle.layout_rules.specs.promise.Walk.{ChunkOk};
ghost use Rattle.stream_face.specs.Lawful.{DictsAreFull};
ghost use Rattle.stage_filter.specs.Kept.{rows_at};
ghost use Rattle.stage_filter.specs.KeptTrees.{kept_chunk};
ghost use Rattle.stage_filter.specs.Moving.{CanMoveRows};

use arr_export::{
    encoded_columns_are_lawful, indexed_columns_are_lawful, lawful_columns_make_a_chunk,
};
use array_laws::{shares_show_the_same, trees_that_show_the_same};
use layout_rules::lawful_trees;
use raw_array::like_trees_are_ordered;

/// A law: the chunk that is made of some rows of a chunk meets the rules of a chunk, and its rows are these; a column with a
/// dictionary has the dictionary that it had, and no dictionary has a null ("Arrow Columnar Format", "Struct Layout" and
/// "Dictionary-encoded Layout").
pub fn kept_rows_make_a_chunk()
    ensures chunk { (columns : List Column) (chunk : ArrayTree) (kept : List ℕ) → CanMoveRows columns chunk 0 kept
        → ChunkOk (type_of_columns columns) (kept_chunk columns chunk kept) }
    ensures rows { (columns : List Column) (chunk : ArrayTree) (kept : List ℕ) → CanMoveRows columns chunk 0 kept
        → rows_of (type_of_columns columns) (kept_chunk columns chunk kept) ≡ rows_at (type_of_columns columns) chunk 0 kept }
    ensures dictionary { (columns : List Column) (chunk : ArrayTree) (kept : List ℕ) (k : ℕ) (none : Column) (kind : AType)
        → k < length columns → (get_or columns k none).kind ≡ Dict kind
        → dictionary_at (child_at (kept_chunk columns chunk kept) k) ≡ dictionary_at (child_at chunk k) }
    ensures full { (columns : List Column) (chunk : ArrayTree) (kept : List ℕ) (k : ℕ) (none : Column) → CanMoveRows columns chunk 0 kept
        → k < length columns → DictsAreFull (get_or columns k none).kind (child_at (kept_chunk columns chunk kept) k) }
{
    encoded_columns_are_lawful();
    indexed_columns_are_lawful();
    lawful_columns_make_a_chunk();
    lawful_trees();
}

/// A law: a tree that is like another has its values and its rows, is a chunk where the other is, and costs as much.
pub(crate) fn like_trees_are_the_same()
    ensures values { (typed : KindTree) (t u : ArrayTree) → Like t u → values_of typed t ≡ values_of typed u }
    ensures chunk { (typed : KindTree) (t u : ArrayTree) → Like t u → ChunkOk typed t → ChunkOk typed u }
    ensures rows { (typed : KindTree) (t u : ArrayTree) → Like t u → rows_of typed t ≡ rows_of typed u }
    ensures cost { (t u : ArrayTree) → Like t u → Cost u ≡ Cost t }
{
    trees_that_show_the_same();
    shares_show_the_same();
    like_trees_are_ordered();
}
