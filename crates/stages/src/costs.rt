//! What chunks of columns cost at most.
ghost use Rattle.std.specs.Prelude.{◌≤◌, ◌+◌, ◌*◌, List, All};
ghost use Rattle.data_types.specs.ColumnForms.{AreColumnKinds};
ghost use Rattle.data_types.specs.promise.Table.{Column};
ghost use Rattle.data_types.specs.promise.ColumnKinds.{type_of_columns};
ghost use Rattle.layout_rules.specs.promise.Walk.{ChunkOk};
ghost use Rattle.raw_array.specs.promise.Members.{ArrayTree, Cost};
ghost use Rattle.stages.specs.Structs.{column_structs};
ghost use Rattle.stream_face.specs.Lawful.{DictsHaveBytes, column_leaves};

use layout_rules::lawful_trees;

/// A law: a chunk of columns costs at most seven units a column of plain or dictionary values, two a struct, and two of its own.
pub fn chunks_are_small()
    ensures { (columns : List Column) (t : ArrayTree) → All (λ c. AreColumnKinds c.kind) columns → All (λ c. DictsHaveBytes c.kind) columns
        → ChunkOk (type_of_columns columns) t → Cost t ≤ 7 * column_leaves columns + 2 * column_structs columns + 2 }
{
    lawful_trees();
}
