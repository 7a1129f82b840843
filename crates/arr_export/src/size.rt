//! The size of a schema.
ghost use Rattle.std.specs.Prelude.{◌≡◌, ◌+◌, ◌≤◌, List, length};
ghost use Rattle.data_types.specs.promise.Table.{Column};
ghost use Rattle.tree_model.specs.Tree.{Depth};
ghost use Rattle.tree_model.specs.promise.TreeCost.{Nodes};
ghost use Rattle.schema_check.specs.promise.ColumnSchema.{SchemaOf};
ghost use Rattle.arr_export.specs.SchemaSize.{AreFlat, nodes_of_columns};

/// A law: how many structures the schema of columns has, and that one of plain values has a structure a column and two
/// levels.
pub fn schema_size()
    ensures nodes { (columns : List Column) → Nodes (SchemaOf columns) ≡ 1 + nodes_of_columns columns }
    ensures flat_nodes { (columns : List Column) → AreFlat columns → Nodes (SchemaOf columns) ≡ 1 + length columns }
    ensures flat_depth { (columns : List Column) → AreFlat columns → Depth (SchemaOf columns) ≤ 2 }
{}
