//! What list columns are, and the table of rows that are grouped.
ghost use Rattle.std.specs.Prelude.{◌≡◌, ◌<◌, ℕ, List, None, length, map};
ghost use Rattle.arr_export.specs.ArrayTrees.{flat_type};
ghost use Rattle.data_types.specs.promise.Table.{Row};
ghost use Rattle.data_types.specs.promise.Value.{Value};
ghost use Rattle.data_types.specs.declared.kind.DataType.{DataType};
ghost use Rattle.data_types.specs.declared.kind.DataType.TheVariants as kinds;
ghost use Rattle.data_types.specs.promise.KindTrees.{KindTree, kind_in};
ghost use Rattle.layout_rules.specs.promise.Values.{rows_of, values_of};
ghost use Rattle.layout_rules.specs.promise.Walk.{ChunkOk, LayoutOk};
ghost use Rattle.raw_schema.specs.promise.Members.{SchemaTree};
ghost use Rattle.schema_check.specs.promise.Schemas.{TypedOf};
ghost use Rattle.tree_model.specs.promise.TreeParts.{child_at, children_of, dictionary_of};
ghost use Rattle.list_cols.specs.promise.ListTrees.{list_tree};
ghost use Rattle.list_cols.specs.ListTrees.{FitLists, list_kind, list_value};
ghost use Rattle.list_cols.specs.promise.Nested.{Nest};
ghost use Rattle.list_cols.specs.NestedFields.{nested_schema};
ghost use Rattle.list_cols.specs.promise.NestedTables.{nested_table};
ghost use Rattle.list_cols.specs.NestedTables.{FitNested, nested_table_type, nested_type};

/// A law: the tree of lists of values that have an encoding meets the layout rules, and its values are these lists ("Arrow Columnar
/// Format", "Variable-size List Layout").
pub fn list_trees_are_lawful()
    ensures lawful { (kind : DataType) (lists : List (List Value)) → FitLists kind lists → LayoutOk (list_kind kind) (list_tree kind lists) }
    ensures values { (kind : DataType) (lists : List (List Value)) → FitLists kind lists → values_of (list_kind kind) (list_tree kind lists) ≡ map list_value lists }
{}

/// A law: the table of rows that are grouped is a chunk, where its columns have an encoding, and its rows are a row for each distinct
/// value, with the lists of the others.
pub fn nested_tables_have_their_rows()
    ensures chunk { (column : ℕ) (types : List DataType) (rows : List Row) → FitNested column types rows
        → ChunkOk (nested_table_type column types) (nested_table column types rows) }
    ensures rows { (column : ℕ) (types : List DataType) (rows : List Row) → FitNested column types rows
        → rows_of (nested_table_type column types) (nested_table column types rows) ≡ Nest (length types) column rows }
{}

/// A law: the schema of grouped rows is in order, and its kinds are those of the table of grouped rows ("The Arrow C Data Interface",
/// "The ArrowSchema structure").
pub fn nested_schemas_have_their_kinds()
    ensures { (column : ℕ) (schema : SchemaTree) (typed : KindTree) → TypedOf schema typed → kind_in typed ≡ kinds.Struct → dictionary_of typed ≡ None
        → ((k : ℕ) → k < length (children_of typed) → child_at typed k ≡ flat_type (kind_in (child_at typed k)) None)
        → TypedOf (nested_schema column schema) (nested_type column typed) }
{
    fmt_string::spelling_reads_back();
}
