//! What the trees that are handed out mean.
ghost use Rattle.std.specs.Prelude.{◌≡◌, ◌≤◌, ℕ, List, map, length, None, Some, All};
ghost use Rattle.data_types.specs.promise.Value.{Value};
ghost use Rattle.data_types.specs.declared.kind.DataType.{DataType};
ghost use Rattle.raw_array.specs.promise.Members.{ArrayTree};
ghost use Rattle.col_build.specs.Encoding.{Fits};
ghost use Rattle.data_types.specs.promise.KindTrees.{KindTree};
ghost use Rattle.layout_rules.specs.promise.Values.{rows_of, tree_items, values_of};
ghost use Rattle.layout_rules.specs.promise.Walk.{ChunkOk, LayoutOk};
ghost use Rattle.data_types.specs.ColumnKinds.{table_type};
ghost use Rattle.arr_export.specs.promise.ArrayTrees.{column_tree};
ghost use Rattle.arr_export.specs.ArrayTrees.{AreIndices, AreLawful, HaveValues, flat_type, looked_up, rows_of_columns, rows_of_values};
ghost use Rattle.arr_export.specs.promise.ArrayTrees.{table_tree};
ghost use Rattle.arr_export.specs.promise.ValueColumns.{ValueColumn};
ghost use Rattle.arr_export.specs.ValueColumns.{IsValueColumn, items_of, tree_of, type_of};
ghost use Rattle.layout_rules.specs.promise.Rules.{window_limit};

/// A law: a column's tree meets the layout rules, and its items are the values that it was made of ("Arrow Columnar
/// Format", "Physical memory layout").
pub fn encoded_columns_are_lawful()
    ensures lawful { (kind : DataType) (values : List Value) → Fits kind values → LayoutOk (flat_type kind None) (column_tree kind values None) }
    ensures values { (kind : DataType) (values : List Value) → Fits kind values → values_of (flat_type kind None) (column_tree kind values None) ≡ values }
{}

/// A law: so does a column of indices into a lawful dictionary that has an item at each of them, and its items are those
/// of the dictionary ("Arrow Columnar Format", "Dictionary-encoded Layout").
pub fn indexed_columns_are_lawful()
    ensures lawful { (kind : DataType) (values : List Value) (type : KindTree) (dictionary : ArrayTree) → Fits kind values → AreIndices kind values dictionary
        → LayoutOk type dictionary
        → LayoutOk (flat_type kind (Some type)) (column_tree kind values (Some dictionary)) }
    ensures values { (kind : DataType) (values : List Value) (type : KindTree) (dictionary : ArrayTree) → Fits kind values → AreIndices kind values dictionary
        → values_of (flat_type kind (Some type)) (column_tree kind values (Some dictionary)) ≡ map (looked_up (values_of type dictionary)) values }
{}

/// A law: a table of lawful columns that are long enough meets the rules of a chunk, and its rows are the first items of
/// the columns ("Arrow Columnar Format", "Struct Layout").
pub fn lawful_columns_make_a_chunk()
    ensures chunk { (types : List KindTree) (columns : List ArrayTree) (rows : ℕ) → AreLawful types columns
        → All (λ column. rows ≤ tree_items column) columns → rows ≤ window_limit
        → ChunkOk (table_type types) (table_tree rows columns) }
    ensures rows { (types : List KindTree) (columns : List ArrayTree) (rows : ℕ)
        → rows_of (table_type types) (table_tree rows columns) ≡ rows_of_columns types columns rows }
    ensures values { (types : List KindTree) (columns : List ArrayTree) (values : List (List Value)) (rows : ℕ) → HaveValues types columns values
        → All (λ items. rows ≤ length items) values
        → rows_of (table_type types) (table_tree rows columns) ≡ rows_of_values values rows }
{}

/// A law: a table of columns that are made of values, some through dictionaries, is a chunk, and its rows are these
/// values.
pub fn columns_of_values_make_a_chunk()
    ensures chunk { (columns : List ValueColumn) (rows : ℕ) → All (IsValueColumn rows) columns → rows ≤ window_limit
        → ChunkOk (table_type (map type_of columns)) (table_tree rows (map tree_of columns)) }
    ensures rows { (columns : List ValueColumn) (rows : ℕ) → All (IsValueColumn rows) columns
        → rows_of (table_type (map type_of columns)) (table_tree rows (map tree_of columns)) ≡ rows_of_values (map items_of columns) rows }
{}
