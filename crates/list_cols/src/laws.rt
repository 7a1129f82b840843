//! What grouping and spreading out give together, and what a table of flat columns is that is made of rows.
ghost use Rattle.std.specs.Prelude.{◌≡◌, ◌<◌, ◌≤◌, ℕ, List, length, get_or, All};
ghost use Rattle.col_build.specs.Encoding.{Fits};
ghost use Rattle.data_types.specs.promise.Parts.{column_values};
ghost use Rattle.data_types.specs.promise.Table.{Row};
ghost use Rattle.data_types.specs.declared.kind.DataType.{DataType};
ghost use Rattle.data_types.specs.declared.kind.DataType.TheVariants as kinds;
ghost use Rattle.layout_rules.specs.promise.Rules.{window_limit};
ghost use Rattle.layout_rules.specs.promise.Values.{rows_of};
ghost use Rattle.layout_rules.specs.promise.Walk.{ChunkOk};
ghost use Rattle.list_cols.specs.FlatTables.{flat_table, flat_table_type};
ghost use Rattle.list_cols.specs.Law.{KeysComeTogether};

/// A law: rows of two columns that are grouped by the first and spread out again are, for each key in order of first
/// appearance, its rows, in order.
#[tactic(auto, using(crate::proofs::Together::together))]
pub fn keys_come_together()
    ensures { (rows : List Row) → All (λ row. length row ≡ 2) rows → KeysComeTogether rows }
{}

/// A law: a table of flat columns that is made of rows is a chunk, where each column has an encoding, and its rows are these ("Arrow
/// Columnar Format", "Struct Layout").
pub fn flat_tables_have_their_rows()
    ensures chunk { (types : List DataType) (rows : List Row)
        → ((k : ℕ) → k < length types → Fits (get_or types k kinds.Null) (column_values k rows)) → length rows ≤ window_limit
        → ChunkOk (flat_table_type types) (flat_table types rows) }
    ensures rows { (types : List DataType) (rows : List Row)
        → ((k : ℕ) → k < length types → Fits (get_or types k kinds.Null) (column_values k rows)) → All (λ row. length row ≡ length types) rows
        → rows_of (flat_table_type types) (flat_table types rows) ≡ rows }
{
    arr_export::columns_of_values_make_a_chunk();
}
