//! What a table is whose columns are made of values that fit.
ghost use Rattle.std.specs.Prelude.{◌≤◌, ◌^◌, ℕ, List, length, All};
ghost use Rattle.column_fill.specs.Tables.{FitsRows, NamedValues, chunk_with, columns_with, rows_with};
ghost use Rattle.stream_face.specs.Lawful.{IsChunkOf, IsTable, LawfulColumns};

use arr_export::{
    column_schemas_are_lawful, columns_of_values_make_a_chunk, encoded_columns_are_lawful,
    schema_size,
};

/// A law: a table whose columns are made of values that fit is lawful, in its columns, in its rows and in the chunk that is made
/// of them ("Arrow Columnar Format", "Struct Layout"). So a producer of a stream owes of its chunks no more than that its values
/// fit, and that there are at most 4,096 columns and 2^30 rows.
pub fn fitting_values_make_a_lawful_chunk()
    ensures columns { (rows : ℕ) (columns : List NamedValues) → All (FitsRows rows) columns → length columns ≤ 4096 → LawfulColumns (columns_with columns) }
    ensures table { (rows : ℕ) (columns : List NamedValues) → All (FitsRows rows) columns → IsTable (columns_with columns) (rows_with rows columns) }
    ensures chunk { (rows : ℕ) (columns : List NamedValues) → All (FitsRows rows) columns → length columns ≤ 4096 → rows ≤ 2 ^ 30
        → IsChunkOf (columns_with columns) (rows_with rows columns) (chunk_with rows columns) }
{
    column_schemas_are_lawful();
    schema_size();
    columns_of_values_make_a_chunk();
    encoded_columns_are_lawful();
}
