//! What the columns and the chunks that are made anew mean.
ghost use Rattle.std.specs.Prelude.{◌≡◌, ◌≢◌, ◌^◌, ◌≤◌, ◌<◌, ℕ, Bool, List, length, All};
ghost use Rattle.data_types.specs.promise.Parts.{column_values};
ghost use Rattle.data_types.specs.promise.Table.{Column, Flat, Dict, Row};
ghost use Rattle.data_types.specs.promise.Value.{Value, Null};
ghost use Rattle.data_types.specs.declared.kind.DataType.{DataType as AType};
ghost use Rattle.tree_model.specs.Tree.{dictionary_at};
ghost use Rattle.raw_array.specs.promise.Members.{ArrayTree};
ghost use Rattle.data_types.specs.promise.ColumnKinds.{type_of_kind};
ghost use Rattle.layout_rules.specs.promise.Values.{values_of};
ghost use Rattle.layout_rules.specs.promise.Walk.{LayoutOk};
ghost use Rattle.array_laws.specs.Picking.{Replaced};
ghost use Rattle.stage_model.specs.promise.Dictionary.{Dictionary};
ghost use Rattle.stream_face.specs.Lawful.{IsChunkOf, IsTable, LawfulColumns};
ghost use Rattle.dict_stage.specs.Indices.{recoded_tree};
ghost use Rattle.dict_stage.specs.Recoded.{Recodes, TextsOf, recoded_columns, text_kind};

use arr_export::{encoded_columns_are_lawful, indexed_columns_are_lawful};
use array_laws::{
    column_types_follow_picks, lawful_structs_have_columns, replaced_columns_make_a_chunk,
};
use stages::chunks_are_small;

/// A law: an array that is made of values of texts or bytes is lawful and has these values, with a dictionary or without; and the
/// dictionary has exactly the distinct values, in the order in which they first appear, and no null ("Arrow Columnar Format",
/// "Dictionary-encoded Layout").
pub fn dictionaries_are_exact()
    ensures lawful { (dict : Bool) (type : AType) (values : List Value) → TextsOf type values
        → LayoutOk (type_of_kind (text_kind dict type)) (recoded_tree (text_kind dict type) values) }
    ensures values { (dict : Bool) (type : AType) (values : List Value) → TextsOf type values
        → values_of (type_of_kind (text_kind dict type)) (recoded_tree (text_kind dict type) values) ≡ values }
    ensures dictionary { (type : AType) (values : List Value) → TextsOf type values
        → values_of (type_of_kind (Flat type)) (dictionary_at (recoded_tree (Dict type) values)) ≡ Dictionary values }
    ensures no_null { (values : List Value) → All (λ value. value ≢ Null) (Dictionary values) }
{
    encoded_columns_are_lawful();
    indexed_columns_are_lawful();
}

/// A law: a chunk of a table with a column made anew is a chunk of the columns after it, with the same rows.
pub(crate) fn recoded_chunks_have_their_rows()
    ensures { (dict : Bool) (place : ℕ) (type : AType) (before : List Column) (rows : List Row) (chunk : ArrayTree) → Recodes dict place type before
        → LawfulColumns before → LawfulColumns (recoded_columns dict place type before) → IsTable before rows → length rows ≤ 2 ^ 30
        → IsChunkOf before rows chunk
        → IsChunkOf (recoded_columns dict place type before) rows
        (Replaced chunk place (recoded_tree (text_kind dict type) (column_values place rows))) }
{
    dictionaries_are_exact();
    encoded_columns_are_lawful();
    lawful_structs_have_columns();
    replaced_columns_make_a_chunk();
    column_types_follow_picks();
    chunks_are_small();
}
