//! What the schema and the array are that are made.
ghost use Rattle.std.specs.Prelude.{◌≡◌, ◌≤◌, length};
ghost use Rattle.data_types.specs.KindTrees.{TypedOk};
ghost use Rattle.data_types.specs.promise.TypedView.{typed_of};
ghost use Rattle.layout_rules.specs.promise.Rules.{window_limit};
ghost use Rattle.layout_rules.specs.promise.Values.{rows_of};
ghost use Rattle.layout_rules.specs.promise.Walk.{ChunkOk};
ghost use Rattle.raw_schema.specs.promise.Members.{SchemaTree};
ghost use Rattle.schema_check.specs.promise.Schemas.{TypedOf};
ghost use Rattle.list_cols.specs.Exploded.{exploded_array, exploded_type};
ghost use Rattle.list_cols.specs.Fields.{HasList, exploded_schema};
ghost use Rattle.list_cols.specs.promise.Nested.{Explode};
ghost use Rattle.list_cols.specs.Spreading.{AllFit, CanSpread};

use crate::laws::flat_tables_have_their_rows;
use array_laws::flat_types_have_no_children;
use data_types::{Typed, kinds_of_typed};
use layout_rules::{chunks_are_tables, lawful_trees};
use raw_array::RawArray;

/// A law: the schema with the items of a list in its place is in order, and where the new columns have encodings, the new array is a
/// chunk of its kinds, whose rows are those of which the lists are spread out. The call does nothing.
pub(crate) fn exploded_trees_are_lawful(typed: &Typed, array: &RawArray, column: usize)
    requires types { TypedOk (typed_of typed.now) }
    requires rows { CanSpread column (typed_of typed.now) array.now }
    ensures field { (schema : SchemaTree) → TypedOf schema (typed_of typed.now) → HasList schema column }
    ensures types { (schema : SchemaTree) → TypedOf schema (typed_of typed.now)
        → TypedOf (exploded_schema column schema) (exploded_type column (typed_of typed.now)) }
    ensures chunk { AllFit column (typed_of typed.now) array.now → length (Explode column (rows_of (typed_of typed.now) array.now)) ≤ window_limit
        → ChunkOk (exploded_type column (typed_of typed.now)) (exploded_array column (typed_of typed.now) array.now) }
    ensures rows { AllFit column (typed_of typed.now) array.now
        → rows_of (exploded_type column (typed_of typed.now)) (exploded_array column (typed_of typed.now) array.now)
        ≡ Explode column (rows_of (typed_of typed.now) array.now) }
{
    kinds_of_typed(typed);
    lawful_trees();
    chunks_are_tables();
    flat_types_have_no_children();
    flat_tables_have_their_rows();
}
