//! Laws of the answers on schemas, and of arrays at which no rule fails. The calls do nothing.
ghost use Rattle.std.specs.Prelude.{◌≡◌, ℕ, Bool, None, List, Result, IsTrue, is_none, length};
ghost use Rattle.tree_model.specs.promise.TreeParts.{children_of};
ghost use Rattle.raw_schema.specs.promise.Members.{SchemaTree};
ghost use Rattle.raw_array.specs.promise.Members.{ArrayTree};
ghost use Rattle.data_types.specs.promise.KindTrees.{KindTree};
ghost use Rattle.data_types.specs.KindTrees.{TypedOk};
ghost use Rattle.schema_check.specs.promise.Schemas.{TypedOf};
ghost use Rattle.layout_rules.specs.promise.Values.{rows_of, tree_items};
ghost use Rattle.layout_rules.specs.promise.Walk.{ChunkOk};
ghost use Rattle.union_cols.specs.promise.Unions.{UnionTree, union_items};
ghost use Rattle.union_cols.specs.promise.UnionRules.{union_fault};
ghost use Rattle.union_cols.specs.UnionHolds.{UnionHolds};
ghost use Rattle.union_cols.specs.UnionAnswers.{union_of};
ghost use Rattle.union_cols.specs.promise.UnionFormats.{UnionFormat};
ghost use Rattle.union_cols.specs.UnionFormats.{FormatReads};
ghost use Rattle.union_cols.specs.promise.UnionSchemas.{SchemaFound, UnionReads};
ghost use Rattle.union_cols.specs.TagAnswers.{ChecksAsUnion};
ghost use Rattle.union_cols.specs.promise.Tags.{tag_fault, tagged_items};
ghost use Rattle.union_cols.specs.Tags.{tagged_array, tagged_kinds, tagged_schema};

use crate::kinds::UnionTyped;
use raw_array::RawArray;

/// A law: a text is the format of one union or has one first fault, and so it is with a schema.
pub fn one_union_answer()
    ensures formats { (text : List ℕ) (first second : Result UnionFormat ℕ) → FormatReads text first → FormatReads text second → first ≡ second }
    ensures schemas { (schema : SchemaTree) (first second : Result UnionTree SchemaFound)
        → UnionReads schema first → UnionReads schema second → first ≡ second }
{
    root_check::one_root_answer();
}

/// A law: what holds of a union's array at which no rule fails.
pub fn union_holds(typed: &UnionTyped, array: &RawArray)
    requires lawful { IsTrue (is_none (union_fault (union_of typed.now) array.now)) }
    requires same { length typed.now.ids.items ≡ length typed.now.kids.items }
    ensures { UnionHolds (union_of typed.now) array.now }
{
    root_check::faultless_roots();
    layout_rules::lawful_trees();
}

/// A law: the columns of a chunk, as [`crate::tag`] puts them under a union, read as one and meet all its rules; and its items are,
/// of each row, the first column that isn't null, with its number.
pub fn tagged_chunks_are_unions()
    ensures checks { (dense : Bool) (typed : KindTree) (schema : SchemaTree) (array : ArrayTree) → TypedOf schema typed → TypedOk typed
        → ChunkOk typed array → tag_fault dense (length (children_of array)) (tree_items array) ≡ None
        → ChecksAsUnion (tagged_kinds dense typed) (tagged_schema dense schema) (tagged_array dense typed array) }
    ensures items { (dense : Bool) (typed : KindTree) (schema : SchemaTree) (array : ArrayTree) → TypedOf schema typed → TypedOk typed
        → ChunkOk typed array → tag_fault dense (length (children_of array)) (tree_items array) ≡ None
        → union_items (tagged_kinds dense typed) (tagged_array dense typed array) ≡ tagged_items (rows_of typed array) }
{}
