//! The columns of a chunk as a union.
ghost use Rattle.std.specs.Prelude.{◌≡◌, ◌≢◌, ◌+◌, ◌<◌, ◌≤◌, ◌≤ℤ◌, ℕ, pos, None, length, map, replicate, IfOk, IfErr, OnOk, MatchResult};
ghost use Rattle.tree_model.specs.promise.TreeParts.{IsLive, child_at, children_of};
ghost use Rattle.tree_model.specs.promise.TreeData.{Live, Released, absent, trees};
ghost use Rattle.raw_array.specs.promise.Members.{Cost, members_of};
ghost use Rattle.raw_array.specs.Windows.{FitsWindow};
ghost use Rattle.arr_move.specs.TreeActs.{with_children};
ghost use Rattle.tree_model.specs.promise.TreeCost.{Nodes};
ghost use Rattle.data_types.specs.KindTrees.{TypedOk};
ghost use Rattle.data_types.specs.promise.TypedView.{typed_of};
ghost use Rattle.schema_check.specs.promise.Schemas.{TypedOf};
ghost use Rattle.layout_rules.specs.promise.Values.{rows_of, tree_items};
ghost use Rattle.layout_rules.specs.promise.Walk.{ChunkOk};
ghost use Rattle.unit_pass.specs.promise.Tally.{risen};
ghost use Rattle.union_cols.specs.promise.Unions.{union_items};
ghost use Rattle.union_cols.specs.promise.Tags.{tag_blocks, tag_fault, tag_of, tagged_items};
ghost use Rattle.union_cols.specs.Tags.{cut_columns, tag_members, tagged_array, tagged_kinds, tagged_members, tagged_schema};
ghost use Rattle.union_cols.specs.TagAnswers.{ChecksAsUnion, refused_tag};

use crate::laws::tagged_chunks_are_unions;
use crate::tag_fault::TagFault;
use crate::tag_ids::{chunk_tags, starts_if};
use crate::tag_moves::{move_arrays, move_schemas};
use crate::tag_tops::{vacant_array, vacant_schema};
use data_types::Typed;
use layout_rules::lawful_root;
use raw_array::RawArray;
use raw_schema::RawSchema;
use std::alloc::Global;
use unit_pass::{NoMemory, Pass, SUPPLY};

/// An id is a byte with a sign.
const MOST_COLUMNS: u64 = 128;
/// An offset of a dense union has four bytes with a sign.
const MOST_DENSE_ROWS: i64 = (1 << 31) - 1;

/// Makes a chunk's columns the children of a union ("Arrow Columnar Format", "Union Layout"): item r is that of the first column that
/// isn't null in row r, and that of column 0 where all are null. An item's id is its column's number. The offsets of a dense union
/// are the rows' numbers. The union has the name of the top, no flags and no metadata; the columns' schemas move whole, the columns
/// move with the chunk's window, and no byte of them is copied. The tops are released.
///
/// Two nodes are made, and a block of the ids and one of a dense union's offsets; without rows no block is. All memory is taken
/// before anything is moved: where the answer is a fault, the trees come back as they were.
pub fn tag(
    alloc: Global,
    typed: &Typed,
    schema: RawSchema,
    array: RawArray,
    dense: bool,
    pass: &mut Pass,
) -> Result<(RawSchema, RawArray), (RawSchema, RawArray, TagFault)>
    requires schema { TypedOf schema (typed_of typed.now) }
    requires types { TypedOk (typed_of typed.now) }
    requires chunk { ChunkOk (typed_of typed.now) array }
    requires units { 4 ≤ pass.old.units }
    requires room { pass.old.units + (Nodes schema + Cost array) ≤ SUPPLY }
    // The two trees, exactly.
    ensures schema { IfOk result (λ made. made.0 ≡ tagged_schema dense schema) }
    ensures array { IfOk result (λ made. made.1 ≡ tagged_array dense (typed_of typed.now) array) }
    // They are a union of the columns' kinds, at which no rule fails.
    ensures checks { IfOk result (λ made. ChecksAsUnion (tagged_kinds dense (typed_of typed.now)) made.0 made.1) }
    // Its items are, of each row, the first column that isn't null, with its number.
    ensures items { IfOk result (λ made. union_items (tagged_kinds dense (typed_of typed.now)) made.1 ≡ tagged_items (rows_of (typed_of typed.now) array)) }
    // What was handed in comes back.
    ensures back { IfErr result (λ refused. (refused.0 ≡ schema) × (refused.1 ≡ array)) }
    // Which fault it is, or out of memory where there is none.
    ensures fault { refused_tag result ≡ tag_fault dense (length (children_of array)) (tree_items array) }
    ensures units { MatchResult result
        (λ made. pass.new.units + (Nodes made.0 + Cost made.1) ≡ pass.old.units + (Nodes schema + Cost array))
        (λ _. pass.new.units ≡ pass.old.units) }
    ensures blocks { IfOk result (λ _. pass.new.blocks ≡ risen pass.old.blocks (tag_blocks dense array)) }
    ensures nodes { IfOk result (λ _. pass.new.nodes ≡ risen pass.old.nodes 2) }
    // Nothing is counted where the columns make no union.
    ensures refused { IfErr result (λ refused. refused.2 ≢ TagFault.NoMemory → pass.new ≡ pass.old) }
{
    lawful_root(typed, &array);
    if let Some(fault) = columns_fault(&array, dense) {
        return Err((schema, array, fault));
    }
    tagged_chunks_are_unions();
    match union_tops(alloc, typed, &schema, &array, dense, pass) {
        Ok((schema_top, array_top)) => Ok(filled(schema, array, schema_top, array_top, pass)),
        Err(NoMemory) => Err((schema, array, TagFault::NoMemory)),
    }
}

/// Why the columns of a struct make no union.
pub fn columns_fault(array: &RawArray, dense: bool) -> Option<TagFault>
    requires live { IsLive array.now }
    requires length { pos 0 ≤ℤ (members_of array.now).length }
    ensures { result ≡ tag_fault dense (length (children_of array.now)) (tree_items array.now) }
{
    let count = array.n_children() as u64;
    if count == 0 || count > MOST_COLUMNS {
        return Some(TagFault::Columns { count });
    }
    if dense && array.length() > MOST_DENSE_ROWS {
        return Some(TagFault::TooLong);
    }
    None
}

/// The two tops of the union, whose children are released. All memory is taken here.
fn union_tops(
    alloc: Global,
    typed: &Typed,
    schema: &RawSchema,
    array: &RawArray,
    dense: bool,
    pass: &mut Pass,
) -> Result<(RawSchema, RawArray), NoMemory>
    requires live { IsLive schema.now }
    requires types { TypedOk (typed_of typed.now) }
    requires chunk { ChunkOk (typed_of typed.now) array.now }
    requires same { length (children_of schema.now) ≡ length (children_of array.now) }
    requires free { tag_fault dense (length (children_of array.now)) (tree_items array.now) ≡ None }
    requires units { 4 ≤ pass.old.units }
    ensures schema { IfOk result (λ tops. tops.0 ≡ Live (tagged_members dense schema.now) (trees (replicate (length (children_of schema.now)) Released)) absent) }
    ensures array { IfOk result (λ tops. tops.1 ≡ Live (tag_members dense (members_of array.now).length (map tag_of (rows_of (typed_of typed.now) array.now)))
        (trees (replicate (length (children_of array.now)) Released)) absent) }
    ensures fields { IfOk result (λ tops. length (children_of tops.0) ≡ length (children_of schema.now)) }
    ensures columns { IfOk result (λ tops. length (children_of tops.1) ≡ length (children_of array.now)) }
    ensures no_field { IfOk result (λ tops. (k : ℕ) → child_at tops.0 k ≡ Released) }
    ensures no_column { IfOk result (λ tops. (k : ℕ) → child_at tops.1 k ≡ Released) }
    ensures units { MatchResult result
        (λ tops. pass.new.units + (Nodes tops.0 + Cost tops.1) ≡ pass.old.units)
        (λ _. pass.new.units ≡ pass.old.units) }
    ensures blocks { OnOk result (pass.new.blocks ≡ risen pass.old.blocks (tag_blocks dense array.now)) }
    ensures nodes { OnOk result (pass.new.nodes ≡ risen pass.old.nodes 2) }
{
    lawful_root(typed, array);
    let ids = chunk_tags(alloc, typed, array)?;
    let starts = starts_if(alloc, dense, ids.len())?;
    let count = array.n_children() as u32;
    let schema_top = vacant_schema(alloc, schema, dense, count, pass)?;
    match vacant_array(alloc, array.length(), ids, starts, count as usize, pass) {
        Ok(array_top) => Ok((schema_top, array_top)),
        Err(NoMemory) => {
            schema_top.end(pass);
            Err(NoMemory)
        }
    }
}

/// The tops over the children of the two trees, which are moved. The old tops are released.
fn filled(
    schema: RawSchema,
    array: RawArray,
    schema_top: RawSchema,
    array_top: RawArray,
    pass: &mut Pass,
) -> (RawSchema, RawArray)
    requires schema { IsLive schema }
    requires array { IsLive array }
    requires off { pos 0 ≤ℤ (members_of array).offset }
    requires len { pos 0 ≤ℤ (members_of array).length }
    requires fit { (k : ℕ) → k < length (children_of array) → FitsWindow (child_at array k) (members_of array).offset (members_of array).length }
    requires fields { length (children_of schema_top) ≡ length (children_of schema) }
    requires columns { length (children_of array_top) ≡ length (children_of array) }
    requires no_field { (k : ℕ) → child_at schema_top k ≡ Released }
    requires no_column { (k : ℕ) → child_at array_top k ≡ Released }
    requires room { pass.old.units + (Nodes schema + Nodes schema_top + (Cost array + Cost array_top)) ≤ SUPPLY }
    ensures schema { result.0 ≡ with_children schema_top (children_of schema) }
    ensures array { result.1 ≡ with_children array_top (cut_columns array) }
    ensures units { pass.new.units + (Nodes result.0 + Cost result.1) ≡ pass.old.units + (Nodes schema + Nodes schema_top + (Cost array + Cost array_top)) }
    ensures blocks { pass.new.blocks ≡ pass.old.blocks }
    ensures nodes { pass.new.nodes ≡ pass.old.nodes }
{
    let off = array.offset();
    let len = array.length();
    let schema = move_schemas(schema, schema_top, pass);
    let array = move_arrays(array, array_top, off, len, pass);
    (schema, array)
}
