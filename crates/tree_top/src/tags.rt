//! The columns of a chunk, tagged: the children of a union.
ghost use Rattle.std.specs.Prelude.{◌≡◌, ◌+◌, ◌*◌, ◌⊎◌, ◌<◌, ◌≤◌, ℕ, None, Err, IfOk, IfErr, IsTrue, OnOk, length};
ghost use Rattle.data_types.specs.KindTrees.{TypedOk};
ghost use Rattle.data_types.specs.ValueTexts.{text_limit};
ghost use Rattle.data_types.specs.promise.TypedView.{typed_of};
ghost use Rattle.layout_rules.specs.promise.Values.{row_items, rows_of, tree_items};
ghost use Rattle.layout_rules.specs.promise.Walk.{ChunkOk};
ghost use Rattle.raw_array.specs.promise.Members.{Cost};
ghost use Rattle.tree_model.specs.promise.TreeCost.{Nodes};
ghost use Rattle.tree_model.specs.promise.TreeParts.{children_of};
ghost use Rattle.schema_check.specs.promise.Schemas.{TypedOf};
ghost use Rattle.union_cols.specs.promise.Tags.{tag_blocks, tag_fault, tagged_items};
ghost use Rattle.unit_pass.specs.promise.Tally.{risen};
ghost use Rattle.unit_pass.specs.declared.pass.TheConstants.{SUPPLY};
ghost use Rattle.tree_top.specs.NewLengths.{IsLong, tag_line};
ghost use Rattle.tree_top.specs.promise.TagAnswer.{TagAnswer};
ghost use Rattle.tree_top.specs.AnswerParts.{tags_of_columns};
ghost use Rattle.tree_top.specs.promise.TextOrFault.{Fault, Text};
ghost use Rattle.tree_top.specs.promise.UnionAnswer.{items_text};

use crate::chunk::{chunk_kinds, row_count};
use crate::fault::TreeRunFault;
use crate::union::union_text;
use data_types::{Typed, kinds_of_typed};
use layout_rules::{chunks_are_tables, lawful_parts, lawful_root, lawful_trees};
use raw_array::RawArray;
use raw_schema::RawSchema;
use std::alloc::Global;
use union_cols::{columns_fault, first_valued, one_union_answer, tag};
use unit_pass::{Pass, SUPPLY};
use value_text::{Lengths, measured_lengths, text_bound};

/// The most bytes of a text's lines behind `ok`, and the bytes of the shortest line.
const LIMIT: u64 = (1 << 31) - 3;

const LEAST_LINE: u64 = 4;

/// A line for each row of a chunk, whose columns are made the children of a union ("Arrow Columnar Format", "Union Layout"): the number
/// of the first column that isn't null, and its value; or the first fault: of the schema, of the chunk, of the number of columns and
/// rows. What was handed in is released, and so is what is made.
pub(crate) fn tag_text(
    alloc: Global,
    schema: RawSchema,
    array: RawArray,
    dense: bool,
    pass: &mut Pass,
) -> Result<Vec<u8>, TreeRunFault>
    requires some { 4 ≤ pass.old.units }
    requires room { pass.old.units + (Nodes schema + Cost array) ≤ SUPPLY }
    ensures text { IfOk result (λ text. TagAnswer dense schema array (Text text.items)) }
    ensures fault { IfErr result (λ fault. (fault ≡ TreeRunFault.NoMemory) ⊎ TagAnswer dense schema array (Fault fault)) }
    ensures units { pass.new.units ≡ pass.old.units + (Nodes schema + Cost array) }
    ensures blocks { OnOk result (pass.new.blocks ≡ risen pass.old.blocks (tag_blocks dense array)) }
    ensures nodes { OnOk result (pass.new.nodes ≡ risen pass.old.nodes 2) }
{
    match chunk_kinds(alloc, &schema, &array) {
        Ok(typed) => columns_text(alloc, &typed, schema, array, dense, pass),
        Err(fault) => {
            schema.end(pass);
            array.end(pass);
            Err(fault)
        }
    }
}

/// The text of a chunk's tagged columns, or why they make no union.
fn columns_text(
    alloc: Global,
    typed: &Typed,
    schema: RawSchema,
    array: RawArray,
    dense: bool,
    pass: &mut Pass,
) -> Result<Vec<u8>, TreeRunFault>
    requires kinds { TypedOf schema (typed_of typed.now) }
    requires valid { TypedOk (typed_of typed.now) }
    requires chunk { ChunkOk (typed_of typed.now) array }
    requires some { 4 ≤ pass.old.units }
    requires room { pass.old.units + (Nodes schema + Cost array) ≤ SUPPLY }
    ensures text { IfOk result (λ text. Text text.items ≡ tags_of_columns dense (typed_of typed.now) array) }
    ensures fault { IfErr result (λ fault. (fault ≡ TreeRunFault.NoMemory) ⊎ (Fault fault ≡ tags_of_columns dense (typed_of typed.now) array)) }
    ensures units { pass.new.units ≡ pass.old.units + (Nodes schema + Cost array) }
    ensures blocks { OnOk result (pass.new.blocks ≡ risen pass.old.blocks (tag_blocks dense array)) }
    ensures nodes { OnOk result (pass.new.nodes ≡ risen pass.old.nodes 2) }
    // Nothing is made where the shortest lines of so many rows are too long.
    ensures many { tag_fault dense (length (children_of array)) (tree_items array) ≡ None → text_limit < 3 + 4 * tree_items array
        → (result ≡ Err TreeRunFault.NoMemory) × (pass.new.blocks ≡ pass.old.blocks) × (pass.new.nodes ≡ pass.old.nodes) }
{
    one_union_answer();
    if is_tagged_too_long(alloc, typed, &array, dense) {
        schema.end(pass);
        array.end(pass);
        return Err(TreeRunFault::NoMemory);
    }
    match tag(alloc, typed, schema, array, dense, pass) {
        Ok((schema, array)) => {
            let answer = union_text(alloc, &schema, &array);
            schema.end(pass);
            array.end(pass);
            answer
        }
        Err((schema, array, fault)) => {
            schema.end(pass);
            array.end(pass);
            Err(TreeRunFault::from(fault))
        }
    }
}

/// At least how many bytes each line has: its number, two marks, and the text of the first column whose type has values. That is null
/// nowhere where all its items have one length above 1.
fn least_line(alloc: Global, typed: &Typed, array: &RawArray) -> u64
    requires types { TypedOk (typed_of typed.now) }
    requires chunk { ChunkOk (typed_of typed.now) array.now }
    ensures { (i : ℕ) → i < tree_items array.now → result ≤ length (tag_line (row_items (typed_of typed.now) array.now i)) }
{
    kinds_of_typed(typed);
    lawful_root(typed, array);
    lawful_parts(typed, array);
    lawful_trees();
    chunks_are_tables();
    let Some(k) = first_valued(typed, array) else {
        return LEAST_LINE;
    };
    match measured_lengths(alloc, &typed.kids[k], array.child(k)) {
        Ok(Lengths::Same(length)) => 3 + u64::from(length),
        _ => LEAST_LINE,
    }
}

/// Whether a line for each row makes a text of more than 2^31 bytes even if all lines are as short as can be. The columns are measured
/// only where neither the number of rows nor the sizes of their buffers tells.
fn has_long_lines(alloc: Global, typed: &Typed, array: &RawArray) -> bool
    requires types { TypedOk (typed_of typed.now) }
    requires chunk { ChunkOk (typed_of typed.now) array.now }
    ensures long { IsTrue result → text_limit < length (items_text (tagged_items (rows_of (typed_of typed.now) array.now))) }
    ensures many { text_limit < 3 + 4 * tree_items array.now → IsTrue result }
{
    let rows = row_count(typed, array);
    if rows > LIMIT / LEAST_LINE {
        return true;
    }
    if text_bound(typed, array).saturating_add(3 * rows) <= LIMIT {
        return false;
    }
    rows.saturating_mul(least_line(alloc, typed, array)) > LIMIT
}

/// Whether the columns make a union, whose text is too long: then nothing is made.
fn is_tagged_too_long(alloc: Global, typed: &Typed, array: &RawArray, dense: bool) -> bool
    requires types { TypedOk (typed_of typed.now) }
    requires chunk { ChunkOk (typed_of typed.now) array.now }
    ensures long { IsTrue result → IsLong (tags_of_columns dense (typed_of typed.now) array.now) }
    ensures many { tag_fault dense (length (children_of array.now)) (tree_items array.now) ≡ None → text_limit < 3 + 4 * tree_items array.now
        → IsTrue result }
{
    lawful_root(typed, array);
    match columns_fault(array, dense) {
        None => has_long_lines(alloc, typed, array),
        Some(_) => false,
    }
}
