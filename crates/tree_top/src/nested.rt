//! The rows of a chunk, grouped by the values of a column.
ghost use Rattle.std.specs.Prelude.{◌≡◌, ◌+◌, ◌-◌, ◌*◌, ◌⊎◌, ◌<◌, ◌≤◌, ℕ, None, Some, Err, IfOk, IfErr, IfSome, IsTrue, OnOk, length};
ghost use Rattle.data_types.specs.promise.KindTrees.{KindTree};
ghost use Rattle.data_types.specs.KindTrees.{TypedOk};
ghost use Rattle.data_types.specs.ValueTexts.{text_limit};
ghost use Rattle.data_types.specs.promise.TypedView.{typed_of};
ghost use Rattle.layout_rules.specs.promise.Values.{rows_of, tree_items};
ghost use Rattle.layout_rules.specs.promise.Walk.{ChunkOk};
ghost use Rattle.list_cols.specs.promise.Faults.{first_wrong, most_columns, most_named};
ghost use Rattle.list_cols.specs.Faults.{nests};
ghost use Rattle.list_cols.specs.promise.NestedTables.{nested_blocks};
ghost use Rattle.raw_array.specs.promise.Members.{Cost};
ghost use Rattle.tree_model.specs.promise.TreeCost.{Nodes};
ghost use Rattle.schema_check.specs.promise.Schemas.{TypedOf};
ghost use Rattle.tree_model.specs.promise.TreeParts.{children_of};
ghost use Rattle.unit_pass.specs.promise.Tally.{risen};
ghost use Rattle.unit_pass.specs.declared.pass.TheConstants.{CHUNK, SUPPLY};
ghost use Rattle.tree_top.specs.NewLengths.{IsLong};
ghost use Rattle.tree_top.specs.promise.ListsAnswer.{NestAnswer};
ghost use Rattle.tree_top.specs.AnswerParts.{nested};
ghost use Rattle.tree_top.specs.promise.TextOrFault.{Fault, Text};

use crate::chunk::{chunk_lines, row_count};
use crate::fault::TreeRunFault;
use crate::lists::column_kinds;
use data_types::{Typed, kinds_of_typed};
use layout_rules::{chunks_are_tables, lawful_trees};
use list_cols::{ListFault, nest, wrong_to_nest};
use raw_array::RawArray;
use raw_schema::RawSchema;
use std::alloc::Global;
use unit_pass::{CHUNK, Pass, SUPPLY};

/// The most items of a list column, and the most bytes of a text's lines behind `ok`.
const MOST_ITEMS: u64 = (1 << 31) - 1;

const LIMIT: u64 = (1 << 31) - 3;

/// A line for each distinct value of a column of a chunk, in order of first appearance: the value, and of each other column the list of
/// its values in the rows with it; or the first fault: of the schema, of the chunk, of the number of columns and of the column's number,
/// of the columns' kinds, of how many rows and items there would be. What was handed in is released, and so is what is made.
pub(crate) fn nest_text(
    alloc: Global,
    schema: RawSchema,
    array: RawArray,
    column: u32,
    pass: &mut Pass,
) -> Result<Vec<u8>, TreeRunFault>
    requires some { CHUNK ≤ pass.old.units }
    requires room { pass.old.units + (Nodes schema + Cost array) ≤ SUPPLY }
    ensures text { IfOk result (λ text. NestAnswer column schema array (Text text.items)) }
    ensures fault { IfErr result (λ fault. (fault ≡ TreeRunFault.NoMemory) ⊎ NestAnswer column schema array (Fault fault)) }
    ensures units { pass.new.units ≡ pass.old.units + (Nodes schema + Cost array) }
    ensures made { OnOk result ((typed : KindTree) × TypedOf schema typed × (pass.new.blocks ≡ risen pass.old.blocks (nested_blocks column typed array))
        × (pass.new.nodes ≡ risen pass.old.nodes (4 * length (children_of typed) - 1))) }
{
    match column_kinds(alloc, &schema, &array, column) {
        Ok(typed) => nested_text(alloc, &typed, schema, array, column, pass),
        Err(fault) => {
            schema.end(pass);
            array.end(pass);
            Err(fault)
        }
    }
}

/// The text of a chunk's rows grouped by a column, or why there is none.
fn nested_text(
    alloc: Global,
    typed: &Typed,
    schema: RawSchema,
    array: RawArray,
    column: u32,
    pass: &mut Pass,
) -> Result<Vec<u8>, TreeRunFault>
    requires kinds { TypedOf schema (typed_of typed.now) }
    requires valid { TypedOk (typed_of typed.now) }
    requires chunk { ChunkOk (typed_of typed.now) array }
    requires inside { column < length (children_of (typed_of typed.now)) }
    requires few { length (children_of (typed_of typed.now)) ≤ most_columns }
    requires some { CHUNK ≤ pass.old.units }
    requires room { pass.old.units + (Nodes schema + Cost array) ≤ SUPPLY }
    ensures text { IfOk result (λ text. Text text.items ≡ nested column (typed_of typed.now) (rows_of (typed_of typed.now) array)) }
    ensures fault { IfErr result (λ fault. (fault ≡ TreeRunFault.NoMemory)
        ⊎ (Fault fault ≡ nested column (typed_of typed.now) (rows_of (typed_of typed.now) array))) }
    ensures units { pass.new.units ≡ pass.old.units + (Nodes schema + Cost array) }
    ensures blocks { OnOk result (pass.new.blocks ≡ risen pass.old.blocks (nested_blocks column (typed_of typed.now) array)) }
    ensures nodes { OnOk result (pass.new.nodes ≡ risen pass.old.nodes (4 * length (children_of (typed_of typed.now)) - 1)) }
    // Nothing is made where the shortest items of so many rows are too long.
    ensures many { first_wrong nests 0 (children_of (typed_of typed.now)) ≡ None → tree_items array ≤ most_named
        → text_limit < 3 + tree_items array * (2 * (length (children_of (typed_of typed.now)) - 1))
        → (result ≡ Err TreeRunFault.NoMemory) × (pass.new.blocks ≡ pass.old.blocks) × (pass.new.nodes ≡ pass.old.nodes) }
{
    if let Some(fault) = early_fault(typed, &array) {
        schema.end(pass);
        array.end(pass);
        return Err(fault);
    }
    match nest(alloc, typed, schema, array, column as usize, pass) {
        Ok((schema, array)) => {
            let lines = chunk_lines(alloc, &schema, &array);
            schema.end(pass);
            array.end(pass);
            Ok(lines?)
        }
        Err((schema, array, fault)) => {
            schema.end(pass);
            array.end(pass);
            Err(TreeRunFault::from(fault))
        }
    }
}

/// Whether the rows show at once that their text is too long: each is an item of each list column, of two bytes at least with what
/// follows it. More rows than a list has items are left to the call that groups them.
fn is_nested_too_long(typed: &Typed, array: &RawArray) -> bool
    requires valid { TypedOk (typed_of typed.now) }
    requires chunk { ChunkOk (typed_of typed.now) array.now }
    requires some { 1 ≤ length (children_of (typed_of typed.now)) }
    requires few { length (children_of (typed_of typed.now)) ≤ most_columns }
    // Whatever the column is by which the rows would be grouped.
    ensures long { IsTrue result → first_wrong nests 0 (children_of (typed_of typed.now)) ≡ None
        → (column : ℕ) → column < length (children_of (typed_of typed.now)) → IsLong (nested column (typed_of typed.now) (rows_of (typed_of typed.now) array.now)) }
    ensures many { tree_items array.now ≤ most_named → text_limit < 3 + tree_items array.now * (2 * (length (children_of (typed_of typed.now)) - 1))
        → IsTrue result }
{
    kinds_of_typed(typed);
    lawful_trees();
    chunks_are_tables();
    let rows = row_count(typed, array);
    if rows > MOST_ITEMS {
        return false;
    }
    let item_bytes = 2 * (typed.kids.len() as u64 - 1);
    rows * item_bytes > LIMIT
}

/// Why nothing is made where the text would be too long. It is a column of another kind, or else the text is refused as out of memory.
fn early_fault(typed: &Typed, array: &RawArray) -> Option<TreeRunFault>
    requires valid { TypedOk (typed_of typed.now) }
    requires chunk { ChunkOk (typed_of typed.now) array.now }
    requires some { 1 ≤ length (children_of (typed_of typed.now)) }
    requires few { length (children_of (typed_of typed.now)) ≤ most_columns }
    // Whatever the column is by which the rows would be grouped.
    ensures fault { IfSome result (λ fault. (fault ≡ TreeRunFault.NoMemory)
        ⊎ ((column : ℕ) → Fault fault ≡ nested column (typed_of typed.now) (rows_of (typed_of typed.now) array.now))) }
    ensures long { result ≡ Some TreeRunFault.NoMemory → (column : ℕ) → column < length (children_of (typed_of typed.now))
        → IsLong (nested column (typed_of typed.now) (rows_of (typed_of typed.now) array.now)) }
    ensures many { first_wrong nests 0 (children_of (typed_of typed.now)) ≡ None → tree_items array.now ≤ most_named
        → text_limit < 3 + tree_items array.now * (2 * (length (children_of (typed_of typed.now)) - 1)) → result ≡ Some TreeRunFault.NoMemory }
{
    kinds_of_typed(typed);
    if !is_nested_too_long(typed, array) {
        return None;
    }
    match wrong_to_nest(typed) {
        Some(column) => Some(TreeRunFault::Lists(ListFault::WrongKind { column })),
        None => Some(TreeRunFault::NoMemory),
    }
}
