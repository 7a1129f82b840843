//! The rows of a chunk of which the lists in a column are spread out.
ghost use Rattle.std.specs.Prelude.{◌≡◌, ◌+◌, ◌⊎◌, ◌<◌, ◌≤◌, None, IfOk, IfErr, IfSome, OnOk, List, length};
ghost use Rattle.data_types.specs.promise.Table.{Row};
ghost use Rattle.data_types.specs.promise.KindTrees.{KindTree};
ghost use Rattle.data_types.specs.KindTrees.{TypedOk};
ghost use Rattle.data_types.specs.promise.TypedView.{typed_of};
ghost use Rattle.layout_rules.specs.promise.Values.{rows_of};
ghost use Rattle.layout_rules.specs.promise.Walk.{ChunkOk, first_chunk_fault};
ghost use Rattle.list_cols.specs.promise.Exploded.{exploded_blocks};
ghost use Rattle.list_cols.specs.promise.Faults.{most_columns};
ghost use Rattle.raw_array.specs.promise.Members.{Cost};
ghost use Rattle.tree_model.specs.promise.TreeCost.{Nodes};
ghost use Rattle.schema_check.specs.promise.Schemas.{TypedOf};
ghost use Rattle.tree_model.specs.promise.TreeParts.{children_of};
ghost use Rattle.unit_pass.specs.promise.Tally.{risen};
ghost use Rattle.unit_pass.specs.declared.pass.TheConstants.{CHUNK, SUPPLY};
ghost use Rattle.tree_top.specs.promise.ChunkAnswer.{ChunkAnswer};
ghost use Rattle.tree_top.specs.promise.ListsAnswer.{ExplodeAnswer, column_fault};
ghost use Rattle.tree_top.specs.AnswerParts.{exploded, answer_of_column};
ghost use Rattle.tree_top.specs.promise.TextOrFault.{Answer, Fault, Text};

use crate::chunk::{chunk_kinds, chunk_lines};
use crate::exploded_length::is_exploded_too_long;
use crate::fault::TreeRunFault;
use data_types::{Typed, kinds_of_typed};
use list_cols::{ListFault, explode, exploded_rows, wrong_to_explode};
use raw_array::RawArray;
use raw_schema::RawSchema;
use std::alloc::Global;
use unit_pass::{CHUNK, Pass, SUPPLY};

/// The most columns of a chunk whose rows are made anew.
const MOST_COLUMNS: u64 = 1024;

/// Why a chunk of columns of these kinds has none of this number to be taken.
fn column_fault(typed: &Typed, column: u32) -> Option<TreeRunFault>
    ensures { result ≡ column_fault column (length (children_of (typed_of typed.now))) }
{
    kinds_of_typed(typed);
    let count = typed.kids.len() as u64;
    if count > MOST_COLUMNS {
        return Some(TreeRunFault::TooManyColumns { count });
    }
    if u64::from(column) < count {
        None
    } else {
        Some(TreeRunFault::Column { column })
    }
}

/// The kinds of a chunk that has a column of this number, or the first fault: of its schema, of the chunk, of the number of its columns
/// and of the column's number.
pub(crate) fn column_kinds(
    alloc: Global,
    schema: &RawSchema,
    array: &RawArray,
    column: u32,
) -> Result<Typed, TreeRunFault>
    ensures found { IfOk result (λ typed. TypedOf schema.now (typed_of typed)) }
    ensures valid { IfOk result (λ typed. TypedOk (typed_of typed)) }
    ensures chunk { IfOk result (λ typed. ChunkOk (typed_of typed) array.now) }
    ensures passed { IfOk result (λ typed. first_chunk_fault (typed_of typed) array.now ≡ None) }
    ensures there { IfOk result (λ typed. column_fault column (length (children_of (typed_of typed))) ≡ None) }
    ensures inside { IfOk result (λ typed. column < length (children_of (typed_of typed))) }
    ensures few { IfOk result (λ typed. length (children_of (typed_of typed)) ≤ most_columns) }
    // Whatever is said of rows, this is the answer.
    ensures fault { IfErr result (λ fault. (fault ≡ TreeRunFault.NoMemory)
        ⊎ ((said : KindTree → List Row → Answer) → ChunkAnswer (answer_of_column column said) schema.now array.now (Fault fault))) }
{
    let typed = chunk_kinds(alloc, schema, array)?;
    match column_fault(&typed, column) {
        None => Ok(typed),
        Some(fault) => Err(fault),
    }
}

/// A line for each row of a chunk of which the lists in a column are spread out: for each item of a row's list the row with the item
/// in its place; or the first fault: of the schema, of the chunk, of the number of columns and of the column's number, of the columns'
/// kinds, of how many rows and bytes there would be. What was handed in is released, and so is what is made.
pub(crate) fn explode_text(
    alloc: Global,
    schema: RawSchema,
    array: RawArray,
    column: u32,
    pass: &mut Pass,
) -> Result<Vec<u8>, TreeRunFault>
    requires some { CHUNK ≤ pass.old.units }
    requires room { pass.old.units + (Nodes schema + Cost array) ≤ SUPPLY }
    ensures text { IfOk result (λ text. ExplodeAnswer column schema array (Text text.items)) }
    ensures fault { IfErr result (λ fault. (fault ≡ TreeRunFault.NoMemory) ⊎ ExplodeAnswer column schema array (Fault fault)) }
    ensures units { pass.new.units ≡ pass.old.units + (Nodes schema + Cost array) }
    ensures made { OnOk result ((typed : KindTree) × TypedOf schema typed × (pass.new.blocks ≡ risen pass.old.blocks (exploded_blocks column typed array))
        × (pass.new.nodes ≡ risen pass.old.nodes (length (children_of typed) + 3))) }
{
    match column_kinds(alloc, &schema, &array, column) {
        Ok(typed) => exploded_text(alloc, &typed, schema, array, column, pass),
        Err(fault) => {
            schema.end(pass);
            array.end(pass);
            Err(fault)
        }
    }
}

/// The text of a chunk's rows whose lists in a column are spread out, or why there is none.
fn exploded_text(
    alloc: Global,
    typed: &Typed,
    schema: RawSchema,
    array: RawArray,
    column: u32,
    pass: &mut Pass,
) -> Result<Vec<u8>, TreeRunFault>
    requires kinds { TypedOf schema (typed_of typed.now) }
    requires valid { TypedOk (typed_of typed.now) }
    requires chunk { ChunkOk (typed_of typed.now) array }
    requires inside { column < length (children_of (typed_of typed.now)) }
    requires few { length (children_of (typed_of typed.now)) ≤ most_columns }
    requires some { CHUNK ≤ pass.old.units }
    requires room { pass.old.units + (Nodes schema + Cost array) ≤ SUPPLY }
    ensures text { IfOk result (λ text. Text text.items ≡ exploded column (typed_of typed.now) (rows_of (typed_of typed.now) array)) }
    ensures fault { IfErr result (λ fault. (fault ≡ TreeRunFault.NoMemory)
        ⊎ (Fault fault ≡ exploded column (typed_of typed.now) (rows_of (typed_of typed.now) array))) }
    ensures units { pass.new.units ≡ pass.old.units + (Nodes schema + Cost array) }
    ensures blocks { OnOk result (pass.new.blocks ≡ risen pass.old.blocks (exploded_blocks column (typed_of typed.now) array)) }
    ensures nodes { OnOk result (pass.new.nodes ≡ risen pass.old.nodes (length (children_of (typed_of typed.now)) + 3)) }
{
    if let Some(fault) = early_fault(alloc, typed, &array, column) {
        schema.end(pass);
        array.end(pass);
        return Err(fault);
    }
    match explode(alloc, typed, schema, array, column as usize, pass) {
        Ok((schema, array)) => {
            let lines = chunk_lines(alloc, &schema, &array);
            schema.end(pass);
            array.end(pass);
            Ok(lines?)
        }
        Err((schema, array, fault)) => {
            schema.end(pass);
            array.end(pass);
            Err(TreeRunFault::from(fault))
        }
    }
}

/// Why nothing is made where the text would be too long. It is a column of another kind, or else the text is refused as out of memory.
fn early_fault(alloc: Global, typed: &Typed, array: &RawArray, column: u32) -> Option<TreeRunFault>
    requires valid { TypedOk (typed_of typed.now) }
    requires chunk { ChunkOk (typed_of typed.now) array.now }
    requires inside { column < length (children_of (typed_of typed.now)) }
    requires few { length (children_of (typed_of typed.now)) ≤ most_columns }
    ensures { IfSome result (λ fault. (fault ≡ TreeRunFault.NoMemory)
        ⊎ (Fault fault ≡ exploded column (typed_of typed.now) (rows_of (typed_of typed.now) array.now))) }
{
    kinds_of_typed(typed);
    let rows = exploded_rows(typed, array, column as usize)?;
    if let Ok(false) = is_exploded_too_long(alloc, typed, array, column as usize, rows) {
        return None;
    }
    match wrong_to_explode(typed, column as usize) {
        Some(column) => Some(TreeRunFault::Lists(ListFault::WrongKind { column })),
        None => Some(TreeRunFault::NoMemory),
    }
}
