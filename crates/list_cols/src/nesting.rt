//! Rows that are grouped by the values of a column.
ghost use Rattle.std.specs.Prelude.{◌≡◌, ◌≢◌, ◌+◌, ◌-◌, ◌*◌, ◌<◌, ◌≤◌, ℕ, None, Some, IfOk, IfErr, OnOk, MatchResult, length};
ghost use Rattle.tree_model.specs.promise.TreeParts.{children_of};
ghost use Rattle.data_types.specs.KindTrees.{TypedOk};
ghost use Rattle.data_types.specs.promise.TypedView.{typed_of};
ghost use Rattle.layout_rules.specs.promise.Values.{rows_of};
ghost use Rattle.layout_rules.specs.promise.Walk.{ChunkOk};
ghost use Rattle.raw_array.specs.promise.Members.{Cost};
ghost use Rattle.tree_model.specs.promise.TreeCost.{Nodes};
ghost use Rattle.schema_check.specs.promise.Schemas.{TypedOf};
ghost use Rattle.unit_pass.specs.promise.Tally.{risen};
ghost use Rattle.unit_pass.specs.declared.pass.TheConstants.{CHUNK, SUPPLY};
ghost use Rattle.list_cols.specs.promise.Faults.{first_wrong, most_columns, most_named};
ghost use Rattle.list_cols.specs.Faults.{IsRefusedBy, nests};
ghost use Rattle.list_cols.specs.promise.NestFaults.{nest_fault};
ghost use Rattle.list_cols.specs.promise.Nested.{Nest};
ghost use Rattle.list_cols.specs.NestedFields.{nested_schema};
ghost use Rattle.list_cols.specs.promise.NestedTables.{nested_blocks};
ghost use Rattle.list_cols.specs.NestedTables.{nested_array, nested_type};

use crate::fault::ListFault;
use crate::nest_laws::{nested_schemas_have_their_kinds, nested_tables_have_their_rows};
use crate::nest_schema::nested_schema;
use crate::nest_table::nested_table;
use crate::nest_wrong::wrong_to_nest;
use array_laws::flat_types_have_no_children;
use data_types::{Typed, kinds_of_typed};
use layout_rules::chunks_are_tables;
use raw_array::RawArray;
use raw_schema::RawSchema;
use std::alloc::Global;
use unit_pass::{CHUNK, NoMemory, Pass, SUPPLY};

/// Groups the rows of a chunk by the values of a column: a row for each distinct value, in order of first appearance, with the list of
/// the values that its rows have in each other column, in order. A null is a value, and floats are compared by their bits. All columns
/// are made anew. Of the schema the column's node moves whole, and each other one becomes a list (`+l`) under its name, with the old
/// format and metadata at its item. On success what was handed in is released.
///
/// # Errors
///
/// What was handed in comes back. The faults are tried in their order, and answered before anything is made.
pub fn nest(
    alloc: Global,
    typed: &Typed,
    schema: RawSchema,
    array: RawArray,
    column: usize,
    pass: &mut Pass,
) -> Result<(RawSchema, RawArray), (RawSchema, RawArray, ListFault)>
    requires schema { TypedOf schema (typed_of typed.now) }
    requires types { TypedOk (typed_of typed.now) }
    requires chunk { ChunkOk (typed_of typed.now) array }
    requires inside { column < length (children_of (typed_of typed.now)) }
    requires few { length (children_of (typed_of typed.now)) ≤ most_columns }
    requires units { CHUNK ≤ pass.old.units }
    requires room { pass.old.units + (Nodes schema + Cost array) ≤ SUPPLY }
    // The two trees, exactly.
    ensures schema { IfOk result (λ made. made.0 ≡ nested_schema column schema) }
    ensures array { IfOk result (λ made. made.1 ≡ nested_array column (typed_of typed.now) array) }
    // They are a chunk of the columns' kinds, whose rows are these.
    ensures types { IfOk result (λ made. TypedOf made.0 (nested_type column (typed_of typed.now))) }
    ensures chunk { IfOk result (λ made. ChunkOk (nested_type column (typed_of typed.now)) made.1) }
    ensures rows { IfOk result (λ made. rows_of (nested_type column (typed_of typed.now)) made.1
        ≡ Nest (length (children_of (typed_of typed.now))) column (rows_of (typed_of typed.now) array)) }
    // What was handed in comes back.
    ensures back { IfErr result (λ refused. (refused.0 ≡ schema) × (refused.1 ≡ array)) }
    // Which fault it is, or out of memory.
    ensures free { OnOk result (nest_fault column (typed_of typed.now) (rows_of (typed_of typed.now) array) ≡ None) }
    ensures fault { IfErr result (λ refused. IsRefusedBy (nest_fault column (typed_of typed.now) (rows_of (typed_of typed.now) array)) refused.2) }
    // A column at fault, and more rows than a list column has items, are named whatever memory there is.
    ensures wrong { (k : ℕ) → first_wrong nests 0 (children_of (typed_of typed.now)) ≡ Some k
        → MatchResult result (λ _. ⊥) (λ refused. refused.2 ≡ ListFault.WrongKind k) }
    ensures many { first_wrong nests 0 (children_of (typed_of typed.now)) ≡ None → 1 < length (children_of (typed_of typed.now))
        → most_named < length (rows_of (typed_of typed.now) array) → MatchResult result (λ _. ⊥) (λ refused. refused.2 ≡ ListFault.TooLong) }
    ensures units { MatchResult result
        (λ made. pass.new.units + (Nodes made.0 + Cost made.1) ≡ pass.old.units + (Nodes schema + Cost array))
        (λ _. pass.new.units ≡ pass.old.units) }
    // What is made: two nodes for each column of the new array, one for the schema and two for each list in it; a block for each buffer.
    ensures nodes { OnOk result (pass.new.nodes ≡ risen pass.old.nodes (4 * length (children_of (typed_of typed.now)) - 1)) }
    ensures blocks { OnOk result (pass.new.blocks ≡ risen pass.old.blocks (nested_blocks column (typed_of typed.now) array)) }
    // Nothing is made where one of the two faults is found.
    ensures untouched { IfErr result (λ refused. refused.2 ≢ ListFault.NoMemory → pass.new ≡ pass.old) }
{
    kinds_of_typed(typed);
    chunks_are_tables();
    flat_types_have_no_children();
    nested_tables_have_their_rows();
    nested_schemas_have_their_kinds();
    if let Some(column) = wrong_to_nest(typed) {
        return Err((schema, array, ListFault::WrongKind { column }));
    }
    let made = match nested_table(alloc, typed, &array, column, pass) {
        Ok(made) => made,
        Err(fault) => return Err((schema, array, fault)),
    };
    match nested_schema(alloc, schema, column, pass) {
        Ok(schema) => {
            array.end(pass);
            Ok((schema, made))
        }
        Err((schema, NoMemory)) => {
            made.end(pass);
            Err((schema, array, ListFault::NoMemory))
        }
    }
}
