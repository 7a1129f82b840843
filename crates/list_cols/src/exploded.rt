//! Rows whose lists are spread out.
ghost use Rattle.std.specs.Prelude.{◌≡◌, ◌≢◌, ◌+◌, ◌<◌, ◌≤◌, ℕ, None, Some, IfOk, IfErr, OnOk, MatchResult, length};
ghost use Rattle.tree_model.specs.promise.TreeParts.{children_of};
ghost use Rattle.data_types.specs.KindTrees.{TypedOk};
ghost use Rattle.data_types.specs.promise.TypedView.{typed_of};
ghost use Rattle.layout_rules.specs.promise.Values.{rows_of};
ghost use Rattle.layout_rules.specs.promise.Walk.{ChunkOk};
ghost use Rattle.raw_array.specs.promise.Members.{Cost};
ghost use Rattle.tree_model.specs.promise.TreeCost.{Nodes};
ghost use Rattle.schema_check.specs.promise.Schemas.{TypedOf};
ghost use Rattle.unit_pass.specs.promise.Tally.{risen};
ghost use Rattle.unit_pass.specs.declared.pass.TheConstants.{CHUNK, SUPPLY};
ghost use Rattle.list_cols.specs.promise.Exploded.{exploded_blocks};
ghost use Rattle.list_cols.specs.Exploded.{exploded_array, exploded_type};
ghost use Rattle.list_cols.specs.promise.Faults.{explode_fault, explodes, first_wrong, most_columns, most_named};
ghost use Rattle.list_cols.specs.Faults.{IsRefusedBy};
ghost use Rattle.list_cols.specs.Fields.{exploded_schema};
ghost use Rattle.list_cols.specs.promise.Nested.{Explode};

use crate::fault::ListFault;
use crate::fields::spread_schema;
use crate::table::spread_table;
use crate::trees::exploded_trees_are_lawful;
use crate::wrong::wrong_to_explode;
use data_types::{Typed, kinds_of_typed};
use raw_array::RawArray;
use raw_schema::RawSchema;
use std::alloc::Global;
use unit_pass::{CHUNK, NoMemory, Pass, SUPPLY};

/// Spreads out the lists of a column: for each row of a chunk and each item of its list, in order, a row with the item in the list's
/// place and the row's other values beside it. A row whose list is empty or null gives none. All columns are made anew. Of the schema
/// the column's node is made anew, with the format and the metadata of the list's items under the list's name, and all others move
/// whole, so that names and order stay. On success what was handed in is released.
///
/// # Errors
///
/// What was handed in comes back. `WrongKind` and `TooLong` are tried in this order, and found before anything is made.
pub fn explode(
    alloc: Global,
    typed: &Typed,
    schema: RawSchema,
    array: RawArray,
    column: usize,
    pass: &mut Pass,
) -> Result<(RawSchema, RawArray), (RawSchema, RawArray, ListFault)>
    requires schema { TypedOf schema (typed_of typed.now) }
    requires types { TypedOk (typed_of typed.now) }
    requires chunk { ChunkOk (typed_of typed.now) array }
    requires inside { column < length (children_of (typed_of typed.now)) }
    requires few { length (children_of (typed_of typed.now)) ≤ most_columns }
    requires units { CHUNK ≤ pass.old.units }
    requires room { pass.old.units + (Nodes schema + Cost array) ≤ SUPPLY }
    // The two trees, exactly.
    ensures schema { IfOk result (λ made. made.0 ≡ exploded_schema column schema) }
    ensures array { IfOk result (λ made. made.1 ≡ exploded_array column (typed_of typed.now) array) }
    // They are a chunk of the columns' kinds, whose rows are these.
    ensures types { IfOk result (λ made. TypedOf made.0 (exploded_type column (typed_of typed.now))) }
    ensures chunk { IfOk result (λ made. ChunkOk (exploded_type column (typed_of typed.now)) made.1) }
    ensures rows { IfOk result (λ made. rows_of (exploded_type column (typed_of typed.now)) made.1 ≡ Explode column (rows_of (typed_of typed.now) array)) }
    // What was handed in comes back.
    ensures back { IfErr result (λ refused. (refused.0 ≡ schema) × (refused.1 ≡ array)) }
    // Which fault it is, or out of memory.
    ensures free { OnOk result (explode_fault column (typed_of typed.now) (rows_of (typed_of typed.now) array) ≡ None) }
    ensures fault { IfErr result (λ refused. IsRefusedBy (explode_fault column (typed_of typed.now) (rows_of (typed_of typed.now) array)) refused.2) }
    // A column at fault, and too many rows, are named whatever memory there is.
    ensures wrong { (k : ℕ) → first_wrong (explodes column) 0 (children_of (typed_of typed.now)) ≡ Some k
        → MatchResult result (λ _. ⊥) (λ refused. refused.2 ≡ ListFault.WrongKind k) }
    ensures many { first_wrong (explodes column) 0 (children_of (typed_of typed.now)) ≡ None
        → most_named < length (Explode column (rows_of (typed_of typed.now) array))
        → MatchResult result (λ _. ⊥) (λ refused. refused.2 ≡ ListFault.TooLong) }
    ensures units { MatchResult result
        (λ made. pass.new.units + (Nodes made.0 + Cost made.1) ≡ pass.old.units + (Nodes schema + Cost array))
        (λ _. pass.new.units ≡ pass.old.units) }
    // What is made: a node for each column, one for the table, and two of the schema; a block for each buffer.
    ensures nodes { OnOk result (pass.new.nodes ≡ risen pass.old.nodes (length (children_of (typed_of typed.now)) + 3)) }
    ensures blocks { OnOk result (pass.new.blocks ≡ risen pass.old.blocks (exploded_blocks column (typed_of typed.now) array)) }
    // Nothing is made where one of the two faults is found.
    ensures untouched { IfErr result (λ refused. refused.2 ≢ ListFault.NoMemory → pass.new ≡ pass.old) }
{
    kinds_of_typed(typed);
    if let Some(wrong) = wrong_to_explode(typed, column) {
        return Err((schema, array, ListFault::WrongKind { column: wrong }));
    }
    exploded_trees_are_lawful(typed, &array, column);
    match spread_table(alloc, typed, &array, column, pass) {
        Ok(made) => match spread_schema(alloc, schema, column, pass) {
            Ok(schema) => {
                array.end(pass);
                Ok((schema, made))
            }
            Err((schema, NoMemory)) => {
                made.end(pass);
                Err((schema, array, ListFault::NoMemory))
            }
        },
        Err(fault) => Err((schema, array, fault)),
    }
}
