//! The schema of a chunk whose rows are grouped by a column.
ghost use Rattle.std.specs.Prelude.{◌≡◌, ◌+◌, ◌*◌, ◌<◌, ◌≤◌, ◌==◌, ℕ, None, IfOk, IfErr, OnOk, MatchResult, if◌then◌else◌, is_ok, length};
ghost use Rattle.tree_model.specs.promise.TreeParts.{IsLive, child_at, children_of, dictionary_of};
ghost use Rattle.tree_model.specs.promise.TreeData.{trees};
ghost use Rattle.tree_model.specs.promise.TreeCost.{Nodes};
ghost use Rattle.raw_schema.specs.Members.{nodes_of_all};
ghost use Rattle.layout_rules.specs.promise.Values.{each};
ghost use Rattle.unit_pass.specs.promise.Tally.{risen};
ghost use Rattle.unit_pass.specs.declared.pass.TheConstants.{SUPPLY};
ghost use Rattle.list_cols.specs.NestedFields.{list_field, nested_schema, new_field};
ghost use Rattle.list_cols.specs.NestedTables.{nodes_to};

use crate::fields::{NULLABLE, copied, one_field, renamed_field};
use arr_move::with_fields;
use raw_schema::{RawSchema, SchemaParts, built_schema, release_all};
use std::alloc::Global;
use unit_pass::{NoMemory, Pass, SUPPLY};

/// A list under a field's name, whose items are the field's values.
fn list_field(alloc: Global, field: &RawSchema, pass: &mut Pass) -> Result<RawSchema, NoMemory>
    requires live { IsLive field.now }
    requires units { 2 ≤ pass.old.units }
    ensures made { IfOk result (λ made. made ≡ list_field field.now) }
    ensures units { pass.new.units + (if is_ok result then 2 else 0) ≡ pass.old.units }
    ensures blocks { pass.new.blocks ≡ pass.old.blocks }
    ensures nodes { OnOk result (pass.new.nodes ≡ risen pass.old.nodes 2) }
{
    let format = Vec::from_slice(alloc, b"+l")?;
    let name = copied(alloc, field.name())?;
    let item = renamed_field(alloc, Some(b"item"), field, pass)?;
    let children = one_field(alloc, 1, 0, item, pass)?;
    let parts = SchemaParts {
        format,
        name,
        metadata: None,
        flags: NULLABLE,
        children,
        dictionary: None,
    };
    built_schema(alloc, parts, pass)
}

/// A list over a field, and nothing for the field of the column by which rows are grouped.
fn new_field(
    alloc: Global,
    schema: &RawSchema,
    column: usize,
    k: usize,
    pass: &mut Pass,
) -> Result<RawSchema, NoMemory>
    requires inside { k < length (children_of schema.now) }
    requires live { IsLive (child_at schema.now k) }
    requires units { 2 ≤ pass.old.units }
    ensures made { IfOk result (λ made. made ≡ new_field column schema.now k) }
    ensures units { MatchResult result (λ made. pass.new.units + Nodes made ≡ pass.old.units) (λ _. pass.new.units ≡ pass.old.units) }
    ensures left { pass.old.units ≤ pass.new.units + 2 }
    ensures blocks { pass.new.blocks ≡ pass.old.blocks }
    ensures nodes { OnOk result (pass.new.nodes ≡ risen pass.old.nodes (if k == column then 0 else 2)) }
{
    if k == column {
        Ok(RawSchema::released())
    } else {
        list_field(alloc, schema.child(k), pass)
    }
}

/// A list over each field, and the place of the column by which rows are grouped, which is released.
fn new_fields(
    alloc: Global,
    schema: &RawSchema,
    column: usize,
    pass: &mut Pass,
) -> Result<Vec<RawSchema>, NoMemory>
    requires live { IsLive schema.now }
    requires fields { (k : ℕ) → k < length (children_of schema.now) → IsLive (child_at schema.now k) }
    requires units { 2 * length (children_of schema.now) ≤ pass.old.units }
    ensures fields { IfOk result (λ fields. fields.items ≡ each (new_field column schema.now) 0 (length (children_of schema.now))) }
    ensures units { MatchResult result
        (λ fields. pass.new.units + nodes_of_all (trees fields.items) ≡ pass.old.units)
        (λ _. pass.new.units ≡ pass.old.units) }
    ensures left { IfOk result (λ _. pass.old.units ≤ pass.new.units + 2 * length (children_of schema.now)) }
    ensures blocks { pass.new.blocks ≡ pass.old.blocks }
    ensures nodes { OnOk result (pass.new.nodes ≡ risen pass.old.nodes (nodes_to 0 column (length (children_of schema.now)))) }
{
    let count = schema.n_children() as usize;
    let Ok(mut fields) = Vec::with_capacity(alloc, count) else {
        return Err(NoMemory);
    };
    for k in 0..count {
        match new_field(alloc, schema, column, k, pass) {
            Ok(field) => fields.push_reserved(field),
            Err(NoMemory) => {
                release_all(fields, pass);
                return Err(NoMemory);
            }
        }
    }
    Ok(fields)
}

/// The schema with a list over each field but one, which moves whole. Where memory runs out the schema comes back as it was.
pub(crate) fn nested_schema(
    alloc: Global,
    schema: RawSchema,
    column: usize,
    pass: &mut Pass,
) -> Result<RawSchema, (RawSchema, NoMemory)>
    requires live { IsLive schema }
    requires no_dictionary { dictionary_of schema ≡ None }
    requires fields { (k : ℕ) → k < length (children_of schema) → IsLive (child_at schema k) }
    requires units { 1 + 2 * length (children_of schema) ≤ pass.old.units }
    requires room { pass.old.units + Nodes schema ≤ SUPPLY }
    ensures made { IfOk result (λ made. made ≡ nested_schema column schema) }
    ensures back { IfErr result (λ refused. refused.0 ≡ schema) }
    ensures units { MatchResult result
        (λ made. pass.new.units + Nodes made ≡ pass.old.units + Nodes schema)
        (λ _. pass.new.units ≡ pass.old.units) }
    ensures blocks { pass.new.blocks ≡ pass.old.blocks }
    // A node of its own, and two for each list over a field.
    ensures nodes { OnOk result (pass.new.nodes ≡ risen pass.old.nodes (1 + nodes_to 0 column (length (children_of schema)))) }
{
    match new_fields(alloc, &schema, column, pass) {
        Ok(fields) => with_fields(alloc, schema, fields, pass),
        Err(NoMemory) => Err((schema, NoMemory)),
    }
}
