//! The schema of a chunk of which the lists in one column are spread out.
ghost use Rattle.std.specs.Prelude.{◌≡◌, ◌+◌, ◌-◌, ◌<◌, ◌≤◌, ◌++◌, ◌∷◌, None, IfOk, IfErr, OnOk, MatchResult, if◌then◌else◌, is_ok, length, replicate, vec_len, vec_capacity};
ghost use Rattle.tree_model.specs.promise.TreeParts.{IsLive, child_at, children_of, dictionary_of};
ghost use Rattle.tree_model.specs.promise.TreeData.{Released};
ghost use Rattle.arr_import.specs.Lent.{lent_bytes};
ghost use Rattle.tree_model.specs.promise.TreeCost.{Nodes};
ghost use Rattle.raw_schema.specs.View.{bytes_of};
ghost use Rattle.unit_pass.specs.promise.Tally.{risen};
ghost use Rattle.unit_pass.specs.declared.pass.TheConstants.{SUPPLY};
ghost use Rattle.list_cols.specs.Fields.{exploded_schema, item_field, renamed_field};

use arr_move::with_fields;
use raw_schema::{RawSchema, SchemaParts, built_schema};
use std::alloc::Global;
use unit_pass::{NoMemory, Pass, SUPPLY};

/// The flag of columns that may have nulls.
pub(crate) const NULLABLE: i64 = 2;

pub(crate) fn copied(alloc: Global, text: Option<&[u8]>) -> Result<Option<Vec<u8>>, NoMemory>
    ensures { IfOk result (λ copy. bytes_of copy ≡ lent_bytes text.entry) }
{
    match text {
        None => Ok(None),
        Some(text) => Ok(Some(Vec::from_slice(alloc, text)?)),
    }
}

/// A column that may have nulls, of another one's format and metadata, under this name.
pub(crate) fn renamed_field(
    alloc: Global,
    name: Option<&[u8]>,
    field: &RawSchema,
    pass: &mut Pass,
) -> Result<RawSchema, NoMemory>
    requires live { IsLive field.now }
    requires unit { 1 ≤ pass.old.units }
    ensures made { IfOk result (λ made. made ≡ renamed_field (lent_bytes name.entry) field.now) }
    ensures units { pass.new.units + (if is_ok result then 1 else 0) ≡ pass.old.units }
    ensures blocks { pass.new.blocks ≡ pass.old.blocks }
    ensures nodes { OnOk result (pass.new.nodes ≡ risen pass.old.nodes 1) }
{
    let parts = SchemaParts {
        format: Vec::from_slice(alloc, field.format())?,
        name: copied(alloc, name)?,
        metadata: copied(alloc, field.metadata())?,
        flags: NULLABLE,
        children: Vec::new(alloc),
        dictionary: None,
    };
    built_schema(alloc, parts, pass)
}

/// Appends fields that are released, this many, to a list that has room for them.
fn push_vacant(fields: &mut Vec<RawSchema>, count: usize)
    requires room { vec_len fields.old + count ≤ vec_capacity fields.old }
    ensures fields { fields.new.items ≡ fields.old.items ++ replicate count Released }
    ensures len { vec_len fields.new ≡ vec_len fields.old + count }
    ensures capacity { vec_capacity fields.new ≡ vec_capacity fields.old }
{
    for _place in 0..count {
        fields.push_reserved(RawSchema::released());
    }
}

/// This many fields, which are released but for one. Where memory runs out that one is released.
pub(crate) fn one_field(
    alloc: Global,
    count: usize,
    place: usize,
    field: RawSchema,
    pass: &mut Pass,
) -> Result<Vec<RawSchema>, NoMemory>
    requires inside { place < count }
    requires room { pass.old.units + Nodes field ≤ SUPPLY }
    ensures fields { IfOk result (λ fields. fields.items ≡ replicate place Released ++ field ∷ replicate (count - (place + 1)) Released) }
    ensures units { pass.new.units + (if is_ok result then Nodes field else 0) ≡ pass.old.units + Nodes field }
    ensures blocks { pass.new.blocks ≡ pass.old.blocks }
    ensures nodes { pass.new.nodes ≡ pass.old.nodes }
{
    let Ok(mut fields) = Vec::with_capacity(alloc, count) else {
        field.end(pass);
        return Err(NoMemory);
    };
    push_vacant(&mut fields, place);
    fields.push_reserved(field);
    push_vacant(&mut fields, count - (place + 1));
    Ok(fields)
}

/// The items of a list as a column under the list's name.
fn item_field(alloc: Global, list: &RawSchema, pass: &mut Pass) -> Result<RawSchema, NoMemory>
    requires live { IsLive list.now }
    requires item { IsLive (child_at list.now 0) }
    requires unit { 1 ≤ pass.old.units }
    ensures made { IfOk result (λ made. made ≡ item_field list.now) }
    ensures units { pass.new.units + (if is_ok result then 1 else 0) ≡ pass.old.units }
    ensures blocks { pass.new.blocks ≡ pass.old.blocks }
    ensures nodes { OnOk result (pass.new.nodes ≡ risen pass.old.nodes 1) }
{
    renamed_field(alloc, list.name(), list.child(0), pass)
}

/// The field of a list's items, and the places of all others, which are released.
fn item_fields(
    alloc: Global,
    schema: &RawSchema,
    column: usize,
    pass: &mut Pass,
) -> Result<Vec<RawSchema>, NoMemory>
    requires live { IsLive schema.now }
    requires inside { column < length (children_of schema.now) }
    requires list { IsLive (child_at schema.now column) }
    requires item { IsLive (child_at (child_at schema.now column) 0) }
    requires unit { 1 ≤ pass.old.units }
    ensures fields { IfOk result (λ fields. fields.items
        ≡ replicate column Released ++ item_field (child_at schema.now column) ∷ replicate (length (children_of schema.now) - (column + 1)) Released) }
    ensures units { pass.new.units + (if is_ok result then 1 else 0) ≡ pass.old.units }
    ensures blocks { pass.new.blocks ≡ pass.old.blocks }
    ensures nodes { OnOk result (pass.new.nodes ≡ risen pass.old.nodes 1) }
{
    let count = schema.n_children() as usize;
    let field = item_field(alloc, schema.child(column), pass)?;
    one_field(alloc, count, column, field, pass)
}

/// The schema with the items of a list column in its place. Where memory runs out the schema comes back as it was.
pub(crate) fn spread_schema(
    alloc: Global,
    schema: RawSchema,
    column: usize,
    pass: &mut Pass,
) -> Result<RawSchema, (RawSchema, NoMemory)>
    requires live { IsLive schema }
    requires no_dictionary { dictionary_of schema ≡ None }
    requires inside { column < length (children_of schema) }
    requires list { IsLive (child_at schema column) }
    requires item { IsLive (child_at (child_at schema column) 0) }
    requires units { 2 ≤ pass.old.units }
    requires room { pass.old.units + Nodes schema ≤ SUPPLY }
    ensures made { IfOk result (λ made. made ≡ exploded_schema column schema) }
    ensures back { IfErr result (λ refused. refused.0 ≡ schema) }
    ensures units { MatchResult result
        (λ made. pass.new.units + Nodes made ≡ pass.old.units + Nodes schema)
        (λ _. pass.new.units ≡ pass.old.units) }
    ensures blocks { pass.new.blocks ≡ pass.old.blocks }
    ensures nodes { OnOk result (pass.new.nodes ≡ risen pass.old.nodes 2) }
{
    match item_fields(alloc, &schema, column, pass) {
        Ok(fields) => with_fields(alloc, schema, fields, pass),
        Err(NoMemory) => Err((schema, NoMemory)),
    }
}
