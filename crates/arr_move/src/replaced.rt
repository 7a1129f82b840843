//! Fields of a schema that are replaced by new ones.
ghost use Rattle.std.specs.Prelude.{◌≡◌, ◌≢◌, ◌+◌, ◌-◌, ◌^◌, ◌<◌, ◌≤◌, ℕ, None, IfOk, IfErr, OnOk, MatchResult, length};
ghost use Rattle.tree_model.specs.promise.TreeParts.{IsLive, child_at, children_of, dictionary_of};
ghost use Rattle.tree_model.specs.promise.TreeData.{Live, absent, trees};
ghost use Rattle.tree_model.specs.Tree.{Depth, depth_of_all, with_child};
ghost use Rattle.arr_move.specs.TreeActs.{with_children};
ghost use Rattle.tree_model.specs.promise.TreeCost.{Nodes};
ghost use Rattle.raw_schema.specs.promise.Members.{members_of};
ghost use Rattle.raw_schema.specs.Members.{nodes_of_all};
ghost use Rattle.raw_schema.specs.View.{bytes_of};
ghost use Rattle.unit_pass.specs.promise.Tally.{risen};
ghost use Rattle.arr_move.specs.Fields.{fields_over, new_or_old};

use crate::fields::{copied_metadata, copied_name};
use raw_schema::{Gone, PartlyMovedSchema, RawSchema, SchemaParts, built_schema, release_all};
use std::alloc::Global;
use unit_pass::{NoMemory, Pass, SUPPLY};

/// The texts of a structure's own.
struct Texts {
    format: Vec<u8>,
    name: Option<Vec<u8>>,
    metadata: Option<Vec<u8>>,
}

fn own_texts(alloc: Global, schema: &RawSchema) -> Result<Texts, NoMemory>
    requires { IsLive schema.now }
    ensures format { IfOk result (λ texts. texts.format.items ≡ (members_of schema.now).format) }
    ensures name { IfOk result (λ texts. bytes_of texts.name ≡ (members_of schema.now).name) }
    ensures metadata { IfOk result (λ texts. bytes_of texts.metadata ≡ (members_of schema.now).metadata) }
{
    Ok(Texts {
        format: Vec::from_slice(alloc, schema.format())?,
        name: copied_name(alloc, schema)?,
        metadata: copied_metadata(alloc, schema)?,
    })
}

/// A schema's format, name, flags and metadata over new fields. Where memory runs out the fields are released.
fn top_over(
    alloc: Global,
    schema: &RawSchema,
    fields: Vec<RawSchema>,
    pass: &mut Pass,
) -> Result<RawSchema, NoMemory>
    requires live { IsLive schema.now }
    requires few { length fields.items < 2 ^ 32 - 1 }
    requires shallow { depth_of_all (trees fields.items) ≤ 127 }
    requires unit { 1 ≤ pass.old.units }
    requires room { pass.old.units + nodes_of_all (trees fields.items) ≤ SUPPLY }
    ensures top { IfOk result (λ top. top ≡ Live (members_of schema.now) (trees fields.items) absent) }
    ensures units { MatchResult result
        (λ top. pass.new.units + Nodes top ≡ pass.old.units + nodes_of_all (trees fields.items))
        (λ _. pass.new.units ≡ pass.old.units + nodes_of_all (trees fields.items)) }
    ensures blocks { pass.new.blocks ≡ pass.old.blocks }
    ensures nodes { OnOk result (pass.new.nodes ≡ risen pass.old.nodes 1) }
{
    let Ok(
        Texts {
            format,
            name,
            metadata,
        },
    ) = own_texts(alloc, schema)
    else {
        release_all(fields, pass);
        return Err(NoMemory);
    };
    let parts = SchemaParts {
        format,
        name,
        metadata,
        flags: schema.flags(),
        children: fields,
        dictionary: None,
    };
    built_schema(alloc, parts, pass)
}

/// Moves a field into the same place of the new top, unless there is a new one.
fn fill_place(moved: &mut PartlyMovedSchema, place: usize, top: &mut RawSchema)
    requires inside { place < length (children_of moved.old) }
    requires shallow { Depth (child_at moved.old place) ≤ 127 }
    requires place { place < length (children_of top.old) }
    ensures rest { (j : ℕ) → j ≢ place → child_at moved.new j ≡ child_at moved.old j }
    ensures places { length (children_of moved.new) ≡ length (children_of moved.old) }
    ensures top { top.new ≡ with_child top.old place (new_or_old (child_at top.old place) (child_at moved.old place)) }
    ensures cost { Nodes moved.new + Nodes top.new ≡ Nodes moved.old + Nodes top.old }
{
    if !top.child(place).is_released() {
        return;
    }
    match moved.take_child(place) {
        Ok(mut child) => {
            top.put_child(place, &mut child);
            child.discard();
        }
        Err(Gone) => {}
    }
}

/// Moves all fields into the places of the new top that have no new one.
fn fill_places(moved: &mut PartlyMovedSchema, count: usize, top: &mut RawSchema)
    requires count { count ≡ length (children_of moved.old) }
    requires shallow { Depth moved.old ≤ 128 }
    requires places { length (children_of top.old) ≡ length (children_of moved.old) }
    ensures top { top.new ≡ with_children top.old (fields_over (children_of top.old) (children_of moved.old)) }
    ensures cost { Nodes moved.new + Nodes top.new ≡ Nodes moved.old + Nodes top.old }
{
    for place in 0..count {
        fill_place(moved, place, top);
    }
}

/// The new top with the fields of the old schema that aren't replaced. The rest of the old one is released.
fn filled(schema: RawSchema, top: RawSchema, pass: &mut Pass) -> RawSchema
    requires live { IsLive schema }
    requires places { length (children_of top) ≡ length (children_of schema) }
    requires room { pass.old.units + (Nodes schema + Nodes top) ≤ SUPPLY }
    ensures top { result ≡ with_children top (fields_over (children_of top) (children_of schema)) }
    ensures units { pass.new.units + Nodes result ≡ pass.old.units + (Nodes schema + Nodes top) }
    ensures blocks { pass.new.blocks ≡ pass.old.blocks }
    ensures nodes { pass.new.nodes ≡ pass.old.nodes }
{
    let mut top = top;
    schema.levels_are_few();
    let count = schema.n_children() as usize;
    let mut moved = PartlyMovedSchema::begin(schema);
    fill_places(&mut moved, count, &mut top);
    moved.finish(pass);
    top
}

/// A schema of which some fields are replaced: a live one of the new ones takes its place, and in the place of a released one the
/// old field, which is moved whole. The top has the old one's format, name, flags and metadata. The rest of the old schema is
/// released. All memory is taken first: where memory runs out the schema comes back as it was, and the new fields are released.
pub fn with_fields(
    alloc: Global,
    schema: RawSchema,
    fields: Vec<RawSchema>,
    pass: &mut Pass,
) -> Result<RawSchema, (RawSchema, NoMemory)>
    requires live { IsLive schema }
    requires no_dictionary { dictionary_of schema ≡ None }
    requires places { length fields.items ≡ length (children_of schema) }
    requires shallow { depth_of_all (trees fields.items) ≤ 127 }
    requires unit { 1 ≤ pass.old.units }
    requires room { pass.old.units + (Nodes schema + nodes_of_all (trees fields.items)) ≤ SUPPLY }
    ensures made { IfOk result (λ made. made ≡ with_children schema (fields_over fields.items (children_of schema))) }
    ensures back { IfErr result (λ refused. refused.0 ≡ schema) }
    ensures units { MatchResult result
        (λ made. pass.new.units + Nodes made ≡ pass.old.units + (Nodes schema + nodes_of_all (trees fields.items)))
        (λ _. pass.new.units ≡ pass.old.units + nodes_of_all (trees fields.items)) }
    ensures blocks { pass.new.blocks ≡ pass.old.blocks }
    ensures nodes { OnOk result (pass.new.nodes ≡ risen pass.old.nodes 1) }
{
    let _children = schema.n_children();
    match top_over(alloc, &schema, fields, pass) {
        Ok(top) => Ok(filled(schema, top, pass)),
        Err(NoMemory) => Err((schema, NoMemory)),
    }
}
