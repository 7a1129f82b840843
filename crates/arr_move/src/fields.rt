//! Fields moved out of a schema into a new one.
ghost use Rattle.std.specs.Prelude.{◌≡◌, ℕ, ◌+◌, ◌-◌, ◌<◌, ◌≤◌, ◌^◌, length, map, replicate, None, is_ok, if◌then◌else◌, IfOk, IfErr};
ghost use Rattle.tree_model.specs.promise.TreeData.{Released, Live, absent, trees};
ghost use Rattle.tree_model.specs.promise.TreeParts.{IsLive, children_of, child_at, dictionary_of};
ghost use Rattle.tree_model.specs.Tree.{Depth, with_child};
ghost use Rattle.tree_model.specs.promise.TreeCost.{Nodes};
ghost use Rattle.raw_schema.specs.promise.Members.{members_of};
ghost use Rattle.raw_schema.specs.Members.{nodes_of_all};
ghost use Rattle.raw_schema.specs.View.{bytes_of};
ghost use Rattle.raw_schema.specs.Parts.{tree_of_parts};
ghost use Rattle.arr_move.specs.TreeActs.{InRange, Distinct, with_children};
ghost use Rattle.arr_move.specs.Fields.{Fields};
ghost use Rattle.unit_pass.specs.promise.Tally.{risen};

use raw_schema::{Gone, PartlyMovedSchema, RawSchema, SchemaParts};
use std::alloc::Global;
use unit_pass::{NoMemory, Pass, SUPPLY};

/// Moves the picked fields of a schema without a dictionary into a new schema of the same format, name, flags and
/// metadata, in the order of the picks, and releases the old schema with the fields that were not picked ("The Arrow
/// C Data Interface", "Moving child arrays"). The new schema draws one unit; the units of what is released come back.
/// All memory is taken first: where memory runs out the schema comes back as it was.
pub fn take_fields(
    alloc: Global,
    schema: RawSchema,
    picks: &[usize],
    pass: &mut Pass,
) -> Result<RawSchema, (RawSchema, NoMemory)>
    requires live { IsLive schema }
    requires no_dictionary { dictionary_of schema ≡ None }
    requires distinct { Distinct picks.now }
    requires in_range { InRange schema picks.now }
    requires unit { 1 ≤ pass.old.units }
    requires room { pass.old.units + Nodes schema ≤ SUPPLY }
    ensures fields { IfOk result (λ fields. fields ≡ Fields schema picks.now) }
    ensures cost { IfOk result (λ fields. Nodes fields ≤ Nodes schema) }
    ensures handed_back { IfErr result (λ refused. refused.0 ≡ schema) }
    ensures units { pass.new.units + (if is_ok result then Nodes (Fields schema picks.now) else Nodes schema) ≡ pass.old.units + Nodes schema }
    ensures nodes { pass.new.nodes ≡ (if is_ok result then risen pass.old.nodes 1 else pass.old.nodes) }
    ensures blocks { pass.new.blocks ≡ pass.old.blocks }
{
    let _children = schema.n_children();
    match vacant_schema(alloc, &schema, picks.len(), pass) {
        Ok(top) => Ok(fill_schema(schema, picks, top, pass)),
        Err(NoMemory) => Err((schema, NoMemory)),
    }
}

/// A new schema with copies of a schema's own texts, whose children are released.
#[tactic(auto, using(crate::proofs::Vacant::vacant))]
fn vacant_schema(
    alloc: Global,
    schema: &RawSchema,
    places: usize,
    pass: &mut Pass,
) -> Result<RawSchema, NoMemory>
    requires live { IsLive schema.now }
    requires few { places < 2 ^ 32 - 1 }
    requires unit { 1 ≤ pass.old.units }
    ensures top { IfOk result (λ top. top ≡ Live (members_of schema.now) (trees (replicate places Released)) absent) }
    ensures places { IfOk result (λ top. length (children_of top) ≡ places) }
    ensures vacant { IfOk result (λ top. (k : ℕ) → child_at top k ≡ Released) }
    ensures cost { IfOk result (λ top. Nodes top ≡ 1) }
    ensures units { pass.new.units + (if is_ok result then 1 else 0) ≡ pass.old.units }
    ensures nodes { pass.new.nodes ≡ (if is_ok result then risen pass.old.nodes 1 else pass.old.nodes) }
    ensures blocks { pass.new.blocks ≡ pass.old.blocks }
{
    let format = Vec::from_slice(alloc, schema.format())?;
    let name = copied_name(alloc, schema)?;
    let metadata = copied_metadata(alloc, schema)?;
    let children = vacant_places(alloc, places)?;
    let parts = SchemaParts {
        format,
        name,
        metadata,
        flags: schema.flags(),
        children,
        dictionary: None,
    };
    match RawSchema::build(alloc, parts, pass) {
        Ok(top) => Ok(top),
        Err((parts, NoMemory)) => {
            discard_parts(parts);
            Err(NoMemory)
        }
    }
}

pub(crate) fn copied_name(alloc: Global, schema: &RawSchema) -> Result<Option<Vec<u8>>, NoMemory>
    requires { IsLive schema.now }
    ensures { IfOk result (λ name. bytes_of name ≡ (members_of schema.now).name) }
{
    match schema.name() {
        None => Ok(None),
        Some(name) => Ok(Some(Vec::from_slice(alloc, name)?)),
    }
}

pub(crate) fn copied_metadata(
    alloc: Global,
    schema: &RawSchema,
) -> Result<Option<Vec<u8>>, NoMemory>
    requires { IsLive schema.now }
    ensures { IfOk result (λ metadata. bytes_of metadata ≡ (members_of schema.now).metadata) }
{
    match schema.metadata() {
        None => Ok(None),
        Some(metadata) => Ok(Some(Vec::from_slice(alloc, metadata)?)),
    }
}

#[tactic(auto, using(crate::proofs::Vacant::vacant))]
pub(crate) fn vacant_places(alloc: Global, places: usize) -> Result<Vec<RawSchema>, NoMemory>
    ensures { IfOk result (λ children. children.items ≡ replicate places Released) }
{
    let mut children = Vec::with_capacity(alloc, places)?;
    for _place in 0..places {
        children.push_reserved(RawSchema::released());
    }
    Ok(children)
}

/// Ends parts that carry no unit but their node's own.
fn discard_parts(parts: SchemaParts)
    requires { Nodes (tree_of_parts parts) ≡ 1 }
{
    let SchemaParts {
        format: _,
        name: _,
        metadata: _,
        flags: _,
        children,
        dictionary,
    } = parts;
    discard_children(children);
    if let Some(dictionary) = dictionary {
        discard_released(dictionary);
    }
}

#[tactic(auto, using(tree_model::proofs::Measures::measures))]
fn discard_children(mut children: Vec<RawSchema>)
    requires { nodes_of_all (trees children.items) ≡ 0 }
{
    while let Some(child) = children.pop() {
        discard_released(child);
    }
    children.destroy_empty();
}

#[tactic(auto, using(crate::proofs::Vacant::vacant))]
fn discard_released(schema: RawSchema)
    requires { Nodes schema ≡ 0 }
{
    schema.discard();
}

/// The new schema with the picked fields; the old one is released with the rest.
fn fill_schema(schema: RawSchema, picks: &[usize], top: RawSchema, pass: &mut Pass) -> RawSchema
    requires live { IsLive schema }
    requires distinct { Distinct picks.now }
    requires in_range { InRange schema picks.now }
    requires places { length (children_of top) ≡ length picks.now }
    requires vacant { (k : ℕ) → child_at top k ≡ Released }
    requires room { pass.old.units + (Nodes schema + Nodes top) ≤ SUPPLY }
    ensures top { result ≡ with_children top (map (child_at schema) picks.now) }
    ensures cost { Nodes result + 1 ≤ Nodes schema + Nodes top }
    ensures units { pass.new.units + Nodes result ≡ pass.old.units + (Nodes schema + Nodes top) }
    ensures blocks { pass.new.blocks ≡ pass.old.blocks }
    ensures nodes { pass.new.nodes ≡ pass.old.nodes }
{
    let mut top = top;
    schema.levels_are_few();
    let mut moved = PartlyMovedSchema::begin(schema);
    move_fields(&mut moved, picks, &mut top);
    moved.finish(pass);
    top
}

/// Moves the picked fields into the places of the new schema.
fn move_fields(moved: &mut PartlyMovedSchema, picks: &[usize], top: &mut RawSchema)
    requires distinct { Distinct picks.now }
    requires in_range { InRange moved.old picks.now }
    requires shallow { Depth moved.old ≤ 128 }
    requires places { length (children_of top.old) ≡ length picks.now }
    requires vacant { (k : ℕ) → child_at top.old k ≡ Released }
    ensures top { top.new ≡ with_children top.old (map (child_at moved.old) picks.now) }
    ensures cost { Nodes moved.new + Nodes top.new ≡ Nodes moved.old + Nodes top.old }
{
    for place in 0..picks.len() {
        move_field(moved, picks[place], top, place);
    }
}

/// Moves one field into a place of the new schema; a field that is released leaves the place as it is.
fn move_field(moved: &mut PartlyMovedSchema, pick: usize, top: &mut RawSchema, place: usize)
    requires pick { pick < length (children_of moved.old) }
    requires shallow { Depth (child_at moved.old pick) ≤ 127 }
    requires place { place < length (children_of top.old) }
    requires vacant { child_at top.old place ≡ Released }
    ensures moved { moved.new ≡ with_child moved.old pick Released }
    ensures top { top.new ≡ with_child top.old place (child_at moved.old pick) }
{
    match moved.take_child(pick) {
        Ok(mut child) => {
            top.put_child(place, &mut child);
            child.discard();
        }
        Err(Gone) => {}
    }
}
