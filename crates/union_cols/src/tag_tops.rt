//! The tops of a union that is made: a schema and an array whose children are released.
ghost use Rattle.std.specs.Prelude.{◌≡◌, ◌+◌, ◌-◌, ◌^◌, ◌<◌, ◌≤◌, ◌++◌, ◌∷◌, ◌≤ℤ◌, [], ℕ, pos, decimal, None, IfOk, OnOk, IsTrue, if◌then◌else◌, is_ok, length, replicate, vec_len, vec_capacity, MatchResult};
ghost use Rattle.tree_model.specs.promise.TreeParts.{IsLive, child_at, children_of};
ghost use Rattle.tree_model.specs.promise.TreeData.{Live, Released, absent, trees};
ghost use Rattle.raw_array.specs.promise.Members.{Cost, holds_of};
ghost use Rattle.raw_array.specs.View.{buffer_if, buffers_of};
ghost use Rattle.tree_model.specs.promise.TreeCost.{Nodes};
ghost use Rattle.raw_schema.specs.promise.Members.{members_of};
ghost use Rattle.raw_schema.specs.View.{bytes_of};
ghost use Rattle.unit_pass.specs.promise.Tally.{risen};
ghost use Rattle.union_cols.specs.Tags.{block_of, tag_format, tag_members, tagged_members};
ghost use Rattle.union_cols.specs.TagViews.{starts_in, union_members};
ghost use Rattle.fmt_string.specs.promise.FormatString.{comma};
ghost use Rattle.union_cols.specs.promise.UnionFormats.{keyword as keyword_is};

use buf_block::{BufView, let_go_all, make};
use itoa::Buffer;
use raw_array::{ArrayParts, RawArray, ReleaseKind, built_array};
use raw_schema::{RawSchema, SchemaParts, built_schema};
use std::alloc::Global;
use unit_pass::{NoMemory, Pass, SUPPLY};

// ---- the schema

fn keyword(dense: bool) -> &'static [u8]
    ensures { result.now ≡ keyword_is dense }
{
    if dense { b"+ud:" } else { b"+us:" }
}

/// Appends an id.
fn push_id(text: &mut Vec<u8>, id: u32) -> Result<(), NoMemory>
    ensures { OnOk result (text.new.items ≡ text.old.items ++ decimal id) }
{
    let mut buffer = Buffer::new();
    text.extend_from_slice(buffer.format(id).as_bytes())?;
    Ok(())
}

/// Appends an id and a comma.
fn push_id_before(text: &mut Vec<u8>, id: u32) -> Result<(), NoMemory>
    ensures { OnOk result (text.new.items ≡ text.old.items ++ (decimal id ++ comma)) }
{
    push_id(text, id)?;
    text.push(b',')?;
    Ok(())
}

/// The format of a union whose ids are the numbers from 0 to the last one.
fn numbered_format(alloc: Global, dense: bool, last: u32) -> Result<Vec<u8>, NoMemory>
    ensures { IfOk result (λ text. text.items ≡ tag_format dense (last + 1)) }
{
    let mut text = Vec::from_slice(alloc, keyword(dense))?;
    for id in 0..last {
        push_id_before(&mut text, id)?;
    }
    push_id(&mut text, last)?;
    Ok(text)
}

fn copied_name(alloc: Global, schema: &RawSchema) -> Result<Option<Vec<u8>>, NoMemory>
    requires { IsLive schema.now }
    ensures { IfOk result (λ name. bytes_of name ≡ (members_of schema.now).name) }
{
    match schema.name() {
        None => Ok(None),
        Some(name) => Ok(Some(Vec::from_slice(alloc, name)?)),
    }
}

#[tactic(auto, using(arr_move::proofs::Vacant::vacant))]
fn vacant_fields(alloc: Global, places: usize) -> Result<Vec<RawSchema>, NoMemory>
    ensures { IfOk result (λ children. children.items ≡ replicate places Released) }
{
    let mut children = Vec::with_capacity(alloc, places)?;
    for _place in 0..places {
        children.push_reserved(RawSchema::released());
    }
    Ok(children)
}

/// The schema of a union over this many children, which are released, under the name of another schema with as many.
#[tactic(auto, using(arr_move::proofs::Vacant::vacant))]
pub(crate) fn vacant_schema(
    alloc: Global,
    schema: &RawSchema,
    dense: bool,
    count: u32,
    pass: &mut Pass,
) -> Result<RawSchema, NoMemory>
    requires live { IsLive schema.now }
    requires count { count ≡ length (children_of schema.now) }
    requires some { 0 < count }
    requires few { count < 2 ^ 32 - 1 }
    requires unit { 1 ≤ pass.old.units }
    ensures top { IfOk result (λ top. top ≡ Live (tagged_members dense schema.now) (trees (replicate count Released)) absent) }
    ensures places { IfOk result (λ top. length (children_of top) ≡ count) }
    ensures vacant { IfOk result (λ top. (k : ℕ) → child_at top k ≡ Released) }
    ensures cost { IfOk result (λ top. Nodes top ≡ 1) }
    ensures units { pass.new.units + (if is_ok result then 1 else 0) ≡ pass.old.units }
    ensures nodes { OnOk result (pass.new.nodes ≡ risen pass.old.nodes 1) }
    ensures blocks { OnOk result (pass.new.blocks ≡ pass.old.blocks) }
{
    let format = numbered_format(alloc, dense, count - 1)?;
    let name = copied_name(alloc, schema)?;
    let children = vacant_fields(alloc, count as usize)?;
    let parts = SchemaParts {
        format,
        name,
        metadata: None,
        flags: 0,
        children,
        dictionary: None,
    };
    built_schema(alloc, parts, pass)
}

// ---- the array

/// Appends these bytes as a new block, and no buffer where there are none, to views that have room for one more.
fn push_block(
    alloc: Global,
    views: &mut Vec<Option<BufView>>,
    bytes: Vec<u8>,
    pass: &mut Pass,
) -> Result<(), NoMemory>
    requires room { vec_len views.old < vec_capacity views.old }
    requires unit { 1 ≤ pass.old.units }
    ensures views { OnOk result (buffers_of views.new.items ≡ buffers_of views.old.items ++ block_of bytes.items ∷ []) }
    ensures len { OnOk result (vec_len views.new ≡ vec_len views.old + 1) }
    ensures capacity { vec_capacity views.new ≡ vec_capacity views.old }
    ensures units { pass.new.units + holds_of (buffers_of views.new.items) ≡ pass.old.units + holds_of (buffers_of views.old.items) }
    ensures blocks { OnOk result (pass.new.blocks ≡ risen pass.old.blocks (holds_of (block_of bytes.items ∷ []))) }
    ensures nodes { pass.new.nodes ≡ pass.old.nodes }
{
    if bytes.is_empty() {
        views.push_reserved(None);
        return Ok(());
    }
    match make(alloc, bytes, pass) {
        Ok(hold) => {
            views.push_reserved(Some(BufView::whole(hold)));
            Ok(())
        }
        Err((_bytes, NoMemory)) => Err(NoMemory),
    }
}

/// Appends the ids, and the offsets where there are some.
fn push_blocks(
    alloc: Global,
    views: &mut Vec<Option<BufView>>,
    ids: Vec<u8>,
    starts: Option<Vec<u8>>,
    pass: &mut Pass,
) -> Result<(), NoMemory>
    requires room { vec_len views.old + 2 ≤ vec_capacity views.old }
    requires units { 2 ≤ pass.old.units }
    requires empty { views.old.items ≡ [] }
    ensures views { OnOk result (buffers_of views.new.items ≡ block_of ids.items ∷ starts_in starts) }
    ensures units { pass.new.units + holds_of (buffers_of views.new.items) ≡ pass.old.units }
    ensures blocks { OnOk result (pass.new.blocks ≡ risen pass.old.blocks (holds_of (buffers_of views.new.items))) }
    ensures nodes { pass.new.nodes ≡ pass.old.nodes }
{
    push_block(alloc, views, ids, pass)?;
    match starts {
        None => Ok(()),
        Some(starts) => push_block(alloc, views, starts, pass),
    }
}

#[tactic(auto, using(arr_move::proofs::Vacant::vacant))]
fn vacant_columns(alloc: Global, places: usize) -> Result<Vec<RawArray>, NoMemory>
    ensures { IfOk result (λ children. children.items ≡ replicate places Released) }
{
    let mut children = Vec::with_capacity(alloc, places)?;
    for _place in 0..places {
        children.push_reserved(RawArray::released());
    }
    Ok(children)
}

/// A union of this length with these buffers over this many children, which are released.
#[tactic(auto, using(arr_move::proofs::Vacant::vacant))]
fn vacant_union(
    alloc: Global,
    rows: i64,
    views: Vec<Option<BufView>>,
    count: usize,
    pass: &mut Pass,
) -> Result<RawArray, NoMemory>
    requires few { count < 2 ^ 32 - 1 }
    requires few_views { length views.items ≤ 2 }
    requires unit { 1 ≤ pass.old.units }
    requires room { pass.old.units + holds_of (buffers_of views.items) ≤ SUPPLY }
    ensures top { IfOk result (λ top. top ≡ Live (union_members rows (buffers_of views.items)) (trees (replicate count Released)) absent) }
    ensures places { IfOk result (λ top. length (children_of top) ≡ count) }
    ensures vacant { IfOk result (λ top. (k : ℕ) → child_at top k ≡ Released) }
    ensures units { MatchResult result
        (λ top. pass.new.units + Cost top ≡ pass.old.units + holds_of (buffers_of views.items))
        (λ _. pass.new.units ≡ pass.old.units + holds_of (buffers_of views.items)) }
    ensures nodes { OnOk result (pass.new.nodes ≡ risen pass.old.nodes 1) }
    ensures blocks { OnOk result (pass.new.blocks ≡ pass.old.blocks) }
{
    let Ok(children) = vacant_columns(alloc, count) else {
        let_go_all(views, pass);
        return Err(NoMemory);
    };
    let parts = ArrayParts {
        length: rows,
        null_count: 0,
        offset: 0,
        buffers: views,
        children,
        dictionary: None,
        kind: ReleaseKind::Exported,
    };
    built_array(alloc, parts, pass)
}

/// The array of a union of this length with these ids, and with offsets where there are some, over this many children, which are
/// released.
pub(crate) fn vacant_array(
    alloc: Global,
    rows: i64,
    ids: Vec<u8>,
    starts: Option<Vec<u8>>,
    count: usize,
    pass: &mut Pass,
) -> Result<RawArray, NoMemory>
    requires few { count < 2 ^ 32 - 1 }
    requires units { 3 ≤ pass.old.units }
    ensures top { IfOk result (λ top. top ≡ Live (union_members rows (block_of ids.items ∷ starts_in starts)) (trees (replicate count Released)) absent) }
    ensures places { IfOk result (λ top. length (children_of top) ≡ count) }
    ensures vacant { IfOk result (λ top. (k : ℕ) → child_at top k ≡ Released) }
    ensures units { MatchResult result (λ top. pass.new.units + Cost top ≡ pass.old.units) (λ _. pass.new.units ≡ pass.old.units) }
    ensures nodes { OnOk result (pass.new.nodes ≡ risen pass.old.nodes 1) }
    ensures blocks { OnOk result (pass.new.blocks ≡ risen pass.old.blocks (holds_of (block_of ids.items ∷ starts_in starts))) }
{
    let Ok(mut views) = Vec::with_capacity(alloc, 2) else {
        return Err(NoMemory);
    };
    match push_blocks(alloc, &mut views, ids, starts, pass) {
        Ok(()) => vacant_union(alloc, rows, views, count, pass),
        Err(NoMemory) => {
            let_go_all(views, pass);
            Err(NoMemory)
        }
    }
}
