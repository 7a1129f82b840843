//! The schema tree of a text.
ghost use Rattle.std.specs.Prelude.{◌≡◌, ◌+◌, ◌-◌, ◌^◌, ◌<◌, ◌≤◌, [], ◌∷◌, ◌++◌, length, replicate, Option, IfOk, IfErr, OnOk, MatchResult};
ghost use Rattle.tree_model.specs.promise.TreeData.{Live, trees, maybe_tree};
ghost use Rattle.tree_model.specs.Tree.{Depth, depth_of_all, depth_of_maybe};
ghost use Rattle.unit_pass.specs.promise.Tally.{risen};
ghost use Rattle.tree_model.specs.promise.TreeCost.{Nodes};
ghost use Rattle.raw_schema.specs.Members.{nodes_of_all, nodes_of_maybe};
ghost use Rattle.tree_text.specs.promise.Standing.{AtSchema};
ghost use Rattle.tree_text.specs.Cursors.{left, IsCursor, Stops, SchemaRead, SchemasRead, LiveSchemaRead, SchemaLineRead, listed};
ghost use Rattle.tree_text.specs.LineView.{schema_own, schema_told};

use crate::cursor::Cursor;
use crate::fault::TextFault;
use crate::node_line::{DEEPEST_LEVEL, SchemaLine, SchemaNodeLine, schema_line};
use raw_schema::{RawSchema, SchemaParts, built_schema, release_all};
use std::alloc::Global;
use unit_pass::{NoMemory, Pass, SUPPLY};

/// One tree more; all are released where there is no memory for it.
fn added(
    schemas: Vec<RawSchema>,
    schema: RawSchema,
    pass: &mut Pass,
) -> Result<Vec<RawSchema>, NoMemory>
    requires { pass.old.units + nodes_of_all (trees schemas.items) + Nodes schema ≤ SUPPLY }
    ensures more { IfOk result (λ all. all.items ≡ schemas.items ++ schema ∷ []) }
    ensures units { MatchResult result (λ all. pass.new.units ≡ pass.old.units) (λ e. pass.new.units ≡ pass.old.units + nodes_of_all (trees schemas.items)
        + Nodes schema) }
    ensures blocks { pass.new.blocks ≡ pass.old.blocks }
    ensures nodes { pass.new.nodes ≡ pass.old.nodes }
{
    let mut schemas = schemas;
    match schemas.push(schema) {
        Ok(()) => Ok(schemas),
        Err(failed) => {
            failed.value.end(pass);
            release_all(schemas, pass);
            Err(NoMemory)
        }
    }
}

/// The last tree apart where it is a dictionary.
fn with_dictionary(
    schemas: Vec<RawSchema>,
    dictionaries: u64,
) -> (Vec<RawSchema>, Option<RawSchema>)
    requires one { dictionaries ≤ 1 }
    requires enough { dictionaries ≤ length schemas.items }
    ensures all { schemas.items ≡ result.0.items ++ listed result.1 }
    ensures count { length (listed result.1) ≡ dictionaries }
{
    let mut schemas = schemas;
    if dictionaries == 0 {
        return (schemas, None);
    }
    let last = schemas.pop();
    (schemas, last)
}

/// A live node of its members and of its parts; these are released where there is no memory for it.
fn built(
    alloc: Global,
    own: SchemaNodeLine,
    children: Vec<RawSchema>,
    dictionary: Option<RawSchema>,
    pass: &mut Pass,
) -> Result<RawSchema, NoMemory>
    requires units { 1 ≤ pass.old.units }
    requires supply { pass.old.units + nodes_of_all (trees children.items) + nodes_of_maybe (maybe_tree dictionary) ≤ SUPPLY }
    requires few_children { length children.items < 2 ^ 32 - 1 }
    requires low_children { depth_of_all (trees children.items) ≤ 127 }
    requires low_dictionary { depth_of_maybe (maybe_tree dictionary) ≤ 127 }
    ensures tree { IfOk result (λ t. t ≡ Live (schema_own own) (trees children.items) (maybe_tree dictionary)) }
    ensures units { MatchResult result (λ t. pass.new.units + 1 ≡ pass.old.units) (λ e. pass.new.units ≡ pass.old.units + nodes_of_all (trees children.items)
        + nodes_of_maybe (maybe_tree dictionary)) }
    ensures nodes { OnOk result (pass.new.nodes ≡ risen pass.old.nodes 1) }
    ensures blocks { pass.new.blocks ≡ pass.old.blocks }
{
    let SchemaNodeLine {
        format,
        name,
        metadata,
        flags,
        children: _,
        dictionaries: _,
    } = own;
    let parts = SchemaParts {
        format,
        name,
        metadata,
        flags,
        children,
        dictionary,
    };
    built_schema(alloc, parts, pass)
}

/// What the line at a cursor says of a node on a level, and the cursor behind it.
#[tactic(auto, using(crate::proofs::SchemaSteps::line_steps))]
fn node_line(
    alloc: Global,
    bytes: &[u8],
    cursor: Cursor,
    level: u32,
) -> Result<(SchemaLine, Cursor), TextFault>
    requires { IsCursor bytes.now cursor }
    ensures read { IfOk result (λ r. SchemaLineRead bytes.now cursor r.1 level (schema_told r.0)) }
    ensures fault { IfErr result (Stops bytes.now cursor (AtSchema level ∷ [])) }
{
    let Some((line, next)) = cursor.take_line(bytes) else {
        return Err(cursor.fault());
    };
    if level > DEEPEST_LEVEL {
        return Err(cursor.fault());
    }
    match schema_line(alloc, line) {
        Ok(Some(told)) => Ok((told, next)),
        Ok(None) => Err(cursor.fault()),
        Err(NoMemory) => Err(TextFault::NoMemory),
    }
}

/// The tree whose node is at a cursor on a level, and the cursor behind it. Of what was made before a fault, no unit is
/// out.
#[cycle(schema)]
#[tactic(auto, using(crate::proofs::SchemaSteps::steps))]
pub(crate) fn schema(
    alloc: Global,
    bytes: &[u8],
    cursor: Cursor,
    level: u32,
    pass: &mut Pass,
) -> Result<(RawSchema, Cursor), TextFault>
    requires cursor { IsCursor bytes.now cursor }
    requires level { level ≤ 101 }
    requires room { length (left bytes.now cursor) ≤ pass.old.units }
    ensures read { IfOk result (λ r. SchemaRead bytes.now cursor r.1 level r.0) }
    ensures fault { IfErr result (Stops bytes.now cursor (AtSchema level ∷ [])) }
    ensures units { MatchResult result (λ r. pass.new.units + Nodes r.0 ≡ pass.old.units) (λ f. pass.new.units ≡ pass.old.units) }
    ensures nodes { IfOk result (λ r. pass.new.nodes ≡ risen pass.old.nodes (Nodes r.0)) }
    ensures blocks { pass.new.blocks ≡ pass.old.blocks }
{
    let (told, next) = node_line(alloc, bytes, cursor, level)?;
    match told {
        SchemaLine::Live(own) => live(alloc, bytes, next, level, own, pass),
        SchemaLine::Released => Ok((RawSchema::released(), next)),
    }
}

/// The live node whose line is before a cursor.
#[cycle(schema)]
#[tactic(auto, using(crate::proofs::SchemaSteps::steps))]
fn live(
    alloc: Global,
    bytes: &[u8],
    cursor: Cursor,
    level: u32,
    own: SchemaNodeLine,
    pass: &mut Pass,
) -> Result<(RawSchema, Cursor), TextFault>
    requires cursor { IsCursor bytes.now cursor }
    requires level { level ≤ 100 }
    requires few { own.children ≤ 1048576 }
    requires one { own.dictionaries ≤ 1 }
    requires room { length (left bytes.now cursor) + 1 ≤ pass.old.units }
    ensures read { IfOk result (λ r. LiveSchemaRead bytes.now cursor r.1 level (schema_own own) own.children own.dictionaries r.0) }
    ensures fault { IfErr result (Stops bytes.now cursor (replicate (own.children + own.dictionaries) (AtSchema (level + 1)))) }
    ensures units { MatchResult result (λ r. pass.new.units + Nodes r.0 ≡ pass.old.units) (λ f. pass.new.units ≡ pass.old.units) }
    ensures nodes { IfOk result (λ r. pass.new.nodes ≡ risen pass.old.nodes (Nodes r.0)) }
    ensures blocks { pass.new.blocks ≡ pass.old.blocks }
{
    let dictionaries = own.dictionaries;
    let count = own.children + dictionaries;
    let (parts, next) = schemas(alloc, bytes, cursor, level + 1, count, pass)?;
    let (children, dictionary) = with_dictionary(parts, dictionaries);
    match built(alloc, own, children, dictionary, pass) {
        Ok(tree) => Ok((tree, next)),
        Err(NoMemory) => Err(TextFault::NoMemory),
    }
}

/// This many trees whose nodes are on one level.
#[cycle(schema)]
#[tactic(auto, using(crate::proofs::SchemaSteps::steps))]
fn schemas(
    alloc: Global,
    bytes: &[u8],
    cursor: Cursor,
    level: u32,
    count: u64,
    pass: &mut Pass,
) -> Result<(Vec<RawSchema>, Cursor), TextFault>
    requires cursor { IsCursor bytes.now cursor }
    requires level { level ≤ 101 }
    requires room { length (left bytes.now cursor) ≤ pass.old.units }
    ensures read { IfOk result (λ r. SchemasRead bytes.now cursor r.1 level count r.0.items) }
    ensures fault { IfErr result (Stops bytes.now cursor (replicate count (AtSchema level))) }
    ensures units { MatchResult result (λ r. pass.new.units + nodes_of_all (trees r.0.items) ≡ pass.old.units) (λ f. pass.new.units ≡ pass.old.units) }
    ensures nodes { IfOk result (λ r. pass.new.nodes ≡ risen pass.old.nodes (nodes_of_all (trees r.0.items))) }
    ensures blocks { pass.new.blocks ≡ pass.old.blocks }
{
    let mut made = Vec::new(alloc);
    let mut here = cursor;
    for _ in 0..count {
        match schema(alloc, bytes, here, level, pass) {
            Ok((tree, next)) => {
                made = added(made, tree, pass)?;
                here = next;
            }
            Err(fault) => {
                release_all(made, pass);
                return Err(fault);
            }
        }
    }
    Ok((made, here))
}
