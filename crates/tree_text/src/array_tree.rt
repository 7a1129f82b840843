//! The array tree of a text.
ghost use Rattle.std.specs.Prelude.{◌≡◌, ◌+◌, ◌-◌, ◌^◌, ◌<◌, ◌≤◌, [], ◌∷◌, ◌++◌, length, replicate, Option, IfOk, IfErr, OnOk, MatchResult};
ghost use Rattle.tree_model.specs.promise.TreeData.{Live, trees, maybe_tree};
ghost use Rattle.tree_model.specs.Tree.{Depth, depth_of_all, depth_of_maybe};
ghost use Rattle.tree_model.specs.promise.TreeCost.{Nodes, Holds, holds_of_all};
ghost use Rattle.tree_model.specs.TreeCost.{nodes_of_all};
ghost use Rattle.unit_pass.specs.promise.Tally.{risen};
ghost use Rattle.raw_array.specs.promise.Members.{Cost, holds_of, holds};
ghost use Rattle.raw_array.specs.Members.{cost_of_all, cost_of_maybe};
ghost use Rattle.raw_array.specs.View.{buffers_of};
ghost use Rattle.tree_text.specs.promise.Standing.{AtArray, AtBuffer};
ghost use Rattle.tree_text.specs.Cursors.{left, IsCursor, Stops, ArrayLineRead, ArrayRead, ArraysRead, LiveArrayRead, with_buffers, listed};
ghost use Rattle.tree_text.specs.LineView.{array_own, array_told};

use crate::buffers::buffers;
use crate::cursor::Cursor;
use crate::fault::TextFault;
use crate::node_line::{ArrayLine, ArrayNodeLine, DEEPEST_LEVEL, array_line};
use buf_block::{BufView, let_go_all};
use raw_array::{ArrayParts, RawArray, ReleaseKind, release_all};
use std::alloc::Global;
use unit_pass::{NoMemory, Pass, SUPPLY};

/// One tree more; all are released where there is no memory for it.
fn added(arrays: Vec<RawArray>, array: RawArray, pass: &mut Pass) -> Result<Vec<RawArray>, NoMemory>
    requires { pass.old.units + cost_of_all (trees arrays.items) + Cost array ≤ SUPPLY }
    ensures more { IfOk result (λ all. all.items ≡ arrays.items ++ array ∷ []) }
    ensures units { MatchResult result (λ all. pass.new.units ≡ pass.old.units) (λ e. pass.new.units ≡ pass.old.units + cost_of_all (trees arrays.items)
        + Cost array) }
    ensures blocks { pass.new.blocks ≡ pass.old.blocks }
    ensures nodes { pass.new.nodes ≡ pass.old.nodes }
{
    let mut arrays = arrays;
    match arrays.push(array) {
        Ok(()) => Ok(arrays),
        Err(failed) => {
            failed.value.end(pass);
            release_all(arrays, pass);
            Err(NoMemory)
        }
    }
}

/// The last tree apart where it is a dictionary.
fn with_dictionary(arrays: Vec<RawArray>, dictionaries: u64) -> (Vec<RawArray>, Option<RawArray>)
    requires one { dictionaries ≤ 1 }
    requires enough { dictionaries ≤ length arrays.items }
    ensures all { arrays.items ≡ result.0.items ++ listed result.1 }
    ensures count { length (listed result.1) ≡ dictionaries }
{
    let mut arrays = arrays;
    if dictionaries == 0 {
        return (arrays, None);
    }
    let last = arrays.pop();
    (arrays, last)
}

/// A live node's parts.
struct Parts {
    buffers: Vec<Option<BufView>>,
    children: Vec<RawArray>,
    dictionary: Option<RawArray>,
}

/// A live node of its numbers and of its parts; these are given up where there is no memory for it.
fn built(
    alloc: Global,
    own: ArrayNodeLine,
    parts: Parts,
    pass: &mut Pass,
) -> Result<RawArray, NoMemory>
    requires units { 1 ≤ pass.old.units }
    requires supply { pass.old.units + holds_of (buffers_of parts.buffers.items) + cost_of_all (trees parts.children.items)
        + cost_of_maybe (maybe_tree parts.dictionary) ≤ SUPPLY }
    requires few_buffers { length parts.buffers.items < 2 ^ 32 - 1 }
    requires few_children { length parts.children.items < 2 ^ 32 - 1 }
    requires low_children { depth_of_all (trees parts.children.items) ≤ 127 }
    requires low_dictionary { depth_of_maybe (maybe_tree parts.dictionary) ≤ 127 }
    ensures tree { IfOk result (λ t. t ≡ Live (with_buffers (array_own own) (buffers_of parts.buffers.items)) (trees parts.children.items)
        (maybe_tree parts.dictionary)) }
    ensures units { MatchResult result (λ t. pass.new.units + 1 ≡ pass.old.units) (λ e. pass.new.units ≡ pass.old.units
        + holds_of (buffers_of parts.buffers.items) + cost_of_all (trees parts.children.items) + cost_of_maybe (maybe_tree parts.dictionary)) }
    ensures nodes { OnOk result (pass.new.nodes ≡ risen pass.old.nodes 1) }
    ensures blocks { pass.new.blocks ≡ pass.old.blocks }
{
    let Parts {
        buffers,
        children,
        dictionary,
    } = parts;
    let parts = ArrayParts {
        length: own.length,
        null_count: own.null_count,
        offset: own.offset,
        buffers,
        children,
        dictionary,
        kind: ReleaseKind::Exported,
    };
    match RawArray::build(alloc, parts, pass) {
        Ok(tree) => Ok(tree),
        Err((parts, NoMemory)) => {
            give_up_parts(parts, pass);
            Err(NoMemory)
        }
    }
}

/// Gives up the parts of a node that isn't built.
#[tactic(auto, using(raw_array::proofs::Buffers::buffer_lists))]
fn give_up_parts(parts: ArrayParts, pass: &mut Pass)
    requires { pass.old.units + holds_of (buffers_of parts.buffers.items) + cost_of_all (trees parts.children.items)
        + cost_of_maybe (maybe_tree parts.dictionary) ≤ SUPPLY }
    ensures units { pass.new.units ≡ pass.old.units + holds_of (buffers_of parts.buffers.items) + cost_of_all (trees parts.children.items)
        + cost_of_maybe (maybe_tree parts.dictionary) }
    ensures blocks { pass.new.blocks ≡ pass.old.blocks }
    ensures nodes { pass.new.nodes ≡ pass.old.nodes }
{
    let ArrayParts {
        length: _,
        null_count: _,
        offset: _,
        buffers,
        children,
        dictionary,
        kind: _,
    } = parts;
    let_go_all(buffers, pass);
    release_all(children, pass);
    if let Some(tree) = dictionary {
        tree.end(pass);
    }
}

/// What the line at a cursor says of a node on a level, and the cursor behind it.
#[tactic(auto, using(crate::proofs::ArrayNodes::line_steps))]
fn node_line(bytes: &[u8], cursor: Cursor, level: u32) -> Result<(ArrayLine, Cursor), TextFault>
    requires { IsCursor bytes.now cursor }
    ensures read { IfOk result (λ r. ArrayLineRead bytes.now cursor r.1 level (array_told r.0)) }
    ensures fault { IfErr result (Stops bytes.now cursor (AtArray level ∷ [])) }
{
    let Some((line, next)) = cursor.take_line(bytes) else {
        return Err(cursor.fault());
    };
    if level > DEEPEST_LEVEL {
        return Err(cursor.fault());
    }
    match array_line(line) {
        Some(told) => Ok((told, next)),
        None => Err(cursor.fault()),
    }
}

/// The tree whose node is at a cursor on a level, and the cursor behind it. Of what was made before a fault, no unit is
/// out.
#[cycle(array)]
#[tactic(auto, using(crate::proofs::ArrayNodes::steps))]
pub(crate) fn array(
    alloc: Global,
    bytes: &[u8],
    cursor: Cursor,
    level: u32,
    pass: &mut Pass,
) -> Result<(RawArray, Cursor), TextFault>
    requires cursor { IsCursor bytes.now cursor }
    requires level { level ≤ 101 }
    requires room { length (left bytes.now cursor) ≤ pass.old.units }
    ensures read { IfOk result (λ r. ArrayRead bytes.now cursor r.1 level r.0) }
    ensures fault { IfErr result (Stops bytes.now cursor (AtArray level ∷ [])) }
    ensures units { MatchResult result (λ r. pass.new.units + Cost r.0 ≡ pass.old.units) (λ f. pass.new.units ≡ pass.old.units) }
    ensures nodes { IfOk result (λ r. pass.new.nodes ≡ risen pass.old.nodes (Nodes r.0)) }
    ensures blocks { IfOk result (λ r. pass.new.blocks ≡ risen pass.old.blocks (Holds holds r.0)) }
{
    let (told, next) = node_line(bytes, cursor, level)?;
    match told {
        ArrayLine::Live(own) => live(alloc, bytes, next, level, own, pass),
        ArrayLine::Released => Ok((RawArray::released(), next)),
    }
}

/// The live node whose line is before a cursor.
#[cycle(array)]
#[tactic(auto, using(crate::proofs::ArrayNodes::steps))]
fn live(
    alloc: Global,
    bytes: &[u8],
    cursor: Cursor,
    level: u32,
    own: ArrayNodeLine,
    pass: &mut Pass,
) -> Result<(RawArray, Cursor), TextFault>
    requires cursor { IsCursor bytes.now cursor }
    requires level { level ≤ 100 }
    requires few { own.children ≤ 1048576 }
    requires few_buffers { own.buffers ≤ 1048576 }
    requires one { own.dictionaries ≤ 1 }
    requires room { length (left bytes.now cursor) + 1 ≤ pass.old.units }
    ensures read { IfOk result (λ r. LiveArrayRead bytes.now cursor r.1 level (array_own own) own.children own.dictionaries r.0) }
    ensures fault { IfErr result (Stops bytes.now cursor (replicate own.buffers AtBuffer
        ++ replicate (own.children + own.dictionaries) (AtArray (level + 1)))) }
    ensures units { MatchResult result (λ r. pass.new.units + Cost r.0 ≡ pass.old.units) (λ f. pass.new.units ≡ pass.old.units) }
    ensures nodes { IfOk result (λ r. pass.new.nodes ≡ risen pass.old.nodes (Nodes r.0)) }
    ensures blocks { IfOk result (λ r. pass.new.blocks ≡ risen pass.old.blocks (Holds holds r.0)) }
{
    let (views, middle) = buffers(alloc, bytes, cursor, own.buffers, pass)?;
    let count = own.children + own.dictionaries;
    match arrays(alloc, bytes, middle, level + 1, count, pass) {
        Ok((parts, next)) => {
            let (children, dictionary) = with_dictionary(parts, own.dictionaries);
            let parts = Parts {
                buffers: views,
                children,
                dictionary,
            };
            match built(alloc, own, parts, pass) {
                Ok(tree) => Ok((tree, next)),
                Err(NoMemory) => Err(TextFault::NoMemory),
            }
        }
        Err(fault) => {
            let_go_all(views, pass);
            Err(fault)
        }
    }
}

/// This many trees whose nodes are on one level.
#[cycle(array)]
#[tactic(auto, using(crate::proofs::ArrayNodes::steps))]
fn arrays(
    alloc: Global,
    bytes: &[u8],
    cursor: Cursor,
    level: u32,
    count: u64,
    pass: &mut Pass,
) -> Result<(Vec<RawArray>, Cursor), TextFault>
    requires cursor { IsCursor bytes.now cursor }
    requires level { level ≤ 101 }
    requires room { length (left bytes.now cursor) ≤ pass.old.units }
    ensures read { IfOk result (λ r. ArraysRead bytes.now cursor r.1 level count r.0.items) }
    ensures fault { IfErr result (Stops bytes.now cursor (replicate count (AtArray level))) }
    ensures units { MatchResult result (λ r. pass.new.units + cost_of_all (trees r.0.items) ≡ pass.old.units) (λ f. pass.new.units ≡ pass.old.units) }
    ensures nodes { IfOk result (λ r. pass.new.nodes ≡ risen pass.old.nodes (nodes_of_all (trees r.0.items))) }
    ensures blocks { IfOk result (λ r. pass.new.blocks ≡ risen pass.old.blocks (holds_of_all holds (trees r.0.items))) }
{
    let mut made = Vec::new(alloc);
    let mut here = cursor;
    for _ in 0..count {
        match array(alloc, bytes, here, level, pass) {
            Ok((tree, next)) => {
                made = added(made, tree, pass)?;
                here = next;
            }
            Err(fault) => {
                release_all(made, pass);
                return Err(fault);
            }
        }
    }
    Ok((made, here))
}
