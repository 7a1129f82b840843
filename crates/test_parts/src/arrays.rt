//! Small arrays that are made by hand: of at most eight children and eight buffers, and ten levels.
ghost use Rattle.std.specs.Prelude.{◌≡◌, ◌+◌, ◌≤◌, IsTrue, length, if◌then◌else◌, is_ok, IfOk, IfErr};
ghost use Rattle.buf_block.specs.declared.hold.TheConstants.{AMOUNT};
ghost use Rattle.raw_array.specs.Parts.{tree_of_parts};
ghost use Rattle.tree_model.specs.promise.TreeParts.{IsLive};
ghost use Rattle.tree_model.specs.promise.TreeData.{trees, maybe_tree};
ghost use Rattle.tree_model.specs.Tree.{depth_of_all, depth_of_maybe};

use buf_block::{BufView, make};
use raw_array::{ArrayParts, RawArray, ReleaseKind};
use std::alloc::Global;
use std::fmt;
use std::fmt::{Debug, Formatter};
use unit_pass::{NoMemory, Pass};

/// How many items an array has, how many of them are null, and how many stand in its buffers before them.
#[derive(Clone, Copy)]
pub struct Items {
    pub length: i64,
    /// -1 where it wasn't computed.
    pub null_count: i64,
    pub offset: i64,
}

/// The parts of an array that isn't made: there was no memory or no unit, or it has too many parts or levels.
pub struct UnmadeArray {
    pub parts: ArrayParts,
}

impl Debug for UnmadeArray {
    fn fmt<W: fmt::Write>(&self, f: &mut Formatter<W>) -> fmt::Result {
        f.write_str("an array isn't made")
    }
}

/// A view of all bytes of a new block. `NoMemory` also comes where the pass has no unit.
pub fn view(alloc: Global, bytes: &[u8], pass: &mut Pass) -> Result<BufView, NoMemory>
    ensures hold { IfOk result (λ v. (v.hold.bytes ≡ bytes.now) × (v.hold.amount ≡ AMOUNT)) }
    ensures whole { IfOk result (λ v. (v.start ≡ 0) × (v.len ≡ length bytes.now)) }
    ensures units { pass.new.units + (if is_ok result then 1 else 0) ≡ pass.old.units }
{
    if pass.units() == 0 {
        return Err(NoMemory);
    }
    let bytes = Vec::from_slice(alloc, bytes)?;
    match make(alloc, bytes, pass) {
        Ok(hold) => Ok(BufView::whole(hold)),
        Err((_bytes, NoMemory)) => Err(NoMemory),
    }
}

#[tactic(auto, using(tree_model::proofs::Measures::measures))]
fn are_flat(children: &[RawArray]) -> bool
    ensures { IsTrue result → depth_of_all (trees children.now) ≤ 9 }
{
    for child in children {
        if child.depth() > 9 {
            return false;
        }
    }
    true
}

fn is_flat(dictionary: &Option<RawArray>) -> bool
    ensures { IsTrue result → depth_of_maybe (maybe_tree dictionary.now) ≤ 9 }
{
    match dictionary {
        Some(tree) => tree.depth() <= 9,
        None => true,
    }
}

/// Whether an array of these parts is small.
fn is_small(parts: &ArrayParts) -> bool
    ensures children { IsTrue result → depth_of_all (trees parts.now.children.items) ≤ 9 }
    ensures dictionary { IsTrue result → depth_of_maybe (maybe_tree parts.now.dictionary) ≤ 9 }
    ensures few_children { IsTrue result → length parts.now.children.items ≤ 8 }
    ensures few_buffers { IsTrue result → length parts.now.buffers.items ≤ 8 }
{
    parts.children.len() <= 8
        && parts.buffers.len() <= 8
        && are_flat(&parts.children)
        && is_flat(&parts.dictionary)
}

/// A small array of these parts.
pub fn built(alloc: Global, parts: ArrayParts, pass: &mut Pass) -> Result<RawArray, UnmadeArray>
    ensures tree { IfOk result (λ tree. tree ≡ tree_of_parts parts) }
    ensures handed_back { IfErr result (λ e. tree_of_parts e.parts ≡ tree_of_parts parts) }
    ensures units { pass.new.units + (if is_ok result then 1 else 0) ≡ pass.old.units }
{
    if pass.units() == 0 || !is_small(&parts) {
        return Err(UnmadeArray { parts });
    }
    match RawArray::build(alloc, parts, pass) {
        Ok(tree) => Ok(tree),
        Err((parts, NoMemory)) => Err(UnmadeArray { parts }),
    }
}

/// Adds views of new blocks of these bytes, and none where there are none.
fn push_views(
    alloc: Global,
    buffers: &mut Vec<Option<BufView>>,
    bytes: &[Option<&[u8]>],
    pass: &mut Pass,
) -> Result<(), NoMemory> {
    for buffer in bytes {
        buffers.reserve(1)?;
        let buffer = match buffer {
            Some(bytes) => Some(view(alloc, bytes, pass)?),
            None => None,
        };
        buffers.push_reserved(buffer);
    }
    Ok(())
}

/// A small array whose producer made its buffers, each a new block of these bytes or none.
pub fn array(
    alloc: Global,
    items: Items,
    bytes: &[Option<&[u8]>],
    children: Vec<RawArray>,
    dictionary: Option<RawArray>,
    pass: &mut Pass,
) -> Result<RawArray, UnmadeArray>
    ensures { IfOk result (λ tree. IsLive tree) }
{
    let mut parts = ArrayParts {
        length: items.length,
        null_count: items.null_count,
        offset: items.offset,
        buffers: Vec::new(alloc),
        children,
        dictionary,
        kind: ReleaseKind::Exported,
    };
    match push_views(alloc, &mut parts.buffers, bytes, pass) {
        Ok(()) => built(alloc, parts, pass),
        Err(NoMemory) => Err(UnmadeArray { parts }),
    }
}
