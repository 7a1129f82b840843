//! Shares of a chunk, which are chunks of the same rows.
ghost use Rattle.std.specs.Prelude.{◌≡◌, ◌+◌, ◌≤◌, if◌then◌else◌, is_ok, IfOk, OnOk};
ghost use Rattle.tree_model.specs.promise.TreeParts.{IsLive};
ghost use Rattle.raw_array.specs.promise.Members.{Cost};
ghost use Rattle.raw_array.specs.Members.{LeastAmount, Like, Lowered, ShareOf};
ghost use Rattle.data_types.specs.promise.TypedView.{typed_of};
ghost use Rattle.layout_rules.specs.promise.Values.{rows_of};
ghost use Rattle.layout_rules.specs.promise.Walk.{ChunkOk};
ghost use Rattle.fan_out.specs.Pieces.{IsChunk};

use array_laws::{shares_show_the_same, trees_that_show_the_same};
use data_types::Typed;
use layout_rules::lawful_root;
use raw_array::RawArray;
use std::alloc::Global;
use unit_pass::{NoMemory, Pass};

/// A share of a chunk, which is a chunk of the same rows, and so is what the share leaves of its source.
pub(crate) fn shared_chunk(
    typed: &Typed,
    alloc: Global,
    chunk: &mut RawArray,
    pass: &mut Pass,
) -> Result<RawArray, NoMemory>
    requires chunk { ChunkOk (typed_of typed.now) chunk.old }
    requires amounts { 2 ≤ LeastAmount chunk.old }
    requires units { Cost chunk.old ≤ pass.old.units }
    ensures share { IfOk result (λ share. IsChunk (typed_of typed.now) (rows_of (typed_of typed.now) chunk.old) (Cost chunk.old) share) }
    ensures tree { IfOk result (λ share. share ≡ ShareOf chunk.old) }
    ensures lowered { OnOk result (chunk.new ≡ Lowered chunk.old) }
    ensures like { Like chunk.old chunk.new }
    ensures kept { IsChunk (typed_of typed.now) (rows_of (typed_of typed.now) chunk.old) (Cost chunk.old) chunk.new }
    ensures units { pass.new.units + (if is_ok result then Cost chunk.old else 0) ≡ pass.old.units }
    ensures blocks { pass.new.blocks ≡ pass.old.blocks }
    ensures nodes { pass.new.nodes ≡ pass.old.nodes }
{
    lawful_root(typed, chunk);
    trees_that_show_the_same();
    shares_show_the_same();
    chunk.share(alloc, pass)
}
