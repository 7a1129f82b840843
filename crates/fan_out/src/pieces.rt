//! The pieces of a chunk: a share for each worker but the last and the chunk itself for the last, made before a worker
//! starts, and taken apart once all have ended.
ghost use Rattle.std.specs.Prelude.{◌≡◌, ℕ, ◌+◌, ◌-◌, ◌*◌, ◌<◌, ◌≤◌, length, slice_index_or, IfOk, OnOk, OnErr, All, vec_len};
ghost use Rattle.std.specs.List.{AllWithin};
ghost use Rattle.unit_pass.specs.declared.pass.TheConstants.{SUPPLY};
ghost use Rattle.tree_model.specs.promise.TreeData.{Released};
ghost use Rattle.raw_array.specs.promise.Members.{Cost};
ghost use Rattle.raw_array.specs.Members.{LeastAmount, Like, LoweredBy};
ghost use Rattle.data_types.specs.promise.TypedView.{typed_of};
ghost use Rattle.layout_rules.specs.promise.Values.{rows_of};
ghost use Rattle.layout_rules.specs.promise.Walk.{ChunkOk};
ghost use Rattle.fan_out.specs.Pieces.{lent};
ghost use Rattle.fan_out.specs.Workers.{Collected, IsReady, IsReleased, IsUnspent, SameTrees};
ghost use Rattle.fan_out.specs.declared.piece.Piece.{Piece};

use crate::piece::Piece;
use crate::share::shared_chunk;
use crate::workers::Workers;
use data_types::Typed;
use raw_array::{RawArray, like_trees_are_ordered, shares_add_up};
use std::alloc::Global;
use unit_pass::{NoMemory, Pass, SUPPLY};

/// A piece whose worker did not run yet.
fn ready<O>(tree: RawArray, pass: &mut Pass) -> Piece<O>
    ensures tree { result.tree ≡ tree }
    ensures pass { (result.pass.units ≡ 0) × (result.pass.blocks ≡ 0) × (result.pass.nodes ≡ 0) }
    ensures kept { (pass.new.units ≡ pass.old.units) × (pass.new.blocks ≡ pass.old.blocks) × (pass.new.nodes ≡ pass.old.nodes) }
{
    Piece {
        tree,
        pass: pass.split(0),
        answer: None,
    }
}

/// A share for each worker but the last, whose piece is the chunk itself. Where memory ran out no share is left.
pub(crate) fn make_pieces<O: Drop>(
    typed: &Typed,
    alloc: Global,
    chunk: &mut RawArray,
    workers: Workers,
    cost: u64,
    pass: &mut Pass,
) -> Result<Vec<Piece<O>>, NoMemory>
    requires chunk { ChunkOk (typed_of typed.now) chunk.old }
    requires amounts { workers.count ≤ LeastAmount chunk.old }
    requires cost { Cost chunk.old ≡ cost }
    requires units { workers.count * cost ≤ pass.old.units }
    ensures len { IfOk result (λ v. vec_len v ≡ workers.count) }
    ensures ready { IfOk result (λ v. All (λ p. IsReady (typed_of typed.now) (rows_of (typed_of typed.now) chunk.old) cost p) v.items) }
    ensures trees { IfOk result (λ v. (w : ℕ) (d : _) → w < workers.count → (slice_index_or v.items w d).tree ≡ lent chunk.old workers.count w) }
    ensures last { IfOk result (λ v. (d : _) → (slice_index_or v.items (workers.count - 1) d).tree ≡ LoweredBy (workers.count - 1) chunk.old) }
    ensures lent { OnOk result (chunk.new ≡ Released) }
    ensures drawn { OnOk result (pass.new.units + (workers.count - 1) * cost ≡ pass.old.units) }
    ensures refused { OnErr result (Like chunk.old chunk.new × (pass.new.units ≡ pass.old.units)) }
    ensures blocks { pass.new.blocks ≡ pass.old.blocks }
    ensures nodes { pass.new.nodes ≡ pass.old.nodes }
{
    like_trees_are_ordered();
    shares_add_up();
    let _supply = pass.units();
    let count = workers.count as usize;
    let Ok(mut pieces) = Vec::with_capacity(alloc, count) else {
        return Err(NoMemory);
    };
    for _worker in 1..count {
        match shared_chunk(typed, alloc, chunk, pass) {
            Ok(share) => pieces.push_reserved(ready(share, pass)),
            Err(NoMemory) => {
                release_shares(pieces, cost, pass);
                return Err(NoMemory);
            }
        }
    }
    pieces.push_reserved(ready(chunk.move_out(), pass));
    Ok(pieces)
}

/// Releases shares whose workers did not run.
fn release_shares<O: Drop>(mut pieces: Vec<Piece<O>>, cost: u64, pass: &mut Pass)
    requires shares { All (λ p. IsUnspent cost p) pieces.items }
    requires room { pass.old.units + vec_len pieces * cost ≤ SUPPLY }
    ensures units { pass.new.units ≡ pass.old.units + vec_len pieces * cost }
    ensures blocks { pass.new.blocks ≡ pass.old.blocks }
    ensures nodes { pass.new.nodes ≡ pass.old.nodes }
{
    while let Some(piece) = pieces.pop() {
        let Piece {
            tree,
            pass: theirs,
            answer: _,
        } = piece;
        pass.join(theirs);
        tree.end(pass);
    }
    pieces.destroy_empty();
}

/// The answers in order, where each worker has one.
pub(crate) fn collect<O: Drop>(alloc: Global, pieces: &mut [Piece<O>]) -> Result<Vec<O>, NoMemory>
    ensures answers { IfOk result (λ v. Collected (length pieces.old) pieces.old v.items) }
    ensures kept { SameTrees pieces.old pieces.new }
{
    let mut outs = Vec::new(alloc);
    for worker in 0..pieces.len() {
        match take_answer(&mut pieces[worker]) {
            Some(Ok(out)) => {
                if outs.push(out).is_err() {
                    return Err(NoMemory);
                }
            }
            _ => return Err(NoMemory),
        }
    }
    Ok(outs)
}

fn take_answer<O>(piece: &mut Piece<O>) -> Option<Result<O, NoMemory>>
    ensures answer { result ≡ piece.old.answer }
    ensures kept { (piece.new.tree ≡ piece.old.tree) × (piece.new.pass ≡ piece.old.pass) }
{
    piece.answer.take()
}

/// The last piece's tree, once the others' units are with the pass again.
pub(crate) fn end_pieces<O: Drop>(mut pieces: Vec<Piece<O>>, cost: u64, pass: &mut Pass) -> RawArray
    requires some { 1 ≤ vec_len pieces }
    requires last { (d : Piece O) → ((slice_index_or pieces.items (vec_len pieces - 1) d).pass.units ≡ 0)
        × ((slice_index_or pieces.items (vec_len pieces - 1) d).pass.blocks ≡ 0)
        × ((slice_index_or pieces.items (vec_len pieces - 1) d).pass.nodes ≡ 0) }
    requires released { AllWithin (IsReleased cost) pieces.items 0 (vec_len pieces - 1) }
    requires room { pass.old.units + (vec_len pieces - 1) * cost ≤ SUPPLY }
    ensures tree { (d : Piece O) → result ≡ (slice_index_or pieces.items (vec_len pieces - 1) d).tree }
    ensures units { pass.new.units ≡ pass.old.units + (vec_len pieces - 1) * cost }
    ensures blocks { pass.new.blocks ≡ pass.old.blocks }
    ensures nodes { pass.new.nodes ≡ pass.old.nodes }
{
    let Some(last) = pieces.pop() else {
        unreachable!()
    };
    let Piece {
        tree,
        pass: theirs,
        answer: _,
    } = last;
    pass.join(theirs);
    join_released(pieces, cost, pass);
    tree
}

/// Takes in the units of workers that released their shares.
fn join_released<O: Drop>(mut pieces: Vec<Piece<O>>, cost: u64, pass: &mut Pass)
    requires released { All (λ p. IsReleased cost p) pieces.items }
    requires room { pass.old.units + vec_len pieces * cost ≤ SUPPLY }
    ensures units { pass.new.units ≡ pass.old.units + vec_len pieces * cost }
    ensures blocks { pass.new.blocks ≡ pass.old.blocks }
    ensures nodes { pass.new.nodes ≡ pass.old.nodes }
{
    while let Some(piece) = pieces.pop() {
        let Piece {
            tree,
            pass: theirs,
            answer: _,
        } = piece;
        tree.discard();
        pass.join(theirs);
    }
    pieces.destroy_empty();
}
