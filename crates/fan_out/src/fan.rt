//! A chunk read by workers: the call that cuts it into pieces and joins the workers.
ghost use Rattle.std.specs.Prelude.{◌≡◌, ◌-◌, ◌*◌, ◌<◌, ◌≤◌, length, IfOk, OnOk};
ghost use Rattle.raw_array.specs.promise.Members.{Cost};
ghost use Rattle.raw_array.specs.Members.{LeastAmount, Like, LoweredBy};
ghost use Rattle.data_types.specs.KindTrees.{TypedOk};
ghost use Rattle.data_types.specs.promise.TypedView.{typed_of};
ghost use Rattle.layout_rules.specs.promise.Values.{rows_of};
ghost use Rattle.layout_rules.specs.promise.Walk.{ChunkOk};
ghost use Rattle.fan_out.specs.Pieces.{GivesPieces, ReadsPieces, lent};

use crate::job::Job;
use crate::piece::answer;
use crate::pieces::make_pieces;
use crate::run::run_pieces;
use crate::workers::Workers;
use array_laws::{shares_show_the_same, trees_that_show_the_same};
use data_types::Typed;
use edge_io::Gate;
use raw_array::{RawArray, like_trees_are_ordered, shares_add_up};
use std::alloc::Global;
use std::thread::Threads;
use unit_pass::{NoMemory, Pass};

/// The job's answers on the pieces of a chunk, in order. Of n rows and W workers, worker w, counted from 0, has the rows
/// from `w * n / W` on, up to `(w + 1) * n / W` and without it, both rounded down.
///
/// Where the least amount of the chunk's holds is W or more, W - 1 shares of the chunk are made before a worker starts.
/// Each worker but the last reads one of them and releases it, in a thread of its own where one can be had, and the last
/// worker reads the chunk itself in the caller's thread (`read`). On success each amount is W - 1 lower then. Where the least
/// amount is less, and for one worker, the caller does all pieces on the chunk in turn, with no share and no thread, and
/// the chunk is as before. Each worker passes the gate before its job.
///
/// `NoMemory` comes only where memory runs out, in a share, in a job or for the answers. The chunk has the same rows then, and
/// no share of it is left, but amounts may be lower. Whatever the answer, every unit is back and nothing is counted.
pub fn fan_out<R: Threads + Sync, J: Job + Sync>(
    rt: &R,
    alloc: Global,
    chunk: &mut RawArray,
    typed: &Typed,
    workers: Workers,
    pass: &mut Pass,
    job: &J,
    gate: &(dyn Gate + Sync),
) -> Result<Vec<J::Out>, NoMemory>
where
    J::Out: Send + Drop,
    requires types { TypedOk (typed_of typed.now) }
    requires chunk { ChunkOk (typed_of typed.now) chunk.old }
    requires fits { J.fits job.now (typed_of typed.now) (rows_of (typed_of typed.now) chunk.old) }
    requires units { workers.count * Cost chunk.old ≤ pass.old.units }
    ensures answers { IfOk result (λ outs. GivesPieces (J.gives job.now (typed_of typed.now) (rows_of (typed_of typed.now) chunk.old))
        (length (rows_of (typed_of typed.now) chunk.old)) workers.count outs.items) }
    ensures read { workers.count ≤ LeastAmount chunk.old → IfOk result (λ outs. ReadsPieces (J.reads job.now) (lent chunk.old workers.count)
        (length (rows_of (typed_of typed.now) chunk.old)) workers.count outs.items) }
    ensures read_in_turn { LeastAmount chunk.old < workers.count → IfOk result (λ outs. ReadsPieces (J.reads job.now) (λ _. chunk.old)
        (length (rows_of (typed_of typed.now) chunk.old)) workers.count outs.items) }
    ensures like { Like chunk.old chunk.new }
    ensures lowered { OnOk result (workers.count ≤ LeastAmount chunk.old → chunk.new ≡ LoweredBy (workers.count - 1) chunk.old) }
    ensures unchanged { LeastAmount chunk.old < workers.count → chunk.new ≡ chunk.old }
    ensures alone { workers.count ≡ 1 → chunk.new ≡ chunk.old }
    ensures lawful { ChunkOk (typed_of typed.now) chunk.new }
    ensures rows { rows_of (typed_of typed.now) chunk.new ≡ rows_of (typed_of typed.now) chunk.old }
    ensures cost { Cost chunk.new ≡ Cost chunk.old }
    ensures units { pass.new.units ≡ pass.old.units }
    ensures blocks { pass.new.blocks ≡ pass.old.blocks }
    ensures nodes { pass.new.nodes ≡ pass.old.nodes }
{
    trees_that_show_the_same();
    shares_show_the_same();
    like_trees_are_ordered();
    shares_add_up();
    let _supply = pass.units();
    if workers.count == 1 || chunk.least_amount() < u64::from(workers.count) {
        return in_turn(alloc, typed, chunk, workers, job, gate);
    }
    let cost = chunk.cost();
    in_threads(rt, alloc, chunk, typed, workers, cost, pass, job, gate)
}

/// Each piece in turn, on the chunk itself.
fn in_turn<J: Job>(
    alloc: Global,
    typed: &Typed,
    chunk: &RawArray,
    workers: Workers,
    job: &J,
    gate: &(dyn Gate + Sync),
) -> Result<Vec<J::Out>, NoMemory>
where
    J::Out: Drop,
    requires types { TypedOk (typed_of typed.now) }
    requires chunk { ChunkOk (typed_of typed.now) chunk.now }
    requires fits { J.fits job.now (typed_of typed.now) (rows_of (typed_of typed.now) chunk.now) }
    ensures answers { IfOk result (λ v. GivesPieces (J.gives job.now (typed_of typed.now) (rows_of (typed_of typed.now) chunk.now))
        (length (rows_of (typed_of typed.now) chunk.now)) workers.count v.items) }
    ensures read { IfOk result (λ v. ReadsPieces (J.reads job.now) (λ _. chunk.now) (length (rows_of (typed_of typed.now) chunk.now)) workers.count v.items) }
{
    let mut outs = Vec::new(alloc);
    let count = workers.count as usize;
    for worker in 0..count {
        let out = answer(job, typed, gate, count, worker, chunk)?;
        if outs.push(out).is_err() {
            return Err(NoMemory);
        }
    }
    Ok(outs)
}

/// The pieces by workers side by side, each but the last on a share.
fn in_threads<R: Threads + Sync, J: Job + Sync>(
    rt: &R,
    alloc: Global,
    chunk: &mut RawArray,
    typed: &Typed,
    workers: Workers,
    cost: u64,
    pass: &mut Pass,
    job: &J,
    gate: &(dyn Gate + Sync),
) -> Result<Vec<J::Out>, NoMemory>
where
    J::Out: Send + Drop,
    requires types { TypedOk (typed_of typed.now) }
    requires chunk { ChunkOk (typed_of typed.now) chunk.old }
    requires fits { J.fits job.now (typed_of typed.now) (rows_of (typed_of typed.now) chunk.old) }
    requires amounts { workers.count ≤ LeastAmount chunk.old }
    requires cost { Cost chunk.old ≡ cost }
    requires units { workers.count * cost ≤ pass.old.units }
    ensures answers { IfOk result (λ v. GivesPieces (J.gives job.now (typed_of typed.now) (rows_of (typed_of typed.now) chunk.old))
        (length (rows_of (typed_of typed.now) chunk.old)) workers.count v.items) }
    ensures read { IfOk result (λ v. ReadsPieces (J.reads job.now) (lent chunk.old workers.count) (length (rows_of (typed_of typed.now) chunk.old))
        workers.count v.items) }
    ensures like { Like chunk.old chunk.new }
    ensures lowered { OnOk result (chunk.new ≡ LoweredBy (workers.count - 1) chunk.old) }
    ensures units { pass.new.units ≡ pass.old.units }
    ensures blocks { pass.new.blocks ≡ pass.old.blocks }
    ensures nodes { pass.new.nodes ≡ pass.old.nodes }
{
    like_trees_are_ordered();
    let _supply = pass.units();
    let pieces = match make_pieces(typed, alloc, chunk, workers, cost, pass) {
        Ok(pieces) => pieces,
        Err(NoMemory) => return Err(NoMemory),
    };
    let (tree, answers) = run_pieces(rt, alloc, typed, job, gate, cost, pieces, pass);
    chunk.put(tree);
    answers
}
