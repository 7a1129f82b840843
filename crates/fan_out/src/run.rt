//! All workers, run side by side on pieces in a row.
ghost use Rattle.std.specs.Prelude.{◌≡◌, ℕ, ◌+◌, ◌-◌, ◌*◌, ◌<◌, ◌≤◌, length, slice_index_or, IfOk, All, vec_len};
ghost use Rattle.std.specs.List.{AllWithin};
ghost use Rattle.unit_pass.specs.declared.pass.TheConstants.{SUPPLY};
ghost use Rattle.data_types.specs.KindTrees.{TypedOk};
ghost use Rattle.data_types.specs.promise.TypedView.{typed_of};
ghost use Rattle.fan_out.specs.promise.Counts.{most_workers};
ghost use Rattle.fan_out.specs.Pieces.{GivesPieces, ReadsPieces};
ghost use Rattle.fan_out.specs.Workers.{CanRun, IsDone, IsReady, IsReleased, IsUnspent};
ghost use Rattle.fan_out.specs.declared.piece.Piece.{Piece};

use crate::job::Job;
use crate::piece::{Piece, work};
use crate::pieces::{collect, end_pieces};
use data_types::Typed;
use edge_io::Gate;
use raw_array::RawArray;
use std::alloc::Global;
use std::thread;
use std::thread::Threads;
use unit_pass::{NoMemory, Pass, SUPPLY};

/// Each piece by a worker of its own: the last one in this thread, and each other in a thread of its own where one can be
/// had.
fn run_all<R: Threads + Sync, J: Job + Sync>(
    rt: &R,
    typed: &Typed,
    job: &J,
    gate: &(dyn Gate + Sync),
    pieces: &mut [Piece<J::Out>],
)
where
    J::Out: Send + Drop,
    requires workers { (1 ≤ length pieces.old) × (length pieces.old ≤ most_workers) }
    requires types { TypedOk (typed_of typed.now) }
    requires pieces { All (λ p. CanRun (J.fits job.now (typed_of typed.now)) (typed_of typed.now) p) pieces.old }
    ensures { (w : ℕ) (d : _) → w < length pieces.old → IsDone (J.gives job.now (typed_of typed.now)) (J.reads job.now) (typed_of typed.now) (length pieces.old) w
        (slice_index_or pieces.old w d) (slice_index_or pieces.new w d) }
{
    let workers = pieces.len();
    thread::for_each_mut(
        rt,
        pieces,
        workers,
        &|worker: usize, piece: &mut Piece<J::Out>|
            requires { (worker < workers) × (workers ≤ most_workers) × TypedOk (typed_of typed.now)
                × CanRun (J.fits job.now (typed_of typed.now)) (typed_of typed.now) piece.now }
            ensures { IsDone (J.gives job.entry.now (typed_of typed.entry.now)) (J.reads job.entry.now) (typed_of typed.entry.now) workers worker piece.entry.now piece.exit.now }
        { work(job, typed, gate, workers, worker, piece) },
    );
}

/// Runs all workers, and takes their answers.
fn run_and_collect<R: Threads + Sync, J: Job + Sync>(
    rt: &R,
    alloc: Global,
    typed: &Typed,
    job: &J,
    gate: &(dyn Gate + Sync),
    cost: u64,
    pieces: &mut [Piece<J::Out>],
) -> Result<Vec<J::Out>, NoMemory>
where
    J::Out: Send + Drop,
    requires workers { (1 ≤ length pieces.old) × (length pieces.old ≤ most_workers) }
    requires types { TypedOk (typed_of typed.now) }
    requires pieces { All (λ p. CanRun (J.fits job.now (typed_of typed.now)) (typed_of typed.now) p) pieces.old }
    requires unspent { All (λ p. IsUnspent cost p) pieces.old }
    ensures len { length pieces.new ≡ length pieces.old }
    ensures released { AllWithin (IsReleased cost) pieces.new 0 (length pieces.old - 1) }
    ensures last { (d : Piece _) → (slice_index_or pieces.new (length pieces.old - 1) d).tree ≡ (slice_index_or pieces.old (length pieces.old - 1) d).tree }
    ensures empty { (d : Piece _) → ((slice_index_or pieces.new (length pieces.old - 1) d).pass.units ≡ 0)
        × ((slice_index_or pieces.new (length pieces.old - 1) d).pass.blocks ≡ 0)
        × ((slice_index_or pieces.new (length pieces.old - 1) d).pass.nodes ≡ 0) }
    ensures answers { (rows : _) → All (λ p. IsReady (typed_of typed.now) rows cost p) pieces.old
        → IfOk result (λ v. GivesPieces (J.gives job.now (typed_of typed.now) rows) (length rows) (length pieces.old) v.items) }
    ensures read { (rows : _) → All (λ p. IsReady (typed_of typed.now) rows cost p) pieces.old → (d : Piece _)
        → IfOk result (λ v. ReadsPieces (J.reads job.now) (λ w. (slice_index_or pieces.old w d).tree) (length rows) (length pieces.old) v.items) }
{
    run_all(rt, typed, job, gate, pieces);
    collect(alloc, pieces)
}

/// Runs all workers and takes their pieces apart. The first result is the last piece's tree, which is the chunk.
pub(crate) fn run_pieces<R: Threads + Sync, J: Job + Sync>(
    rt: &R,
    alloc: Global,
    typed: &Typed,
    job: &J,
    gate: &(dyn Gate + Sync),
    cost: u64,
    mut pieces: Vec<Piece<J::Out>>,
    pass: &mut Pass,
) -> (RawArray, Result<Vec<J::Out>, NoMemory>)
where
    J::Out: Send + Drop,
    requires workers { (1 ≤ vec_len pieces) × (vec_len pieces ≤ most_workers) }
    requires types { TypedOk (typed_of typed.now) }
    requires pieces { All (λ p. CanRun (J.fits job.now (typed_of typed.now)) (typed_of typed.now) p) pieces.items }
    requires unspent { All (λ p. IsUnspent cost p) pieces.items }
    requires room { pass.old.units + (vec_len pieces - 1) * cost ≤ SUPPLY }
    ensures tree { (d : Piece _) → result.0 ≡ (slice_index_or pieces.items (vec_len pieces - 1) d).tree }
    ensures units { pass.new.units ≡ pass.old.units + (vec_len pieces - 1) * cost }
    ensures blocks { pass.new.blocks ≡ pass.old.blocks }
    ensures nodes { pass.new.nodes ≡ pass.old.nodes }
    ensures answers { (rows : _) → All (λ p. IsReady (typed_of typed.now) rows cost p) pieces.items
        → IfOk result.1 (λ v. GivesPieces (J.gives job.now (typed_of typed.now) rows) (length rows) (vec_len pieces) v.items) }
    ensures read { (rows : _) → All (λ p. IsReady (typed_of typed.now) rows cost p) pieces.items → (d : Piece _)
        → IfOk result.1 (λ v. ReadsPieces (J.reads job.now) (λ w. (slice_index_or pieces.items w d).tree) (length rows) (vec_len pieces) v.items) }
{
    let answers = run_and_collect(rt, alloc, typed, job, gate, cost, pieces.as_mut_slice());
    let tree = end_pieces(pieces, cost, pass);
    (tree, answers)
}
