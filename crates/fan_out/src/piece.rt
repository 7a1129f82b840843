//! One worker's piece.
ghost use Rattle.std.specs.Prelude.{◌≡◌, ℕ, pos, ◌+◌, ◌<◌, ◌≤◌, ◌≤ℤ◌, length, IfOk};
ghost use Rattle.data_types.specs.KindTrees.{TypedOk};
ghost use Rattle.layout_rules.specs.promise.Layout.{natural};
ghost use Rattle.data_types.specs.promise.TypedView.{typed_of};
ghost use Rattle.layout_rules.specs.promise.Values.{rows_of};
ghost use Rattle.layout_rules.specs.promise.Walk.{ChunkOk};
ghost use Rattle.array_laws.specs.Pieces.{border};
ghost use Rattle.fan_out.specs.promise.Counts.{most_workers};
ghost use Rattle.fan_out.specs.Pieces.{GivesPiece};
ghost use Rattle.fan_out.specs.Workers.{CanRun, IsDone};

use crate::job::Job;
use data_types::Typed;
use edge_io::Gate;
use layout_check::count_rows;
use raw_array::RawArray;
use unit_pass::{NoMemory, Pass};

/// A share of a chunk, or the chunk itself; the units of its worker; and the worker's answer, once it is there. Neither the
/// tree nor the pass may be dropped, so a piece has to be taken apart.
pub struct Piece<O> {
    pub tree: RawArray,
    pub pass: Pass,
    pub answer: Option<Result<O, NoMemory>>,
}

/// Where piece `at` of this many rows begins, and the piece before it ends.
fn border_at(rows: i64, workers: usize, at: usize) -> i64
    requires rows { pos 0 ≤ℤ rows }
    requires workers { (1 ≤ workers) × (at ≤ workers) }
    ensures border { result ≡ pos (border (natural rows) workers at) }
    ensures within { result ≤ℤ rows }
{
    whole_border(rows as u64, workers, at) as i64
}

fn whole_border(rows: u64, workers: usize, at: usize) -> u64
    requires { (1 ≤ workers) × (at ≤ workers) }
    ensures border { result ≡ border rows workers at }
    ensures within { result ≤ rows }
{
    (at as u128 * rows as u128 / workers as u128) as u64
}

/// What a worker answers for its window of the chunk. It passes the gate before its job.
pub(crate) fn answer<J: Job>(
    job: &J,
    typed: &Typed,
    gate: &(dyn Gate + Sync),
    workers: usize,
    worker: usize,
    chunk: &RawArray,
) -> Result<J::Out, NoMemory>
    requires worker { (worker < workers) × (workers ≤ most_workers) }
    requires types { TypedOk (typed_of typed.now) }
    requires chunk { ChunkOk (typed_of typed.now) chunk.now }
    requires fits { J.fits job.now (typed_of typed.now) (rows_of (typed_of typed.now) chunk.now) }
    ensures given { IfOk result (GivesPiece (J.gives job.now (typed_of typed.now) (rows_of (typed_of typed.now) chunk.now))
        (length (rows_of (typed_of typed.now) chunk.now)) workers worker) }
    ensures read { IfOk result (GivesPiece (J.reads job.now chunk.now) (length (rows_of (typed_of typed.now) chunk.now)) workers worker) }
{
    gate.pass(worker as u32);
    let rows = count_rows(typed, chunk);
    let from = border_at(rows, workers, worker);
    let to = border_at(rows, workers, worker + 1);
    job.run(typed, chunk, from, to)
}

/// A worker's whole work: its answer, and then the release of its share. The last worker has the chunk itself, which it
/// leaves as it is.
pub(crate) fn work<J: Job>(
    job: &J,
    typed: &Typed,
    gate: &(dyn Gate + Sync),
    workers: usize,
    worker: usize,
    piece: &mut Piece<J::Out>,
)
where
    J::Out: Drop,
    requires worker { (worker < workers) × (workers ≤ most_workers) }
    requires types { TypedOk (typed_of typed.now) }
    requires piece { CanRun (J.fits job.now (typed_of typed.now)) (typed_of typed.now) piece.old }
    ensures { IsDone (J.gives job.now (typed_of typed.now)) (J.reads job.now) (typed_of typed.now) workers worker piece.old piece.new }
{
    piece.answer = Some(answer(job, typed, gate, workers, worker, &piece.tree));
    if worker + 1 < workers {
        piece.tree.release(&mut piece.pass);
    }
}
