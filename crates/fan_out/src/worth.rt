//! In how many pieces the rows of a chunk are worth being cut.
ghost use Rattle.std.specs.Prelude.{◌≡◌, ◌*◌, ◌≤◌, ℕ, length};
ghost use Rattle.data_types.specs.promise.TypedView.{typed_of};
ghost use Rattle.layout_rules.specs.promise.Values.{rows_of};
ghost use Rattle.layout_rules.specs.promise.Walk.{ChunkOk};
ghost use Rattle.fan_out.specs.Pieces.{piece_count};

use crate::workers::Workers;
use data_types::Typed;
use layout_check::count_rows;
use raw_array::RawArray;

/// The least number of rows of a piece where there are several: fewer are done sooner than a thread is started for them.
const LEAST_ROWS: u64 = 16384;

/// As many pieces as there are workers, but none of fewer than 16,384 rows where there are several. The units for a share
/// for each worker are also enough for a share for each piece.
pub fn piece_count(typed: &Typed, chunk: &RawArray, workers: Workers) -> Workers
    requires chunk { ChunkOk (typed_of typed.now) chunk.now }
    ensures pieces { result.count ≡ piece_count (length (rows_of (typed_of typed.now) chunk.now)) workers.count }
    ensures bound { result.count ≤ workers.count }
    ensures units { (cost : ℕ) → result.count * cost ≤ workers.count * cost }
{
    pieces_of(count_rows(typed, chunk) as u64, workers)
}

fn pieces_of(rows: u64, workers: Workers) -> Workers
    ensures pieces { result.count ≡ piece_count rows workers.count }
    ensures bound { result.count ≤ workers.count }
{
    let worth = rows / LEAST_ROWS;
    if worth >= u64::from(workers.count) {
        workers
    } else if worth == 0 {
        Workers { count: 1 }
    } else {
        Workers {
            count: worth as u32,
        }
    }
}
