//! The chunk of the next piece of a text.
ghost use Rattle.std.specs.Prelude.{◌≡◌, ◌≤◌, ◌+◌, [], is_some, true, length, IfErr, OnErr, OnOk};
ghost use Rattle.csv_model.specs.promise.Header.{most_columns};
ghost use Rattle.csv_source.specs.NextChunks.{CountsNothing};
ghost use Rattle.csv_source.specs.NextPieces.{AreLast, IsPieceChunk, StopsAt, to_come};
ghost use Rattle.csv_source.specs.declared.maker.CsvMaker.{CsvMaker as AMaker};
ghost use Rattle.raw_array.specs.promise.Members.{Cost};
ghost use Rattle.tree_model.specs.promise.TreeParts.{IsLive};
ghost use Rattle.tree_model.specs.promise.TreeData.{Released};
ghost use Rattle.unit_pass.specs.declared.pass.TheConstants.{CHUNK};

use crate::Refused;
use crate::maker::{CsvMaker, Piece};
use ahead_ring::{Ahead, Given};
use col_build::SpareBuffers;
use csv_read::BodyFault;
use raw_array::RawArray;
use std::alloc::Global;
use std::thread::Threads;
use unit_pass::{CHUNK, NoMemory, Pass};

/// Takes the next piece and puts the chunk of its rows out; none where no piece is left; or tells why there is none.
pub(crate) fn next_chunk<R: Threads + Drop>(
    ahead: &mut Option<Ahead<R, CsvMaker>>,
    alloc: Global,
    spares: &mut SpareBuffers,
    out: &mut RawArray,
    pass: &mut Pass,
) -> Result<(), Refused>
    requires live { is_some ahead.old ≡ true }
    requires last { (m : AMaker) × (length m.batches.columns ≤ most_columns) × AreLast m (to_come ahead.old) }
    requires empty { out.old ≡ Released }
    requires room { CHUNK ≤ pass.old.units }
    ensures live { is_some ahead.new ≡ true }
    ensures chunk { OnOk result (IsLive out.new → IsPieceChunk out.new (to_come ahead.old) (to_come ahead.new) pass.old pass.new) }
    ensures units { OnOk result (pass.new.units + Cost out.new ≡ pass.old.units) }
    ensures end { OnOk result (out.new ≡ Released → (to_come ahead.old ≡ []) × (to_come ahead.new ≡ [])) }
    ensures end_counts { OnOk result (out.new ≡ Released → pass.new ≡ pass.old) }
    ensures fault { IfErr result (λ why. StopsAt why (to_come ahead.old) (to_come ahead.new)) }
    ensures fault_counts { IfErr result (λ why. CountsNothing why pass.old pass.new) }
    ensures refuses { OnErr result (out.new ≡ Released) }
    ensures units_back { OnErr result (pass.new.units ≡ pass.old.units) }
{
    let Some(coming) = ahead else { unreachable!() };
    match coming.next() {
        Given::Item(Piece::Rows(held)) => match held.export(alloc, spares, pass) {
            Ok(chunk) => {
                out.put(chunk);
                Ok(())
            }
            Err(NoMemory) => Err(Refused::NoMemory),
        },
        Given::Item(Piece::Bad(fault)) => Err(Refused::of(alloc, BodyFault::Row(fault))),
        Given::Done => Ok(()),
        Given::NoMemory => Err(Refused::NoMemory),
    }
}
