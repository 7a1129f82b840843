//! The chunk of the next batch of a text.
ghost use Rattle.std.specs.Prelude.{◌≡◌, ◌≤◌, ◌+◌, ◌*◌, ◌^◌, List, None, pos, length, IfErr, OnErr, OnOk};
ghost use Rattle.csv_model.specs.promise.Header.{most_columns};
ghost use Rattle.csv_read.specs.BatchesLeft.{batches_left, columns_in};
ghost use Rattle.csv_read.specs.Body.{HoldRows};
ghost use Rattle.csv_source.specs.SourceStreams.{AreShort, no_batches};
ghost use Rattle.csv_source.specs.NextChunks.{CountsNothing, EndsAt, IsNextChunk, ending_of};
ghost use Rattle.data_types.specs.promise.Table.{Column, Row};
ghost use Rattle.raw_array.specs.promise.Members.{Cost};
ghost use Rattle.tree_model.specs.promise.TreeParts.{IsLive};
ghost use Rattle.tree_model.specs.promise.TreeData.{Released};
ghost use Rattle.unit_pass.specs.declared.pass.TheConstants.{CHUNK};

use crate::Refused;
use col_build::SpareBuffers;
use csv_read::{
    BatchReader, batch_rows_fit, batches_are_read_in_turn, chunks_have_their_rows, count_rows,
};
use raw_array::RawArray;
use std::alloc::Global;
use std::io::Read;
use unit_pass::{CHUNK, NoMemory, Pass};

/// Puts the chunk of the next `batch` records out, or of all that are left where they are fewer; none where no record is
/// left; or tells why there is none.
pub(crate) fn next_chunk<B: Read>(
    batches: &mut BatchReader<B>,
    alloc: Global,
    batch: u64,
    spares: &mut SpareBuffers,
    out: &mut RawArray,
    pass: &mut Pass,
) -> Result<(), Refused>
    requires some_rows { 1 ≤ batch }
    requires some { 1 ≤ length batches.old.columns }
    requires few { length batches.old.columns ≤ most_columns }
    requires short { AreShort batches.old.records }
    requires empty { out.old ≡ Released }
    requires room { CHUNK ≤ pass.old.units }
    ensures columns { batches.new.columns ≡ batches.old.columns }
    ensures chunk { OnOk result (IsLive out.new → IsNextChunk batch out.new batches.old batches.new pass.old pass.new) }
    ensures units { OnOk result (pass.new.units + Cost out.new ≡ pass.old.units) }
    ensures end { OnOk result (out.new ≡ Released → batches_left batch batches.old ≡ no_batches None) }
    ensures end_stays { OnOk result (out.new ≡ Released → batches_left batch batches.new ≡ batches_left batch batches.old) }
    ensures ending { OnOk result (ending_of batch batches.new ≡ ending_of batch batches.old) }
    ensures end_counts { OnOk result (out.new ≡ Released → pass.new ≡ pass.old) }
    ensures fault { IfErr result (λ why. EndsAt batch why batches.old batches.new) }
    ensures fault_counts { IfErr result (λ why. CountsNothing why pass.old pass.new) }
    ensures refuses { OnErr result (out.new ≡ Released) }
    ensures units_back { OnErr result (pass.new.units ≡ pass.old.units) }
    ensures short { AreShort batches.new.records }
{
    batches_are_read_in_turn();
    chunks_have_their_rows();
    batch_rows_fit();
    let _columns = batches.columns();
    match batches.next(alloc, batch) {
        Ok(true) => {}
        Ok(false) => return Ok(()),
        Err(fault) => return Err(Refused::of(alloc, fault)),
    }
    let rows = count_rows(batches.builders());
    match batches.export(alloc, rows, spares, pass) {
        Ok(chunk) => {
            out.put(chunk);
            Ok(())
        }
        Err(NoMemory) => Err(Refused::NoMemory),
    }
}
