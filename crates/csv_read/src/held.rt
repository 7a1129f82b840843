//! The rows of a batch, taken out of their reader.
ghost use Rattle.std.specs.Prelude.{◌≡◌, ◌≤◌, ◌<◌, ◌+◌, ◌*◌, ◌^◌, length, map, IfOk, OnErr, OnOk};
ghost use Rattle.data_types.specs.ColumnView.{column_of};
ghost use Rattle.data_types.specs.promise.ColumnKinds.{type_of_columns};
ghost use Rattle.layout_rules.specs.promise.Values.{rows_of};
ghost use Rattle.layout_rules.specs.promise.Walk.{ChunkOk};
ghost use Rattle.raw_array.specs.promise.Members.{Cost};
ghost use Rattle.unit_pass.specs.promise.Tally.{risen};
ghost use Rattle.csv_read.specs.BatchesLeft.{columns_in, next_rows};
ghost use Rattle.csv_read.specs.Body.{HoldRows};
ghost use Rattle.csv_read.specs.Chunks.{chunk_blocks, chunk_of};

use crate::batches::BatchReader;
use crate::chunk::{batch_rows_fit, chunks_have_their_rows, count_rows, export_rows};
use col_build::{Builder, SpareBuffers};
use raw_array::RawArray;
use std::alloc::Global;
use std::io::Read;
use std::marker::Model;
use std::snapshot::Snapshot;
use unit_pass::{NoMemory, Pass};

/// The rows of a batch, taken out of their reader. Contracts see them as a table. They hold no block and no unit, so they may be
/// dropped, and go to another thread.
#[derive(Drop)]
pub struct BatchRows<R: Read> {
    builders: Vec<Builder>,
    // The reader as it was before the batch, and how many records a batch has. The first has no bytes: clauses tell by it which
    // rows these are.
    from: Snapshot<BatchReader<R>>,
    batch: u64,
}

impl<R: Read> Model for BatchRows<R> {
    ghost use Rattle.std.specs.Prelude.{◌≤◌, ◌^◌, length};
    ghost use Rattle.csv_read.specs.BatchesLeft.{columns_in, next_rows};
    ghost use Rattle.csv_read.specs.Body.{HoldRows};
    ghost use Rattle.csv_read.specs.StoredRows.{HeldTable, coded_held};

    ghost Value = { HeldTable };

    ghost coded = { coded_held };

    ghost view = { λ h. record { columns = h.from.value.columns; rows = next_rows h.batch h.from.value } };

    ghost invariant = { λ h. HoldRows h.builders.items (columns_in h.from.value) (next_rows h.batch h.from.value)
        × (length (next_rows h.batch h.from.value) ≤ 2 ^ 30) × (1 ≤ length h.from.value.columns) };
}

impl<R: Read> BatchRows<R> {
    /// The rows that builders hold: those of the first batch of a reader.
    pub(crate) fn of(
        builders: Vec<Builder>,
        from: Snapshot<BatchReader<R>>,
        batch: u64,
    ) -> BatchRows<R>
        requires held { HoldRows builders.items (columns_in from.value) (next_rows batch from.value) }
        requires few { length (next_rows batch from.value) ≤ 2 ^ 30 }
        requires some { 1 ≤ length from.value.columns }
        ensures columns { result.columns ≡ from.value.columns }
        ensures rows { result.rows ≡ next_rows batch from.value }
    {
        BatchRows {
            builders,
            from,
            batch,
        }
    }

    /// The chunk of the rows, as [`export_rows`](crate::export_rows) makes it: their buffers are moved into blocks.
    pub fn export(
        self,
        alloc: Global,
        spares: &mut SpareBuffers,
        pass: &mut Pass,
    ) -> Result<RawArray, NoMemory>
        requires few { length self.columns < 2 ^ 31 }
        requires units { 1 + 4 * length self.columns ≤ pass.old.units }
        ensures chunk { IfOk result (λ chunk. chunk ≡ chunk_of (map column_of self.columns) self.rows) }
        // It meets the rules of a chunk, and its rows are these.
        ensures ok { IfOk result (λ chunk. ChunkOk (type_of_columns (map column_of self.columns)) chunk) }
        ensures rows { IfOk result (λ chunk. rows_of (type_of_columns (map column_of self.columns)) chunk ≡ self.rows) }
        ensures units { IfOk result (λ chunk. pass.new.units + Cost chunk ≡ pass.old.units) }
        ensures units_back { OnErr result (pass.new.units ≡ pass.old.units) }
        ensures cost { IfOk result (λ chunk. Cost chunk ≤ 1 + 4 * length self.columns) }
        ensures blocks { OnOk result (pass.new.blocks ≡ risen pass.old.blocks (chunk_blocks (map column_of self.columns) self.rows)) }
        ensures nodes { OnOk result (pass.new.nodes ≡ risen pass.old.nodes (1 + length self.columns)) }
    {
        let BatchRows {
            mut builders,
            from: _,
            batch: _,
        } = self;
        chunks_have_their_rows();
        batch_rows_fit();
        let rows = count_rows(builders.as_slice());
        match export_rows(alloc, builders.as_mut_slice(), rows, spares, pass) {
            Ok(chunk) => Ok(chunk),
            Err(NoMemory) => Err(NoMemory),
        }
    }
}
