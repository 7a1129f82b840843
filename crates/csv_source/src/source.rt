//! The records of a text as a stream of chunks, which are read when they are asked for.
ghost use Rattle.std.specs.Prelude.{◌≡◌, ◌≤◌, ◌^◌, None, Some, map, length, vec_len, IfOk};
ghost use Rattle.std.specs.Coded.{codes};
ghost use Rattle.csv_model.specs.promise.Batches.{batches_in};
ghost use Rattle.csv_model.specs.promise.Header.{most_columns};
ghost use Rattle.csv_source.specs.SourceStreams.{AreShort};
ghost use Rattle.csv_source.specs.NextChunks.{ending_of};
ghost use Rattle.csv_source.specs.Refusals.{refusal_in, row_in};
ghost use Rattle.field_codec.specs.TextColumns.{AreAllowed, AreProper, NamesDiffer};
ghost use Rattle.data_types.specs.ColumnView.{column_of};
ghost use Rattle.data_types.specs.contracts.row_fault.RowFault as faults;
ghost use Rattle.data_types.specs.declared.row_fault.RowFault.{RowFault as RowValue};

use crate::next_chunk::next_chunk;
use crate::{LastAnswer, Refused};
use arr_export::{column_schemas_are_lawful, export_schema, schema_size};
use col_build::SpareBuffers;
use csv_read::{BatchReader, Records};
use data_types::{ColumnType, RowFault};
use edge_io::Gate;
use raw_array::{Acted, RawArray};
use raw_schema::RawSchema;
use std::alloc::Global;
use std::io::Read;
use std::snapshot::Snapshot;
use std::thread::Threads;
use stream_face::{ArrayStream, ENOMEM, Tap};
use unit_pass::{NoMemory, Pass};

/// The records of a text behind its header, as a stream of chunks of at most this many rows ("The Arrow C Stream Interface").
/// It keeps no structure between two calls. It can't be dropped.
pub struct CsvSource<B: Read + Drop> {
    batches: BatchReader<B>,
    // What was to be read at the start. It has no bytes: clauses say by it how the stream ends, also where memory ran out
    // in the middle of the text.
    whole: Snapshot<BatchReader<B>>,
    batch: u32,
    // Room that serves for all chunks.
    spares: SpareBuffers,
    refused: Option<Refused>,
    word: LastAnswer,
    released: bool,
    ghost some: { 1 ≤ length batches.columns },
    ghost few: { length batches.columns ≤ most_columns },
    ghost some_rows: { 1 ≤ batch },
    ghost short: { AreShort batches.records },
    ghost end: { refused ≡ None → ending_of batch batches ≡ ending_of batch whole.value } by { Prim.hlevel (codes, faults.the_row.coded) },
    ghost row: { (row : RowValue) → row_in refused ≡ Some row → ending_of batch whole.value ≡ Some row } by { Prim.hlevel (codes, faults.the_row.coded) },
}

impl<B: Read + Drop> CsvSource<B> {
    ghost use Rattle.csv_source.specs.Sources.{source_state, stream_of};

    /// A stream of the records that are left behind the header, at its first chunk. A field that equals the mark is null.
    /// Each chunk has `batch` rows, and the last one those that are left. `NoMemory` comes only where memory runs out.
    pub fn start(
        alloc: Global,
        records: Records<B>,
        columns: Vec<ColumnType>,
        mark: &[u8],
        batch: u32,
    ) -> Result<CsvSource<B>, NoMemory>
        requires short { records.size ≤ 2 ^ 30 }
        // The columns are such as a header names: at least one and at most 1,024 of plain values, of types that may be asked
        // for, under names that differ.
        requires some { 1 ≤ vec_len columns }
        requires few { vec_len columns ≤ most_columns }
        requires differ { NamesDiffer (map column_of columns.items) }
        requires proper { AreProper (map column_of columns.items) }
        requires allowed { AreAllowed (map column_of columns.items) }
        requires some_rows { 1 ≤ batch }
        // The stream has the batches of the records.
        ensures { IfOk result (λ source. source_state source
            ≡ stream_of (map column_of columns.items) (batches_in mark.now (map column_of columns.items) records.records batch)) }
    {
        records.are_within_the_text();
        let batches = BatchReader::start(alloc, records, columns, mark)?;
        let whole = Snapshot::of(&batches);
        Ok(CsvSource {
            batches,
            whole,
            batch,
            spares: SpareBuffers::new(alloc),
            refused: None,
            word: LastAnswer::Nothing,
            released: false,
        })
    }
}

impl<B: Read + Drop> ArrayStream for CsvSource<B> {
    ghost use Rattle.csv_source.specs.Sources.{source_state};

    ghost state = { source_state };

    fn get_schema(&mut self, alloc: Global, out: &mut RawSchema, pass: &mut Pass) -> i32 {
        schema_size();
        match export_schema(alloc, self.batches.columns(), pass) {
            Ok(schema) => {
                out.put(schema);
                self.word = LastAnswer::Nothing;
                0
            }
            Err(NoMemory) => {
                self.word = LastAnswer::Memory;
                ENOMEM
            }
        }
    }

    fn get_next<R: Threads + Sync, T: Tap>(
        &mut self,
        _rt: &R,
        alloc: Global,
        out: &mut RawArray,
        pass: &mut Pass,
        _tap: &mut T,
        _gate: &(dyn Gate + Sync),
    ) -> i32 {
        if let Some(refused) = &self.refused {
            let code = refused.code();
            self.word = LastAnswer::Refusal;
            return code;
        }
        match next_chunk(
            &mut self.batches,
            alloc,
            u64::from(self.batch),
            &mut self.spares,
            out,
            pass,
        ) {
            Ok(()) => {
                self.word = LastAnswer::Nothing;
                0
            }
            Err(refused) => {
                let code = refused.code();
                self.refused = Some(refused);
                self.word = LastAnswer::Refusal;
                code
            }
        }
    }

    fn get_last_error(&self) -> Option<&str> {
        match (self.word, &self.refused) {
            (LastAnswer::Memory, _) => Some("out of memory"),
            (LastAnswer::Refusal, Some(refused)) => Some(refused.text()),
            _ => None,
        }
    }

    fn fault(&self) -> Option<RowFault> {
        match &self.refused {
            Some(refused) => refused.row(),
            None => None,
        }
    }

    fn is_released(&self) -> bool {
        self.released
    }

    fn release(&mut self, _pass: &mut Pass) -> Acted {
        if self.released {
            return Acted::Was;
        }
        self.released = true;
        Acted::Acted
    }

    fn discard(self) {
        let CsvSource {
            batches: _,
            whole: _,
            batch: _,
            spares: _,
            refused: _,
            word: _,
            released: _,
        } = self;
    }

    fn lawful_facts(&self) {
        schema_size();
        column_schemas_are_lawful();
        let _columns = self.batches.columns();
    }
}
