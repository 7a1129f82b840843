//! The records of a text as a stream of chunks, read ahead.
ghost use Rattle.std.specs.Prelude.{◌≡◌, ◌≤◌, ◌^◌, map, is_some, true, None, Some, vec_len, IfOk};
ghost use Rattle.std.specs.Coded.{codes};
ghost use Rattle.csv_source.specs.Refusals.{row_in};
ghost use Rattle.csv_source.specs.SourceStreams.{AreShort, stream_of};
ghost use Rattle.csv_source.specs.NextPieces.{AreLast, to_come};
ghost use Rattle.csv_source.specs.contracts.maker.Piece as pieces;
ghost use Rattle.csv_source.specs.Pieces.{maker_batches};
ghost use Rattle.csv_model.specs.promise.Batches.{batches_in};
ghost use Rattle.csv_model.specs.promise.Header.{most_columns};
ghost use Rattle.field_codec.specs.TextColumns.{AreAllowed, AreProper, NamesDiffer};
ghost use Rattle.data_types.specs.ColumnView.{column_of};
ghost use Rattle.data_types.specs.contracts.kind.ColumnType as kinds;
ghost use Rattle.data_types.specs.contracts.row_fault.RowFault as faults;
ghost use Rattle.data_types.specs.declared.row_fault.RowFault.{RowFault as RowValue};

use crate::columns::TextColumns;
use crate::maker::CsvMaker;
use crate::next_ahead::next_chunk;
use crate::{LastAnswer, Refused};
use ahead_ring::Ahead;
use arr_export::{column_schemas_are_lawful, export_schema, schema_size};
use col_build::SpareBuffers;
use csv_read::{BatchReader, Records, TextBlocks};
use data_types::{ColumnType, RowFault, clone_columns};
use edge_io::Gate;
use raw_array::{Acted, RawArray};
use raw_schema::RawSchema;
use std::alloc::Global;
use std::snapshot::Snapshot;
use std::thread::Threads;
use stream_face::{ArrayStream, ENOMEM, Tap};
use unit_pass::{NoMemory, Pass};

/// The records of a text behind its header, as a stream of chunks of at most this many rows, which are read ahead in a thread
/// beside the caller's. It keeps no structure between two calls. It can't be dropped: its thread is to be joined, which `release`
/// does.
pub struct CsvAhead<R: Threads + Drop> {
    // What is to come; nothing once it is released.
    ahead: Option<Ahead<R, CsvMaker>>,
    columns: TextColumns,
    // What was to be read at the start. It has no bytes: clauses say by it how the stream ends, also where memory ran out
    // in the middle of the text.
    whole: Snapshot<CsvMaker>,
    // Room that serves for all chunks.
    spares: SpareBuffers,
    refused: Option<Refused>,
    word: LastAnswer,
    ghost same: { whole.value.batches.columns ≡ columns } by { Prim.hlevel (codes, kinds.the_row.coded) },
    ghost short: { AreShort whole.value.batches.records },
    ghost last: { refused ≡ None → is_some ahead ≡ true → AreLast whole.value (to_come ahead) } by { Prim.hlevel (codes, pieces.the_row.coded) },
    ghost row: { (row : RowValue) → row_in refused ≡ Some row → (maker_batches whole.value).ending ≡ Some row } by { Prim.hlevel (codes, faults.the_row.coded) },
}

impl<R: Threads + Drop> CsvAhead<R> {
    ghost use Rattle.csv_source.specs.AheadSources.{ahead_state};

    /// A stream of the records that are left behind the header, at its first chunk. A field that equals the mark is null.
    /// Each chunk has `batch` rows, and the last one those that are left. At most twice `ahead` chunks are read before they
    /// are taken. `NoMemory` comes only where memory runs out.
    pub fn start(
        alloc: Global,
        rt: R,
        records: Records<TextBlocks>,
        columns: Vec<ColumnType>,
        mark: &[u8],
        batch: u32,
        ahead: u32,
    ) -> Result<CsvAhead<R>, NoMemory>
        requires short { records.size ≤ 2 ^ 30 }
        // The columns are such as a header names: at least one and at most 1,024 of plain values, of types that may be asked
        // for, under names that differ.
        requires some { 1 ≤ vec_len columns }
        requires few { vec_len columns ≤ most_columns }
        requires differ { NamesDiffer (map column_of columns.items) }
        requires proper { AreProper (map column_of columns.items) }
        requires allowed { AreAllowed (map column_of columns.items) }
        requires some_rows { 1 ≤ batch }
        requires some_ahead { 1 ≤ ahead }
        // The stream has the batches of the records.
        ensures { IfOk result (λ source. ahead_state source
            ≡ stream_of (map column_of columns.items) (batches_in mark.now (map column_of columns.items) records.records batch)) }
    {
        records.are_within_the_text();
        let copy = clone_columns(alloc, columns.as_slice())?;
        let own = TextColumns::new(copy);
        let batches = BatchReader::start(alloc, records, columns, mark)?;
        let maker = CsvMaker::over(alloc, batches, batch);
        let whole = Snapshot::of(&maker);
        let ahead = Ahead::start(alloc, rt, maker, ahead)?;
        Ok(CsvAhead {
            ahead: Some(ahead),
            columns: own,
            whole,
            spares: SpareBuffers::new(alloc),
            refused: None,
            word: LastAnswer::Nothing,
        })
    }
}

impl<R: Threads + Drop> ArrayStream for CsvAhead<R> {
    ghost use Rattle.csv_source.specs.AheadSources.{ahead_state};

    ghost state = { ahead_state };

    fn get_schema(&mut self, alloc: Global, out: &mut RawSchema, pass: &mut Pass) -> i32 {
        schema_size();
        match export_schema(alloc, self.columns.as_slice(), pass) {
            Ok(schema) => {
                out.put(schema);
                self.word = LastAnswer::Nothing;
                0
            }
            Err(NoMemory) => {
                self.word = LastAnswer::Memory;
                ENOMEM
            }
        }
    }

    fn get_next<S: Threads + Sync, T: Tap>(
        &mut self,
        _rt: &S,
        alloc: Global,
        out: &mut RawArray,
        pass: &mut Pass,
        _tap: &mut T,
        _gate: &(dyn Gate + Sync),
    ) -> i32 {
        if let Some(refused) = &self.refused {
            let code = refused.code();
            self.word = LastAnswer::Refusal;
            return code;
        }
        let _columns = self.columns.as_slice();
        match next_chunk(&mut self.ahead, alloc, &mut self.spares, out, pass) {
            Ok(()) => {
                self.word = LastAnswer::Nothing;
                0
            }
            Err(refused) => {
                let code = refused.code();
                self.refused = Some(refused);
                self.word = LastAnswer::Refusal;
                code
            }
        }
    }

    fn get_last_error(&self) -> Option<&str> {
        match (self.word, &self.refused) {
            (LastAnswer::Memory, _) => Some("out of memory"),
            (LastAnswer::Refusal, Some(refused)) => Some(refused.text()),
            _ => None,
        }
    }

    fn fault(&self) -> Option<RowFault> {
        match &self.refused {
            Some(refused) => refused.row(),
            None => None,
        }
    }

    fn is_released(&self) -> bool {
        self.ahead.is_none()
    }

    fn release(&mut self, _pass: &mut Pass) -> Acted {
        match self.ahead.take() {
            Some(ahead) => {
                ahead.close();
                Acted::Acted
            }
            None => Acted::Was,
        }
    }

    fn discard(self) {
        let CsvAhead {
            ahead,
            columns: _,
            whole: _,
            spares: _,
            refused: _,
            word: _,
        } = self;
        if let Some(ahead) = ahead {
            ahead.close();
        }
    }

    fn lawful_facts(&self) {
        schema_size();
        column_schemas_are_lawful();
        let _columns = self.columns.as_slice();
    }
}
