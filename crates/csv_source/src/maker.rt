//! The maker that reads the batches of a text, one by one, as pieces.
ghost use Rattle.std.specs.Prelude.{◌≡◌, ◌≤◌, ◌^◌, map, length, vec_len, IfOk};
ghost use Rattle.csv_model.specs.promise.Batches.{batches_in};
ghost use Rattle.field_codec.specs.TextColumns.{AreAllowed, AreProper};
ghost use Rattle.data_types.specs.ColumnView.{column_of};

use ahead_ring::{Given, Maker};
use csv_read::{BatchReader, BatchRows, BodyFault, Records, TextBlocks, batches_are_read_in_turn};
use data_types::{ColumnType, RowFault};
use std::alloc::Global;
use unit_pass::NoMemory;

/// A piece of a text: the rows of its next records, or the record at which the rows end.
#[derive(Drop)]
pub enum Piece {
    /// The rows of the next batch.
    Rows(BatchRows<TextBlocks>),
    /// The record that spells no row, behind which there is no piece.
    Bad(RowFault),
}

/// The records of a text behind its header, read in batches of this many.
#[derive(Drop)]
pub struct CsvMaker {
    alloc: Global,
    batches: BatchReader<TextBlocks>,
    batch: u32,
    ghost some: { 1 ≤ length batches.columns },
    ghost some_rows: { 1 ≤ batch },
}

impl CsvMaker {
    ghost use Rattle.csv_source.specs.Pieces.{maker_pieces, pieces_of};

    /// A maker of the records that are left behind the header, at the first of them. A field that equals the mark is null.
    /// Each batch has `batch` records, and the last one those that are left. `NoMemory` comes only where memory runs out.
    pub fn start(
        alloc: Global,
        records: Records<TextBlocks>,
        columns: Vec<ColumnType>,
        mark: &[u8],
        batch: u32,
    ) -> Result<CsvMaker, NoMemory>
        requires short { records.size ≤ 2 ^ 30 }
        // The columns are such as a header names: at least one, of plain values, of types that may be asked for.
        requires some { 1 ≤ vec_len columns }
        requires proper { AreProper (map column_of columns.items) }
        requires allowed { AreAllowed (map column_of columns.items) }
        requires some_rows { 1 ≤ batch }
        // Its pieces are the batches of the records, and behind them the record at fault.
        ensures { IfOk result (λ maker. maker_pieces maker
            ≡ pieces_of columns.items (batches_in mark.now (map column_of columns.items) records.records batch)) }
    {
        let batches = BatchReader::start(alloc, records, columns, mark)?;
        Ok(CsvMaker::over(alloc, batches, batch))
    }

    /// A maker of the batches that are left, at the first of them.
    pub(crate) fn over(alloc: Global, batches: BatchReader<TextBlocks>, batch: u32) -> CsvMaker
        requires some { 1 ≤ length batches.columns }
        requires some_rows { 1 ≤ batch }
        ensures batches { result.batches ≡ batches }
        ensures batch { result.batch ≡ batch }
    {
        CsvMaker {
            alloc,
            batches,
            batch,
        }
    }
}

impl Maker for CsvMaker {
    ghost use Rattle.csv_source.specs.Pieces.{maker_pieces};

    type Item = Piece;

    ghost coming = { maker_pieces };

    ghost spent = { λ _. Unit {0} };

    fn make(&mut self) -> Given<Piece> {
        batches_are_read_in_turn();
        match self.batches.next_batch(self.alloc, u64::from(self.batch)) {
            Ok(Some(rows)) => Given::Item(Piece::Rows(rows)),
            Ok(None) => Given::Done,
            Err(BodyFault::Row(fault)) => Given::Item(Piece::Bad(fault)),
            Err(BodyFault::NoMemory) => Given::NoMemory,
        }
    }
}
