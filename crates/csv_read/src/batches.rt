//! The rows of a text, read into builders a batch a call. The reader keeps its place between two calls.
ghost use Rattle.std.specs.Prelude.{◌≡◌, ◌≤◌, ◌<◌, ◌+◌, ◌*◌, ◌^◌, [], List, map, length, drop, pos, false, true, None, Ok, IfErr, IfOk, IfSome, OnErr, OnOk};
ghost use Rattle.data_types.specs.ColumnView.{column_of};
ghost use Rattle.col_build.specs.Encoding.{most_values};
ghost use Rattle.data_types.specs.promise.Table.{Row};
ghost use Rattle.field_codec.specs.TextColumns.{AreAllowed, AreProper};
ghost use Rattle.raw_array.specs.promise.Members.{Cost};
ghost use Rattle.unit_pass.specs.promise.Tally.{risen};
ghost use Rattle.csv_read.specs.Body.{HoldRows};
ghost use Rattle.csv_read.specs.Chunks.{chunk_blocks, chunk_of};
ghost use Rattle.csv_read.specs.Emptied.{AreEmptied, AreSpent};

use crate::batch_laws::batches_are_read_in_turn;
use crate::body::{BodyFault, read_rows};
use crate::body_columns::BodyColumns;
use crate::held::BatchRows;
use crate::records::Records;
use col_build::{Builder, SpareBuffers};
use data_types::ColumnType;
use raw_array::RawArray;
use std::alloc::Global;
use std::io::Read;
use std::marker::Model;
use std::mem::replace;
use std::snapshot::Snapshot;
use unit_pass::{NoMemory, Pass};

/// Leaves no record and no builder.
fn end<R: Read>(records: &mut Records<R>, body: &mut BodyColumns)
    ensures records { records.new.records ≡ [] }
    ensures size { records.new.size ≡ 0 }
    ensures builders { body.new.builders.items ≡ [] }
    ensures forms { body.new.forms ≡ body.old.forms }
    ensures mark { body.new.mark ≡ body.old.mark }
{
    records.end();
    body.builders.clear();
}

/// The records behind the header of a text, whose rows are read in batches. [`read_body`](crate::read_body) reads them all at
/// once.
#[derive(Drop)]
pub struct BatchReader<R: Read> {
    records: Records<R>,
    columns: Vec<ColumnType>,
    // How they are read, under the text that stands for a null.
    body: BodyColumns,
    // How many records behind the header were read.
    read: u64,
}

impl<R: Read> Model for BatchReader<R> {
    ghost use Rattle.std.specs.Prelude.{◌≤◌, ◌+◌, ◌^◌, map};
    ghost use Rattle.std.specs.Coded.{codes};
    ghost use Rattle.data_types.specs.ColumnView.{column_of};
    ghost use Rattle.data_types.specs.contracts.kind.ColumnType as kinds;
    ghost use Rattle.col_build.specs.contracts.builder.Builder as builders;
    ghost use Rattle.field_codec.specs.TextColumns.{AreAllowed, AreProper};
    ghost use Rattle.csv_read.specs.BatchesLeft.{BatchesLeft};
    ghost use Rattle.csv_read.specs.ColumnForms.{AreForms, AreReady};

    ghost Value = { BatchesLeft };

    ghost coded = { Prim.hlevel (codes, kinds.the_row.coded, builders.the_row.coded) };

    ghost view = { λ s. record {
      columns = s.columns.items;
      mark = s.body.mark;
      read = s.read;
      records = s.records.records;
      builders = s.body.builders.items;
    } };

    ghost invariant = { λ s. AreProper (map column_of s.columns.items) × AreAllowed (map column_of s.columns.items)
        × AreForms s.body.forms.items (map column_of s.columns.items) × (s.read + s.records.size ≤ 2 ^ 30)
        × AreReady s.body.builders.items (map column_of s.columns.items) };
}

impl<R: Read> BatchReader<R> {
    ghost use Rattle.csv_read.specs.BatchesLeft.{IsNextBatch, IsNextFault, all_left, at_end, batches_left, behind, columns_in, with_builders};

    /// A reader of the records that are left behind the header, at the first batch of them. A field that equals the mark is
    /// null. `NoMemory` comes only where memory runs out.
    pub fn start(
        alloc: Global,
        records: Records<R>,
        columns: Vec<ColumnType>,
        mark: &[u8],
    ) -> Result<BatchReader<R>, NoMemory>
    where
        R: Drop,
        requires short { records.size ≤ 2 ^ 30 }
        // The columns are such as a header names: of plain values, and of types that may be asked for.
        requires proper { AreProper (map column_of columns.items) }
        requires allowed { AreAllowed (map column_of columns.items) }
        ensures left { IfOk result (λ batches. batches ≡ all_left records.records columns.items mark.now) }
    {
        let body = BodyColumns::empty(alloc, columns.as_slice(), mark)?;
        Ok(BatchReader {
            records,
            columns,
            body,
            read: 0,
        })
    }

    /// The columns of the rows.
    pub fn columns(&self) -> &[ColumnType]
        ensures columns { result.now ≡ self.now.columns }
        ensures proper { AreProper (map column_of self.now.columns) }
        ensures allowed { AreAllowed (map column_of self.now.columns) }
    {
        self.columns.as_slice()
    }

    /// The builders of the columns, which hold the rows that were read last, until these are exported.
    pub fn builders(&self) -> &[Builder]
        ensures { result.now ≡ self.now.builders }
    {
        self.body.builders.as_slice()
    }

    /// Reads the next `batch` records, or all that are left where they are fewer, and answers whether there was one. A
    /// builder for each column holds their rows then, and no other.
    ///
    /// # Errors
    ///
    /// The first of these records that spells no row, by its number from 1 behind the header, over all batches: it has
    /// another number of fields than there are columns, or else a field, of which the first counts, that is no value of its
    /// column. `NoMemory` comes only where memory runs out. After an error no record is left.
    pub fn next(&mut self, alloc: Global, batch: u64) -> Result<bool, BodyFault>
        requires some { 1 ≤ batch }
        ensures columns { self.new.columns ≡ self.old.columns }
        ensures mark { self.new.mark ≡ self.old.mark }
        // The builders hold the rows that the next records spell.
        ensures batch { result ≡ Ok true → IsNextBatch batch self.new.builders self.old self.new }
        // There is nothing where no record is left.
        ensures end { result ≡ Ok false → self.old.records ≡ [] }
        ensures end_stays { result ≡ Ok false → self.new ≡ at_end self.old }
        // Which fault it is.
        ensures fault { IfErr result (λ fault. IsNextFault fault batch self.old) }
        ensures fault_ends { OnErr result (self.new ≡ at_end self.old) }
    {
        if self.records.has_ended() {
            end(&mut self.records, &mut self.body);
            return Ok(false);
        }
        match self.body.begin(alloc, self.columns.as_slice()) {
            Ok(()) => {}
            Err(NoMemory) => {
                end(&mut self.records, &mut self.body);
                return Err(BodyFault::NoMemory);
            }
        }
        match read_rows(&mut self.records, &mut self.body, batch, self.read) {
            Ok(()) => {
                if self.body.rows == 0 {
                    end(&mut self.records, &mut self.body);
                    return Ok(false);
                }
                self.read += self.body.rows;
                self.body.note();
                Ok(true)
            }
            Err(fault) => {
                end(&mut self.records, &mut self.body);
                Err(fault)
            }
        }
    }

    /// Reads the next `batch` records, or all that are left where they are fewer, as [`next`](BatchReader::next) does, and takes
    /// their rows out; `None` where no record is left.
    pub fn next_batch(
        &mut self,
        alloc: Global,
        batch: u64,
    ) -> Result<Option<BatchRows<R>>, BodyFault>
        requires some { 1 ≤ batch }
        requires some_columns { 1 ≤ length self.old.columns }
        ensures columns { self.new.columns ≡ self.old.columns }
        ensures mark { self.new.mark ≡ self.old.mark }
        // They are the first of the batches that were left, and the others are left.
        ensures batch { IfOk result (λ found. IfSome found (λ held. (held.columns ≡ self.old.columns)
            × (batches_left batch self.old ≡ behind held.rows (batches_left batch self.new)))) }
        ensures records { IfOk result (λ found. IfSome found (λ _. self.new.records ≡ drop batch self.old.records)) }
        // There is nothing where no record is left.
        ensures end { result ≡ Ok None → self.old.records ≡ [] }
        ensures end_stays { result ≡ Ok None → self.new ≡ at_end self.old }
        // Which fault it is.
        ensures fault { IfErr result (λ fault. IsNextFault fault batch self.old) }
        ensures fault_ends { OnErr result (self.new ≡ at_end self.old) }
    {
        batches_are_read_in_turn();
        let from = Snapshot::of(&*self);
        if !self.next(alloc, batch)? {
            return Ok(None);
        }
        let builders = replace(&mut self.body.builders, Vec::new(alloc));
        Ok(Some(BatchRows::of(builders, from, batch)))
    }

    /// The chunk of the rows that were read last, as [`export_rows`](crate::export_rows) makes it of the builders. `rows` is
    /// their number. `NoMemory` comes only where memory runs out.
    pub fn export(
        &mut self,
        alloc: Global,
        rows: i64,
        spares: &mut SpareBuffers,
        pass: &mut Pass,
    ) -> Result<RawArray, NoMemory>
        requires held { (values : List Row) × HoldRows self.old.builders (columns_in self.old) values × (rows ≡ pos (length values))
            × (length values ≤ most_values) }
        requires few { length self.old.columns < 2 ^ 31 }
        requires units { 1 + 4 * length self.old.columns ≤ pass.old.units }
        ensures stays { self.new ≡ with_builders self.new.builders self.old }
        ensures chunk { IfOk result (λ chunk. (values : List Row) → HoldRows self.old.builders (columns_in self.old) values → rows ≡ pos (length values)
            → chunk ≡ chunk_of (columns_in self.old) values) }
        // The builders hold nothing then; where memory runs out each holds nothing or what it held.
        ensures emptied { OnOk result (AreEmptied self.old.builders self.new.builders) }
        ensures spent { OnErr result (AreSpent self.old.builders self.new.builders) }
        ensures units { IfOk result (λ chunk. pass.new.units + Cost chunk ≡ pass.old.units) }
        ensures units_back { OnErr result (pass.new.units ≡ pass.old.units) }
        ensures cost { IfOk result (λ chunk. Cost chunk ≤ 1 + 4 * length self.old.columns) }
        ensures blocks { OnOk result ((values : List Row) → HoldRows self.old.builders (columns_in self.old) values
            → pass.new.blocks ≡ risen pass.old.blocks (chunk_blocks (columns_in self.old) values)) }
        ensures nodes { OnOk result (pass.new.nodes ≡ risen pass.old.nodes (1 + length self.old.columns)) }
    {
        self.body.export(alloc, rows, spares, pass)
    }
}
