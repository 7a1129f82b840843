//! The records of a text, read one after the other by one reader into one record.
ghost use Rattle.std.specs.Prelude.{◌≡◌, ◌≢◌, ◌≤◌, ◌∷◌, length, vec_len, All, IfOk, OnErr, Ok, Some, true, false, []};
ghost use Rattle.csv.specs.Reading.{error_kind, stops_reader};
ghost use Rattle.std.specs.Str.{is_utf8};
ghost use Rattle.csv.specs.Records.{fields_of};
ghost use Rattle.csv_model.specs.promise.Reading.{behind_header, records_of};
ghost use Rattle.csv_read.specs.RecordReader.{IsReading, Takes, field_bytes, records_left, text_left, told_by};
ghost use Rattle.csv_read.specs.Texts.{AreTexts};

use crate::blocks::TextBlocks;
use col_build::is_text;
use csv::{ByteRecord, Error, Reader, ReaderBuilder};
use csv_model::records_are_read_in_turn;
use std::alloc::Global;
use std::io::Read;
use std::marker::Model;
use unit_pass::NoMemory;

/// The records of a text that are not yet read.
///
/// One reader and one record serve for the whole text: [`read_header`](crate::read_header) takes the first record, and
/// [`read_body`](crate::read_body) or a [`BatchReader`](crate::BatchReader) goes on behind it. The text is lent
/// ([`start`](Records::start)) or goes along ([`start_owned`](Records::start_owned)); a call that keeps the source asks no `Drop` of
/// it, so that it is compiled once for each of the two.
#[derive(Drop)]
pub struct Records<R: Read> {
    // In a place of its own: a reader is large, and the records are moved about.
    reader: Box<Reader<R>>,
    // The record that was read last.
    row: ByteRecord,
    // No record is left.
    ended: bool,
    // The text is UTF-8, and so is each field of its records.
    texts: bool,
    ghost all_texts: { texts ≡ true → ended ≡ false → AreTexts (fields_of row) × All AreTexts (records_left R.remaining reader.value) },
}

impl<R: Read> Model for Records<R> {
    ghost use Rattle.std.specs.Prelude.{◌≡◌, false};
    ghost use Rattle.csv.specs.Records.{fields_of};
    ghost use Rattle.csv_read.specs.RecordReader.{IsReading, RecordsLeft, records_ahead, size_ahead};

    ghost Value = { RecordsLeft };

    ghost view = { λ s. record { row = fields_of s.row; size = size_ahead R.remaining s.ended s.reader.value; records = records_ahead R.remaining s.ended s.reader.value } };

    ghost invariant = { λ s. s.ended ≡ false → IsReading R.remaining s.reader.value };
}

impl<'a> Records<&'a [u8]> {
    /// The records of a text, its header first. The text is read by `csv`'s default settings after one byte order mark.
    /// `NoMemory` comes only where memory runs out.
    pub fn start(alloc: Global, bytes: &'a [u8]) -> Result<Records<&'a [u8]>, NoMemory>
        ensures records { IfOk result (λ records. records.records ≡ records_of bytes.now) }
        ensures size { IfOk result (λ records. records.size ≤ length bytes.now) }
    {
        let texts = is_text(bytes);
        Records::over(alloc, bytes, texts)
    }

    /// The records of a text behind its header. A text of no records has none. `NoMemory` comes only where memory runs out.
    pub fn behind_header(alloc: Global, bytes: &'a [u8]) -> Result<Records<&'a [u8]>, NoMemory>
        ensures records { IfOk result (λ records. records.records ≡ behind_header (records_of bytes.now)) }
        ensures size { IfOk result (λ records. records.size ≤ length bytes.now) }
    {
        let mut records = Records::start(alloc, bytes)?;
        let _found = records.next()?;
        Ok(records)
    }
}

impl Records<TextBlocks> {
    /// The records of a text that goes along with them, as [`start`](Records::start) has them. It is freed behind the reader.
    pub fn start_owned(alloc: Global, bytes: Vec<u8>) -> Result<Records<TextBlocks>, NoMemory>
        ensures records { IfOk result (λ records. records.records ≡ records_of bytes.items) }
        ensures size { IfOk result (λ records. records.size ≤ vec_len bytes) }
    {
        let texts = is_text(bytes.as_slice());
        Records::over(alloc, TextBlocks::new(alloc, bytes)?, texts)
    }
}

impl<R: Read> Records<R> {
    /// The records of the text that a source gives, its header first. That the text is UTF-8 may be known.
    fn over(alloc: Global, source: R, texts: bool) -> Result<Records<R>, NoMemory>
    where
        R: Drop,
        requires told { R.remaining source ≡ Some (told_by (R.remaining source)) }
        requires texts { texts ≡ true → is_utf8 (told_by (R.remaining source)) ≡ true }
        ensures records { IfOk result (λ records. records.records ≡ records_of (told_by (R.remaining source))) }
        ensures size { IfOk result (λ records. records.size ≤ length (told_by (R.remaining source))) }
    {
        let reader = Box::new(alloc, start_reading(alloc, source))?;
        Ok(Records {
            reader,
            row: ByteRecord::new(alloc),
            ended: false,
            texts,
        })
    }

    /// Reads the next record, where there is one.
    pub(crate) fn next(&mut self) -> Result<bool, NoMemory>
        ensures more { result ≡ Ok true → self.old.records ≡ self.new.row ∷ self.new.records }
        ensures some { result ≡ Ok true → 1 ≤ length self.new.row }
        ensures takes { result ≡ Ok true → Takes self.old.size self.new.row self.new.size }
        ensures end { result ≡ Ok false → self.old.records ≡ [] }
        ensures end_stays { result ≢ Ok true → self.new.records ≡ [] }
        ensures size { self.new.size ≤ self.old.size }
    {
        if self.ended {
            return Ok(false);
        }
        let found = next_record(&mut *self.reader, &mut self.row);
        self.ended = !matches!(found, Ok(true));
        found
    }

    /// The record that was read last.
    #[inline(always)]
    pub(crate) fn row(&self) -> &ByteRecord
        ensures { fields_of result.now ≡ self.now.row }
    {
        &self.row
    }

    /// Whether all fields of the record that was read last are known to be UTF-8.
    #[inline(always)]
    pub(crate) fn are_texts(&self) -> bool
        ensures { result ≡ true → AreTexts self.now.row }
    {
        self.texts && !self.ended
    }

    /// Whether no record is left, as far as one can tell without reading.
    pub(crate) fn has_ended(&self) -> bool
        ensures { result ≡ true → self.now.records ≡ [] }
    {
        self.ended
    }

    /// A law: the records that are left are no more than the bytes that are left of the text, nor are the bytes of their
    /// fields. The call does nothing.
    pub fn are_within_the_text(&self)
        ensures count { length self.now.records ≤ self.now.size }
        ensures bytes { field_bytes self.now.records ≤ self.now.size }
    {
        records_are_read_in_turn();
        let _ended = self.ended;
    }

    /// Leaves no record.
    pub(crate) fn end(&mut self)
        ensures records { self.new.records ≡ [] }
        ensures size { self.new.size ≡ 0 }
    {
        self.ended = true;
    }
}

/// A reader at the start of the text that a source gives.
fn start_reading<R: Read>(alloc: Global, source: R) -> Reader<R>
    requires told { R.remaining source ≡ Some (told_by (R.remaining source)) }
    ensures ready { IsReading R.remaining result }
    ensures records { records_left R.remaining result ≡ records_of (told_by (R.remaining source)) }
    ensures bytes { length (text_left R.remaining result) ≤ length (told_by (R.remaining source)) }
{
    ReaderBuilder::new()
        .has_headers(false)
        .flexible(true)
        .from_reader(alloc, source)
}

/// Reads the next record, where there is one.
fn next_record<R: Read>(reader: &mut Reader<R>, row: &mut ByteRecord) -> Result<bool, NoMemory>
    requires { IsReading R.remaining reader.old }
    ensures reads_on { result ≡ Ok true → IsReading R.remaining reader.new }
    ensures more { result ≡ Ok true → records_left R.remaining reader.old ≡ fields_of row.new ∷ records_left R.remaining reader.new }
    ensures some { result ≡ Ok true → 1 ≤ length (fields_of row.new) }
    ensures takes { result ≡ Ok true
        → Takes (length (text_left R.remaining reader.old)) (fields_of row.new) (length (text_left R.remaining reader.new)) }
    ensures end { result ≡ Ok false → records_left R.remaining reader.old ≡ [] }
{
    records_are_read_in_turn();
    match reader.read_byte_record(row) {
        Ok(found) => Ok(found),
        Err(error) => Err(want_of_memory(&error)),
    }
}

/// A reader over a text in memory fails only where memory runs out, or for a fault that no such text has.
fn want_of_memory(_error: &Error) -> NoMemory
    requires { stops_reader (error_kind _error.now) ≡ true }
{
    NoMemory
}
