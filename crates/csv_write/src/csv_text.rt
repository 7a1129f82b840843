//! The text of a table as it is made: its header, and the rows of chunks, read in place.
//!
//! A field is written from the item of its column, which is read as the form of the column has it ([`Col::whole`] and its
//! like). The form is found once for a table, and a chunk's columns once for a chunk, with how their items are read: those that
//! are stored in place or between offsets by their place alone ([`Col::plain`]). A row or a field takes no memory but that
//! of the text. Whether a chunk is lawful is for `layout_check` to find before. A row is written of each item of the
//! chunk's window, whether or not the struct's item is null.
ghost use Rattle.std.specs.Prelude.{◌≡◌, ◌++◌, ℕ, List, map, IfOk, OnOk};
ghost use Rattle.data_types.specs.ColumnView.{column_of};
ghost use Rattle.data_types.specs.promise.Table.{Column};
ghost use Rattle.csv_model.specs.Text.{header_text, rows_text};
ghost use Rattle.data_types.specs.promise.ColumnKinds.{type_of_columns};
ghost use Rattle.arr_import.specs.Cols.{window_of};
ghost use Rattle.csv_write.specs.CsvTexts.{HasText, rows_in};
ghost use Rattle.csv_write.specs.Readings.{ReadsChildren};
ghost use Rattle.field_codec.specs.TextColumns.{HaveTexts};

use crate::chunk_text::{chunk_columns, count_rows};
use crate::column_form::{column_forms, write_names};
use crate::reading::{Reading, plain_readings, readings};
use crate::rows::write_rows;
use crate::writer::{finish_lines, new_writer};
use arr_import::Col;
use csv::Writer;
use data_types::ColumnType;
use field_codec::FieldForm;
use std::alloc::Global;
use unit_pass::{Name, NoMemory};

/// The text of a table as it is made: the names of its columns, and the rows of the chunks that were added. Contracts see by
/// `HasText` which columns it is of and what it has written. After a `NoMemory` it can only be dropped.
#[derive(Drop)]
pub struct CsvText {
    // In a place of its own: a writer of records is large, and a text in the making is moved about.
    writer: Box<Writer<Vec<u8>>>,
    forms: Vec<FieldForm>,
    // Where the text of a field is put together.
    room: Vec<u8>,
    // The text of a null.
    mark: Name,
}

impl CsvText {
    /// The text of a table of these columns and no rows yet: the header. A null will be written as the mark. `NoMemory` comes only
    /// where memory runs out.
    pub fn new(alloc: Global, columns: &[ColumnType], mark: &[u8]) -> Result<CsvText, NoMemory>
        requires { HaveTexts (map column_of columns.now) }
        ensures { IfOk result (λ text. HasText text mark.now (map column_of columns.now) (header_text (map column_of columns.now))) }
    {
        let mark = Name::from_slice(alloc, mark)?;
        let forms = column_forms(alloc, columns)?;
        let mut writer = new_writer(alloc);
        write_names(&mut writer, columns)?;
        let writer = Box::new(alloc, writer)?;
        Ok(CsvText {
            writer,
            forms,
            room: Vec::new(alloc),
            mark,
        })
    }

    /// Writes the rows of a chunk, read in place: a column with a dictionary by its values, a null as the mark.
    /// `NoMemory` comes only where memory runs out.
    pub fn add(&mut self, alloc: Global, chunk: Col<'_>) -> Result<(), NoMemory>
        requires { (mark : List ℕ) × (columns : List Column) × (written : List ℕ) × HasText self.old mark columns written
            × ((window_of chunk).typed ≡ type_of_columns columns) }
        ensures { OnOk result ((mark : List ℕ) (columns : List Column) (written : List ℕ) → HasText self.old mark columns written
            → (window_of chunk.entry).typed ≡ type_of_columns columns
            → HasText self.new mark columns (written ++ rows_text mark columns (rows_in (window_of chunk.entry)))) }
    {
        match plain_readings(alloc, &self.forms, &chunk)? {
            Some(readings) => self.add_read(&readings, &chunk),
            None => self.add_any(alloc, &chunk),
        }
    }

    /// Writes the rows of a chunk, whatever readings its columns have.
    fn add_any(&mut self, alloc: Global, chunk: &Col<'_>) -> Result<(), NoMemory>
        requires { (mark : List ℕ) × (columns : List Column) × (written : List ℕ) × HasText self.old mark columns written
            × ((window_of chunk.now).typed ≡ type_of_columns columns) }
        ensures { OnOk result ((mark : List ℕ) (columns : List Column) (written : List ℕ) → HasText self.old mark columns written
            → HasText self.new mark columns (written ++ rows_text mark columns (rows_in (window_of chunk.now)))) }
    {
        let columns = chunk_columns(alloc, &self.forms, chunk)?;
        let readings = readings(alloc, &columns)?;
        self.add_read(&readings, chunk)
    }

    /// Writes the rows of a chunk, by the readings of its columns.
    fn add_read(&mut self, readings: &[Reading<'_, '_>], chunk: &Col<'_>) -> Result<(), NoMemory>
        requires { (mark : List ℕ) × (columns : List Column) × (written : List ℕ) × HasText self.old mark columns written
            × ReadsChildren readings.now self.old.forms.items (window_of chunk.now) }
        ensures { OnOk result ((mark : List ℕ) (columns : List Column) (written : List ℕ) → HasText self.old mark columns written
            → HasText self.new mark columns (written ++ rows_text mark columns (rows_in (window_of chunk.now)))) }
    {
        let rows = count_rows(chunk);
        write_rows(
            &mut *self.writer,
            readings,
            rows,
            self.mark.as_slice(),
            &mut self.room,
        )?;
        Ok(())
    }

    /// The text. `NoMemory` comes only where memory runs out.
    pub fn finish(self) -> Result<Vec<u8>, NoMemory>
        ensures { IfOk result (λ text. (mark : List ℕ) (columns : List Column) (written : List ℕ) → HasText self mark columns written → text.items ≡ written) }
    {
        let CsvText {
            writer,
            forms: _,
            room: _,
            mark: _,
        } = self;
        finish_lines(Box::into_inner(writer))
    }
}
