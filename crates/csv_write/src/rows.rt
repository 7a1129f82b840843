//! The lines of the rows of a chunk.
ghost use Rattle.std.specs.Prelude.{◌<◌, ◌-◌, ◌^◌, ◌++◌, ◌∷◌, [], ℕ, List, map, length, OnOk};
ghost use Rattle.std.specs.List.{AllZip, concat};
ghost use Rattle.csv.specs.Writing.{default_writer, row_text};
ghost use Rattle.csv_write.specs.ChunkTexts.{HasItem, HasRow, row_at, rows_at, text_in};
ghost use Rattle.csv_write.specs.Lines.{HasFields, HasLines};
ghost use Rattle.csv_write.specs.Readings.{Reads};
ghost use Rattle.csv_write.specs.declared.chunk_text.ChunkColumn.{ChunkColumn};

use crate::reading::{Reading, item_text};
use crate::writer::{end_line, write_text};
use csv::Writer;
use unit_pass::NoMemory;

/// Writes the field of an item.
fn write_item(
    writer: &mut Writer<Vec<u8>>,
    reading: &Reading<'_, '_>,
    i: u64,
    mark: &[u8],
    room: &mut Vec<u8>,
) -> Result<(), NoMemory>
    requires { (column : ChunkColumn) × Reads reading.now column × HasItem column i }
    ensures { OnOk result ((column : ChunkColumn) (text : List ℕ) (fields : List (List ℕ)) → Reads reading.now column → HasItem column i
        → length fields < 2 ^ 64 - 1 → HasFields writer.old text fields → HasFields writer.new text (fields ++ text_in mark.now i column ∷ [])) }
{
    let text = item_text(reading, i, mark, room)?;
    write_text(writer, text)?;
    Ok(())
}

/// Writes one row.
fn write_row(
    writer: &mut Writer<Vec<u8>>,
    readings: &[Reading<'_, '_>],
    i: u64,
    mark: &[u8],
    room: &mut Vec<u8>,
) -> Result<(), NoMemory>
    requires { (columns : List ChunkColumn) × AllZip Reads readings.now columns × HasRow columns i }
    ensures { OnOk result ((columns : List ChunkColumn) (text : List ℕ) → AllZip Reads readings.now columns → HasRow columns i
        → HasLines writer.old text → HasLines writer.new (text ++ row_text default_writer (row_at mark.now columns i))) }
{
    for reading in readings {
        write_item(writer, reading, i, mark, room)?;
    }
    end_line(writer)?;
    Ok(())
}

/// Writes the first rows of the columns that are read.
pub(crate) fn write_rows(
    writer: &mut Writer<Vec<u8>>,
    readings: &[Reading<'_, '_>],
    rows: u64,
    mark: &[u8],
    room: &mut Vec<u8>,
) -> Result<(), NoMemory>
    requires { (columns : List ChunkColumn) × AllZip Reads readings.now columns × ((i : ℕ) → i < rows → HasRow columns i) }
    ensures { OnOk result ((columns : List ChunkColumn) (text : List ℕ) → AllZip Reads readings.now columns → ((i : ℕ) → i < rows → HasRow columns i)
        → HasLines writer.old text → HasLines writer.new (text ++ concat (map (row_text default_writer) (rows_at mark.now columns rows)))) }
{
    for i in 0..rows {
        write_row(writer, readings, i, mark, room)?;
    }
    Ok(())
}
