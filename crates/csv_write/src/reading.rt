//! How the items of a chunk's columns are read, settled before the first of them.
ghost use Rattle.std.specs.Prelude.{◌≡◌, Option, All, length, IfOk, IfSome};
ghost use Rattle.std.specs.List.{AllZip};
ghost use Rattle.tree_model.specs.promise.TreeParts.{children_of};
ghost use Rattle.arr_import.specs.Cols.{window_of};
ghost use Rattle.arr_import.specs.Window.{IsStruct};
ghost use Rattle.arr_import.specs.declared.indexed.Indexed.{Indexed};
ghost use Rattle.csv_write.specs.ChunkTexts.{HasEntries, HasItem, text_in};
ghost use Rattle.csv_write.specs.Readings.{Reads, ReadsChildren};
ghost use Rattle.csv_write.specs.declared.chunk_text.ChunkColumn.{ChunkColumn};

use crate::chunk_text::{ChunkColumn, entry_text, rare_text};
use crate::way::{Way, way_of, way_text};
use arr_import::{Col, Indexed, Plain};
use field_codec::FieldForm;
use std::alloc::Global;
use unit_pass::NoMemory;

/// How the items of a column are read, settled before the first of them.
#[derive(Clone, Copy)]
pub(crate) enum Reading<'b, 'a> {
    /// By their places.
    Plain { way: Way, items: Plain<'a> },
    /// Texts through a dictionary.
    Entries(&'b Indexed<'a>),
    /// Any other.
    Any(&'b ChunkColumn<'a>),
}

/// A column's reading by the places of its items.
#[inline(always)]
fn plain_reading<'b, 'a>(form: FieldForm, items: &Col<'a>) -> Option<Reading<'b, 'a>>
    ensures { IfSome result (λ reading. (entries : Option Indexed) → Reads reading (record { form = form; items = items.now; entries = entries })) }
{
    let items = items.plain()?;
    let way = way_of(form, items.storage())?;
    Some(Reading::Plain { way, items })
}

/// A column's reading where it has none by the places of its items.
fn rare_reading<'b, 'a>(column: &'b ChunkColumn<'a>) -> Reading<'b, 'a>
    requires { HasEntries column.now }
    ensures { Reads result column.now }
{
    match &column.entries {
        Some(indexed) => Reading::Entries(indexed),
        None => Reading::Any(column),
    }
}

/// A column's reading.
fn reading_of<'b, 'a>(column: &'b ChunkColumn<'a>) -> Reading<'b, 'a>
    requires { HasEntries column.now }
    ensures { Reads result column.now }
{
    match plain_reading(column.form, &column.items) {
        Some(reading) => reading,
        None => rare_reading(column),
    }
}

/// The reading of each column.
pub(crate) fn readings<'b, 'a>(
    alloc: Global,
    columns: &'b [ChunkColumn<'a>],
) -> Result<Vec<Reading<'b, 'a>>, NoMemory>
    requires { All HasEntries columns.now }
    ensures { IfOk result (λ readings. AllZip Reads readings.items columns.now) }
{
    let mut readings = Vec::with_capacity(alloc, columns.len())?;
    for column in columns {
        readings.push(reading_of(column))?;
    }
    Ok(readings)
}

/// The reading of each column of a chunk, where each has one by the places of its items.
pub(crate) fn plain_readings<'b, 'a>(
    alloc: Global,
    forms: &[FieldForm],
    chunk: &Col<'a>,
) -> Result<Option<Vec<Reading<'b, 'a>>>, NoMemory>
    requires kind { IsStruct (window_of chunk.now).typed }
    requires count { length forms.now ≡ length (children_of (window_of chunk.now).typed) }
    ensures { IfOk result (λ found. IfSome found (λ readings. ReadsChildren readings.items forms.now (window_of chunk.now))) }
{
    chunk.rows_are_whole();
    let mut readings = Vec::with_capacity(alloc, forms.len())?;
    for (k, form) in forms.iter().enumerate() {
        match plain_reading(*form, &chunk.child(k)) {
            Some(reading) => readings.push_reserved(reading),
            None => return Ok(None),
        }
    }
    Ok(Some(readings))
}

/// The text of an item, by its column's reading. A null is the mark.
#[inline(always)]
pub(crate) fn item_text<'a: 'b, 'b>(
    reading: &Reading<'_, 'a>,
    i: u64,
    mark: &'b [u8],
    room: &'b mut Vec<u8>,
) -> Result<&'b [u8], NoMemory>
    requires { (column : ChunkColumn) × Reads reading.now column × HasItem column i }
    ensures { IfOk result (λ text. (column : ChunkColumn) → Reads reading.now column → HasItem column i → text.now ≡ text_in mark.now i column) }
{
    match reading {
        Reading::Plain { way, items } => {
            if !items.is_valid(i) {
                return Ok(mark);
            }
            way_text(way, items, i, room)
        }
        Reading::Entries(indexed) => Ok(entry_text(indexed, i, mark)),
        Reading::Any(column) => rare_text(column, i, mark, room),
    }
}
