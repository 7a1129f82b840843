//! The items of a plain column, read by their places, and the indices of a column with a dictionary.
ghost use Rattle.std.specs.Prelude.{◌≤ℤ◌, ◌<ℤ◌, pos};
ghost use Rattle.arr_import.specs.Indexing.{shown_by};
ghost use Rattle.arr_import.specs.Window.{IsStruct};
ghost use Rattle.arr_import.specs.Cols.{window_of};
ghost use Rattle.arr_import.specs.Plain.{IsItemThere};

use crate::transcript::Transcript;
use arr_import::{Col, Indexed, Plain, ValueRef};
use case_text::spelling_of;
use data_types::Storage;
use std::alloc::{AllocError, Global};
use std::io;

/// How the items of a plain column are stored.
fn stored_as(alloc: Global, storage: Storage) -> Result<String, AllocError> {
    match storage {
        Storage::Truths => String::from_str(alloc, "truth values:"),
        Storage::Wholes { bits, signed } => {
            let width = bits / 8;
            let sign = if signed { "" } else { " without sign" };
            format!(in alloc; "numbers of {width} bytes{sign}:")
        }
        Storage::Floats { bits } => {
            let width = bits / 8;
            format!(in alloc; "floats of {width} bytes:")
        }
        Storage::Sized { size } => format!(in alloc; "{size} bytes each:"),
        Storage::Between { wide, .. } => {
            String::from_str(alloc, if wide { "wide texts:" } else { "texts:" })
        }
        _ => String::from_str(alloc, "another way:"),
    }
}

/// An item of a plain column.
fn item(alloc: Global, plain: &Plain<'_>, i: u64) -> Result<String, AllocError>
    requires { IsItemThere plain.now i }
{
    if !plain.is_valid(i) {
        return String::from_str(alloc, " null");
    }
    match plain.storage() {
        Storage::Truths => {
            let truth = plain.truth(i);
            format!(in alloc; " {truth}")
        }
        Storage::Wholes { bits, signed } => {
            let number = plain.whole(bits, signed, i);
            format!(in alloc; " {number}")
        }
        Storage::Floats { bits } => {
            let number = plain.float_bits(bits, i);
            format!(in alloc; " 0x{number:x}")
        }
        Storage::Sized { size } => quoted(alloc, plain.sized(size, i)),
        Storage::Between { wide: false, .. } => quoted(alloc, plain.between(false, i)),
        Storage::Between { wide: true, .. } => quoted(alloc, plain.between(true, i)),
        _ => String::from_str(alloc, " another"),
    }
}

/// Bytes as they are spelled in a transcript.
fn quoted(alloc: Global, bytes: &[u8]) -> Result<String, AllocError> {
    let text = spelling_of(alloc, bytes)?;
    format!(in alloc; " \"{text}\"")
}

/// The items of a column that is read by their places.
fn plain(alloc: Global, col: &Col<'_>) -> Result<Option<String>, AllocError> {
    let Some(plain) = col.plain() else {
        return Ok(None);
    };
    let mut line = stored_as(alloc, plain.storage())?;
    for i in 0..col.len() {
        if i < 0 || col.len() <= i {
            break;
        }
        line.push_str(item(alloc, &plain, i as u64)?.as_str())?;
    }
    Ok(Some(line))
}

/// The index of an item and the entry that it names: `2="x"`, `0=null`, or `null` where there is none.
fn entry(alloc: Global, indexed: &Indexed<'_>, i: i64) -> Result<String, AllocError>
    requires from { pos 0 ≤ℤ i }
    requires below { i <ℤ pos (shown_by indexed.now).count }
{
    let Some(index) = indexed.index(i) else {
        return String::from_str(alloc, " null");
    };
    match indexed.bytes(i) {
        Some(bytes) => {
            let text = spelling_of(alloc, bytes)?;
            format!(in alloc; " {index}=\"{text}\"")
        }
        None => format!(in alloc; " {index}=null"),
    }
}

/// The indices of a column with a dictionary.
fn indices(alloc: Global, col: &Col<'_>) -> Result<Option<String>, AllocError> {
    let Some(indexed) = col.indexed() else {
        return Ok(None);
    };
    let entries = indexed.entries().len();
    let mut line = format!(in alloc; "indices into {entries}:")?;
    for i in 0..col.len() {
        if i < 0 || col.len() <= i {
            break;
        }
        line.push_str(entry(alloc, &indexed, i)?.as_str())?;
    }
    Ok(Some(line))
}

/// Tells a way in which a column is read, where it is read so, and how many ways there are then.
fn tell_way(
    alloc: Global,
    line: Result<Option<String>, AllocError>,
    ways: u8,
    told: &mut Transcript,
) -> io::Result<u8> {
    match line? {
        Some(line) => {
            told.answer(alloc, line.as_str())?;
            Ok(ways.saturating_add(1))
        }
        None => Ok(ways),
    }
}

/// Tells in which common ways a column is read.
pub(crate) fn tell_ways(alloc: Global, col: &Col<'_>, told: &mut Transcript) -> io::Result<()> {
    let mut ways = tell_way(alloc, plain(alloc, col), 0, told)?;
    ways = tell_way(alloc, indices(alloc, col), ways, told)?;
    if ways == 0 {
        told.answer(alloc, "in no common way")?;
    }
    Ok(())
}

/// Tells in which common ways the first child of a struct's item is read.
fn tell_first_child(alloc: Global, home: &Col<'_>, told: &mut Transcript) -> io::Result<()>
    requires { IsStruct (window_of home.now).typed }
{
    if home.n_children() == 0 {
        return Ok(told.answer(alloc, "no child")?);
    }
    tell_ways(alloc, &home.child(0), told)
}

/// Tells in which common ways a column is read, or, where it holds structs, its first child.
pub(crate) fn tell_ways_of(alloc: Global, col: &Col<'_>, told: &mut Transcript) -> io::Result<()> {
    if col.len() == 0 {
        return tell_ways(alloc, col, told);
    }
    match col.value(0) {
        ValueRef::Struct => {
            let (home, _place) = col.home(0);
            tell_first_child(alloc, &home, told)
        }
        _ => tell_ways(alloc, col, told),
    }
}
