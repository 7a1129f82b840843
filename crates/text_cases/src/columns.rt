//! Columns that are filled item by item: their buffers, and the items that they don't take.
ghost use Rattle.std.specs.Prelude.{◌≡◌, ◌+◌, List, [], IsTrue};
ghost use Rattle.unit_pass.specs.declared.pass.TheConstants.{SUPPLY};
ghost use Rattle.data_types.specs.promise.FieldText.{form_of};
ghost use Rattle.data_types.specs.Kinds.{KindOk};
ghost use Rattle.data_types.specs.promise.Value.{Value};
ghost use Rattle.data_types.specs.declared.kind.DataType.{DataType};
ghost use Rattle.col_build.specs.Encoding.{HasForm};
ghost use Rattle.col_build.specs.promise.Finished.{blocks_of};
ghost use Rattle.col_build.specs.Finished.{IsEncoded};
ghost use Rattle.col_build.specs.Holding.{Holds, HoldsFew, HoldsSome};

use crate::formats::hex_of;
use crate::subject::{no_memory, text_of};
use crate::transcript::Transcript;
use buf_block::{BufView, let_go_all};
use case_text::spelling_of;
use col_build::{Builder, FinishedColumn, Item, PushFault, SpareBuffers, is_text};
use csv_model::made;
use data_types::{DataType, is_flat};
use fmt_string::read_format;
use std::alloc::Global;
use std::io;
use std::str::from_utf8;
use unit_pass::{NoMemory, Pass, open_desk};

/// The most items of a column.
const MOST_ITEMS: i64 = 1000;

/// The number that hexadecimal digits of lower case are.
fn bits_of(digits: &[u8]) -> u64 {
    let mut bits = 0u64;
    for byte in digits {
        let digit = match byte {
            b'0'..=b'9' => *byte - b'0',
            b'a'..=b'f' => *byte - b'a' + 10,
            _ => 0,
        };
        bits = bits.wrapping_mul(16) | u64::from(digit);
    }
    bits
}

/// The item that a word spells: `~` a null, `true`, `false`, `0x3c00` the bits of a float, `=ab` bytes, or a whole number.
pub(crate) fn item_of(word: &[u8]) -> Option<Item<'_>> {
    match word {
        [b'~'] => Some(Item::Null),
        [b'=', bytes @ ..] => Some(Item::Bytes(bytes)),
        [b'0', b'x', digits @ ..] => Some(Item::Bits(bits_of(digits))),
        _ => match from_utf8(word) {
            Ok("true") => Some(Item::Truth(true)),
            Ok("false") => Some(Item::Truth(false)),
            Ok(text) => match text.parse::<i128>() {
                Ok(number) => Some(Item::Whole(number)),
                Err(_) => None,
            },
            Err(_) => None,
        },
    }
}

/// Adds an item behind those that are there. Where it isn't taken the column is as before.
fn push(builder: &mut Builder, item: Item<'_>) -> Result<(), PushFault>
    requires { HoldsFew builder.old }
    ensures { HoldsSome builder.new }
{
    builder.push(item)
}

/// Adds a text behind the items that are there, which isn't tested again. Where it isn't taken the column is as before.
fn push_text(builder: &mut Builder, text: &str) -> Result<(), PushFault>
    requires { HoldsFew builder.old }
    ensures { HoldsSome builder.new }
{
    builder.push_text(text.as_bytes())
}

/// Whether a column has room for an item more.
fn has_room(builder: &Builder) -> bool
    requires { HoldsSome builder.now }
    ensures { IsTrue result → HoldsFew builder.now }
{
    builder.len() < MOST_ITEMS
}

/// Adds the item that a word spells, or tells why it isn't taken. Behind `"` it is a text that isn't tested again.
fn push_word(
    alloc: Global,
    builder: &mut Builder,
    word: &[u8],
    told: &mut Transcript,
) -> io::Result<()>
    requires { HoldsSome builder.old }
    ensures { HoldsSome builder.new }
{
    if !has_room(builder) {
        return Ok(told.fault(alloc, "too many items")?);
    }
    let pushed = match (word, from_utf8(word)) {
        ([b'"', ..], Ok(text)) => push_text(builder, text.strip_prefix("\"").unwrap_or(text)),
        _ => match item_of(word) {
            Some(item) => push(builder, item),
            None => return Ok(told.fault(alloc, "no item")?),
        },
    };
    match pushed {
        Ok(()) => Ok(()),
        Err(PushFault::NoMemory) => Err(no_memory()),
        Err(fault) => {
            let word = spelling_of(alloc, word)?;
            Ok(told.fault(alloc, format!(in alloc; "{word}: {fault}")?.as_str())?)
        }
    }
}

/// Adds the items that words spell, and tells which aren't taken.
fn push_words(
    alloc: Global,
    builder: &mut Builder,
    words: &[Vec<u8>],
    told: &mut Transcript,
) -> io::Result<()>
    requires { HoldsSome builder.old }
    ensures { HoldsSome builder.new }
{
    for word in words {
        push_word(alloc, builder, word.as_slice(), told)?;
    }
    Ok(())
}

/// Tells the counts of a column and its buffers, `~` for one that is absent.
fn tell_buffers(
    alloc: Global,
    counts: (i64, i64),
    buffers: &[Option<BufView>],
    told: &mut Transcript,
) -> io::Result<()> {
    let mut line = format!(in alloc; "{} items, {} null:", counts.0, counts.1)?;
    for buffer in buffers {
        match buffer {
            Some(view) => {
                line.push_str(" =")?;
                line.push_str(hex_of(alloc, view.bytes())?.as_str())?;
                if view.start != 0 || view.bytes() != view.hold.bytes() {
                    line.push_str(" of a longer block")?;
                }
            }
            None => line.push_str(" ~")?,
        }
    }
    Ok(told.answer(alloc, line.as_str())?)
}

/// The bytes of a buffer in lines of eight.
fn push_lines(text: &mut String, alloc: Global, bytes: &[u8]) -> io::Result<()> {
    for (i, byte) in bytes.iter().enumerate() {
        if i % 8 == 0 {
            text.push_str("\n=")?;
        }
        text.push_str(format!(in alloc; "{byte:02x}")?.as_str())?;
    }
    Ok(())
}

/// Tells the counts of a column and then its buffers in lines of eight bytes, `~` for one that is absent.
fn tell_long_buffers(
    alloc: Global,
    counts: (i64, i64),
    buffers: &[Option<BufView>],
    told: &mut Transcript,
) -> io::Result<()> {
    let mut text = format!(in alloc; "{} items, {} null", counts.0, counts.1)?;
    for buffer in buffers {
        match buffer {
            Some(view) => push_lines(&mut text, alloc, view.bytes())?,
            None => text.push_str("\n~")?,
        }
    }
    text.push('\n')?;
    Ok(told.text(alloc, text.as_bytes())?)
}

/// Tells a finished column, and lets it go. Where it is long, its buffers are in lines of their own.
fn tell_column(
    alloc: Global,
    column: FinishedColumn,
    is_long: bool,
    told: &mut Transcript,
    pass: &mut Pass,
) -> io::Result<()>
    requires { (kind : DataType) × (values : List Value) × IsEncoded column kind values × (pass.old.units + blocks_of kind values ≡ SUPPLY) }
    ensures { pass.new.units ≡ SUPPLY }
{
    let FinishedColumn {
        length,
        null_count,
        buffers,
    } = column;
    let counts = (length, null_count);
    let came = if is_long {
        tell_long_buffers(alloc, counts, &buffers, told)
    } else {
        tell_buffers(alloc, counts, &buffers, told)
    };
    let_go_all(buffers, pass);
    came
}

/// Tells the column that a builder holds.
pub(crate) fn tell_finished(
    alloc: Global,
    builder: Builder,
    is_long: bool,
    told: &mut Transcript,
    pass: &mut Pass,
) -> io::Result<()>
    requires holds { HoldsSome builder }
    requires units { pass.old.units ≡ SUPPLY }
    ensures { pass.new.units ≡ SUPPLY }
{
    let mut builder = builder;
    match builder.finish(alloc, &mut SpareBuffers::new(alloc), pass) {
        Ok(column) => tell_column(alloc, column, is_long, told, pass),
        Err(NoMemory) => Err(no_memory()),
    }
}

/// Fills a column of a type with the items that words spell, and tells it.
fn tell_filled(
    alloc: Global,
    kind: DataType,
    words: &[Vec<u8>],
    told: &mut Transcript,
    pass: &mut Pass,
) -> io::Result<()>
    requires kind { KindOk kind }
    requires flat { HasForm (form_of kind) }
    requires units { pass.old.units ≡ SUPPLY }
    ensures { pass.new.units ≡ SUPPLY }
{
    let mut builder = Builder::new(alloc, kind);
    push_words(alloc, &mut builder, words, told)?;
    tell_finished(alloc, builder, false, told, pass)
}

/// `column FORMAT ITEM..`: the items that aren't taken, in their order, and the column of the others.
pub(crate) fn tell_column_of(
    alloc: Global,
    format: &[u8],
    words: &[Vec<u8>],
    told: &mut Transcript,
) -> io::Result<()> {
    let kind = match read_format(alloc, format) {
        Ok(kind) => kind,
        Err(fault) => return Ok(told.fault(alloc, fault.to_string(alloc)?.as_str())?),
    };
    if !is_flat(&kind) {
        return Ok(told.fault(alloc, "not flat")?);
    }
    let (desk, mut pass) = open_desk();
    let came = tell_filled(alloc, kind, words, told, &mut pass);
    let audit = desk.close(pass);
    came?;
    Ok(told.made(alloc, &audit)?)
}

/// `utf8 TEXT`: whether the bytes are a text.
pub(crate) fn tell_utf8(alloc: Global, text: &[u8], told: &mut Transcript) -> io::Result<()> {
    if is_text(text) {
        Ok(told.answer(alloc, "text")?)
    } else {
        Ok(told.fault(alloc, "no text")?)
    }
}

/// `made N`: the table of N rows.
pub(crate) fn tell_made(alloc: Global, number: &[u8], told: &mut Transcript) -> io::Result<()> {
    match made(alloc, text_of(number).parse().unwrap_or(0)) {
        Ok(text) => Ok(told.text(alloc, text.as_slice())?),
        Err(_no_memory) => Err(no_memory()),
    }
}
