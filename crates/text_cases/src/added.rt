//! Columns of many items, each added by the call for its form, or every eighth by that for any; or many times by one call.
ghost use Rattle.std.specs.Prelude.{◌≡◌, ◌≤◌, ◌<◌, [], List, length, OnOk};
ghost use Rattle.data_types.specs.promise.FieldText.{form_of};
ghost use Rattle.data_types.specs.Kinds.{KindOk};
ghost use Rattle.data_types.specs.promise.Value.{Value, Bits, Whole};
ghost use Rattle.col_build.specs.Encoding.{HasForm, most_values};
ghost use Rattle.col_build.specs.Holding.{Adds, Holds, Takes};
ghost use Rattle.col_build.specs.Items.{value_of};
ghost use Rattle.unit_pass.specs.declared.pass.TheConstants.{SUPPLY};

use crate::columns::{item_of, tell_finished};
use crate::subject::{no_memory, text_of};
use crate::times::take_words;
use crate::transcript::Transcript;
use col_build::{Builder, Item, PushFault};
use data_types::{DataType, Storage, clone_kind, is_flat, storage_of};
use fmt_string::read_format;
use std::alloc::Global;
use std::io;
use std::io::{Error, ErrorKind};
use unit_pass::{NoMemory, Pass, open_desk};

/// Adds a whole number by its width.
fn add_number(builder: &mut Builder, kind: &DataType, number: i128) -> Result<(), NoMemory>
    requires takes { Takes builder.old (Whole number) }
    requires kind { builder.old.kind ≡ kind.now }
    ensures { OnOk result (Adds (Whole number) builder.old builder.new) }
{
    match storage_of(kind) {
        Storage::Wholes { bits, signed: _ } if bits % 8 == 0 => {
            builder.add_whole(usize::from(bits / 8), number)
        }
        _ => builder.add(Item::Whole(number)),
    }
}

/// Adds the bits of a float by their width.
fn add_float(builder: &mut Builder, kind: &DataType, number: u64) -> Result<(), NoMemory>
    requires takes { Takes builder.old (Bits number) }
    requires kind { builder.old.kind ≡ kind.now }
    ensures { OnOk result (Adds (Bits number) builder.old builder.new) }
{
    match storage_of(kind) {
        Storage::Floats { bits } if bits % 8 == 0 => {
            builder.add_bits(usize::from(bits / 8), number)
        }
        _ => builder.add(Item::Bits(number)),
    }
}

/// Adds an item by the call for its form, or by that for any.
fn add_item(
    builder: &mut Builder,
    kind: &DataType,
    item: Item<'_>,
    any: bool,
) -> Result<(), NoMemory>
    requires takes { Takes builder.old (value_of item) }
    requires kind { builder.old.kind ≡ kind.now }
    ensures { OnOk result (Adds (value_of item.entry) builder.old builder.new) }
{
    if any {
        return builder.add(item);
    }
    match item {
        Item::Null => builder.add_null(),
        Item::Truth(truth) => builder.add_truth(truth),
        Item::Whole(number) => add_number(builder, kind, number),
        Item::Bits(number) => add_float(builder, kind, number),
        Item::Bytes(bytes) => builder.add_bytes(bytes),
    }
}

/// A case whose items aren't all taken.
pub(crate) fn no_case() -> Error {
    Error::from(ErrorKind::InvalidInput)
}

/// Pushes an item to one column, which tries it, and adds it to another of the same items.
fn take_one(
    kind: &DataType,
    pushed: &mut Builder,
    added: &mut Builder,
    item: Item<'_>,
    any: bool,
) -> io::Result<()>
    requires same { (values : List Value) × Holds pushed.old kind.now values × Holds added.old kind.now values × (length values < most_values) }
    ensures pushed { OnOk result (Adds (value_of item.entry) pushed.old pushed.new) }
    ensures added { OnOk result (Adds (value_of item.entry) added.old added.new) }
{
    match pushed.push(item) {
        Ok(()) => {}
        Err(PushFault::NoMemory) => return Err(no_memory()),
        Err(_fault) => return Err(no_case()),
    }
    match add_item(added, kind, item, any) {
        Ok(()) => Ok(()),
        Err(NoMemory) => Err(no_memory()),
    }
}

/// Takes this many items, those that the words spell round and round.
fn take_round(
    kind: &DataType,
    pushed: &mut Builder,
    added: &mut Builder,
    words: &[Vec<u8>],
    count: usize,
) -> io::Result<()>
    requires none { Holds pushed.old kind.now [] × Holds added.old kind.now [] }
    requires some { 1 ≤ length words.now }
    requires few { count ≤ 100000 }
    ensures { OnOk result ((values : List Value) × Holds pushed.new kind.now values × Holds added.new kind.now values) }
{
    for i in 0..count {
        let item = item_of(words[i % words.len()].as_slice()).ok_or_else(no_case)?;
        take_one(kind, pushed, added, item, i % 8 == 7)?;
    }
    Ok(())
}

/// Tells a column of this many items, begun with this room.
fn tell_round(
    alloc: Global,
    kind: DataType,
    room: usize,
    count: usize,
    words: &[Vec<u8>],
    told: &mut Transcript,
    pass: &mut Pass,
) -> io::Result<()>
    requires kind { KindOk kind }
    requires flat { HasForm (form_of kind) }
    requires some { 1 ≤ length words.now }
    requires few { count ≤ 100000 }
    requires units { pass.old.units ≡ SUPPLY }
    ensures { pass.new.units ≡ SUPPLY }
{
    let (Ok(first), Ok(second)) = (clone_kind(alloc, &kind), clone_kind(alloc, &kind)) else {
        return Err(no_memory());
    };
    let mut pushed = Builder::new(alloc, first);
    let Ok(mut added) = Builder::with_room(alloc, second, room, room) else {
        return Err(no_memory());
    };
    match take_round(&kind, &mut pushed, &mut added, words, count) {
        Ok(()) => tell_finished(alloc, added, true, told, pass),
        Err(error) if error.kind() == ErrorKind::InvalidInput => {
            Ok(told.fault(alloc, "an item isn't taken")?)
        }
        Err(error) => Err(error),
    }
}

/// The number that a word spells, at most 100,000.
fn number_of(word: &[u8]) -> usize
    ensures { result ≤ 100000 }
{
    let number: usize = text_of(word).parse().unwrap_or(0);
    number.min(100_000)
}

/// `added FORMAT ROOM COUNT ITEM..`: a column with room for this many items, to which this many are added, these round and round.
pub(crate) fn tell_added(
    alloc: Global,
    words: &[Vec<u8>],
    told: &mut Transcript,
) -> io::Result<()> {
    let [format, room, count, items @ ..] = words else {
        return Ok(told.fault(alloc, "a format, a room, a count and items")?);
    };
    let kind = match read_format(alloc, format.as_slice()) {
        Ok(kind) => kind,
        Err(fault) => return Ok(told.fault(alloc, fault.to_string(alloc)?.as_str())?),
    };
    if !is_flat(&kind) || items.is_empty() {
        return Ok(told.fault(alloc, "not flat, or no item")?);
    }
    let (room, count) = (number_of(room.as_slice()), number_of(count.as_slice()));
    let (desk, mut pass) = open_desk();
    let came = tell_round(alloc, kind, room, count, items, told, &mut pass);
    let audit = desk.close(pass);
    came?;
    Ok(told.made(alloc, &audit)?)
}

/// Tells a column of items that are each added this many times.
fn tell_repeated(
    alloc: Global,
    kind: DataType,
    times: usize,
    words: &[Vec<u8>],
    told: &mut Transcript,
    pass: &mut Pass,
) -> io::Result<()>
    requires kind { KindOk kind }
    requires flat { HasForm (form_of kind) }
    requires words { length words.now ≤ 1000 }
    requires few { times ≤ 100000 }
    requires units { pass.old.units ≡ SUPPLY }
    ensures { pass.new.units ≡ SUPPLY }
{
    let Ok(second) = clone_kind(alloc, &kind) else {
        return Err(no_memory());
    };
    let mut pushed = Builder::new(alloc, kind);
    let mut added = Builder::new(alloc, second);
    match take_words(&mut pushed, &mut added, words, times) {
        Ok(()) => tell_finished(alloc, added, true, told, pass),
        Err(error) if error.kind() == ErrorKind::InvalidInput => {
            Ok(told.fault(alloc, "an item isn't taken")?)
        }
        Err(error) => Err(error),
    }
}

/// `times FORMAT COUNT ITEM..`: a column to which each of these items is added this many times by one call.
pub(crate) fn tell_times(
    alloc: Global,
    words: &[Vec<u8>],
    told: &mut Transcript,
) -> io::Result<()> {
    let [format, count, items @ ..] = words else {
        return Ok(told.fault(alloc, "a format, a count and items")?);
    };
    let kind = match read_format(alloc, format.as_slice()) {
        Ok(kind) => kind,
        Err(fault) => return Ok(told.fault(alloc, fault.to_string(alloc)?.as_str())?),
    };
    if !is_flat(&kind) || items.len() > 1000 {
        return Ok(told.fault(alloc, "not flat, or too many items")?);
    }
    let times = number_of(count.as_slice());
    let (desk, mut pass) = open_desk();
    let came = tell_repeated(alloc, kind, times, items, told, &mut pass);
    let audit = desk.close(pass);
    came?;
    Ok(told.made(alloc, &audit)?)
}
