//! The items of columns as text.
ghost use Rattle.std.specs.Prelude.{◌≤ℤ◌, ◌<ℤ◌, pos};
ghost use Rattle.arr_import.specs.Window.{IsStruct};
ghost use Rattle.arr_import.specs.Cols.{window_of};

use crate::transcript::Transcript;
use arr_import::{Col, ValueRef};
use case_text::spelling_of;
use std::alloc::{AllocError, Global};
use std::io;

/// How deep lists and structs whose text is made lie in one another.
const LEVELS: u8 = 9;

/// Tells the items of a column, each in a line.
pub(crate) fn tell_column(alloc: Global, col: &Col<'_>, told: &mut Transcript) -> io::Result<()> {
    if col.len() == 0 {
        return Ok(told.answer(alloc, "no items")?);
    }
    for i in 0..col.len() {
        if i < 0 || col.len() <= i {
            break;
        }
        let mut text = String::new(alloc);
        push_item(&mut text, alloc, LEVELS, col, i)?;
        told.answer(alloc, text.as_str())?;
    }
    Ok(())
}

/// The items of a list.
#[cycle(item)]
fn push_items(
    text: &mut String,
    alloc: Global,
    levels: u8,
    col: &Col<'_>,
) -> Result<(), AllocError> {
    if levels == 0 {
        return text.push_str("..");
    }
    for i in 0..col.len() {
        if i < 0 || col.len() <= i {
            break;
        }
        if i > 0 {
            text.push_str(", ")?;
        }
        push_item(text, alloc, levels - 1, col, i)?;
    }
    Ok(())
}

/// The fields of a struct.
#[cycle(item)]
fn push_fields(
    text: &mut String,
    alloc: Global,
    levels: u8,
    home: &Col<'_>,
    i: i64,
) -> Result<(), AllocError>
    requires parent { IsStruct (window_of home.now).typed }
    requires from { pos 0 ≤ℤ i }
    requires below { i <ℤ pos (window_of home.now).count }
{
    if levels == 0 {
        return text.push_str("..");
    }
    for k in 0..home.n_children() {
        if k > 0 {
            text.push_str(", ")?;
        }
        push_item(text, alloc, levels - 1, &home.child(k), i)?;
    }
    Ok(())
}

/// An item: `null`, a truth value, a number, the bits of a float as `0x..`, bytes in quotes, `[..]` or `{..}`.
#[cycle(item)]
fn push_item(
    text: &mut String,
    alloc: Global,
    levels: u8,
    col: &Col<'_>,
    i: i64,
) -> Result<(), AllocError>
    requires from { pos 0 ≤ℤ i }
    requires below { i <ℤ pos (window_of col.now).count }
{
    if !is_alone(col, i) {
        text.push_str("another by its kind alone: ")?;
    }
    match col.value(i) {
        ValueRef::Items(items) => {
            text.push('[')?;
            push_items(text, alloc, levels, &items)?;
            text.push(']')
        }
        ValueRef::Struct => {
            let (home, place) = col.home(i);
            text.push('{')?;
            push_fields(text, alloc, levels, &home, place)?;
            text.push('}')
        }
        value => text.push_str(shown(alloc, value)?.as_str()),
    }
}

/// An item without parts of its own.
fn shown(alloc: Global, value: ValueRef<'_>) -> Result<String, AllocError> {
    match value {
        ValueRef::Null => String::from_str(alloc, "null"),
        ValueRef::Truth(truth) => format!(in alloc; "{truth}"),
        ValueRef::Whole(number) => format!(in alloc; "{number}"),
        ValueRef::Bits(bits) => format!(in alloc; "0x{bits:x}"),
        ValueRef::Bytes(bytes) => {
            let text = spelling_of(alloc, bytes)?;
            format!(in alloc; "\"{text}\"")
        }
        ValueRef::Items(_) | ValueRef::Struct => String::from_str(alloc, ".."),
    }
}

/// The reads of one kind show an item of their kind alone, and the same as the read of any.
fn is_alone(col: &Col<'_>, i: i64) -> bool
    requires from { pos 0 ≤ℤ i }
    requires below { i <ℤ pos (window_of col.now).count }
{
    let want = match col.value(i) {
        ValueRef::Truth(truth) => (Some(truth), None, None, None),
        ValueRef::Whole(number) => (None, Some(number), None, None),
        ValueRef::Bits(bits) => (None, None, Some(bits), None),
        ValueRef::Bytes(bytes) => (None, None, None, Some(bytes)),
        _ => (None, None, None, None),
    };
    (col.truth(i), col.whole(i), col.bits(i), col.bytes(i)) == want
}
