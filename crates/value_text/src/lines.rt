//! The items of an array, a line each.
ghost use Rattle.std.specs.Prelude.{◌≡◌, ◌≤◌, ◌++◌, IfOk, OnOk, vec_len};
ghost use Rattle.std.specs.List.{flat_map};
ghost use Rattle.data_types.specs.KindTrees.{TypedOk};
ghost use Rattle.data_types.specs.promise.TypedView.{typed_of};
ghost use Rattle.layout_rules.specs.promise.Values.{values_of};
ghost use Rattle.layout_rules.specs.promise.Walk.{LayoutOk};
ghost use Rattle.arr_import.specs.Cols.{window_of};
ghost use Rattle.arr_import.specs.Indexing.{entries_of, shown_by};
ghost use Rattle.arr_import.specs.Window.{items_of};
ghost use Rattle.data_types.specs.promise.ValueTexts.{lines_text, value_line};
ghost use Rattle.data_types.specs.ValueTexts.{text_limit};
ghost use Rattle.value_text.specs.Homes.{AreHomes};

use crate::bound::text_bound;
use crate::bounded::BoundedText;
use crate::homes::{Homes, homes_of, push_entry};
use crate::measure::text_length;
use crate::table::{fields_of, is_table, push_rows};
use crate::value::{count_items, push_value};
use arr_import::{Col, Indexed};
use data_types::Typed;
use raw_array::RawArray;
use std::alloc::Global;
use unit_pass::NoMemory;

/// Items whose texts have at most this many bytes aren't measured.
const SHORT: u64 = (1 << 31) - 3;

/// The text of an array that `layout_check::check_array` accepted: `ok`, and a line with the text of each item of its window.
/// `NoMemory` comes where memory runs out, and, before any text is made, where the text would have more than 2^31 bytes.
pub fn items_text(alloc: Global, typed: &Typed, array: &RawArray) -> Result<Vec<u8>, NoMemory>
    requires types { TypedOk (typed_of typed.now) }
    requires lawful { LayoutOk (typed_of typed.now) array.now }
    ensures text { IfOk result (λ text. text.items ≡ lines_text (values_of (typed_of typed.now) array.now)) }
    ensures within { IfOk result (λ text. vec_len text ≤ text_limit) }
{
    let mut text = BoundedText::new(alloc);
    if text_bound(typed, array) > SHORT {
        text.take_room(text_length(alloc, typed, array)?)?;
    }
    text.push_bytes(b"ok\n")?;
    push_items(alloc, &mut text, typed, &Col::of(typed, array))?;
    Ok(text.into_bytes())
}

/// Appends a line for each item of a column of these kinds. The columns of a struct's fields are looked up once, unless they are
/// more than its items.
fn push_items(
    alloc: Global,
    text: &mut BoundedText,
    typed: &Typed,
    col: &Col<'_>,
) -> Result<(), NoMemory>
    requires { (window_of col.now).typed ≡ typed_of typed.now }
    ensures { OnOk result (text.new ≡ text.old ++ flat_map value_line (items_of (window_of col.now))) }
{
    let count = count_items(col);
    text.has_room(count * 2)?;
    if is_table(typed) && col.n_children() as u64 <= count {
        let columns = col.columns(alloc)?;
        let fields = fields_of(alloc, &columns)?;
        return push_rows(text, col, &fields);
    }
    push_lines(alloc, text, col)
}

/// Appends a line for each item of a column. Where it has a dictionary, that one's own are followed once for each of its items.
fn push_lines(alloc: Global, text: &mut BoundedText, col: &Col<'_>) -> Result<(), NoMemory>
    ensures { OnOk result (text.new ≡ text.old ++ flat_map value_line (items_of (window_of col.now))) }
{
    match col.indexed() {
        Some(indexed) => {
            let entries = homes_of(alloc, indexed.entries())?;
            push_entries(text, col, &indexed, &entries)
        }
        None => push_values(text, col),
    }
}

/// The same of a column whose dictionary's items are there.
fn push_entries(
    text: &mut BoundedText,
    col: &Col<'_>,
    indexed: &Indexed<'_>,
    entries: &Homes<'_>,
) -> Result<(), NoMemory>
    requires shown { shown_by indexed.now ≡ window_of col.now }
    requires entries { AreHomes entries.now (entries_of indexed.now) }
    ensures { OnOk result (text.new ≡ text.old ++ flat_map value_line (items_of (window_of col.now))) }
{
    for i in 0..count_items(col) {
        push_entry(text, indexed, entries, i)?;
        text.push(b'\n')?;
    }
    Ok(())
}

/// The same of a column whose items are found one by one.
fn push_values(text: &mut BoundedText, col: &Col<'_>) -> Result<(), NoMemory>
    ensures { OnOk result (text.new ≡ text.old ++ flat_map value_line (items_of (window_of col.now))) }
{
    for i in 0..count_items(col) {
        push_value(text, col, i)?;
        text.push(b'\n')?;
    }
    Ok(())
}
