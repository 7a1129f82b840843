//! The columns of a chunk, and the texts of their items.
ghost use Rattle.std.specs.Prelude.{◌≡◌, ◌<◌, ◌≤ℤ◌, ◌<ℤ◌, pos, ◌^◌, All, length, IfOk, IfSome};
ghost use Rattle.data_types.specs.promise.FieldText.Form.{Text};
ghost use Rattle.tree_model.specs.promise.TreeParts.{children_of};
ghost use Rattle.arr_import.specs.Cols.{window_of};
ghost use Rattle.arr_import.specs.Window.{IsStruct, item_at};
ghost use Rattle.arr_import.specs.Indexing.{shown_by};
ghost use Rattle.layout_rules.specs.promise.Layout.{natural};
ghost use Rattle.field_codec.specs.FieldForms.{form_in, null_text, written_in};
ghost use Rattle.csv_write.specs.ChunkTexts.{AreChildren, HasItem, HasEntries, text_in};

use arr_import::{Col, Indexed, ValueRef};
use field_codec::{FieldForm, bits_text, bytes_text, decimal_text, truth_text, whole_text};
use std::alloc::Global;
use unit_pass::NoMemory;

/// A column of a chunk, and how its fields are written.
#[derive(Clone, Copy)]
pub(crate) struct ChunkColumn<'a> {
    pub(crate) form: FieldForm,
    pub(crate) items: Col<'a>,
    /// Of a column of texts with a dictionary: its indices and entries, found once.
    pub(crate) entries: Option<Indexed<'a>>,
}

/// The indices and entries of a column of texts with a dictionary; any other column has none.
fn text_entries<'a>(form: FieldForm, items: &Col<'a>) -> Option<Indexed<'a>>
    ensures { IfSome result (λ indexed. (form_in form ≡ Text) × (shown_by indexed ≡ window_of items.now)) }
{
    match form {
        FieldForm::Text => items.indexed(),
        _ => None,
    }
}

/// The columns of a chunk. They are found once for all its rows.
pub(crate) fn chunk_columns<'a>(
    alloc: Global,
    forms: &[FieldForm],
    chunk: &Col<'a>,
) -> Result<Vec<ChunkColumn<'a>>, NoMemory>
    requires kind { IsStruct (window_of chunk.now).typed }
    requires count { length forms.now ≡ length (children_of (window_of chunk.now).typed) }
    ensures children { IfOk result (λ columns. AreChildren columns.items forms.now (window_of chunk.now)) }
    ensures entries { IfOk result (λ columns. All HasEntries columns.items) }
{
    chunk.rows_are_whole();
    let mut columns = Vec::with_capacity(alloc, forms.len())?;
    for (k, form) in forms.iter().enumerate() {
        let items = chunk.child(k);
        columns.push(ChunkColumn {
            form: *form,
            items,
            entries: text_entries(*form, &items),
        })?;
    }
    Ok(columns)
}

/// The number of a chunk's rows.
pub(crate) fn count_rows(chunk: &Col<'_>) -> u64
    ensures count { result ≡ (window_of chunk.now).count }
    ensures small { result < 2 ^ 63 }
{
    chunk.len() as u64
}

/// A column has fewer items than an `i64` can count.
fn count_is_small(items: &Col<'_>)
    ensures { (window_of items.now).count < 2 ^ 63 }
{
    let _count = items.len();
}

/// The text of an item that isn't of its column's form: the mark for a null, and nothing for an item of another form. Under the
/// empty mark both are nothing, and no item is looked at.
#[inline(never)]
fn null_or_nothing<'b>(items: &Col<'_>, i: i64, mark: &'b [u8]) -> &'b [u8]
    requires from { pos 0 ≤ℤ i }
    requires below { i <ℤ pos (window_of items.now).count }
    ensures { result.now ≡ null_text mark.now (item_at (window_of items.now) (natural i)) }
{
    if mark.is_empty() {
        return b"";
    }
    match items.value(i) {
        ValueRef::Null => mark,
        _ => b"",
    }
}

/// The text of an item of a column of texts, some of them null.
#[inline(always)]
#[tactic(auto, using(crate::proofs::ChunkTexts::other_texts))]
pub(crate) fn some_text<'a: 'b, 'b>(items: &Col<'a>, i: u64, mark: &'b [u8]) -> &'b [u8]
    requires inside { i < (window_of items.now).count }
    requires small { i < 2 ^ 63 }
    ensures { result.now ≡ written_in mark.now Text (item_at (window_of items.now) i) }
{
    let i = i as i64;
    match items.bytes(i) {
        Some(text) => text,
        None => null_or_nothing(items, i, mark),
    }
}

/// The text of an item of a column of texts with a dictionary. No index is the mark, and so is an entry that is null.
#[inline(always)]
pub(crate) fn entry_text<'a: 'b, 'b>(indexed: &Indexed<'a>, i: u64, mark: &'b [u8]) -> &'b [u8]
    requires inside { i < (shown_by indexed.now).count }
    requires small { i < 2 ^ 63 }
    ensures { result.now ≡ written_in mark.now Text (item_at (shown_by indexed.now) i) }
{
    match indexed.index(i as i64) {
        Some(index) => {
            count_is_small(indexed.entries());
            some_text(indexed.entries(), index, mark)
        }
        None => mark,
    }
}

/// The text of an item, read as its column's form has it. A null is the mark.
#[inline(never)]
#[tactic(auto, using(crate::proofs::ChunkTexts::other_texts))]
fn any_text<'a: 'b, 'b>(
    column: &ChunkColumn<'a>,
    i: u64,
    mark: &'b [u8],
    room: &'b mut Vec<u8>,
) -> Result<&'b [u8], NoMemory>
    requires { HasItem column.now i }
    ensures { IfOk result (λ text. text.now ≡ text_in mark.now i column.now) }
{
    let items = &column.items;
    let at = i as i64;
    match column.form {
        FieldForm::Text => Ok(some_text(items, i, mark)),
        FieldForm::Wholes { .. } => match items.whole(at) {
            Some(number) => whole_text(number, room),
            None => Ok(null_or_nothing(items, at, mark)),
        },
        FieldForm::Decimals { places, .. } => match items.whole(at) {
            Some(number) => decimal_text(places, number, room),
            None => Ok(null_or_nothing(items, at, mark)),
        },
        FieldForm::Truths => match items.truth(at) {
            Some(truth) => Ok(truth_text(truth)),
            None => Ok(null_or_nothing(items, at, mark)),
        },
        FieldForm::FloatBits { bits } => match items.bits(at) {
            Some(number) => bits_text(bits, number, room),
            None => Ok(null_or_nothing(items, at, mark)),
        },
        FieldForm::HexBytes | FieldForm::SizedHex { .. } => match items.bytes(at) {
            Some(bytes) => bytes_text(bytes, room),
            None => Ok(null_or_nothing(items, at, mark)),
        },
    }
}

/// The same as [`any_text`], whose result gets its room here, and so only where it is called.
#[inline(always)]
pub(crate) fn rare_text<'a: 'b, 'b>(
    column: &ChunkColumn<'a>,
    i: u64,
    mark: &'b [u8],
    room: &'b mut Vec<u8>,
) -> Result<&'b [u8], NoMemory>
    requires { HasItem column.now i }
    ensures { IfOk result (λ text. text.now ≡ text_in mark.now i column.now) }
{
    match any_text(column, i, mark, room) {
        Ok(text) => Ok(text),
        Err(NoMemory) => Err(NoMemory),
    }
}
