//! The rows of a struct column, the columns of whose fields are looked up once.
ghost use Rattle.std.specs.Prelude.{◌≡◌, None, true, ◌+◌, ◌<◌, ◌++◌, ◌^◌, ℕ, All, IfOk, OnOk, get_or, length, map};
ghost use Rattle.std.specs.List.{flat_map};
ghost use Rattle.data_types.specs.promise.Value.{values};
ghost use Rattle.data_types.specs.promise.Value.Value.{Fields};
ghost use Rattle.tree_model.specs.promise.TreeParts.{dictionary_of};
ghost use Rattle.data_types.specs.promise.TypedView.{typed_of};
ghost use Rattle.layout_rules.specs.promise.Values.{row_items};
ghost use Rattle.arr_import.specs.Cols.{window_of};
ghost use Rattle.arr_import.specs.Window.{IsStruct, item_at, items_of};
ghost use Rattle.data_types.specs.promise.ValueTexts.{value_line, value_text};
ghost use Rattle.value_text.specs.Behind.{item_text};
ghost use Rattle.value_text.specs.Fields.{IsRead};
ghost use Rattle.value_text.specs.declared.table.Field.{Field as AField};

use crate::bounded::BoundedText;
use crate::value::{count_items, number, push_part, push_plain, push_value};
use arr_import::{Col, Plain, ValueRef};
use data_types::{DataType, Typed, kinds_of_typed};
use std::alloc::Global;
use unit_pass::NoMemory;

/// Whether the items of a column of these kinds are rows of its own children: a struct without a dictionary.
pub(crate) fn is_table(typed: &Typed) -> bool
    ensures kind { result ≡ true → IsStruct (typed_of typed.now) }
    ensures own { result ≡ true → dictionary_of (typed_of typed.now) ≡ None }
{
    kinds_of_typed(typed);
    match typed.kind {
        DataType::Struct => typed.dict.is_none(),
        _ => false,
    }
}

/// A column of a struct's fields, and its items by their places where they are stored so.
#[derive(Clone, Copy)]
pub(crate) struct Field<'a> {
    items: Col<'a>,
    plain: Option<Plain<'a>>,
}

/// The columns as fields.
pub(crate) fn fields_of<'a>(alloc: Global, columns: &[Col<'a>]) -> Result<Vec<Field<'a>>, NoMemory>
    ensures columns { IfOk result (λ fields. map (λ f. f.items) fields.items ≡ columns.now) }
    ensures read { IfOk result (λ fields. All IsRead fields.items) }
{
    let mut fields = Vec::with_capacity(alloc, columns.len())?;
    for column in columns {
        fields.push(Field {
            items: *column,
            plain: column.plain(),
        })?;
    }
    Ok(fields)
}

/// Appends the text of item `i` of a field.
#[inline(always)]
fn push_field(
    text: &mut BoundedText,
    number: u64,
    field: &Field<'_>,
    i: u64,
) -> Result<(), NoMemory>
    requires read { IsRead field.now }
    requires inside { i < (window_of field.now.items).count }
    requires small { i < 2 ^ 63 }
    ensures { OnOk result (text.new ≡ text.old ++ item_text number (item_at (window_of field.now.items) i)) }
{
    match &field.plain {
        Some(items) => {
            if number > 0 {
                text.push(b',')?;
            }
            push_plain(text, items, i)
        }
        None => push_part(text, number, &field.items, i),
    }
}

/// Appends the text of a struct of item `i` of each of these columns.
fn push_fields(text: &mut BoundedText, fields: &[Field<'_>], i: u64) -> Result<(), NoMemory>
    requires read { All IsRead fields.now }
    requires inside { (k : ℕ) (d : AField) → k < length fields.now → i < (window_of (get_or fields.now k d).items).count }
    requires small { i < 2 ^ 63 }
    ensures { OnOk result (text.new ≡ text.old ++ value_text (Fields (values (map (λ f. item_at (window_of f.items) i) fields.now)))) }
{
    text.push(b'{')?;
    for k in 0..fields.len() {
        push_field(text, k as u64, &fields[k], i)?;
    }
    text.push(b'}')
}

/// Appends the text of item `i` of a struct column with these fields.
fn push_row(
    text: &mut BoundedText,
    table: &Col<'_>,
    fields: &[Field<'_>],
    i: u64,
) -> Result<(), NoMemory>
    requires own { dictionary_of (window_of table.now).typed ≡ None }
    requires rows { (j : ℕ) → map (λ f. item_at (window_of f.items) j) fields.now
        ≡ row_items (window_of table.now).typed (window_of table.now).array ((window_of table.now).start + j) }
    requires read { All IsRead fields.now }
    requires counts { All (λ f. (window_of f.items).count ≡ (window_of table.now).count) fields.now }
    requires inside { i < (window_of table.now).count }
    requires small { i < 2 ^ 63 }
    ensures { OnOk result (text.new ≡ text.old ++ value_text (item_at (window_of table.now) i)) }
{
    match table.value(number(i)) {
        ValueRef::Struct => {
            let _home = table.home(number(i));
            push_fields(text, fields, i)
        }
        _ => push_value(text, table, i),
    }
}

/// Appends a line for each item of a struct column with these fields.
pub(crate) fn push_rows(
    text: &mut BoundedText,
    table: &Col<'_>,
    fields: &[Field<'_>],
) -> Result<(), NoMemory>
    requires own { dictionary_of (window_of table.now).typed ≡ None }
    requires rows { (j : ℕ) → map (λ f. item_at (window_of f.items) j) fields.now
        ≡ row_items (window_of table.now).typed (window_of table.now).array ((window_of table.now).start + j) }
    requires read { All IsRead fields.now }
    requires counts { All (λ f. (window_of f.items).count ≡ (window_of table.now).count) fields.now }
    ensures { OnOk result (text.new ≡ text.old ++ flat_map value_line (items_of (window_of table.now))) }
{
    for i in 0..count_items(table) {
        push_row(text, table, fields, i)?;
        text.push(b'\n')?;
    }
    Ok(())
}
