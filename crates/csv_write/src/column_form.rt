//! How the columns of a table are written: their names, and the form of their fields.
ghost use Rattle.std.specs.Prelude.{◌≡◌, ◌++◌, ℕ, List, Some, map, IfOk, OnOk};
ghost use Rattle.data_types.specs.ColumnView.{column_of, kind_of};
ghost use Rattle.data_types.specs.promise.FieldText.{form_of};
ghost use Rattle.csv_model.specs.Text.{header_text};
ghost use Rattle.data_types.specs.ColumnForms.{IsColumnKind};
ghost use Rattle.csv_write.specs.CsvTexts.{AreFormsOf, IsFormOf};
ghost use Rattle.field_codec.specs.FieldForms.{IsProper, form_in};
ghost use Rattle.csv_write.specs.Lines.{HasLines};
ghost use Rattle.field_codec.specs.TextColumns.{HasTexts, HaveTexts};

use crate::writer::{end_line, write_text};
use csv::Writer;
use data_types::{ColKind, ColumnType};
use field_codec::{FieldForm, flat_form};
use std::alloc::Global;
use unit_pass::NoMemory;

/// Writes the names of columns as a line.
pub(crate) fn write_names(
    writer: &mut Writer<Vec<u8>>,
    columns: &[ColumnType],
) -> Result<(), NoMemory>
    ensures { OnOk result ((text : List ℕ) → HasLines writer.old text → HasLines writer.new (text ++ header_text (map column_of columns.now))) }
{
    for column in columns {
        write_text(writer, column.name.as_slice())?;
    }
    end_line(writer)?;
    Ok(())
}

/// The form of each column.
pub(crate) fn column_forms(
    alloc: Global,
    columns: &[ColumnType],
) -> Result<Vec<FieldForm>, NoMemory>
    requires { HaveTexts (map column_of columns.now) }
    ensures { IfOk result (λ forms. AreFormsOf forms.items (map column_of columns.now)) }
{
    let mut forms = Vec::with_capacity(alloc, columns.len())?;
    for column in columns {
        forms.push(column_form(&column.kind))?;
    }
    Ok(forms)
}

/// The form of the values of a column, which a dictionary doesn't change.
fn column_form(kind: &ColKind) -> FieldForm
    requires { HasTexts (kind_of kind.now) }
    ensures { IsFormOf result (kind_of kind.now) }
{
    match kind {
        ColKind::Flat(values) => flat_form(values),
        ColKind::Dict(values) => flat_form(values),
        ColKind::Columns(_) => unreachable!(),
    }
}
