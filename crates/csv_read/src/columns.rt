//! The columns of names.
ghost use Rattle.std.specs.Prelude.{◌≡◌, All, IfOk, map, option_map};
ghost use Rattle.std.specs.List.{find};
ghost use Rattle.std.specs.Str.{bytes_eq};
ghost use Rattle.data_types.specs.ColumnView.{column_of};
ghost use Rattle.data_types.specs.Kinds.{KindOk};
ghost use Rattle.csv_model.specs.promise.Header.{type_for};
ghost use Rattle.csv_model.specs.Header.{column_for, header_columns};
ghost use Rattle.stage_plan.specs.PlanWords.{texts};
ghost use Rattle.stage_plan.specs.promise.Entries.{entries_of};

use data_types::{ColKind, ColumnType, DataType, clone_kind};
use stage_plan::TypeEntry;
use std::alloc::Global;
use unit_pass::{Name, NoMemory};

/// The columns of these names.
pub(crate) fn columns(
    alloc: Global,
    names: &[&[u8]],
    entries: &[TypeEntry],
) -> Result<Vec<ColumnType>, NoMemory>
    requires { All (λ e. KindOk e.kind) entries.now }
    ensures { IfOk result (λ columns. map column_of columns.items ≡ header_columns (entries_of entries.now) (texts names.now)) }
{
    let mut columns = Vec::new(alloc);
    for name in names {
        columns.push(column(alloc, *name, entries)?)?;
    }
    Ok(columns)
}

/// The column of a name.
fn column(alloc: Global, name: &[u8], entries: &[TypeEntry]) -> Result<ColumnType, NoMemory>
    requires { All (λ e. KindOk e.kind) entries.now }
    ensures { IfOk result (λ column. column_of column ≡ column_for (entries_of entries.now) name.now) }
{
    let kind = type_for(alloc, name, entries)?;
    let name = Name::from_slice(alloc, name)?;
    Ok(ColumnType {
        name,
        kind: ColKind::Flat(kind),
    })
}

/// The type of the first entry of the name, and text where there is none.
fn type_for(alloc: Global, name: &[u8], entries: &[TypeEntry]) -> Result<DataType, NoMemory>
    requires { All (λ e. KindOk e.kind) entries.now }
    ensures { IfOk result (λ kind. kind ≡ type_for (entries_of entries.now) name.now) }
{
    for entry in entries {
        if entry.name.as_slice() == name {
            return clone_kind(alloc, &entry.kind);
        }
    }
    Ok(DataType::Utf8 { wide: false })
}
