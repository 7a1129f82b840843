//! Copies of columns.
ghost use Rattle.std.specs.Prelude.{◌≡◌, All, IfOk, map};
ghost use Rattle.data_types.specs.ColumnForms.{KindsOk};
ghost use Rattle.data_types.specs.ColumnView.{column_of, kind_of};

use crate::{ColKind, ColumnType, clone_kind, struct_of};
use std::alloc::Global;
use unit_pass::NoMemory;

/// A copy of columns. `NoMemory` comes only where memory runs out.
#[cycle(copy)]
pub fn clone_columns(alloc: Global, columns: &[ColumnType]) -> Result<Vec<ColumnType>, NoMemory>
    requires { All (λ c. KindsOk (kind_of c.kind)) columns.now }
    ensures { IfOk result (λ copy. map column_of copy.items ≡ map column_of columns.now) }
{
    let mut copy = Vec::new(alloc);
    for column in columns {
        copy.push(clone_column(alloc, column)?)?;
    }
    Ok(copy)
}

/// A copy of a column. `NoMemory` comes only where memory runs out.
#[cycle(copy)]
pub fn clone_column(alloc: Global, column: &ColumnType) -> Result<ColumnType, NoMemory>
    requires { KindsOk (kind_of column.now.kind) }
    ensures { IfOk result (λ copy. column_of copy ≡ column_of column.now) }
{
    let name = column.name.share(alloc)?;
    let kind = column_kind(alloc, &column.kind)?;
    Ok(ColumnType { name, kind })
}

/// A copy of what a column holds.
#[cycle(copy)]
fn column_kind(alloc: Global, kind: &ColKind) -> Result<ColKind, NoMemory>
    requires { KindsOk (kind_of kind.now) }
    ensures { IfOk result (λ copy. kind_of copy ≡ kind_of kind.now) }
{
    match kind {
        ColKind::Flat(kind) => Ok(ColKind::Flat(clone_kind(alloc, kind)?)),
        ColKind::Dict(kind) => Ok(ColKind::Dict(clone_kind(alloc, kind)?)),
        ColKind::Columns(columns) => {
            let columns = clone_columns(alloc, columns.as_slice())?;
            Ok(struct_of(columns))
        }
    }
}
