//! A struct of columns as a kind: the one call that makes it, so that contracts above can name what it holds.
ghost use Rattle.std.specs.Prelude.{◌≡◌, map};
ghost use Rattle.data_types.specs.promise.Table.{Columns};
ghost use Rattle.data_types.specs.promise.ColumnView.{members};
ghost use Rattle.data_types.specs.ColumnView.{kind_of, column_of};

use crate::{ColKind, ColumnType};

/// A struct of these columns. Takes no memory.
pub fn struct_of(columns: Vec<ColumnType>) -> ColKind
    ensures { kind_of result ≡ Columns (members (map column_of columns.items)) }
{
    ColKind::Columns(columns)
}
