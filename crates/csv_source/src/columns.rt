//! The columns of a text.
ghost use Rattle.std.specs.Prelude.{◌≡◌, ◌≤◌, map, vec_len, length};
ghost use Rattle.csv_model.specs.promise.Header.{most_columns};
ghost use Rattle.data_types.specs.ColumnView.{column_of};
ghost use Rattle.field_codec.specs.TextColumns.{AreAllowed, AreProper};

use data_types::ColumnType;
use std::marker::Model;

/// Columns such as a header names: at least one and at most 1,024 of plain values, of types that may be asked for.
#[derive(Drop)]
pub(crate) struct TextColumns {
    columns: Vec<ColumnType>,
}

impl Model for TextColumns {
    ghost use Rattle.std.specs.Prelude.{◌≤◌, List, length, map};
    ghost use Rattle.std.specs.Coded.{codes};
    ghost use Rattle.csv_model.specs.promise.Header.{most_columns};
    ghost use Rattle.data_types.specs.ColumnView.{column_of};
    ghost use Rattle.data_types.specs.contracts.kind.ColumnType as kinds;
    ghost use Rattle.data_types.specs.declared.kind.ColumnType.{ColumnType as AColumn};
    ghost use Rattle.field_codec.specs.TextColumns.{AreAllowed, AreProper};

    ghost Value = { List AColumn };

    ghost coded = { Prim.hlevel (codes, kinds.the_row.coded) };

    ghost view = { λ s. s.columns.items };

    ghost invariant = { λ s. (1 ≤ length s.columns.items) × (length s.columns.items ≤ most_columns)
        × AreProper (map column_of s.columns.items) × AreAllowed (map column_of s.columns.items) };
}

impl TextColumns {
    pub(crate) fn new(columns: Vec<ColumnType>) -> TextColumns
        requires some { 1 ≤ vec_len columns }
        requires few { vec_len columns ≤ most_columns }
        requires proper { AreProper (map column_of columns.items) }
        requires allowed { AreAllowed (map column_of columns.items) }
        ensures { result ≡ columns.items }
    {
        TextColumns { columns }
    }

    pub(crate) fn as_slice(&self) -> &[ColumnType]
        ensures columns { result.now ≡ self.now }
        ensures some { 1 ≤ length self.now }
        ensures few { length self.now ≤ most_columns }
        ensures proper { AreProper (map column_of self.now) }
        ensures allowed { AreAllowed (map column_of self.now) }
    {
        self.columns.as_slice()
    }
}
