//! The row of totals, and builders that hold it.
ghost use Rattle.std.specs.Prelude.{◌≡◌, ◌≤◌, ◌++◌, ◌∷◌, [], ℤ, ℕ, List, length, map, IfOk, OnOk};
ghost use Rattle.data_types.specs.ColumnView.{column_of};
ghost use Rattle.data_types.specs.promise.Table.{Flat, Row};
ghost use Rattle.col_build.specs.Holding.{Adds};
ghost use Rattle.col_build.specs.Items.{value_of};
ghost use Rattle.csv_read.specs.Body.{HoldRows, HoldsKind};
ghost use Rattle.stage_model.specs.promise.Stages.{totals_values};
ghost use Rattle.stage_model.specs.Stages.{totals_row};
ghost use Rattle.total_stage.specs.Rows.{IsFlat, RowFits, Takes, ValueFits};
ghost use Rattle.total_stage.specs.Sums.{AreSums};
ghost use Rattle.total_stage.specs.Totals.{AreTotals, number_value};

use crate::numbers::Totals;
use col_build::{Builder, Item, PushFault};
use data_types::{ColKind, ColumnType, DataType, clone_kind};
use std::alloc::Global;
use unit_pass::NoMemory;

/// Adds the values of totals: the count, the sum, the least and the greatest; an extreme of no numbers is null.
fn push_totals(values: &mut Vec<Option<i128>>, totals: &Totals) -> Result<(), NoMemory>
    ensures { OnOk result ((numbers : List ℤ) → AreTotals totals.now numbers
        → map number_value values.new.items ≡ map number_value values.old.items ++ totals_values numbers) }
{
    values.push(Some(i128::from(totals.count)))?;
    values.push(Some(totals.sum))?;
    values.push(totals.least_if())?;
    values.push(totals.greatest_if())?;
    Ok(())
}

/// The row of totals.
pub(crate) fn row_values(alloc: Global, sums: &[Totals]) -> Result<Vec<Option<i128>>, NoMemory>
    ensures { IfOk result (λ values. (picks : List ℕ) (rows : List Row) → AreSums sums.now picks rows
        → map number_value values.items ≡ totals_row picks rows) }
{
    let mut values = Vec::new(alloc);
    for totals in sums {
        push_totals(&mut values, totals)?;
    }
    Ok(values)
}

/// The item of a number, or a null.
fn number_item(value: Option<i128>) -> Item<'static>
    ensures { value_of result ≡ number_value value }
{
    match value {
        Some(number) => Item::Whole(number),
        None => Item::Null,
    }
}

/// Adds an item that the column takes.
fn push_item(builder: &mut Builder, item: Item<'_>) -> Result<(), NoMemory>
    requires { Takes builder.old (value_of item) }
    ensures { OnOk result (Adds (value_of item.entry) builder.old builder.new) }
{
    match builder.push(item) {
        Ok(()) => Ok(()),
        Err(PushFault::NoMemory) => Err(NoMemory),
        Err(_) => unreachable!(),
    }
}

/// The type of a column of plain values.
fn flat_kind(column: &ColumnType) -> &DataType
    requires { IsFlat (column_of column.now).kind }
    ensures { (column_of column.now).kind ≡ Flat result.now }
{
    match &column.kind {
        ColKind::Flat(kind) => kind,
        _ => unreachable!(),
    }
}

/// A builder that holds one number, or a null.
fn number_builder(
    alloc: Global,
    column: &ColumnType,
    value: Option<i128>,
) -> Result<Builder, NoMemory>
    requires { ValueFits (column_of column.now) (number_value value) }
    ensures { IfOk result (λ builder. HoldsKind builder (column_of column.now).kind (number_value value ∷ [])) }
{
    let kind = flat_kind(column);
    let mut builder = Builder::new(alloc, clone_kind(alloc, kind)?);
    push_item(&mut builder, number_item(value))?;
    Ok(builder)
}

/// Builders that hold the row.
pub(crate) fn row_builders(
    alloc: Global,
    columns: &[ColumnType],
    values: &[Option<i128>],
) -> Result<Vec<Builder>, NoMemory>
    requires { RowFits (map column_of columns.now) (map number_value values.now) }
    ensures held { IfOk result (λ builders. HoldRows builders.items (map column_of columns.now) (map number_value values.now ∷ [])) }
    ensures count { IfOk result (λ builders. length builders.items ≡ length columns.now) }
{
    let mut builders = Vec::new(alloc);
    for (k, column) in columns.iter().enumerate() {
        builders.push(number_builder(alloc, column, values[k])?)?;
    }
    Ok(builders)
}
