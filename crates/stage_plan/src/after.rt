//! The columns after a stage.
ghost use Rattle.std.specs.Prelude.{◌≡◌, OnOk, ◌<◌, ◌∷◌, ◌++◌, [], ℕ, All, IfOk, get_or, length, map, codes};
ghost use Rattle.std.specs.List.{flat_map};
ghost use Rattle.data_types.specs.ColumnForms.{KindsOk};
ghost use Rattle.data_types.specs.ColumnView.{column_of, kind_of};
ghost use Rattle.data_types.specs.promise.Table.{Flat};
ghost use Rattle.data_types.specs.promise.Parts.{member_columns, picked};
ghost use Rattle.data_types.specs.Parts.{packed_columns, unpacked_columns, AreWithin};
ghost use Rattle.stage_model.specs.promise.Typing.{column, columns_after, dict_kind, names_of, no_column, place_of, places_of, plain_kind, scale_of};
ghost use Rattle.stage_model.specs.Typing.{others};
ghost use Rattle.stage_model.specs.promise.Typing.{struct_members, totals_columns};
ghost use Rattle.stage_plan.specs.PlanWords.{IsThere, columns_in, kind_by, replaced_kind, with_end};

use crate::places::others;
use data_types::{ColKind, ColumnType, DataType, clone_column, clone_columns, struct_of};
use stage_model::StageText;
use std::alloc::Global;
use unit_pass::{Name, NoMemory};

/// The columns after a stage, whose columns are at these places.
pub(crate) fn columns_after(
    alloc: Global,
    columns: &[ColumnType],
    text: &StageText,
    places: &[usize],
) -> Result<Vec<ColumnType>, NoMemory>
    requires kinds { All (λ c. KindsOk (kind_of c.kind)) columns.now }
    requires there { IsThere (columns_in columns.now) text.now places.now }
    ensures { IfOk result (λ after. map column_of after.items ≡ columns_after (columns_in columns.now) text.now) }
{
    match text {
        StageText::Select { .. } => picked(alloc, columns, places),
        StageText::Drop { .. } => {
            let rest = others(alloc, places, columns.len())?;
            picked(alloc, columns, rest.as_slice())
        }
        StageText::Slice { .. } | StageText::Filter { .. } => clone_columns(alloc, columns),
        StageText::Pack { made, .. } => packed(alloc, columns, made.as_slice(), places),
        StageText::Unpack { .. } => unpacked(alloc, columns, places[0]),
        StageText::Dict { .. } => with_kind(alloc, columns, places[0], true),
        StageText::Plain { .. } => with_kind(alloc, columns, places[0], false),
        StageText::Totals { .. } => totals(alloc, columns, places),
    }
}

/// Some of the columns, in the order of the places.
fn picked(
    alloc: Global,
    columns: &[ColumnType],
    places: &[usize],
) -> Result<Vec<ColumnType>, NoMemory>
    requires kinds { All (λ c. KindsOk (kind_of c.kind)) columns.now }
    requires within { AreWithin (length columns.now) places.now }
    ensures { IfOk result (λ after. map column_of after.items ≡ picked no_column places.now (columns_in columns.now)) }
{
    let mut after = Vec::new(alloc);
    for place in places {
        add(clone_column(alloc, &columns[*place])?, &mut after)?;
    }
    Ok(after)
}

/// The other columns, and behind them a struct of those at the places.
fn packed(
    alloc: Global,
    columns: &[ColumnType],
    made: &[u8],
    places: &[usize],
) -> Result<Vec<ColumnType>, NoMemory>
    requires kinds { All (λ c. KindsOk (kind_of c.kind)) columns.now }
    requires within { AreWithin (length columns.now) places.now }
    ensures { IfOk result
        (λ after. map column_of after.items ≡ packed_columns no_column made.now (others places.now (length columns.now)) places.now (columns_in columns.now)) }
{
    let rest = others(alloc, places, columns.len())?;
    let mut after = picked(alloc, columns, rest.as_slice())?;
    let fields = picked(alloc, columns, places)?;
    let name = Name::from_slice(alloc, made)?;
    let kind = struct_of(fields);
    add(ColumnType { name, kind }, &mut after)?;
    Ok(after)
}

/// The columns of a struct in its place.
fn unpacked(
    alloc: Global,
    columns: &[ColumnType],
    place: usize,
) -> Result<Vec<ColumnType>, NoMemory>
    requires kinds { All (λ c. KindsOk (kind_of c.kind)) columns.now }
    requires within { place < length columns.now }
    ensures { IfOk result (λ after. map column_of after.items
        ≡ unpacked_columns place (struct_members (get_or (columns_in columns.now) place no_column).kind) (columns_in columns.now)) }
{
    let mut after = clone_columns(alloc, &columns[..place])?;
    add_columns(alloc, members(&columns[place].kind), &mut after)?;
    add_columns(alloc, &columns[place + 1..], &mut after)?;
    Ok(after)
}

/// The columns of a struct; any other kind has none.
fn members(kind: &ColKind) -> &[ColumnType]
    requires { KindsOk (kind_of kind.now) }
    ensures are { columns_in result.now ≡ member_columns (struct_members (kind_of kind.now)) }
    ensures kinds { All (λ c. KindsOk (kind_of c.kind)) result.now }
{
    match kind {
        ColKind::Columns(columns) => columns.as_slice(),
        ColKind::Flat(_) | ColKind::Dict(_) => &[],
    }
}

/// Adds a column.
fn add(column: ColumnType, after: &mut Vec<ColumnType>) -> Result<(), NoMemory>
    ensures { OnOk result (after.new.items ≡ after.old.items ++ column ∷ []) }
{
    after.push(column)?;
    Ok(())
}

/// Appends copies of columns.
fn add_columns(
    alloc: Global,
    columns: &[ColumnType],
    after: &mut Vec<ColumnType>,
) -> Result<(), NoMemory>
    requires { All (λ c. KindsOk (kind_of c.kind)) columns.now }
    ensures { OnOk result (columns_in after.new.items ≡ columns_in after.old.items ++ columns_in columns.now) }
{
    for column in columns {
        add(clone_column(alloc, column)?, after)?;
    }
    Ok(())
}

/// The columns, one of them by a dictionary or without one.
fn with_kind(
    alloc: Global,
    columns: &[ColumnType],
    place: usize,
    dict: bool,
) -> Result<Vec<ColumnType>, NoMemory>
    requires kinds { All (λ c. KindsOk (kind_of c.kind)) columns.now }
    requires within { place < length columns.now }
    ensures { IfOk result (λ after. map column_of after.items ≡ replaced_kind dict place (columns_in columns.now)) }
{
    let mut after = clone_columns(alloc, &columns[..place])?;
    let ColumnType { name, kind } = clone_column(alloc, &columns[place])?;
    let kind = kind_by(kind, dict);
    add(ColumnType { name, kind }, &mut after)?;
    add_columns(alloc, &columns[place + 1..], &mut after)?;
    Ok(after)
}

/// The kind by a dictionary, or without one. A struct stays.
fn kind_by(kind: ColKind, dict: bool) -> ColKind
    ensures { kind_of result ≡ kind_by dict (kind_of kind) }
{
    match kind {
        ColKind::Flat(kind) | ColKind::Dict(kind) => {
            if dict {
                ColKind::Dict(kind)
            } else {
                ColKind::Flat(kind)
            }
        }
        ColKind::Columns(columns) => ColKind::Columns(columns),
    }
}

/// The totals of columns.
fn totals(
    alloc: Global,
    columns: &[ColumnType],
    places: &[usize],
) -> Result<Vec<ColumnType>, NoMemory>
    requires kinds { All (λ c. KindsOk (kind_of c.kind)) columns.now }
    requires within { AreWithin (length columns.now) places.now }
    ensures { IfOk result (λ after. map column_of after.items ≡ flat_map totals_columns (picked no_column places.now (columns_in columns.now))) }
{
    let mut after = Vec::new(alloc);
    for place in places {
        add_totals(alloc, &columns[*place], &mut after)?;
    }
    Ok(after)
}

/// Adds the totals of a column.
fn add_totals(
    alloc: Global,
    column: &ColumnType,
    after: &mut Vec<ColumnType>,
) -> Result<(), NoMemory>
    requires { KindsOk (kind_of column.now.kind) }
    ensures { OnOk result (map column_of after.new.items ≡ map column_of after.old.items ++ totals_columns (column_of column.now)) }
{
    let name = column.name.as_slice();
    let count = DataType::Int {
        bits: 64,
        signed: true,
    };
    add(flat_column(alloc, name, b"_count", count)?, after)?;
    let sum = DataType::Decimal {
        precision: 38,
        scale: scale_of(&column.kind),
        wide: false,
    };
    add(flat_column(alloc, name, b"_sum", sum)?, after)?;
    add(named(alloc, column, b"_min")?, after)?;
    add(named(alloc, column, b"_max")?, after)
}

/// A column of plain values, whose name ends so.
fn flat_column(
    alloc: Global,
    name: &[u8],
    end: &[u8],
    kind: DataType,
) -> Result<ColumnType, NoMemory>
    ensures { IfOk result (λ made. column_of made ≡ column (name.now ++ end.now) (Flat kind)) }
{
    Ok(ColumnType {
        name: joined(alloc, name, end)?,
        kind: ColKind::Flat(kind),
    })
}

/// The column, whose name ends so.
fn named(alloc: Global, column: &ColumnType, end: &[u8]) -> Result<ColumnType, NoMemory>
    requires { KindsOk (kind_of column.now.kind) }
    ensures { IfOk result (λ made. column_of made ≡ with_end (column_of column.now) end.now) }
{
    let ColumnType { name, kind } = clone_column(alloc, column)?;
    Ok(ColumnType {
        name: joined(alloc, name.as_slice(), end)?,
        kind,
    })
}

/// A name and its end.
fn joined(alloc: Global, name: &[u8], end: &[u8]) -> Result<Name, NoMemory>
    ensures { IfOk result (λ made. made ≡ name.now ++ end.now) }
{
    let mut bytes = Vec::from_slice(alloc, name)?;
    bytes.extend_from_slice(end)?;
    Ok(Name::from_vec(bytes))
}

/// The scale of a decimal of 128 bits or more, and 0 for any other kind.
fn scale_of(kind: &ColKind) -> i32
    ensures { result ≡ scale_of (kind_of kind.now) }
{
    match kind {
        ColKind::Flat(DataType::Decimal { scale, .. }) => *scale,
        _ => 0,
    }
}
