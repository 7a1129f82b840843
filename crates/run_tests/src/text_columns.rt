//! Structs of columns, copies of them, and the laws of format strings.
ghost use Rattle.std.specs.Prelude.{◌≡◌, ◌∷◌, [], codes, map, IfSome};
ghost use Rattle.data_types.specs.ColumnView.{column_of};
ghost use Rattle.data_types.specs.promise.Table.{Flat};
ghost use Rattle.data_types.specs.declared.kind.DataType.TheVariants as kinds;

use data_types::*;
use fmt_string::{one_reading, spelled_is_valid, spelling_reads_back};
use std::alloc::Global;
use std::test::*;
use unit_pass::Name;

/// One column, of truth values.
fn one_column(alloc: Global) -> Option<Vec<ColumnType>>
    ensures { IfSome result (λ columns. map column_of columns.items ≡ record { name = codes "id"; kind = Flat kinds.Bool } ∷ []) }
{
    let column = ColumnType {
        name: Name::from_slice(alloc, b"id").ok()?,
        kind: ColKind::Flat(DataType::Bool),
    };
    let mut columns = Vec::new(alloc);
    columns.push(column).ok()?;
    Some(columns)
}

/// How many columns a struct of one column holds.
fn held_columns(rt: &HostRuntime) -> Option<usize> {
    match struct_of(one_column(rt.alloc())?) {
        ColKind::Columns(held) => Some(held.len()),
        _ => None,
    }
}

#[test]
fn a_struct_holds_its_columns(rt: HostRuntime) {
    assert!(rt; held_columns(&rt) == Some(1));
}

/// A copy of a struct of one column, as it is printed.
fn printed_copy(rt: &HostRuntime) -> Option<String> {
    let alloc = rt.alloc();
    let column = ColumnType {
        name: Name::from_slice(alloc, b"s").ok()?,
        kind: struct_of(one_column(alloc)?),
    };
    let copy = clone_column(alloc, &column).ok()?;
    format!(in alloc; "{:?}", copy).ok()
}

#[test]
fn a_copy_has_the_columns_of_its_structs(rt: HostRuntime) {
    let wanted = "ColumnType { name: Name { bytes: [115] }, \
        kind: Columns([ColumnType { name: Name { bytes: [105, 100] }, kind: Flat(Bool) }]) }";
    match printed_copy(&rt) {
        Some(shown) => assert_eq!(rt; shown.as_str(), wanted),
        None => assert!(rt; false),
    }
}

#[test]
fn the_laws_are_called(_rt: HostRuntime) {
    one_reading();
    spelling_reads_back();
    spelled_is_valid();
}
