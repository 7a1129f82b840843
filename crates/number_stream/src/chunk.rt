//! The one chunk of the stream, and its columns.
ghost use Rattle.std.specs.Prelude.{◌≡◌, ◌≤◌, ◌+◌, IfOk, OnErr, OnOk, map};
ghost use Rattle.arr_export.specs.ValueColumns.{plain_tree};
ghost use Rattle.col_build.specs.Holding.{Holds};
ghost use Rattle.data_types.specs.ColumnView.{column_of};
ghost use Rattle.raw_array.specs.promise.Members.{Cost};
ghost use Rattle.unit_pass.specs.promise.Tally.{risen};
ghost use Rattle.unit_pass.specs.declared.pass.TheConstants.{ROOM};
ghost use Rattle.number_stream.specs.Numbers.{number_chunk, number_columns, numbers};

use arr_export::{export_table, schema_size};
use col_build::{Builder, Item};
use column_fill::built_column;
use data_types::{ColKind, ColumnType, DataType};
use raw_array::{RawArray, release_all};
use stages::OutColumns;
use std::alloc::Global;
use unit_pass::{Name, NoMemory, Pass, ROOM};

const TYPE: DataType = DataType::Int {
    bits: 64,
    signed: true,
};

/// The columns: one, n.
pub fn number_columns(alloc: Global) -> Result<OutColumns, NoMemory>
    ensures { IfOk result (λ columns. map column_of columns ≡ number_columns) }
{
    schema_size();
    let Ok(mut columns) = Vec::with_capacity(alloc, 1) else {
        return Err(NoMemory);
    };
    let name = Name::from_slice(alloc, b"n")?;
    columns.push_reserved(ColumnType {
        name,
        kind: ColKind::Flat(TYPE),
    });
    Ok(OutColumns::new(columns))
}

/// A builder with the numbers: 1, 2, 3.
fn numbers(alloc: Global) -> Result<Builder, NoMemory>
    ensures { IfOk result (λ builder. Holds builder numbers.kind numbers.values) }
{
    let mut builder = Builder::new(alloc, TYPE);
    builder.add(Item::Whole(1))?;
    builder.add(Item::Whole(2))?;
    builder.add(Item::Whole(3))?;
    Ok(builder)
}

/// The column n. Where memory runs out all is released.
fn number_column(alloc: Global, pass: &mut Pass) -> Result<RawArray, NoMemory>
    requires room { 4 ≤ pass.old.units }
    ensures tree { IfOk result (λ array. array ≡ plain_tree numbers) }
    ensures units { OnOk result (pass.new.units + 2 ≡ pass.old.units) }
    ensures blocks { OnOk result (pass.new.blocks ≡ risen pass.old.blocks 1) }
    ensures nodes { OnOk result (pass.new.nodes ≡ risen pass.old.nodes 1) }
    ensures units_back { OnErr result (pass.new.units ≡ pass.old.units) }
{
    let numbers = numbers(alloc)?;
    let _supply = pass.units();
    built_column(alloc, numbers, None, pass)
}

/// The chunk: the column as a table. Where memory runs out all is released.
pub fn number_chunk(alloc: Global, pass: &mut Pass) -> Result<RawArray, NoMemory>
    requires room { ROOM ≤ pass.old.units }
    ensures tree { IfOk result (λ chunk. chunk ≡ number_chunk) }
    ensures units { OnOk result (pass.new.units + Cost number_chunk ≡ pass.old.units) }
    ensures blocks { OnOk result (pass.new.blocks ≡ risen pass.old.blocks 1) }
    ensures nodes { OnOk result (pass.new.nodes ≡ risen pass.old.nodes 2) }
    ensures units_back { OnErr result (pass.new.units ≡ pass.old.units) }
{
    let _supply = pass.units();
    let n = number_column(alloc, pass)?;
    let Ok(mut columns) = Vec::with_capacity(alloc, 1) else {
        n.end(pass);
        return Err(NoMemory);
    };
    columns.push_reserved(n);
    match export_table(alloc, columns, 3, pass) {
        Ok(chunk) => Ok(chunk),
        Err((columns, NoMemory)) => {
            release_all(columns, pass);
            Err(NoMemory)
        }
    }
}
