//! A chunk of a dictionary column and a column of whole numbers, made by builders.
ghost use Rattle.std.specs.Prelude.{◌≡◌, ◌≤◌, ◌+◌, IfOk, OnErr, OnOk, None};
ghost use Rattle.arr_export.specs.ValueColumns.{tree_of};
ghost use Rattle.col_build.specs.Holding.{Holds};
ghost use Rattle.run_tests.specs.Own.{entries, k_values, n_values, numbers, own_chunk, places};
ghost use Rattle.raw_array.specs.promise.Members.{Cost};
ghost use Rattle.unit_pass.specs.promise.Tally.{risen};
ghost use Rattle.unit_pass.specs.declared.pass.TheConstants.{ROOM, SUPPLY};

use arr_export::export_table;
use col_build::{Builder, Item};
use column_fill::built_column;
use data_types::DataType;
use raw_array::{RawArray, release_all};
use std::alloc::Global;
use unit_pass::{NoMemory, Pass, ROOM, SUPPLY};

/// The texts of the dictionary: x and y.
fn entries(alloc: Global) -> Result<Builder, NoMemory>
    ensures { IfOk result (λ b. Holds b entries.kind entries.values) }
{
    let mut builder = Builder::new(alloc, DataType::Utf8 { wide: false });
    builder.add(Item::Bytes(b"x"))?;
    builder.add(Item::Bytes(b"y"))?;
    Ok(builder)
}

/// The indices of the column k: x, y, x.
fn places(alloc: Global) -> Result<Builder, NoMemory>
    ensures { IfOk result (λ b. Holds b places.kind places.values) }
{
    let mut builder = Builder::new(
        alloc,
        DataType::Int {
            bits: 32,
            signed: true,
        },
    );
    builder.add(Item::Whole(0))?;
    builder.add(Item::Whole(1))?;
    builder.add(Item::Whole(0))?;
    Ok(builder)
}

/// The values of the column n: 1, 2, 3.
fn numbers(alloc: Global) -> Result<Builder, NoMemory>
    ensures { IfOk result (λ b. Holds b numbers.kind numbers.values) }
{
    let mut builder = Builder::new(
        alloc,
        DataType::Int {
            bits: 64,
            signed: true,
        },
    );
    builder.add(Item::Whole(1))?;
    builder.add(Item::Whole(2))?;
    builder.add(Item::Whole(3))?;
    Ok(builder)
}

/// The column k. Where memory runs out all is released.
fn k_column(alloc: Global, pass: &mut Pass) -> Result<RawArray, NoMemory>
    requires room { ROOM ≤ pass.old.units }
    ensures tree { IfOk result (λ array. array ≡ tree_of k_values) }
    ensures units { OnOk result (pass.new.units + 5 ≡ pass.old.units) }
    ensures blocks { OnOk result (pass.new.blocks ≡ risen pass.old.blocks 3) }
    ensures nodes { OnOk result (pass.new.nodes ≡ risen pass.old.nodes 2) }
    ensures units_back { OnErr result (pass.new.units ≡ pass.old.units) }
{
    let entries = entries(alloc)?;
    let places = places(alloc)?;
    let _supply = pass.units();
    let dictionary = built_column(alloc, entries, None, pass)?;
    built_column(alloc, places, Some(dictionary), pass)
}

/// The column n. Where memory runs out all is released.
fn n_column(alloc: Global, pass: &mut Pass) -> Result<RawArray, NoMemory>
    requires room { 4 ≤ pass.old.units }
    ensures tree { IfOk result (λ array. array ≡ tree_of n_values) }
    ensures units { OnOk result (pass.new.units + 2 ≡ pass.old.units) }
    ensures blocks { OnOk result (pass.new.blocks ≡ risen pass.old.blocks 1) }
    ensures nodes { OnOk result (pass.new.nodes ≡ risen pass.old.nodes 1) }
    ensures units_back { OnErr result (pass.new.units ≡ pass.old.units) }
{
    let numbers = numbers(alloc)?;
    let _supply = pass.units();
    built_column(alloc, numbers, None, pass)
}

/// The columns as a table. Where memory runs out they are released.
fn table(alloc: Global, k: RawArray, n: RawArray, pass: &mut Pass) -> Result<RawArray, NoMemory>
    requires room { ROOM ≤ pass.old.units + (Cost k + Cost n) }
    requires supply { pass.old.units + (Cost k + Cost n) ≤ SUPPLY }
    requires k { k ≡ tree_of k_values }
    requires n { n ≡ tree_of n_values }
    ensures tree { IfOk result (λ array. array ≡ own_chunk) }
    ensures units { OnOk result (pass.new.units + 1 ≡ pass.old.units) }
    ensures blocks { OnOk result (pass.new.blocks ≡ pass.old.blocks) }
    ensures nodes { OnOk result (pass.new.nodes ≡ risen pass.old.nodes 1) }
    ensures units_back { OnErr result (pass.new.units ≡ pass.old.units + (Cost k + Cost n)) }
{
    let Ok(mut columns) = Vec::with_capacity(alloc, 2) else {
        k.end(pass);
        n.end(pass);
        return Err(NoMemory);
    };
    columns.push_reserved(k);
    columns.push_reserved(n);
    match export_table(alloc, columns, 3, pass) {
        Ok(chunk) => Ok(chunk),
        Err((columns, NoMemory)) => {
            release_all(columns, pass);
            Err(NoMemory)
        }
    }
}

/// The chunk: x and 1, y and 2, x and 3. Where memory runs out all is released.
pub(crate) fn own_chunk(alloc: Global, pass: &mut Pass) -> Result<RawArray, NoMemory>
    requires room { ROOM ≤ pass.old.units }
    ensures tree { IfOk result (λ array. array ≡ own_chunk) }
    ensures units { OnOk result (pass.new.units + Cost own_chunk ≡ pass.old.units) }
    ensures blocks { OnOk result (pass.new.blocks ≡ risen pass.old.blocks 4) }
    ensures nodes { OnOk result (pass.new.nodes ≡ risen pass.old.nodes 4) }
    ensures units_back { OnErr result (pass.new.units ≡ pass.old.units) }
{
    let _supply = pass.units();
    let k = k_column(alloc, pass)?;
    match n_column(alloc, pass) {
        Ok(n) => table(alloc, k, n, pass),
        Err(NoMemory) => {
            k.end(pass);
            Err(NoMemory)
        }
    }
}
