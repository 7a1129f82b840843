//! The producer: two columns, and the table of them.
ghost use Rattle.std.specs.Prelude.{◌≡◌, ◌+◌, ◌<◌, ◌≤◌, [], ◌∷◌, length, map, None, IfOk, OnErr};
ghost use Rattle.unit_pass.specs.declared.pass.TheConstants.{CHUNK, SUPPLY};
ghost use Rattle.data_types.specs.promise.FieldText.{form_of};
ghost use Rattle.data_types.specs.Kinds.{KindOk};
ghost use Rattle.data_types.specs.ColumnView.{column_of};
ghost use Rattle.tree_model.specs.promise.TreeCost.{Nodes};
ghost use Rattle.raw_array.specs.promise.Members.{Cost};
ghost use Rattle.col_build.specs.Encoding.{HasForm};
ghost use Rattle.col_build.specs.Holding.{Holds};
ghost use Rattle.col_build.specs.Items.{value_of};
ghost use Rattle.schema_check.specs.promise.ColumnSchema.{SchemaOf};
ghost use Rattle.arr_export.specs.promise.ArrayTrees.{column_tree, table_tree};
ghost use Rattle.arr_export.specs.ArrayTrees.{IsColumn};
ghost use Rattle.arr_export.specs.ValueColumns.{plain_tree};
ghost use Rattle.first_exchange.specs.People.{columns, ids, names, people};
ghost use Rattle.layout_rules.specs.promise.Rules.{window_limit};

use crate::fault::Fault;
use arr_export::{export_column, export_schema, export_table, let_go_column};
use col_build::{Builder, Item, PushFault, SpareBuffers};
use data_types::{ColKind, ColumnType, DataType};
use raw_array::{RawArray, release_all};
use raw_schema::RawSchema;
use std::alloc::Global;
use unit_pass::{CHUNK, Name, NoMemory, Pass, SUPPLY};

/// What is handed over: a schema, and an array that it describes. Whoever has the value owns both structures.
pub struct Table {
    pub schema: RawSchema,
    pub array: RawArray,
}

/// Makes the table of people, which belongs to the caller from then on. On a fault nothing of it is left.
#[tactic(auto, using(crate::proofs::People::costs))]
pub fn produce(alloc: Global, pass: &mut Pass) -> Result<Table, Fault>
    requires units { CHUNK ≤ pass.old.units }
    ensures schema { IfOk result (λ table. table.schema ≡ SchemaOf columns) }
    ensures array { IfOk result (λ table. table.array ≡ people) }
    ensures units { IfOk result (λ table. pass.new.units + (Nodes table.schema + Cost table.array) ≡ pass.old.units) }
    ensures units_back { OnErr result (pass.new.units ≡ pass.old.units) }
{
    let schema = people_schema(alloc, pass)?;
    match people_array(alloc, pass) {
        Ok(array) => Ok(Table { schema, array }),
        Err(fault) => {
            schema.end(pass);
            Err(fault)
        }
    }
}

/// The columns of the table.
fn people_columns(alloc: Global) -> Result<Vec<ColumnType>, NoMemory>
    ensures { IfOk result (λ made. map column_of made.items ≡ columns) }
{
    let Ok(mut columns) = Vec::with_capacity(alloc, 2) else {
        return Err(NoMemory);
    };
    let first = Name::from_slice(alloc, b"id")?;
    let second = Name::from_slice(alloc, b"name")?;
    columns.push_reserved(ColumnType {
        name: first,
        kind: ColKind::Flat(DataType::Int {
            bits: 32,
            signed: true,
        }),
    });
    columns.push_reserved(ColumnType {
        name: second,
        kind: ColKind::Flat(DataType::Utf8 { wide: false }),
    });
    Ok(columns)
}

/// The schema of the table: a struct of the two columns.
fn people_schema(alloc: Global, pass: &mut Pass) -> Result<RawSchema, NoMemory>
    requires units { CHUNK ≤ pass.old.units }
    ensures schema { IfOk result (λ schema. schema ≡ SchemaOf columns) }
    ensures units { IfOk result (λ schema. pass.new.units + Nodes schema ≡ pass.old.units) }
    ensures units_back { OnErr result (pass.new.units ≡ pass.old.units) }
{
    let columns = people_columns(alloc)?;
    export_schema(alloc, columns.as_slice(), pass)
}

/// The array of the table. It owns its columns, as their parent.
#[tactic(auto, using(crate::proofs::People::costs))]
fn people_array(alloc: Global, pass: &mut Pass) -> Result<RawArray, Fault>
    requires units { Cost people ≤ pass.old.units }
    ensures array { IfOk result (λ array. array ≡ people) }
    ensures units { IfOk result (λ array. pass.new.units + Cost array ≡ pass.old.units) }
    ensures units_back { OnErr result (pass.new.units ≡ pass.old.units) }
{
    let ids = ids_column(alloc, pass)?;
    match names_column(alloc, pass) {
        Ok(names) => table_of(alloc, ids, names, pass),
        Err(fault) => {
            // The ids are finished and owned here: they are released before the fault is answered.
            ids.end(pass);
            Err(fault)
        }
    }
}

/// The column of the ids, of which the second is null.
fn ids_column(alloc: Global, pass: &mut Pass) -> Result<RawArray, Fault>
    requires units { 3 ≤ pass.old.units }
    ensures array { IfOk result (λ array. array ≡ plain_tree ids) }
    ensures units { IfOk result (λ array. pass.new.units + Cost array ≡ pass.old.units) }
    ensures units_back { OnErr result (pass.new.units ≡ pass.old.units) }
{
    let ids = [Item::Whole(1), Item::Null, Item::Whole(3)];
    let kind = DataType::Int {
        bits: 32,
        signed: true,
    };
    column(alloc, kind, &ids, pass)
}

/// The column of the names.
fn names_column(alloc: Global, pass: &mut Pass) -> Result<RawArray, Fault>
    requires units { 3 ≤ pass.old.units }
    ensures array { IfOk result (λ array. array ≡ plain_tree names) }
    ensures units { IfOk result (λ array. pass.new.units + Cost array ≡ pass.old.units) }
    ensures units_back { OnErr result (pass.new.units ≡ pass.old.units) }
{
    let names = [
        Item::Bytes(b"Ada"),
        Item::Bytes(b"Emmy"),
        Item::Bytes(b"Grace"),
    ];
    column(alloc, DataType::Utf8 { wide: false }, &names, pass)
}

/// The table of two columns. Where memory runs out they are released.
fn table_of(
    alloc: Global,
    ids: RawArray,
    names: RawArray,
    pass: &mut Pass,
) -> Result<RawArray, Fault>
    requires ids { IsColumn 3 ids }
    requires names { IsColumn 3 names }
    requires units { 1 ≤ pass.old.units }
    requires room { pass.old.units + (Cost ids + Cost names) ≤ SUPPLY }
    ensures array { IfOk result (λ array. array ≡ table_tree 3 (ids ∷ names ∷ [])) }
    ensures units { IfOk result (λ array. pass.new.units + Cost array ≡ pass.old.units + (Cost ids + Cost names)) }
    ensures units_back { OnErr result (pass.new.units ≡ pass.old.units + (Cost ids + Cost names)) }
{
    let Ok(mut columns) = Vec::with_capacity(alloc, 2) else {
        ids.end(pass);
        names.end(pass);
        return Err(Fault::NoMemory);
    };
    // The room is there, so neither column can be refused.
    columns.push_reserved(ids);
    columns.push_reserved(names);
    match export_table(alloc, columns, 3, pass) {
        Ok(table) => Ok(table),
        Err((columns, NoMemory)) => {
            release_all(columns, pass);
            Err(Fault::NoMemory)
        }
    }
}

/// A column of these items, as an array.
fn column(
    alloc: Global,
    kind: DataType,
    items: &[Item<'_>],
    pass: &mut Pass,
) -> Result<RawArray, Fault>
    requires kind { KindOk kind }
    requires flat { HasForm (form_of kind) }
    requires few { length items.now < window_limit }
    requires buffers { 3 ≤ pass.old.units }
    requires units { Cost (column_tree kind (map value_of items.now) None) ≤ pass.old.units }
    ensures array { IfOk result (λ array. array ≡ column_tree kind (map value_of items.now) None) }
    ensures units { IfOk result (λ array. pass.new.units + Cost array ≡ pass.old.units) }
    ensures units_back { OnErr result (pass.new.units ≡ pass.old.units) }
{
    let mut builder = filled(alloc, kind, items)?;
    match builder.finish(alloc, &mut SpareBuffers::new(alloc), pass) {
        Ok(column) => match export_column(alloc, column, None, pass) {
            Ok(array) => Ok(array),
            Err((column, dictionary, NoMemory)) => {
                let_go_column(column, dictionary, pass);
                Err(Fault::NoMemory)
            }
        },
        Err(NoMemory) => Err(Fault::NoMemory),
    }
}

/// A builder that holds these items. It has no unit, only bytes of its own, so it may be dropped.
fn filled(alloc: Global, kind: DataType, items: &[Item<'_>]) -> Result<Builder, PushFault>
    requires kind { KindOk kind }
    requires flat { HasForm (form_of kind) }
    requires few { length items.now < window_limit }
    ensures { IfOk result (λ builder. Holds builder kind (map value_of items.now)) }
{
    let mut builder = Builder::new(alloc, kind);
    for item in items {
        builder.push(*item)?;
    }
    Ok(builder)
}
