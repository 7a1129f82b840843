//! The schemas of columns.
ghost use Rattle.std.specs.Prelude.{◌≡◌, ◌+◌, ◌-◌, ◌^◌, ◌<◌, ◌≤◌, length, map, if◌then◌else◌, is_ok, None, IfOk, OnOk};
ghost use Rattle.unit_pass.specs.promise.Tally.{risen};
ghost use Rattle.unit_pass.specs.declared.pass.TheConstants.{CHUNK};
ghost use Rattle.data_types.specs.ColumnView.{kind_of};
ghost use Rattle.data_types.specs.Kinds.{KindOk};
ghost use Rattle.data_types.specs.promise.Table.{Dict};
ghost use Rattle.tree_model.specs.promise.TreeData.{absent};
ghost use Rattle.tree_model.specs.Tree.{Depth, depth_of_all};
ghost use Rattle.tree_model.specs.promise.TreeCost.{Nodes};
ghost use Rattle.raw_schema.specs.Members.{nodes_of_all};
ghost use Rattle.schema_check.specs.promise.ColumnSchema.{column_schema, node, struct_format, values_schema};
ghost use Rattle.schema_check.specs.ColumnSchema.{KindsOk};
ghost use Rattle.arr_export.specs.CodeSchema.{ColumnsOk, code_schema, code_schemas};

use data_types::{ColKind, ColumnType, DataType};
use fmt_string::write_format;
use raw_schema::{RawSchema, SchemaParts, built_schema, release_all};
use std::alloc::Global;
use unit_pass::{CHUNK, Name, NoMemory, Pass};

/// The flag of columns that may have nulls.
const NULLABLE: i64 = 2;

/// Values of a type, without a name.
fn values_schema(alloc: Global, kind: &DataType, pass: &mut Pass) -> Result<RawSchema, NoMemory>
    requires kind { KindOk kind.now }
    requires units { 1 ≤ pass.old.units }
    ensures tree { IfOk result (λ tree. tree ≡ values_schema None kind.now) }
    ensures units { pass.new.units + (if is_ok result then 1 else 0) ≡ pass.old.units }
    ensures blocks { pass.new.blocks ≡ pass.old.blocks }
    ensures nodes { OnOk result (pass.new.nodes ≡ risen pass.old.nodes 1) }
{
    let parts = SchemaParts {
        format: write_format(alloc, kind)?,
        name: None,
        metadata: None,
        flags: NULLABLE,
        children: Vec::new(alloc),
        dictionary: None,
    };
    built_schema(alloc, parts, pass)
}

/// Indices of 32 bits into a dictionary of values of a type.
fn dictionary_schema(
    alloc: Global,
    name: &Name,
    kind: &DataType,
    pass: &mut Pass,
) -> Result<RawSchema, NoMemory>
    requires kind { KindOk kind.now }
    requires units { 2 ≤ pass.old.units }
    ensures tree { IfOk result (λ tree. tree ≡ column_schema name.now (Dict kind.now)) }
    ensures units { pass.new.units + (if is_ok result then 2 else 0) ≡ pass.old.units }
    ensures blocks { pass.new.blocks ≡ pass.old.blocks }
    ensures nodes { OnOk result (pass.new.nodes ≡ risen pass.old.nodes 2) }
{
    let format = Vec::from_slice(alloc, b"i")?;
    let name = name.share(alloc)?;
    let values = values_schema(alloc, kind, pass)?;
    let parts = SchemaParts {
        format,
        name: None,
        metadata: None,
        flags: NULLABLE,
        children: Vec::new(alloc),
        dictionary: Some(values),
    };
    Ok(built_schema(alloc, parts, pass)?.named(name))
}

/// The schema of a column.
#[cycle(schema)]
fn column_schema(
    alloc: Global,
    name: &Name,
    kind: &ColKind,
    pass: &mut Pass,
) -> Result<RawSchema, NoMemory>
    requires kinds { KindsOk (kind_of kind.now) }
    requires units { Nodes (column_schema name.now (kind_of kind.now)) ≤ pass.old.units }
    requires small { Nodes (column_schema name.now (kind_of kind.now)) ≤ CHUNK }
    requires not_deep { Depth (column_schema name.now (kind_of kind.now)) ≤ 127 }
    ensures tree { IfOk result (λ tree. tree ≡ column_schema name.now (kind_of kind.now)) }
    ensures units { pass.new.units + (if is_ok result then Nodes (column_schema name.now (kind_of kind.now)) else 0) ≡ pass.old.units }
    ensures blocks { pass.new.blocks ≡ pass.old.blocks }
    ensures nodes { OnOk result (pass.new.nodes ≡ risen pass.old.nodes (Nodes (column_schema name.now (kind_of kind.now)))) }
{
    match kind {
        ColKind::Flat(kind) => {
            let name = name.share(alloc)?;
            Ok(values_schema(alloc, kind, pass)?.named(name))
        }
        ColKind::Dict(kind) => dictionary_schema(alloc, name, kind, pass),
        ColKind::Columns(columns) => {
            let name = name.share(alloc)?;
            struct_schema(alloc, name, NULLABLE, columns.as_slice(), pass)
        }
    }
}

/// A struct of columns.
#[cycle(schema)]
pub(crate) fn struct_schema(
    alloc: Global,
    name: Name,
    flags: i64,
    columns: &[ColumnType],
    pass: &mut Pass,
) -> Result<RawSchema, NoMemory>
    requires kinds { ColumnsOk columns.now }
    requires units { 1 + nodes_of_all (code_schemas columns.now) ≤ pass.old.units }
    requires small { 1 + nodes_of_all (code_schemas columns.now) ≤ CHUNK }
    requires not_deep { depth_of_all (code_schemas columns.now) ≤ 127 }
    ensures tree { IfOk result (λ tree. tree ≡ node struct_format (Some name) flags (code_schemas columns.now) absent) }
    ensures units { pass.new.units + (if is_ok result then 1 + nodes_of_all (code_schemas columns.now) else 0) ≡ pass.old.units }
    ensures blocks { pass.new.blocks ≡ pass.old.blocks }
    ensures nodes { OnOk result (pass.new.nodes ≡ risen pass.old.nodes (1 + nodes_of_all (code_schemas columns.now))) }
{
    let format = Vec::from_slice(alloc, b"+s")?;
    let children = column_schemas(alloc, columns, pass)?;
    let parts = SchemaParts {
        format,
        name: None,
        metadata: None,
        flags,
        children,
        dictionary: None,
    };
    Ok(built_schema(alloc, parts, pass)?.named(name))
}

/// The schemas of columns, one after the other.
#[cycle(schema)]
fn column_schemas(
    alloc: Global,
    columns: &[ColumnType],
    pass: &mut Pass,
) -> Result<Vec<RawSchema>, NoMemory>
    requires kinds { ColumnsOk columns.now }
    requires units { nodes_of_all (code_schemas columns.now) ≤ pass.old.units }
    requires small { nodes_of_all (code_schemas columns.now) ≤ CHUNK }
    requires not_deep { depth_of_all (code_schemas columns.now) ≤ 127 }
    ensures trees { IfOk result (λ children. children.items ≡ map code_schema columns.now) }
    ensures units { pass.new.units + (if is_ok result then nodes_of_all (code_schemas columns.now) else 0) ≡ pass.old.units }
    ensures blocks { pass.new.blocks ≡ pass.old.blocks }
    ensures nodes { OnOk result (pass.new.nodes ≡ risen pass.old.nodes (nodes_of_all (code_schemas columns.now))) }
{
    let Ok(mut children) = Vec::with_capacity(alloc, columns.len()) else {
        return Err(NoMemory);
    };
    for column in columns {
        match column_schema(alloc, &column.name, &column.kind, pass) {
            Ok(child) => children.push_reserved(child),
            Err(NoMemory) => {
                release_all(children, pass);
                return Err(NoMemory);
            }
        }
    }
    Ok(children)
}
