//! The schema and the array of runs, over those of their ends and their values.
ghost use Rattle.std.specs.Prelude.{◌≡◌, ◌+◌, ◌-◌, ◌^◌, ◌<◌, ◌≤◌, ◌∷◌, [], List, codes, pos, length, map, None, Some, IfOk, OnOk, MatchResult, if◌then◌else◌, is_ok};
ghost use Rattle.unit_pass.specs.promise.Tally.{risen};
ghost use Rattle.data_types.specs.Kinds.{KindOk};
ghost use Rattle.data_types.specs.declared.kind.DataType.{DataType as AType};
ghost use Rattle.tree_model.specs.Tree.{Depth};
ghost use Rattle.schema_check.specs.promise.ColumnSchema.{values_schema};
ghost use Rattle.tree_model.specs.promise.TreeCost.{Nodes};
ghost use Rattle.raw_array.specs.promise.Members.{Cost};
ghost use Rattle.col_build.specs.promise.Finished.{blocks_of};
ghost use Rattle.run_ends.specs.promise.RunCoding.{Run};
ghost use Rattle.run_ends.specs.RunCoding.{end_kind, end_of, ends_schema, over_runs, runs_schema, tree_of_runs, value_of};
ghost use Rattle.run_ends.specs.RunMaking.{HoldsRuns};

use crate::encoder::Making;
use column_fill::built_column;
use data_types::DataType;
use fmt_string::write_format;
use raw_array::{ArrayParts, RawArray, ReleaseKind, built_array};
use raw_schema::{RawSchema, SchemaParts, built_schema};
use std::alloc::Global;
use unit_pass::{NoMemory, Pass, SUPPLY};

// ---- schemas

/// Values may be null.
const NULLABLE: i64 = 2;

/// The schema of the ends.
fn ends_schema(alloc: Global, pass: &mut Pass) -> Result<RawSchema, NoMemory>
    requires unit { 1 ≤ pass.old.units }
    ensures tree { IfOk result (λ tree. tree ≡ ends_schema) }
    ensures units { pass.new.units + (if is_ok result then 1 else 0) ≡ pass.old.units }
    ensures blocks { OnOk result (pass.new.blocks ≡ pass.old.blocks) }
    ensures nodes { OnOk result (pass.new.nodes ≡ risen pass.old.nodes 1) }
{
    let parts = SchemaParts {
        format: Vec::from_slice(alloc, b"i")?,
        name: Some(Vec::from_slice(alloc, b"run_ends")?),
        metadata: None,
        flags: 0,
        children: Vec::new(alloc),
        dictionary: None,
    };
    built_schema(alloc, parts, pass)
}

/// The schema of the runs' values, of this type.
fn values_schema(alloc: Global, kind: &DataType, pass: &mut Pass) -> Result<RawSchema, NoMemory>
    requires kind { KindOk kind.now }
    requires unit { 1 ≤ pass.old.units }
    ensures tree { IfOk result (λ tree. tree ≡ values_schema (Some (codes "values")) kind.now) }
    ensures units { pass.new.units + (if is_ok result then 1 else 0) ≡ pass.old.units }
    ensures blocks { OnOk result (pass.new.blocks ≡ pass.old.blocks) }
    ensures nodes { OnOk result (pass.new.nodes ≡ risen pass.old.nodes 1) }
{
    let parts = SchemaParts {
        format: write_format(alloc, kind)?,
        name: Some(Vec::from_slice(alloc, b"values")?),
        metadata: None,
        flags: NULLABLE,
        children: Vec::new(alloc),
        dictionary: None,
    };
    built_schema(alloc, parts, pass)
}

/// The schemas of the two children.
fn child_schemas(
    alloc: Global,
    kind: &DataType,
    pass: &mut Pass,
) -> Result<Vec<RawSchema>, NoMemory>
    requires kind { KindOk kind.now }
    requires units { 2 ≤ pass.old.units }
    ensures trees { IfOk result (λ kids. kids.items ≡ ends_schema ∷ values_schema (Some (codes "values")) kind.now ∷ []) }
    ensures units { pass.new.units + (if is_ok result then 2 else 0) ≡ pass.old.units }
    ensures blocks { OnOk result (pass.new.blocks ≡ pass.old.blocks) }
    ensures nodes { OnOk result (pass.new.nodes ≡ risen pass.old.nodes 2) }
{
    let ends = ends_schema(alloc, pass)?;
    match values_schema(alloc, kind, pass) {
        Ok(values) => two_schemas(alloc, ends, values, pass),
        Err(NoMemory) => {
            ends.end(pass);
            Err(NoMemory)
        }
    }
}

/// Two schemas as a list, or nothing that is left of them.
fn two_schemas(
    alloc: Global,
    one: RawSchema,
    two: RawSchema,
    pass: &mut Pass,
) -> Result<Vec<RawSchema>, NoMemory>
    requires room { pass.old.units + (Nodes one + Nodes two) ≤ SUPPLY }
    ensures trees { IfOk result (λ both. both.items ≡ one ∷ two ∷ []) }
    ensures units { pass.new.units ≡ pass.old.units + (if is_ok result then 0 else Nodes one + Nodes two) }
    ensures blocks { OnOk result (pass.new.blocks ≡ pass.old.blocks) }
    ensures nodes { OnOk result (pass.new.nodes ≡ pass.old.nodes) }
{
    let Ok(mut both) = Vec::with_capacity(alloc, 2) else {
        one.end(pass);
        two.end(pass);
        return Err(NoMemory);
    };
    both.push_reserved(one);
    both.push_reserved(two);
    Ok(both)
}

/// The schema of runs whose values are of this type.
pub(crate) fn runs_schema(
    alloc: Global,
    kind: &DataType,
    pass: &mut Pass,
) -> Result<RawSchema, NoMemory>
    requires kind { KindOk kind.now }
    requires units { 3 ≤ pass.old.units }
    ensures tree { IfOk result (λ tree. tree ≡ runs_schema kind.now) }
    ensures units { pass.new.units + (if is_ok result then 3 else 0) ≡ pass.old.units }
    ensures blocks { OnOk result (pass.new.blocks ≡ pass.old.blocks) }
    ensures nodes { OnOk result (pass.new.nodes ≡ risen pass.old.nodes 3) }
{
    let format = Vec::from_slice(alloc, b"+r")?;
    let parts = SchemaParts {
        format,
        name: None,
        metadata: None,
        flags: 0,
        children: child_schemas(alloc, kind, pass)?,
        dictionary: None,
    };
    built_schema(alloc, parts, pass)
}

// ---- arrays

/// An array of this many items over its ends and its values.
fn over_runs(
    alloc: Global,
    count: u64,
    ends: RawArray,
    values: RawArray,
    pass: &mut Pass,
) -> Result<RawArray, NoMemory>
    requires unit { 1 ≤ pass.old.units }
    requires room { pass.old.units + (Cost ends + Cost values) ≤ SUPPLY }
    requires count { count < 2 ^ 63 }
    requires ends_not_deep { Depth ends ≤ 127 }
    requires values_not_deep { Depth values ≤ 127 }
    ensures tree { IfOk result (λ tree. tree ≡ over_runs count ends values) }
    ensures units { MatchResult result
        (λ tree. pass.new.units + Cost tree ≡ pass.old.units + (Cost ends + Cost values))
        (λ _. pass.new.units ≡ pass.old.units + (Cost ends + Cost values)) }
    ensures blocks { OnOk result (pass.new.blocks ≡ pass.old.blocks) }
    ensures nodes { OnOk result (pass.new.nodes ≡ risen pass.old.nodes 1) }
{
    let Ok(mut children) = Vec::with_capacity(alloc, 2) else {
        ends.end(pass);
        values.end(pass);
        return Err(NoMemory);
    };
    children.push_reserved(ends);
    children.push_reserved(values);
    let parts = ArrayParts {
        length: count as i64,
        null_count: 0,
        offset: 0,
        buffers: Vec::new(alloc),
        children,
        dictionary: None,
        kind: ReleaseKind::Assembled,
    };
    built_array(alloc, parts, pass)
}

/// The array of runs, whose columns are finished, with this many items.
pub(crate) fn runs_array(
    alloc: Global,
    making: Making,
    count: u64,
    pass: &mut Pass,
) -> Result<RawArray, NoMemory>
    requires holds { (kind : AType) × (runs : List Run) × HoldsRuns making kind runs }
    requires count { count < 2 ^ 63 }
    requires units { 9 ≤ pass.old.units }
    ensures tree { IfOk result (λ tree. (kind : AType) (runs : List Run) → HoldsRuns making kind runs → tree ≡ tree_of_runs kind count runs) }
    ensures units { MatchResult result (λ tree. pass.new.units + Cost tree ≡ pass.old.units) (λ _. pass.new.units ≡ pass.old.units) }
    ensures blocks { OnOk result ((kind : AType) (runs : List Run) → HoldsRuns making kind runs
        → pass.new.blocks ≡ risen pass.old.blocks (blocks_of end_kind (map end_of runs) + blocks_of kind (map value_of runs))) }
    ensures nodes { OnOk result (pass.new.nodes ≡ risen pass.old.nodes 3) }
{
    let Making { ends, values } = making;
    let ends = built_column(alloc, ends, None, pass)?;
    match built_column(alloc, values, None, pass) {
        Ok(values) => over_runs(alloc, count, ends, values, pass),
        Err(NoMemory) => {
            ends.end(pass);
            Err(NoMemory)
        }
    }
}
