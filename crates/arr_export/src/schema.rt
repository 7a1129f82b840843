//! The schema of a table.
ghost use Rattle.std.specs.Prelude.{◌≡◌, ◌+◌, ◌≤◌, All, map, if◌then◌else◌, is_ok, IfOk, OnOk};
ghost use Rattle.data_types.specs.promise.KindTrees.{most_levels};
ghost use Rattle.unit_pass.specs.promise.Tally.{risen};
ghost use Rattle.unit_pass.specs.declared.pass.TheConstants.{CHUNK};
ghost use Rattle.data_types.specs.ColumnView.{column_of};
ghost use Rattle.tree_model.specs.Tree.{Depth};
ghost use Rattle.tree_model.specs.promise.TreeCost.{Nodes};
ghost use Rattle.schema_check.specs.promise.ColumnSchema.{SchemaOf};
ghost use Rattle.schema_check.specs.ColumnSchema.{KindsOk};

use crate::columns::struct_schema;
use data_types::ColumnType;
use raw_schema::RawSchema;
use std::alloc::Global;
use unit_pass::{CHUNK, Name, NoMemory, Pass};

/// The schema of columns: a struct with a child for each column ("The Arrow C Data Interface", "The ArrowSchema
/// structure"). It draws a unit and counts a node for each of its structures; where memory runs out all units are back, and
/// nothing is left over.
#[tactic(auto, using(crate::proofs::Costs::mapped))]
pub fn export_schema(
    alloc: Global,
    columns: &[ColumnType],
    pass: &mut Pass,
) -> Result<RawSchema, NoMemory>
    requires units { CHUNK ≤ pass.old.units }
    requires small { Nodes (SchemaOf (map column_of columns.now)) ≤ CHUNK }
    requires not_deep { Depth (SchemaOf (map column_of columns.now)) ≤ most_levels }
    requires kinds { All (λ c. KindsOk (column_of c).kind) columns.now }
    ensures tree { IfOk result (λ tree. tree ≡ SchemaOf (map column_of columns.now)) }
    ensures units { pass.new.units + (if is_ok result then Nodes (SchemaOf (map column_of columns.now)) else 0) ≡ pass.old.units }
    ensures nodes { OnOk result (pass.new.nodes ≡ risen pass.old.nodes (Nodes (SchemaOf (map column_of columns.now)))) }
    ensures blocks { pass.new.blocks ≡ pass.old.blocks }
{
    let name = Name::from_vec(Vec::new(alloc));
    struct_schema(alloc, name, 0, columns, pass)
}
