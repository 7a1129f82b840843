//! The columns after a stage, with what the making of their schema asks for.
ghost use Rattle.std.specs.Prelude.{◌≡◌, ◌+◌, ◌≤◌, All, map, IfOk, MatchResult};
ghost use Rattle.data_types.specs.promise.KindTrees.{most_levels};
ghost use Rattle.unit_pass.specs.promise.Tally.{risen};
ghost use Rattle.unit_pass.specs.declared.pass.TheConstants.{CHUNK};
ghost use Rattle.data_types.specs.ColumnView.{column_of};
ghost use Rattle.tree_model.specs.Tree.{Depth};
ghost use Rattle.tree_model.specs.promise.TreeCost.{Nodes};
ghost use Rattle.schema_check.specs.promise.ColumnSchema.{SchemaOf};
ghost use Rattle.schema_check.specs.ColumnSchema.{KindsOk};

use arr_export::export_schema;
use data_types::ColumnType;
use raw_schema::RawSchema;
use std::alloc::Global;
use std::marker::Model;
use unit_pass::{CHUNK, NoMemory, Pass};

/// Columns whose schema can be made: of valid kinds, with at most 2^15 structures and 64 levels. Contracts see their list.
#[derive(Drop)]
pub struct OutColumns {
    list: Vec<ColumnType>,
}

impl Model for OutColumns {
    ghost use Rattle.std.specs.Prelude.{List, ◌≤◌, All, map};
    ghost use Rattle.std.specs.Coded.{codes};
    ghost use Rattle.unit_pass.specs.declared.pass.TheConstants.{CHUNK};
    ghost use Rattle.tree_model.specs.Tree.{Depth};
    ghost use Rattle.tree_model.specs.promise.TreeCost.{Nodes};
    ghost use Rattle.data_types.specs.ColumnView.{column_of};
    ghost use Rattle.data_types.specs.promise.KindTrees.{most_levels};
    ghost use Rattle.data_types.specs.declared.kind.ColumnType.{ColumnType};
    ghost use Rattle.data_types.specs.contracts.kind.ColumnType as columns;
    ghost use Rattle.schema_check.specs.promise.ColumnSchema.{SchemaOf};
    ghost use Rattle.schema_check.specs.ColumnSchema.{KindsOk};

    ghost Value = { List ColumnType };

    ghost coded = { Prim.hlevel (codes, columns.the_row.coded) };

    ghost view = { λ s. s.list.items };

    ghost invariant = { λ s. (All (λ c. KindsOk (column_of c).kind) s.list.items)
        × (Nodes (SchemaOf (map column_of s.list.items)) ≤ CHUNK) × (Depth (SchemaOf (map column_of s.list.items)) ≤ most_levels) };
}

impl OutColumns {
    /// Keeps the columns. Takes no memory.
    pub fn new(list: Vec<ColumnType>) -> OutColumns
        requires kinds { All (λ c. KindsOk (column_of c).kind) list.items }
        requires small { Nodes (SchemaOf (map column_of list.items)) ≤ CHUNK }
        requires not_deep { Depth (SchemaOf (map column_of list.items)) ≤ most_levels }
        ensures { result ≡ list.items }
    {
        OutColumns { list }
    }

    /// A law: their kinds are in order, and their schema is small and not deep. The call does nothing.
    #[inline(always)]
    pub fn schema_is_small(&self)
        ensures kinds { All (λ c. KindsOk (column_of c).kind) self.now }
        ensures small { Nodes (SchemaOf (map column_of self.now)) ≤ CHUNK }
        ensures not_deep { Depth (SchemaOf (map column_of self.now)) ≤ most_levels }
    {
        let _list = &self.list;
    }

    /// The columns, lent.
    pub fn as_slice(&self) -> &[ColumnType]
        ensures { result.now ≡ self.now }
    {
        self.list.as_slice()
    }

    /// The schema of the columns ("The Arrow C Data Interface", "The ArrowSchema structure"). It draws a unit and counts a
    /// node for each of its structures. `NoMemory` comes only where memory runs out, and gives the units back.
    pub fn schema(&self, alloc: Global, pass: &mut Pass) -> Result<RawSchema, NoMemory>
        requires room { CHUNK ≤ pass.old.units }
        ensures tree { IfOk result (λ schema. schema ≡ SchemaOf (map column_of self.now)) }
        ensures units { MatchResult result (λ schema. pass.new.units + Nodes schema ≡ pass.old.units) (λ _. pass.new.units ≡ pass.old.units) }
        ensures nodes { IfOk result (λ schema. pass.new.nodes ≡ risen pass.old.nodes (Nodes schema)) }
        ensures blocks { pass.new.blocks ≡ pass.old.blocks }
    {
        export_schema(alloc, self.list.as_slice(), pass)
    }
}
