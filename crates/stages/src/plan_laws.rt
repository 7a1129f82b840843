//! Laws on stages that no rule refuses, and on the schemas of their columns. The calls do nothing.
ghost use Rattle.std.specs.Prelude.{◌≡◌, ◌≤◌, ◌+◌, ◌*◌, List, All, length};
ghost use Rattle.data_types.specs.ColumnForms.{AreColumnKinds};
ghost use Rattle.data_types.specs.promise.Table.{Column};
ghost use Rattle.tree_model.specs.Tree.{Depth};
ghost use Rattle.tree_model.specs.promise.TreeCost.{Nodes};
ghost use Rattle.schema_check.specs.promise.ColumnSchema.{SchemaOf};
ghost use Rattle.stage_model.specs.promise.Traffic.{Made, table_nodes};
ghost use Rattle.stage_model.specs.promise.Typing.{Stage, most_columns};
ghost use Rattle.stage_model.specs.Typing.{IsStageOver};
ghost use Rattle.stream_face.specs.Lawful.{DictsHaveBytes, column_leaves};
ghost use Rattle.stages.specs.Structs.{column_structs};
ghost use Rattle.stages.specs.Distinct.{DistinctPicks};

/// A law: what a stage that no rule refuses leaves of the columns before it.
pub fn stages_keep_columns()
    ensures kinds { (columns : List Column) (stage : Stage) → IsStageOver columns stage
        → All (λ c. AreColumnKinds c.kind) columns → All (λ c. AreColumnKinds c.kind) stage.columns }
    ensures dicts { (columns : List Column) (stage : Stage) → IsStageOver columns stage
        → All (λ c. DictsHaveBytes c.kind) columns → All (λ c. DictsHaveBytes c.kind) stage.columns }
    ensures leaves { (columns : List Column) (stage : Stage) → IsStageOver columns stage
        → column_leaves columns ≤ most_columns → column_leaves stage.columns ≤ most_columns }
    ensures few { (columns : List Column) (stage : Stage) → IsStageOver columns stage → length stage.columns ≤ most_columns }
    ensures structs { (columns : List Column) (stage : Stage) → IsStageOver columns stage
        → column_structs stage.columns ≤ 1 + column_structs columns }
{}

/// A law: a stage that no rule refuses picks different columns.
pub fn picks_are_distinct()
    ensures { (columns : List Column) (stage : Stage) → IsStageOver columns stage → DistinctPicks stage.step }
{}

/// A law: the schema of columns is small, and how many nodes a run counts for it.
pub fn schemas_are_small()
    ensures nodes { (columns : List Column) → Nodes (SchemaOf columns) ≤ 1 + 2 * column_leaves columns + column_structs columns }
    ensures depth { (columns : List Column) → Depth (SchemaOf columns) ≤ 3 + column_structs columns }
    ensures counted { (columns : List Column) → Nodes (SchemaOf columns) ≡ table_nodes Made columns }
{}
