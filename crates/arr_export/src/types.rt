//! The types that the schema of columns names.
ghost use Rattle.std.specs.Prelude.{◌≤◌, List, All};
ghost use Rattle.data_types.specs.promise.KindTrees.{most_levels};
ghost use Rattle.data_types.specs.promise.Table.{Column};
ghost use Rattle.tree_model.specs.Tree.{Depth};
ghost use Rattle.schema_check.specs.promise.Schemas.{TypedOf};
ghost use Rattle.data_types.specs.promise.ColumnKinds.{type_of_columns};
ghost use Rattle.data_types.specs.ColumnForms.{AreColumnKinds};
ghost use Rattle.schema_check.specs.promise.ColumnSchema.{SchemaOf};

use fmt_string::spelling_reads_back;

/// A law: the schema of columns meets the schema rules, and its types are those of the columns ("The Arrow C Data
/// Interface", "The ArrowSchema structure").
pub fn column_schemas_are_lawful()
    ensures { (columns : List Column) → All (λ c. AreColumnKinds c.kind) columns → Depth (SchemaOf columns) ≤ most_levels
        → TypedOf (SchemaOf columns) (type_of_columns columns) }
{
    spelling_reads_back();
}
