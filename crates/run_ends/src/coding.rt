//! Values as runs: what their schema and their array mean. The calls do nothing.
ghost use Rattle.std.specs.Prelude.{◌≡◌, ◌<◌, ℕ, List, None, length};
ghost use Rattle.data_types.specs.ColumnForms.{IsColumnKind};
ghost use Rattle.data_types.specs.promise.Value.{Value};
ghost use Rattle.data_types.specs.declared.kind.DataType.{DataType};
ghost use Rattle.col_build.specs.promise.Encoding.{narrow_limit};
ghost use Rattle.col_build.specs.Encoding.{Fits};
ghost use Rattle.run_ends.specs.promise.Runs.{run_values};
ghost use Rattle.run_ends.specs.RunRules.{RunsOk};
ghost use Rattle.arr_export.specs.promise.ArrayTrees.{column_tree};
ghost use Rattle.arr_export.specs.ArrayTrees.{flat_type};
ghost use Rattle.layout_rules.specs.promise.Values.{values_of};
ghost use Rattle.run_ends.specs.CodeFaults.{decode_fault};
ghost use Rattle.run_ends.specs.promise.RunCoding.{runs_from};
ghost use Rattle.run_ends.specs.RunCoding.{AreApart, decoded_tree, runs_schema, runs_tree, runs_type};
ghost use Rattle.run_ends.specs.promise.RunSchemas.{RunsOf};

/// A law: the schema of values as runs is in order and has their kinds, their array is lawful and has these values, and no two runs
/// that are side by side have the same one ("Arrow Columnar Format", "Run-End Encoded Layout").
pub fn coded_values_are_the_values()
    ensures schema { (kind : DataType) → IsColumnKind kind → RunsOf (runs_schema kind) (runs_type kind) }
    ensures lawful { (kind : DataType) (values : List Value) → Fits kind values → length values < narrow_limit → RunsOk (runs_type kind) (runs_tree kind values) }
    ensures values { (kind : DataType) (values : List Value) → Fits kind values → length values < narrow_limit
        → run_values (runs_type kind) (runs_tree kind values) ≡ values }
    ensures apart { (values : List Value) → AreApart (runs_from 0 values) }
{
    fmt_string::spelling_reads_back();
    arr_export::encoded_columns_are_lawful();
}

/// A law: the items of values as runs can be made into a column, and it is the column of the values ("Arrow Columnar Format",
/// "Run-End Encoded Layout").
pub fn decoded_runs_are_the_values()
    ensures free { (kind : DataType) (values : List Value) → Fits kind values → length values < narrow_limit
        → decode_fault (flat_type kind None) (run_values (runs_type kind) (runs_tree kind values)) ≡ None }
    ensures column { (kind : DataType) (values : List Value) → Fits kind values → length values < narrow_limit
        → decoded_tree (runs_type kind) (runs_tree kind values) ≡ column_tree kind values None }
    ensures values { (kind : DataType) (values : List Value) → Fits kind values → length values < narrow_limit
        → values_of (flat_type kind None) (decoded_tree (runs_type kind) (runs_tree kind values)) ≡ values }
{
    coded_values_are_the_values();
    arr_export::encoded_columns_are_lawful();
}
