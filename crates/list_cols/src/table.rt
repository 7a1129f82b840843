//! The array of the rows whose lists are spread out.
ghost use Rattle.std.specs.Prelude.{◌≡◌, ◌⊎◌, ◌<◌, ◌≤◌, ◌+◌, ◌≤ℤ◌, ◌≢◌, pos, true, false, IfOk, IfErr, OnOk, MatchResult, length};
ghost use Rattle.col_build.specs.promise.Encoding.{narrow_limit};
ghost use Rattle.data_types.specs.KindTrees.{TypedOk};
ghost use Rattle.data_types.specs.promise.TypedView.{typed_of};
ghost use Rattle.layout_rules.specs.promise.Layout.{first};
ghost use Rattle.layout_rules.specs.promise.Values.{rows_of};
ghost use Rattle.layout_rules.specs.promise.Walk.{ChunkOk};
ghost use Rattle.raw_array.specs.promise.Members.{Cost, members_of};
ghost use Rattle.tree_model.specs.promise.TreeParts.{IsLive, children_of};
ghost use Rattle.unit_pass.specs.promise.Tally.{risen};
ghost use Rattle.unit_pass.specs.declared.pass.TheConstants.{CHUNK};
ghost use Rattle.list_cols.specs.promise.Exploded.{exploded_blocks, exploded_kinds};
ghost use Rattle.list_cols.specs.Exploded.{exploded_array};
ghost use Rattle.list_cols.specs.promise.Faults.{is_too_long, most_columns, most_named};
ghost use Rattle.list_cols.specs.promise.Nested.{Explode};
ghost use Rattle.list_cols.specs.Spreading.{AllFit, CanSpread, chunk_runs};

use crate::columns::new_columns;
use crate::fault::ListFault;
use crate::kinds::list_column;
use crate::long::bytes_fault;
use crate::rows::exploded_rows;
use crate::runs::list_runs;
use arr_export::export_table;
use column_fill::Run;
use data_types::Typed;
use layout_rules::lawful_root;
use raw_array::{RawArray, release_all};
use std::alloc::Global;
use unit_pass::{CHUNK, NoMemory, Pass};

/// The number of items of a chunk's columns before its first row.
fn first_of(array: &RawArray) -> u64
    requires live { IsLive array.now }
    requires from { pos 0 ≤ℤ (members_of array.now).offset }
    ensures { result ≡ first (members_of array.now) }
{
    array.offset() as u64
}

/// How often each row of a chunk is there once the lists of a column are spread out.
fn chunk_runs(
    alloc: Global,
    typed: &Typed,
    array: &RawArray,
    column: usize,
) -> Result<Vec<Run>, NoMemory>
    requires types { TypedOk (typed_of typed.now) }
    requires chunk { ChunkOk (typed_of typed.now) array.now }
    requires inside { column < length (children_of (typed_of typed.now)) }
    ensures { IfOk result (λ runs. runs.items ≡ chunk_runs column (typed_of typed.now) array.now) }
{
    lawful_root(typed, array);
    let lists = list_column(typed, array, column);
    list_runs(alloc, &lists, first_of(array))
}

/// The table of this many rows, made of new columns.
fn made_table(
    alloc: Global,
    typed: &Typed,
    array: &RawArray,
    column: usize,
    runs: &[Run],
    rows: u64,
    pass: &mut Pass,
) -> Result<RawArray, NoMemory>
    requires types { TypedOk (typed_of typed.now) }
    requires can { CanSpread column (typed_of typed.now) array.now }
    requires runs { runs.now ≡ chunk_runs column (typed_of typed.now) array.now }
    requires fits { AllFit column (typed_of typed.now) array.now }
    requires few { length (children_of (typed_of typed.now)) ≤ most_columns }
    requires rows { rows ≡ length (Explode column (rows_of (typed_of typed.now) array.now)) }
    requires short { rows < narrow_limit }
    requires units { CHUNK ≤ pass.old.units }
    ensures made { IfOk result (λ made. made ≡ exploded_array column (typed_of typed.now) array.now) }
    ensures cost { IfOk result (λ made. Cost made ≤ 4097) }
    ensures units { MatchResult result (λ made. pass.new.units + Cost made ≡ pass.old.units) (λ _. pass.new.units ≡ pass.old.units) }
    ensures blocks { OnOk result (pass.new.blocks ≡ risen pass.old.blocks (exploded_blocks column (typed_of typed.now) array.now)) }
    ensures nodes { OnOk result (pass.new.nodes ≡ risen pass.old.nodes (length (children_of (typed_of typed.now)) + 1)) }
{
    let columns = new_columns(alloc, typed, array, column, runs, pass)?;
    match export_table(alloc, columns, rows as i64, pass) {
        Ok(made) => Ok(made),
        Err((columns, NoMemory)) => {
            release_all(columns, pass);
            Err(NoMemory)
        }
    }
}

/// The array of a chunk's rows with the lists of a column spread out, or why there is none: too many rows, or too many bytes in a
/// column, which is answered before anything is made.
pub(crate) fn spread_table(
    alloc: Global,
    typed: &Typed,
    array: &RawArray,
    column: usize,
    pass: &mut Pass,
) -> Result<RawArray, ListFault>
    requires types { TypedOk (typed_of typed.now) }
    requires can { CanSpread column (typed_of typed.now) array.now }
    requires few { length (children_of (typed_of typed.now)) ≤ most_columns }
    requires units { CHUNK ≤ pass.old.units }
    ensures made { IfOk result (λ made. made ≡ exploded_array column (typed_of typed.now) array.now) }
    ensures fits { OnOk result (AllFit column (typed_of typed.now) array.now) }
    ensures short { OnOk result (is_too_long (exploded_kinds column (typed_of typed.now)) (Explode column (rows_of (typed_of typed.now) array.now)) ≡ false) }
    ensures long { most_named < length (Explode column (rows_of (typed_of typed.now) array.now)) → MatchResult result (λ _. ⊥) (λ fault. fault ≡ ListFault.TooLong) }
    ensures fault { IfErr result (λ fault. (fault ≡ ListFault.NoMemory) ⊎ ((fault ≡ ListFault.TooLong)
        × (is_too_long (exploded_kinds column (typed_of typed.now)) (Explode column (rows_of (typed_of typed.now) array.now)) ≡ true))) }
    ensures refused { IfErr result (λ fault. fault ≢ ListFault.NoMemory → pass.new ≡ pass.old) }
    ensures cost { IfOk result (λ made. Cost made ≤ 4097) }
    ensures units { MatchResult result (λ made. pass.new.units + Cost made ≡ pass.old.units) (λ _. pass.new.units ≡ pass.old.units) }
    ensures blocks { OnOk result (pass.new.blocks ≡ risen pass.old.blocks (exploded_blocks column (typed_of typed.now) array.now)) }
    ensures nodes { OnOk result (pass.new.nodes ≡ risen pass.old.nodes (length (children_of (typed_of typed.now)) + 1)) }
{
    let Some(rows) = exploded_rows(typed, array, column) else {
        return Err(ListFault::TooLong);
    };
    let Ok(runs) = chunk_runs(alloc, typed, array, column) else {
        return Err(ListFault::NoMemory);
    };
    if let Some(fault) = bytes_fault(typed, array, column, &runs) {
        return Err(fault);
    }
    match made_table(alloc, typed, array, column, &runs, rows, pass) {
        Ok(made) => Ok(made),
        Err(NoMemory) => Err(ListFault::NoMemory),
    }
}
