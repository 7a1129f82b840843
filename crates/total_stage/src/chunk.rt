//! The chunk of the row of totals.
ghost use Rattle.std.specs.Prelude.{◌≡◌, ◌+◌, ◌*◌, ◌≤◌, ◌∷◌, [], ℕ, List, length, map, IfOk, OnOk, MatchResult};
ghost use Rattle.data_types.specs.ColumnView.{column_of};
ghost use Rattle.data_types.specs.promise.Table.{Row};
ghost use Rattle.unit_pass.specs.promise.Tally.{risen};
ghost use Rattle.raw_array.specs.promise.Members.{Cost};
ghost use Rattle.csv_read.specs.Chunks.{chunk_blocks, chunk_of};
ghost use Rattle.stage_model.specs.Stages.{totals_row};
ghost use Rattle.total_stage.specs.Rows.{RowFits};
ghost use Rattle.total_stage.specs.Sums.{AreSums};

use crate::numbers::Totals;
use crate::row::{row_builders, row_values};
use col_build::SpareBuffers;
use csv_read::export_rows;
use data_types::ColumnType;
use raw_array::RawArray;
use std::alloc::Global;
use unit_pass::{NoMemory, Pass};

/// The chunk of the one row of these totals. Where memory runs out all units are back.
pub(crate) fn totals_chunk(
    alloc: Global,
    columns: &[ColumnType],
    sums: &[Totals],
    pass: &mut Pass,
) -> Result<RawArray, NoMemory>
    requires fits { (picks : List ℕ) × (rows : List Row) × AreSums sums.now picks rows × RowFits (map column_of columns.now) (totals_row picks rows) }
    requires few { length columns.now ≤ 4096 }
    requires units { 1 + 4 * length columns.now ≤ pass.old.units }
    ensures tree { IfOk result (λ made. (picks : List ℕ) (rows : List Row) → AreSums sums.now picks rows
        → made ≡ chunk_of (map column_of columns.now) (totals_row picks rows ∷ [])) }
    ensures small { IfOk result (λ made. Cost made ≤ 1 + 4 * length columns.now) }
    ensures units { MatchResult result (λ made. pass.new.units + Cost made ≡ pass.old.units) (λ _. pass.new.units ≡ pass.old.units) }
    ensures blocks { OnOk result ((picks : List ℕ) (rows : List Row) → AreSums sums.now picks rows
        → pass.new.blocks ≡ risen pass.old.blocks (chunk_blocks (map column_of columns.now) (totals_row picks rows ∷ []))) }
    ensures nodes { OnOk result (pass.new.nodes ≡ risen pass.old.nodes (1 + length columns.now)) }
{
    let values = row_values(alloc, sums)?;
    let mut builders = row_builders(alloc, columns, values.as_slice())?;
    export_rows(
        alloc,
        builders.as_mut_slice(),
        1,
        &mut SpareBuffers::new(alloc),
        pass,
    )
}
