//! The chunk of the rows of a chunk that pass.
ghost use Rattle.std.specs.Prelude.{◌≡◌, ◌+◌, ◌*◌, ◌≤◌, map, IfOk, MatchResult, OnOk};
ghost use Rattle.data_types.specs.ColumnView.{column_of};
ghost use Rattle.unit_pass.specs.promise.Tally.{risen};
ghost use Rattle.unit_pass.specs.declared.pass.TheConstants.{SUPPLY};
ghost use Rattle.raw_array.specs.promise.Members.{ArrayTree, Cost};
ghost use Rattle.raw_array.specs.Members.{Like};
ghost use Rattle.data_types.specs.promise.ColumnKinds.{type_of_columns};
ghost use Rattle.data_types.specs.KindTrees.{TypedOk};
ghost use Rattle.data_types.specs.promise.TypedView.{typed_of};
ghost use Rattle.stage_model.specs.promise.Traffic.{Moved, table_nodes};
ghost use Rattle.stage_model.specs.Traffic.{table_blocks};
ghost use Rattle.stage_filter.specs.Filters.{CanFilter, passing_numbers, passing_rows};
ghost use Rattle.stage_filter.specs.KeptTrees.{kept_chunk};
ghost use Rattle.stage_filter.specs.Plain.{most_of_columns};

use crate::columns::filtered_struct;
use crate::laws::like_trees_are_the_same;
use crate::workers::kept_by_workers;
use data_types::{ColumnType, Typed};
use edge_io::Gate;
use fan_out::Workers;
use layout_rules::lawful_trees;
use raw_array::RawArray;
use stage_model::{Const, Test};
use std::alloc::Global;
use std::thread::Threads;
use unit_pass::{NoMemory, Pass, SUPPLY};

/// What a filter asks of a row: a test of its item in a column.
#[derive(Clone, Copy)]
pub(crate) struct FilterTask<'a> {
    pub(crate) column: usize,
    pub(crate) test: Test,
    pub(crate) constant: &'a Const,
}

/// The chunk of the rows that pass, in the place of the chunk, which is released: a column with a dictionary has new indices into
/// the dictionary that it had, which is moved. Each piece of the rows is looked through by a worker; what they leave of the
/// chunk is like it. Where memory runs out all units are back.
pub(crate) fn filtered<R: Threads + Sync>(
    rt: &R,
    alloc: Global,
    columns: &[ColumnType],
    typed: &Typed,
    chunk: RawArray,
    asked: FilterTask<'_>,
    workers: Workers,
    pass: &mut Pass,
    gate: &(dyn Gate + Sync),
) -> Result<RawArray, NoMemory>
    requires typed { typed_of typed.now ≡ type_of_columns (map column_of columns.now) }
    requires types { TypedOk (typed_of typed.now) }
    requires chunk { CanFilter asked.column (map column_of columns.now) chunk }
    requires shares { workers.count * Cost chunk ≤ pass.old.units }
    requires units { 1 + most_of_columns (map column_of columns.now) ≤ pass.old.units }
    requires room { pass.old.units + Cost chunk ≤ SUPPLY }
    ensures tree { IfOk result (λ made. (left : ArrayTree) × Like chunk left × (made ≡ kept_chunk (map column_of columns.now) left
        (passing_numbers asked.entry.column asked.entry.test asked.entry.constant.now (type_of_columns (map column_of columns.now)) left))) }
    ensures units { MatchResult result
        (λ made. pass.new.units + Cost made ≡ pass.old.units + Cost chunk)
        (λ _. pass.new.units ≡ pass.old.units + Cost chunk) }
    ensures blocks { OnOk result (pass.new.blocks ≡ risen pass.old.blocks (table_blocks Moved (map column_of columns.now)
        (passing_rows asked.entry.column asked.entry.test asked.entry.constant.now (map column_of columns.now) chunk))) }
    ensures nodes { OnOk result (pass.new.nodes ≡ risen pass.old.nodes (table_nodes Moved (map column_of columns.now))) }
{
    lawful_trees();
    like_trees_are_the_same();
    let mut chunk = chunk;
    match kept_by_workers(rt, alloc, &mut chunk, typed, workers, asked, pass, gate) {
        Ok(kept) => match filtered_struct(alloc, columns, typed, chunk, 0, kept.as_slice(), pass) {
            Ok(made) => Ok(made),
            Err(NoMemory) => Err(NoMemory),
        },
        Err(NoMemory) => {
            chunk.end(pass);
            Err(NoMemory)
        }
    }
}
