//! The step that picks columns.
ghost use Rattle.std.specs.Prelude.{◌≡◌, ◌+◌, ◌≤◌, ◌^◌, List, Some, length, map, IfOk, MatchResult};
ghost use Rattle.data_types.specs.ColumnView.{column_of};
ghost use Rattle.data_types.specs.Parts.{AreWithin};
ghost use Rattle.data_types.specs.promise.Table.{Column};
ghost use Rattle.raw_array.specs.promise.Members.{ArrayTree, Cost};
ghost use Rattle.unit_pass.specs.promise.Tally.{risen};
ghost use Rattle.unit_pass.specs.declared.pass.TheConstants.{SUPPLY};
ghost use Rattle.data_types.specs.promise.ColumnKinds.{type_of_columns};
ghost use Rattle.layout_rules.specs.promise.Walk.{ChunkOk};
ghost use Rattle.arr_move.specs.TreeActs.{Columns, Distinct};
ghost use Rattle.stage_model.specs.promise.Stages.{chunks_after};
ghost use Rattle.stage_model.specs.declared.stage.Step.TheVariants as steps;
ghost use Rattle.stage_model.specs.promise.Traffic.{made_blocks, made_nodes};
ghost use Rattle.stages.specs.Steps.{always, any_tables, rows_only};
ghost use Rattle.stage_kernels.specs.Picks.{PickFits};

use arr_move::take_columns;
use array_laws::columns_of_a_table;
use data_types::Typed;
use edge_io::Gate;
use layout_rules::lawful_trees;
use raw_array::RawArray;
use stages::{ChunkStep, OutColumns};
use std::alloc::Global;
use std::thread::Threads;
use unit_pass::{NoMemory, Pass, SUPPLY};

/// The picked columns, in the order of the picks.
#[derive(Drop)]
pub struct SelectStep {
    picks: Vec<usize>,
    out: OutColumns,
}

impl SelectStep {
    /// Picks columns by their numbers, from 0; `out` are those that are picked. Takes no memory.
    pub fn new(picks: Vec<usize>, out: OutColumns) -> SelectStep
        ensures picks { result.picks.items ≡ picks.items }
        ensures out { result.out ≡ out }
    {
        SelectStep { picks, out }
    }
}

/// The picked columns of a chunk. Where memory runs out the chunk is released.
fn select(
    alloc: Global,
    chunk: RawArray,
    picks: &[usize],
    pass: &mut Pass,
) -> Result<RawArray, NoMemory>
    requires chunk { (columns : List Column) × ChunkOk (type_of_columns columns) chunk × AreWithin (length columns) picks.now }
    requires distinct { Distinct picks.now }
    requires unit { 1 ≤ pass.old.units }
    requires room { pass.old.units + Cost chunk ≤ SUPPLY }
    ensures columns { IfOk result (λ taken. taken ≡ Columns chunk picks.now) }
    ensures cost { IfOk result (λ taken. Cost taken ≤ Cost chunk) }
    ensures units { MatchResult result
        (λ taken. pass.new.units + Cost taken ≡ pass.old.units + Cost chunk)
        (λ _. pass.new.units ≡ pass.old.units + Cost chunk) }
    ensures nodes { IfOk result (λ _. pass.new.nodes ≡ risen pass.old.nodes 1) }
    ensures blocks { IfOk result (λ _. pass.new.blocks ≡ pass.old.blocks) }
{
    lawful_trees();
    columns_of_a_table();
    match take_columns(alloc, chunk, picks, pass) {
        Ok(taken) => Ok(taken),
        Err((chunk, NoMemory)) => {
            chunk.end(pass);
            Err(NoMemory)
        }
    }
}

impl ChunkStep for SelectStep {
    ghost columns = { λ s. s.out };

    ghost fits = { λ s before. PickFits s.picks.items s.out before };

    ghost ahead = { λ s ending tables. chunks_after (steps.Select s.picks.items) ending tables };

    ghost blocks = { λ s rows. made_blocks (Some (steps.Select s.picks.items)) (map column_of s.out) rows };

    ghost nodes = { λ s rows. made_nodes (Some (steps.Select s.picks.items)) (map column_of s.out) };

    ghost gives = { rows_only };

    ghost rests = { always };

    ghost takes = { any_tables };

    fn after(&self) -> &OutColumns {
        &self.out
    }

    fn push<R: Threads + Sync>(
        &mut self,
        chunk: RawArray,
        _typed: &Typed,
        _rt: &R,
        alloc: Global,
        pass: &mut Pass,
        _gate: &(dyn Gate + Sync),
    ) -> Result<Option<RawArray>, NoMemory> {
        columns_of_a_table();
        match select(alloc, chunk, self.picks.as_slice(), pass) {
            Ok(taken) => Ok(Some(taken)),
            Err(NoMemory) => Err(NoMemory),
        }
    }

    fn finish(&mut self, _alloc: Global, _pass: &mut Pass) -> Result<Option<RawArray>, NoMemory> {
        Ok(None)
    }

    fn forget(&mut self) {}

    fn lawful_facts(&self) {}
}
