//! The step that filters rows.
ghost use Rattle.std.specs.Prelude.{◌≡◌, ◌≤◌, Some, map};
ghost use Rattle.data_types.specs.ColumnView.{column_of};
ghost use Rattle.stage_model.specs.promise.Stages.{chunks_after};
ghost use Rattle.stage_model.specs.declared.stage.Step.TheVariants as steps;
ghost use Rattle.stage_model.specs.promise.Traffic.{made_blocks, made_nodes};
ghost use Rattle.stages.specs.Steps.{always, any_tables, rows_only};
ghost use Rattle.stage_filter.specs.Filters.{FilterFits};

use crate::chunk::{FilterTask, filtered};
use crate::laws::{kept_rows_make_a_chunk, like_trees_are_the_same};
use data_types::Typed;
use edge_io::Gate;
use fan_out::Workers;
use layout_rules::lawful_trees;
use raw_array::RawArray;
use stage_model::{Const, Test};
use stages::{ChunkStep, OutColumns, chunks_are_small};
use std::alloc::Global;
use std::thread::Threads;
use unit_pass::{NoMemory, Pass};

/// The rows whose item in a column passes a test, in their order.
#[derive(Drop)]
pub struct FilterStep {
    column: usize,
    test: Test,
    constant: Const,
    out: OutColumns,
    workers: Workers,
}

impl FilterStep {
    /// Asks this test of the items of a column, by its number from 0; `out` are the columns, which stay. The rows of each chunk
    /// are looked through by this many workers. Takes no memory.
    pub fn new(
        column: usize,
        test: Test,
        constant: Const,
        out: OutColumns,
        workers: Workers,
    ) -> FilterStep
        ensures column { result.column ≡ column }
        ensures test { result.test ≡ test }
        ensures constant { result.constant ≡ constant }
        ensures out { result.out ≡ out }
        ensures workers { result.workers ≡ workers }
    {
        FilterStep {
            column,
            test,
            constant,
            out,
            workers,
        }
    }
}

impl ChunkStep for FilterStep {
    ghost columns = { λ s. s.out };

    ghost fits = { λ s before. FilterFits s.column s.out before };

    ghost ahead = { λ s ending tables. chunks_after (steps.Filter s.column s.test s.constant) ending tables };

    ghost blocks = { λ s rows. made_blocks (Some (steps.Filter s.column s.test s.constant)) (map column_of s.out) rows };

    ghost nodes = { λ s rows. made_nodes (Some (steps.Filter s.column s.test s.constant)) (map column_of s.out) };

    ghost gives = { rows_only };

    ghost rests = { always };

    ghost takes = { any_tables };

    fn after(&self) -> &OutColumns {
        &self.out
    }

    fn push<R: Threads + Sync>(
        &mut self,
        chunk: RawArray,
        typed: &Typed,
        rt: &R,
        alloc: Global,
        pass: &mut Pass,
        gate: &(dyn Gate + Sync),
    ) -> Result<Option<RawArray>, NoMemory> {
        kept_rows_make_a_chunk();
        chunks_are_small();
        lawful_trees();
        like_trees_are_the_same();
        let asked = FilterTask {
            column: self.column,
            test: self.test,
            constant: &self.constant,
        };
        let columns = self.out.as_slice();
        let workers = self.workers;
        match filtered(rt, alloc, columns, typed, chunk, asked, workers, pass, gate) {
            Ok(made) => Ok(Some(made)),
            Err(NoMemory) => Err(NoMemory),
        }
    }

    fn finish(&mut self, _alloc: Global, _pass: &mut Pass) -> Result<Option<RawArray>, NoMemory> {
        Ok(None)
    }

    fn forget(&mut self) {}

    fn lawful_facts(&self) {}
}
