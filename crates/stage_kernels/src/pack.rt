//! The step that puts columns under a new struct.
ghost use Rattle.std.specs.Prelude.{◌≡◌, Some, map};
ghost use Rattle.data_types.specs.ColumnView.{column_of};
ghost use Rattle.stage_model.specs.promise.Stages.{chunks_after};
ghost use Rattle.stage_model.specs.declared.stage.Step.TheVariants as steps;
ghost use Rattle.stage_model.specs.promise.Traffic.{made_blocks, made_nodes};
ghost use Rattle.stages.specs.Steps.{always, any_tables, rows_only};
ghost use Rattle.stage_kernels.specs.Packs.{PackFits};

use crate::packed::packed;
use array_laws::{columns_of_a_table, lawful_arrays_are_not_deep};
use data_types::Typed;
use edge_io::Gate;
use raw_array::RawArray;
use stages::{ChunkStep, OutColumns, chunks_are_small};
use std::alloc::Global;
use std::thread::Threads;
use unit_pass::{NoMemory, Pass};

/// The columns that stay, in their order, and behind them a struct of the picked columns, in the order of the picks.
#[derive(Drop)]
pub struct PackStep {
    rest: Vec<usize>,
    picks: Vec<usize>,
    out: OutColumns,
}

impl PackStep {
    /// Puts columns under a struct by their numbers, from 0: `rest` are those that stay, `picks` those that go under it, and
    /// `out` the columns after it. Takes no memory.
    pub fn new(rest: Vec<usize>, picks: Vec<usize>, out: OutColumns) -> PackStep
        ensures rest { result.rest.items ≡ rest.items }
        ensures picks { result.picks.items ≡ picks.items }
        ensures out { result.out ≡ out }
    {
        PackStep { rest, picks, out }
    }
}

impl ChunkStep for PackStep {
    ghost columns = { λ s. s.out };

    ghost fits = { λ s before. PackFits s.rest.items s.picks.items s.out before };

    ghost ahead = { λ s ending tables. chunks_after (steps.Pack s.rest.items s.picks.items) ending tables };

    ghost blocks = { λ s rows. made_blocks (Some (steps.Pack s.rest.items s.picks.items)) (map column_of s.out) rows };

    ghost nodes = { λ s rows. made_nodes (Some (steps.Pack s.rest.items s.picks.items)) (map column_of s.out) };

    ghost gives = { rows_only };

    ghost rests = { always };

    ghost takes = { any_tables };

    fn after(&self) -> &OutColumns {
        &self.out
    }

    fn push<R: Threads + Sync>(
        &mut self,
        chunk: RawArray,
        _typed: &Typed,
        _rt: &R,
        alloc: Global,
        pass: &mut Pass,
        _gate: &(dyn Gate + Sync),
    ) -> Result<Option<RawArray>, NoMemory> {
        columns_of_a_table();
        lawful_arrays_are_not_deep();
        chunks_are_small();
        match packed(
            alloc,
            chunk,
            self.rest.as_slice(),
            self.picks.as_slice(),
            pass,
        ) {
            Ok(made) => Ok(Some(made)),
            Err(NoMemory) => Err(NoMemory),
        }
    }

    fn finish(&mut self, _alloc: Global, _pass: &mut Pass) -> Result<Option<RawArray>, NoMemory> {
        Ok(None)
    }

    fn forget(&mut self) {}

    fn lawful_facts(&self) {
        self.out.schema_is_small();
    }
}
