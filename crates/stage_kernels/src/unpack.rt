//! The step that unpacks a struct column.
ghost use Rattle.std.specs.Prelude.{◌≡◌, Some, map};
ghost use Rattle.data_types.specs.ColumnView.{column_of};
ghost use Rattle.stage_model.specs.promise.Stages.{chunks_after};
ghost use Rattle.stage_model.specs.declared.stage.Step.TheVariants as steps;
ghost use Rattle.stage_model.specs.promise.Traffic.{made_blocks, made_nodes};
ghost use Rattle.stages.specs.Steps.{always, any_tables, rows_only};
ghost use Rattle.stage_kernels.specs.Unpacks.{UnpackFits};

use crate::unpacked::unpack_column;
use arr_export::column_schemas_are_lawful;
use array_laws::{columns_of_a_table, lawful_structs_have_columns};
use data_types::Typed;
use edge_io::Gate;
use raw_array::RawArray;
use stages::{ChunkStep, OutColumns};
use std::alloc::Global;
use std::thread::Threads;
use unit_pass::{NoMemory, Pass};

/// A struct column, replaced at its place by its columns.
#[derive(Drop)]
pub struct UnpackStep {
    place: usize,
    out: OutColumns,
}

impl UnpackStep {
    /// Unpacks the struct column of a number, from 0; `out` are the columns with its columns in its place. Takes no memory.
    pub fn new(place: usize, out: OutColumns) -> UnpackStep
        ensures place { result.place ≡ place }
        ensures out { result.out ≡ out }
    {
        UnpackStep { place, out }
    }
}

impl ChunkStep for UnpackStep {
    ghost columns = { λ s. s.out };

    ghost fits = { λ s before. UnpackFits s.place s.out before };

    ghost ahead = { λ s ending tables. chunks_after (steps.Unpack s.place) ending tables };

    ghost blocks = { λ s rows. made_blocks (Some (steps.Unpack s.place)) (map column_of s.out) rows };

    ghost nodes = { λ s rows. made_nodes (Some (steps.Unpack s.place)) (map column_of s.out) };

    ghost gives = { rows_only };

    ghost rests = { always };

    ghost takes = { any_tables };

    fn after(&self) -> &OutColumns {
        &self.out
    }

    fn push<R: Threads + Sync>(
        &mut self,
        chunk: RawArray,
        _typed: &Typed,
        _rt: &R,
        alloc: Global,
        pass: &mut Pass,
        _gate: &(dyn Gate + Sync),
    ) -> Result<Option<RawArray>, NoMemory> {
        lawful_structs_have_columns();
        columns_of_a_table();
        match unpack_column(alloc, chunk, self.place, pass) {
            Ok(made) => Ok(Some(made)),
            Err(NoMemory) => Err(NoMemory),
        }
    }

    fn finish(&mut self, _alloc: Global, _pass: &mut Pass) -> Result<Option<RawArray>, NoMemory> {
        Ok(None)
    }

    fn forget(&mut self) {}

    fn lawful_facts(&self) {
        column_schemas_are_lawful();
    }
}
