//! The step that makes a column anew: with a dictionary, or without.
ghost use Rattle.std.specs.Prelude.{◌≡◌, ◌∷◌, [], Some, map};
ghost use Rattle.data_types.specs.ColumnView.{column_of};
ghost use Rattle.stage_model.specs.promise.Traffic.{made_blocks, made_nodes};
ghost use Rattle.stages.specs.Steps.{always, any_tables};
ghost use Rattle.stage_model.specs.promise.Stages.{chunks_after};
ghost use Rattle.dict_stage.specs.Indices.{HasColumn};
ghost use Rattle.dict_stage.specs.Recoded.{RecodeFits, recode_step};

use crate::chunk::{recoded_chunk, type_at};
use crate::laws::recoded_chunks_have_their_rows;
use arr_export::column_schemas_are_lawful;
use data_types::Typed;
use edge_io::Gate;
use raw_array::RawArray;
use stages::{ChunkStep, OutColumns};
use std::alloc::Global;
use std::thread::Threads;
use unit_pass::{NoMemory, Pass};

/// A column of texts or bytes: as indices into a dictionary of its distinct values, or, where it has one, as its values.
#[derive(Drop)]
pub struct RecodeStep {
    dict: bool,
    column: usize,
    out: OutColumns,
}

impl RecodeStep {
    /// Gives the column of a number, from 0, a dictionary (`dict`), or takes its dictionary; `out` are the columns, with the
    /// new one in its place. Takes no memory.
    pub fn new(dict: bool, column: usize, out: OutColumns) -> RecodeStep
        ensures dict { result.dict ≡ dict }
        ensures column { result.column ≡ column }
        ensures out { result.out ≡ out }
    {
        RecodeStep { dict, column, out }
    }
}

impl ChunkStep for RecodeStep {
    ghost columns = { λ s. s.out };

    ghost fits = { λ s before. RecodeFits s.dict s.column s.out before };

    ghost ahead = { λ s ending tables. chunks_after (recode_step s.dict s.column) ending tables };

    ghost blocks = { λ s rows. made_blocks (Some (recode_step s.dict s.column)) (map column_of s.out) rows };

    ghost nodes = { λ s rows. made_nodes (Some (recode_step s.dict s.column)) (map column_of s.out) };

    ghost gives = { λ s rows chunk. HasColumn s.column (map column_of s.out) (rows ∷ []) chunk };

    ghost rests = { always };

    ghost takes = { any_tables };

    fn after(&self) -> &OutColumns {
        &self.out
    }

    fn push<R: Threads + Sync>(
        &mut self,
        chunk: RawArray,
        typed: &Typed,
        _rt: &R,
        alloc: Global,
        pass: &mut Pass,
        _gate: &(dyn Gate + Sync),
    ) -> Result<Option<RawArray>, NoMemory> {
        self.out.schema_is_small();
        column_schemas_are_lawful();
        recoded_chunks_have_their_rows();
        let kind = type_at(self.out.as_slice(), self.column);
        match recoded_chunk(alloc, self.dict, kind, typed, chunk, self.column, pass) {
            Ok(made) => Ok(Some(made)),
            Err(NoMemory) => Err(NoMemory),
        }
    }

    fn finish(&mut self, _alloc: Global, _pass: &mut Pass) -> Result<Option<RawArray>, NoMemory> {
        Ok(None)
    }

    fn forget(&mut self) {}

    fn lawful_facts(&self) {
        self.out.schema_is_small();
        column_schemas_are_lawful();
    }
}
