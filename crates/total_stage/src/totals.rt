//! The step that totals columns.
ghost use Rattle.std.specs.Prelude.{◌≡◌, ◌≤◌, [], Some, map, false};
ghost use Rattle.data_types.specs.ColumnView.{column_of};
ghost use Rattle.stage_model.specs.promise.Traffic.{made_blocks, made_nodes};
ghost use Rattle.stage_model.specs.declared.stage.Step.TheVariants as steps;
ghost use Rattle.stages.specs.Steps.{rows_only};
ghost use Rattle.total_stage.specs.Fits.{TotalsFits};
ghost use Rattle.total_stage.specs.Froms.{CanGoOn, ahead_from, none_begun};

use crate::chunk::totals_chunk;
use crate::numbers::Totals;
use crate::sums::{add_chunk, begin};
use arr_export::column_schemas_are_lawful;
use csv_read::chunks_have_their_rows;
use data_types::Typed;
use edge_io::Gate;
use fan_out::Workers;
use raw_array::RawArray;
use stages::{ChunkStep, OutColumns};
use std::alloc::Global;
use std::mem::replace;
use std::thread::Threads;
use unit_pass::{NoMemory, Pass};

/// One row of the count, the sum, the least and the greatest of each picked column, in the order of the picks.
#[derive(Drop)]
pub struct TotalsStep {
    picks: Vec<usize>,
    out: OutColumns,
    /// The totals of the rows so far, of each pick; none before the first chunk.
    sums: Vec<Totals>,
    given: bool,
    workers: Workers,
}

impl TotalsStep {
    /// Totals columns by their numbers, from 0, each of whole numbers or of decimals of at most 28 digits; `out` are the four
    /// columns of each. The rows of each chunk are added up by this many workers. Takes no memory.
    pub fn new(alloc: Global, picks: Vec<usize>, out: OutColumns, workers: Workers) -> TotalsStep
        ensures picks { result.picks.items ≡ picks.items }
        ensures out { result.out ≡ out }
        ensures sums { result.sums.items ≡ [] }
        ensures given { result.given ≡ false }
        ensures workers { result.workers ≡ workers }
    {
        TotalsStep {
            picks,
            out,
            sums: Vec::new(alloc),
            given: false,
            workers,
        }
    }
}

impl ChunkStep for TotalsStep {
    ghost columns = { λ s. s.out };

    ghost fits = { λ s before. TotalsFits s.picks.items s.out before };

    ghost ahead = { λ s ending tables. ahead_from s.sums.items s.picks.items s.given ending tables };

    ghost blocks = { λ s rows. made_blocks (Some (steps.Totals s.picks.items)) (map column_of s.out) rows };

    ghost nodes = { λ s rows. made_nodes (Some (steps.Totals s.picks.items)) (map column_of s.out) };

    ghost gives = { rows_only };

    ghost rests = { λ s. none_begun s.sums.items };

    ghost takes = { λ s before tables. CanGoOn s.sums.items s.picks.items before tables };

    fn after(&self) -> &OutColumns {
        &self.out
    }

    fn push<R: Threads + Sync>(
        &mut self,
        chunk: RawArray,
        typed: &Typed,
        rt: &R,
        alloc: Global,
        pass: &mut Pass,
        gate: &(dyn Gate + Sync),
    ) -> Result<Option<RawArray>, NoMemory> {
        let mut chunk = chunk;
        let picks = self.picks.as_slice();
        if let Err(NoMemory) = begin(alloc, &mut self.sums, picks) {
            chunk.end(pass);
            return Err(NoMemory);
        }
        let workers = self.workers;
        let sums = self.sums.as_mut_slice();
        let added = add_chunk(
            rt, alloc, sums, picks, typed, &mut chunk, workers, pass, gate,
        );
        chunk.end(pass);
        match added {
            Ok(()) => Ok(None),
            Err(NoMemory) => Err(NoMemory),
        }
    }

    fn finish(&mut self, alloc: Global, pass: &mut Pass) -> Result<Option<RawArray>, NoMemory> {
        let mut sums = replace(&mut self.sums, Vec::new(alloc));
        if self.given {
            return Ok(None);
        }
        if let Err(NoMemory) = begin(alloc, &mut sums, self.picks.as_slice()) {
            return Err(NoMemory);
        }
        chunks_have_their_rows();
        match totals_chunk(alloc, self.out.as_slice(), sums.as_slice(), pass) {
            Ok(made) => {
                self.given = true;
                Ok(Some(made))
            }
            Err(NoMemory) => Err(NoMemory),
        }
    }

    fn forget(&mut self) {
        self.sums.clear();
    }

    fn lawful_facts(&self) {
        self.out.schema_is_small();
        column_schemas_are_lawful();
    }
}
