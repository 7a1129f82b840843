//! The totals of the rows of a window, as the job of workers.
ghost use Rattle.std.specs.Prelude.{◌≤◌, length, IfOk};
ghost use Rattle.layout_rules.specs.promise.Layout.{natural};
ghost use Rattle.data_types.specs.promise.TypedView.{typed_of};
ghost use Rattle.layout_rules.specs.promise.Values.{rows_of};
ghost use Rattle.total_stage.specs.Sums.{AreSums, CanAdd, CanSum, rows_between};

use crate::numbers::Totals;
use crate::window::window_totals;
use arr_import::Col;
use data_types::Typed;
use fan_out::Job;
use raw_array::RawArray;
use std::alloc::Global;
use unit_pass::NoMemory;

/// Totals the picked columns of a window's rows.
#[derive(Drop)]
pub(crate) struct SumJob<'a> {
    pub(crate) alloc: Global,
    pub(crate) picks: &'a [usize],
}

impl<'a> Job for SumJob<'a> {
    type Out = Vec<Totals>;

    ghost gives = { λ job _ rows from to sums. AreSums sums.items job.picks.now (rows_between (natural from) (natural to) rows) };

    ghost reads = { λ _ _ _ _ _. Unit {0} };

    ghost fits = { λ job typed rows. CanSum job.picks.now typed rows };

    fn run(
        &self,
        typed: &Typed,
        chunk: &RawArray,
        from: i64,
        to: i64,
    ) -> Result<Vec<Totals>, NoMemory> {
        window_sums(self.alloc, self.picks, typed, chunk, from as u32, to as u32)
    }
}

/// The totals of the picked columns of some rows of a chunk, column by column.
fn window_sums(
    alloc: Global,
    picks: &[usize],
    typed: &Typed,
    chunk: &RawArray,
    from: u32,
    to: u32,
) -> Result<Vec<Totals>, NoMemory>
    requires chunk { CanAdd picks.now (typed_of typed.now) chunk.now }
    requires order { from ≤ to }
    requires inside { to ≤ length (rows_of (typed_of typed.now) chunk.now) }
    ensures { IfOk result (λ sums. AreSums sums.items picks.now (rows_between from to (rows_of (typed_of typed.now) chunk.now))) }
{
    let rows = Col::of(typed, chunk);
    let mut sums = Vec::with_capacity(alloc, picks.len())?;
    for pick in picks {
        let column = rows.child(*pick);
        sums.push_reserved(window_totals(&column, from, to));
    }
    Ok(sums)
}
