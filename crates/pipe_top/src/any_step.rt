//! A step, whatever its kind is.
ghost use Rattle.pipe_top.specs.AnySteps.{any_ahead, any_blocks, any_columns, any_fits, any_gives, any_nodes, any_rests, any_takes};

use data_types::Typed;
use dict_stage::RecodeStep;
use edge_io::Gate;
use fan_out::Workers;
use raw_array::RawArray;
use stage_chain::PlanStep;
use stage_filter::FilterStep;
use stage_kernels::{PackStep, SelectStep, SliceStep, UnpackStep};
use stage_model::Step;
use stages::{ChunkStep, OutColumns};
use std::alloc::Global;
use std::thread::Threads;
use total_stage::TotalsStep;
use unit_pass::{NoMemory, Pass};

/// A step of one of the eight kinds; `Recode` is of two: it gives a column a dictionary or takes it.
#[derive(Drop)]
pub enum AnyStep {
    Select(SelectStep),
    Slice(SliceStep),
    Filter(FilterStep),
    Pack(PackStep),
    Unpack(UnpackStep),
    Recode(RecodeStep),
    Totals(TotalsStep),
}

impl ChunkStep for AnyStep {
    ghost columns = { any_columns };

    ghost fits = { any_fits };

    ghost ahead = { any_ahead };

    ghost blocks = { any_blocks };

    ghost nodes = { any_nodes };

    ghost gives = { any_gives };

    ghost rests = { any_rests };

    ghost takes = { any_takes };

    fn after(&self) -> &OutColumns {
        match self {
            AnyStep::Select(step) => step.after(),
            AnyStep::Slice(step) => step.after(),
            AnyStep::Filter(step) => step.after(),
            AnyStep::Pack(step) => step.after(),
            AnyStep::Unpack(step) => step.after(),
            AnyStep::Recode(step) => step.after(),
            AnyStep::Totals(step) => step.after(),
        }
    }

    fn push<R: Threads + Sync>(
        &mut self,
        chunk: RawArray,
        typed: &Typed,
        rt: &R,
        alloc: Global,
        pass: &mut Pass,
        gate: &(dyn Gate + Sync),
    ) -> Result<Option<RawArray>, NoMemory> {
        match self {
            AnyStep::Select(step) => step.push(chunk, typed, rt, alloc, pass, gate),
            AnyStep::Slice(step) => step.push(chunk, typed, rt, alloc, pass, gate),
            AnyStep::Filter(step) => step.push(chunk, typed, rt, alloc, pass, gate),
            AnyStep::Pack(step) => step.push(chunk, typed, rt, alloc, pass, gate),
            AnyStep::Unpack(step) => step.push(chunk, typed, rt, alloc, pass, gate),
            AnyStep::Recode(step) => step.push(chunk, typed, rt, alloc, pass, gate),
            AnyStep::Totals(step) => step.push(chunk, typed, rt, alloc, pass, gate),
        }
    }

    fn finish(&mut self, alloc: Global, pass: &mut Pass) -> Result<Option<RawArray>, NoMemory> {
        match self {
            AnyStep::Select(step) => step.finish(alloc, pass),
            AnyStep::Slice(step) => step.finish(alloc, pass),
            AnyStep::Filter(step) => step.finish(alloc, pass),
            AnyStep::Pack(step) => step.finish(alloc, pass),
            AnyStep::Unpack(step) => step.finish(alloc, pass),
            AnyStep::Recode(step) => step.finish(alloc, pass),
            AnyStep::Totals(step) => step.finish(alloc, pass),
        }
    }

    fn forget(&mut self) {
        match self {
            AnyStep::Select(step) => step.forget(),
            AnyStep::Slice(step) => step.forget(),
            AnyStep::Filter(step) => step.forget(),
            AnyStep::Pack(step) => step.forget(),
            AnyStep::Unpack(step) => step.forget(),
            AnyStep::Recode(step) => step.forget(),
            AnyStep::Totals(step) => step.forget(),
        }
    }

    fn lawful_facts(&self) {
        match self {
            AnyStep::Select(step) => step.lawful_facts(),
            AnyStep::Slice(step) => step.lawful_facts(),
            AnyStep::Filter(step) => step.lawful_facts(),
            AnyStep::Pack(step) => step.lawful_facts(),
            AnyStep::Unpack(step) => step.lawful_facts(),
            AnyStep::Recode(step) => step.lawful_facts(),
            AnyStep::Totals(step) => step.lawful_facts(),
        }
    }
}

impl PlanStep for AnyStep {
    ghost use Rattle.pipe_top.specs.AnySteps.{plan_besides};

    ghost besides = { plan_besides };

    fn of(alloc: Global, step: Step, out: OutColumns, workers: Workers) -> AnyStep {
        stages::picks_are_distinct();
        stages::stages_keep_columns();
        stage_model::stages_fit_their_columns();
        match step {
            Step::Select { picks } => AnyStep::Select(SelectStep::new(picks.into_vec(), out)),
            Step::Slice { off, len } => AnyStep::Slice(SliceStep::new(off, len, out)),
            Step::Filter {
                column,
                test,
                constant,
            } => AnyStep::Filter(FilterStep::new(column, test, constant, out, workers)),
            Step::Pack { rest, picks } => {
                AnyStep::Pack(PackStep::new(rest.into_vec(), picks.into_vec(), out))
            }
            Step::Unpack { column } => AnyStep::Unpack(UnpackStep::new(column, out)),
            Step::Dict { column } => AnyStep::Recode(RecodeStep::new(true, column, out)),
            Step::Plain { column } => AnyStep::Recode(RecodeStep::new(false, column, out)),
            Step::Totals { columns } => {
                AnyStep::Totals(TotalsStep::new(alloc, columns.into_vec(), out, workers))
            }
        }
    }
}
