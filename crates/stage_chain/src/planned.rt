//! The stages of a plan, one behind the other.
ghost use Rattle.std.specs.Prelude.{◌≡◌, ◌+◌, drop, length, IfOk};
ghost use Rattle.stage_chain.specs.Plans.{plan_stages, stages_in};

use data_types::ColumnType;
use stage_model::Step;
use stage_plan::Plan;
use std::alloc::Global;
use unit_pass::NoMemory;

/// A stage of a plan: its step, and the columns after it.
#[derive(Drop)]
pub struct PlannedStage {
    pub step: Step,
    pub columns: Vec<ColumnType>,
}

/// The stages of a plan.
pub(crate) fn planned(alloc: Global, plan: Plan) -> Result<Vec<PlannedStage>, NoMemory>
    requires as_many { length plan.links.items ≡ 1 + length plan.steps.items }
    ensures { IfOk result (λ planned. stages_in planned.items ≡ plan_stages plan) }
{
    let Plan { links, steps } = plan;
    let mut links = links.into_iter();
    let mut steps = steps.into_iter();
    let _read = links.next();
    let mut planned = Vec::new(alloc);
    'steps: loop {
        let Some(step) = steps.next() else {
            return Ok(planned);
        };
        let Some(columns) = links.next() else {
            unreachable!()
        };
        planned.push(PlannedStage { step, columns })?;
    }
}
