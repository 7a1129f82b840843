//! The stream of a stage.
ghost use Rattle.std.specs.Prelude.{◌≡◌, ◌≤◌, IsTrue, List};
ghost use Rattle.data_types.specs.promise.Table.{Row};
ghost use Rattle.raw_array.specs.promise.Members.{ArrayTree};
ghost use Rattle.stages.specs.Structs.{column_structs, most_structs};
ghost use Rattle.stage_model.specs.Typing.{IsStageOver};
ghost use Rattle.stages.specs.Stages.{stage_gives, stage_state};
ghost use Rattle.stream_face.specs.Meaning.{meaning, raw_link};
ghost use Rattle.stage_chain.specs.Chains.{over_stream};
ghost use Rattle.stage_chain.specs.Plans.{stage_in};

use crate::planned::PlannedStage;
use crate::step_of::PlanStep;
use fan_out::Workers;
use stages::{OutColumns, Stage};
use std::alloc::Global;
use stream_face::{ArrayStream, RawStream};

/// The stream of a stage of a plan over a checked stream, by this many workers, and what its chunks have besides their rows, by the
/// step. Takes no memory.
pub fn start_stage<W: PlanStep, U: ArrayStream>(
    alloc: Global,
    up: RawStream<U>,
    stage: PlannedStage,
    workers: Workers,
) -> Stage<U, W>
    requires live { IsTrue (meaning U.state up).live }
    requires lawful { IsTrue (meaning U.state up).lawful }
    requires stage { IsStageOver (meaning U.state up).columns (stage_in stage) }
    requires structs { column_structs (meaning U.state up).columns ≤ most_structs }
    ensures means { stage_state U.state W.columns W.ahead W.blocks W.nodes result ≡ over_stream (raw_link up) (stage_in stage) (meaning U.state up) }
    ensures besides { (rows : List Row) (chunk : ArrayTree) → stage_gives W.gives result rows chunk
        → W.besides stage.step (stage_in stage).columns rows chunk }
{
    up.lawful_facts();
    stages::stages_keep_columns();
    stages::schemas_are_small();
    let PlannedStage { step, columns } = stage;
    let out = OutColumns::new(columns);
    Stage::start(up, W::of(alloc, step, out, workers))
}
