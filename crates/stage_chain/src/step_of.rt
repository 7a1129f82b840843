//! The trait of a type that has steps of all kinds: each is made of a step of the plan.
ghost use Rattle.std.specs.Prelude.{◌≡◌, ◌≤◌, IsTrue, List, Option, Some, map};
ghost use Rattle.data_types.specs.ColumnView.{column_of};
ghost use Rattle.data_types.specs.promise.Table.{Column, Row};
ghost use Rattle.data_types.specs.declared.row_fault.RowFault.{RowFault};
ghost use Rattle.raw_array.specs.promise.Members.{ArrayTree};
ghost use Rattle.stages.specs.Structs.{column_structs, most_structs};
ghost use Rattle.stage_model.specs.promise.Stages.{chunks_after};
ghost use Rattle.stage_model.specs.promise.Traffic.{made_blocks, made_nodes};
ghost use Rattle.stage_model.specs.Typing.{IsStageOver};
ghost use Rattle.stage_model.specs.declared.stage.Step.{Step as AStep};

use fan_out::Workers;
use stage_model::Step;
use stages::{ChunkStep, OutColumns};
use std::alloc::Global;

/// The step of a stage, whatever its kind is: one type, so that a chain of many stages has a type that grows by one name a stage.
pub trait PlanStep: ChunkStep {
    /// What a chunk of these rows that the stage of a step with these columns after it gives has besides the rows.
    ghost besides: { AStep → List Column → List Row → ArrayTree → Type 0 };

    /// The step of a stage, whose columns after it these are, by this many workers. Takes no memory.
    fn of(alloc: Global, step: Step, out: OutColumns, workers: Workers) -> Self
        ensures rests { IsTrue (Self.rests result) }
        ensures fits { (before : List Column) → IsStageOver before (record { step = step; columns = map column_of out })
            → column_structs before ≤ most_structs → Self.fits result before }
        ensures columns { Self.columns result ≡ out }
        ensures ahead { (ending : Option RowFault) (tables : List (List Row)) → Self.ahead result ending tables ≡ chunks_after step ending tables }
        ensures blocks { (rows : List Row) → Self.blocks result rows ≡ made_blocks (Some step) (map column_of out) rows }
        ensures nodes { (rows : List Row) → Self.nodes result rows ≡ made_nodes (Some step) (map column_of out) }
        ensures gives { (rows : List Row) (chunk : ArrayTree) → Self.gives result rows chunk → besides step (map column_of out) rows chunk };
}
