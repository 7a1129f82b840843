//! What the words ask for of a table.
ghost use Rattle.std.specs.Prelude.{◌≤◌, vec_len, IfSome};
ghost use Rattle.std.proofs.Props.{props};
ghost use Rattle.stage_plan.specs.promise.PlanWords.{most_stages};
ghost use Rattle.run_model.specs.promise.Words.{most_ahead, most_batch};

use fan_out::Workers;
use stage_plan::{StageText, TypeEntry};
use unit_pass::Name;

/// What is asked for of a table: types of columns by name, stages, the most rows of a batch, how many workers share the rows
/// of a chunk, the mark for null, and how many batches a round reads in a thread ahead of the stages, where one is to.
#[derive(Drop)]
pub struct Request {
    /// The entries of the schema text.
    pub entries: Vec<TypeEntry>,
    /// The stages, at most 16.
    pub stages: Vec<StageText>,
    /// The most rows of a batch, 1 to 1,000,000.
    pub batch: u32,
    /// How many workers share the rows of a chunk.
    pub workers: Workers,
    /// The text of a null.
    pub mark: Name,
    /// How many batches a round reads ahead, 1 to 64; none where no thread reads ahead.
    pub ahead: Option<u32>,
    pub ghost few_stages: { vec_len stages ≤ most_stages },
    pub ghost some_rows: { 1 ≤ batch },
    pub ghost few_rows: { batch ≤ most_batch },
    pub ghost ahead_fits: { IfSome ahead (λ n. (1 ≤ n) × (n ≤ most_ahead)) } by { Prim.hlevel props },
}
