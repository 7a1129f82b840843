//! Definitions of stages: the grammar of their texts, their typing, what each makes of a table and of chunks, the links of
//! a chain of stages, and the blocks and nodes that a run makes.
//!
//! They are in `specs`: `StageGrammar` (texts), `Typing` (steps and the columns after them), `Stages` (tables and chunks),
//! `Dictionary` (distinct values), `Links` (the chunks of each link, and the whole table), `Traffic` (blocks and nodes).
//! The calls are laws, and do nothing. [`StageText`] is a stage by names of columns, [`Step`] one by
//! numbers of columns, and [`StageFault`] and [`PlanFault`] are why a text is no stage and why stages don't fit columns.
//! Reading and typing are `stage_plan`'s.
#![tactic(auto)]

mod fault;
mod laws;
mod stage;

pub use fault::{PlanFault, PlanRule, StageFault};
pub use laws::{
    batches_give_the_whole, chunks_give_the_whole, slices_are_windows, stages_fit_their_columns,
};
pub use stage::{Const, Names, Picks, StageText, Step, Test};
