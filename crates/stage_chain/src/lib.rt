//! The chain of stages over a stream of chunks, and the CSV text of its last stream.
//!
//! [`drive_steps`] makes the stages of a plan streams, each over the checked stream of the one before it, and writes the
//! rows of the last one as CSV. Otherwise it answers a [`DriveFault`]. The step of a stage is made of the plan's
//! ([`PlanStep`]), and one type has steps of all kinds. [`start_stage`] makes one such stream alone. No type of a chain
//! holds itself: each stage is a stream over the stream below it, and the number of stages that may be left is a number
//! that is a type (`chain.rt`).
//!
//! What the contracts say: the text is that of the one table that the stages make of all rows, whatever the chunks that
//! these came in; each chunk of each link is checked and shown to the tap, once and in order; the counts rise by what the
//! source and the stages make; a source that ends at a refused record is refused with it; and the source is spent with all
//! units on every outcome.
//!
//! The definitions are in `specs`: `Chains`, `Plans`. Left to others: what stages mean (`stage_model`), which stages fit
//! columns (`stage_plan`), what each does to a chunk (the steps: `stage_kernels`, `stage_filter`, `dict_stage`,
//! `total_stage`), and where the rows come from.
#![tactic(auto)]

mod boxed;
mod chain;
mod planned;
mod stage_start;
mod step_of;
mod text;

pub use csv_write::DriveFault;
pub use planned::PlannedStage;
pub use stage_start::start_stage;
pub use step_of::PlanStep;
pub use text::drive_steps;
