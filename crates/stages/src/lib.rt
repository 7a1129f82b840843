//! Stages of a chain of streams: each holds the checked stream below it, and a step that makes chunks of that stream's
//! chunks.
//!
//! - [`ChunkStep`] is the trait of steps: what a stage makes of a chunk, and of the end of the stream below it. A step sees
//!   no stream.
//! - [`Stage`] is a stream over the checked stream below it ([`stream_face::RawStream`]) and a step. It pulls chunks from
//!   that stream, pushes them to the step, and gives those that the step makes. The type of a chain of stages grows by one
//!   name for each stage.
//! - [`OutColumns`] are the columns after a stage, of which it makes its schema at each call.
//!
//! What the contracts say: a [`Stage`] keeps the contract of [`stream_face::ArrayStream`] by its step's alone. It is
//! lawful, since the stream below it is. Where memory runs out, that answer stays. What the stream below it holds, shows
//! and is refused for passes through. The `get_next` of a [`Stage`] also says what a chunk has besides its rows, such as a
//! dictionary, by the step that it was started with.
//!
//! The definitions are in `specs`: `Steps` (what a step makes), `Stages`, `Dues` (what a stage's calls still count),
//! `Structs` (the structs among columns). Laws say what a stage that no rule refuses leaves of columns
//! ([`stages_keep_columns`]), that it picks none twice ([`picks_are_distinct`]), how small the schemas of columns are
//! ([`schemas_are_small`]), and what chunks of columns cost at most, in units ([`chunks_are_small`]). The lemmas that steps
//! of more than one crate cite are in `proofs`.
//!
//! Left to others: what stages mean (`stage_model`), and the steps (`stage_kernels`, `stage_filter`, `total_stage`,
//! `dict_stage`). A step says what columns come after it, which tables are still ahead, from those that are still to be
//! pushed, and what it counts for a chunk that it gives.
#![tactic(auto)]

mod costs;
mod out_columns;
mod plan_laws;
mod pull;
mod stage;
mod step;

pub use costs::chunks_are_small;
pub use out_columns::OutColumns;
pub use plan_laws::{picks_are_distinct, schemas_are_small, stages_keep_columns};
pub use stage::Stage;
pub use step::ChunkStep;
