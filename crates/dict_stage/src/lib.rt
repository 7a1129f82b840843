//! The step of the stages that give a column a dictionary, or replace one by its values.
//!
//! [`RecodeStep`] gives a column of texts or bytes a dictionary of the chunk's distinct values, in the order in which they
//! first appear, and without a null; or it makes a plain column of the values of a column with a dictionary. It moves the
//! other columns of each chunk.
//!
//! What the contracts say: a step's stage gives the chunks that `stage_model` says of it, and their rows are those of the
//! chunks below it. The dictionary of a chunk has exactly the chunk's own values ([`dictionaries_are_exact`]). Each chunk
//! is made with the blocks of the one column, a node for its struct and one for each array of the column. A lawful stream
//! stays lawful. The column that is replaced is released.
//!
//! Left to others: which column a stage text names (`stage_plan`).
#![tactic(auto)]

mod chunk;
mod coder;
mod column;
mod item;
mod laws;
mod recode;
mod replaced;

pub use chunk::recoded_chunk;
pub use laws::dictionaries_are_exact;
pub use recode::RecodeStep;
