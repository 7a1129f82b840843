//! The step of a stage that filters rows: of each chunk it keeps those whose item in one column passes a test.
//!
//! [`FilterStep`] finds the numbers of the rows that pass, in workers, and takes the chunk apart. It copies the items of
//! these rows into new columns, value by value. Of a column with a dictionary it copies the indices, and moves the
//! dictionary itself into the new column, at all depths. A chunk of which no row passes is still given, without rows.
//!
//! What the contracts say: its stage gives the chunks that `stage_model` says of a filter, with the columns before it. Each
//! chunk is made anew, with a node for each column at each depth, and the blocks of its own columns. No dictionary is made
//! or copied ([`kept_rows_make_a_chunk`]). A lawful stream stays lawful. What is left of the old chunk is released.
//!
//! Left to others: which column, test and constant a stage text names (`stage_plan`).
#![tactic(auto)]

mod chunk;
mod column;
mod columns;
mod dictionary;
mod filter;
mod indices;
mod kept;
mod laws;
mod workers;

pub use filter::FilterStep;
pub use laws::kept_rows_make_a_chunk;
