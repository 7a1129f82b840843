//! The step of a stage that totals columns: of all rows it makes one, with the count, the sum, the least and the greatest
//! of the numbers of each picked column.
//!
//! [`TotalsStep`] has workers (`fan_out`) add up the rows of each chunk, each a piece of them column by column. It joins
//! their answers, releases the chunk, and at the end gives one chunk of one row.
//!
//! What the contracts say: its stage gives the one chunk that `stage_model` says of totals, and none where the stream below
//! ends at a refused record. Its columns are of the types that `stage_model` names, and a lawful stream stays lawful. Sums
//! are exact: no sum of a lawful stream's numbers leaves its type. The number of workers changes none of this. The chunk is
//! made anew, with a node of its own and one for each column.
//!
//! The definitions are in `specs`: `Totals`, `Sums`, `Rows`. Left to others: which columns a stage text names
//! (`stage_plan`), and the chunk of the row, which `csv_read` makes of builders.
#![tactic(auto)]

mod chunk;
mod job;
mod numbers;
mod row;
mod sums;
mod totals;
mod window;

pub use totals::TotalsStep;
