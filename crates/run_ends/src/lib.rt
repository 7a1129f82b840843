//! Run-end encoded arrays at the root of a tree: their schemas read, their arrays checked, their items read in place
//! ("Arrow Columnar Format", "Run-End Encoded Layout"; "The Arrow C Data Interface", "Data type description -- format
//! strings").
//!
//! - [`read_runs`] answers the kinds of a schema of the format `+r` ([`RunTyped`]), or its first fault
//!   ([`RunsSchemaFault`]).
//! - [`check_runs`] tries the rules of such an array in the order of [`RunsRule`]. It answers the first that fails, with a
//!   place and two numbers, or `Ok` exactly where none does. It takes no memory.
//! - [`RunCol`] shows the items of an array that passed: an item's value, and the run that it lies in, found by binary
//!   search. A walk over all items asks for the first item behind each run instead.
//! - [`ColumnRuns`] finds the runs of equal values in a column of any lawful array.
//! - [`encode`] makes runs of a column's values, and [`decode`] a column of the items of runs. Otherwise they answer a
//!   [`CodeFault`]; [`encode_fault`] answers that of a column without a copy.
//! - Laws: [`coded_values_are_the_values`] says that values as runs have a valid schema and a lawful array with these
//!   values, and that no two neighbouring runs have equal ones; [`decoded_runs_are_the_values`] that decoding gives the
//!   same column.
//!
//! The check walks the ends once, and never the items: the length of a window costs nothing. An end is at most 2^63 - 1,
//! whatever the window. Only [`encode`] and [`decode`] copy bytes of an array.
//!
//! The definitions are in `specs`: `Runs` (runs, and the values of items), `RunSchemas`, `RunRules`, `RunCoding` (values as
//! runs, and runs as a column), `CodeFaults`. Left to others: runs below the root, which `fmt_string` refuses, and what a
//! child's items are (`arr_import`).
#![tactic(auto)]

mod check;
mod code_fault;
mod coding;
mod column;
mod column_runs;
mod decoder;
mod encoder;
mod ends;
mod fault_text;
mod kinds;
mod laws;
mod read;
mod rule;
mod run_tops;
mod same;
mod schema_fault;

pub use check::check_runs;
pub use code_fault::{CodeFault, encode_fault};
pub use coding::{coded_values_are_the_values, decoded_runs_are_the_values};
pub use column::RunCol;
pub use column_runs::ColumnRuns;
pub use decoder::decode;
pub use encoder::encode;
pub use kinds::RunTyped;
pub use laws::one_runs_answer;
pub use read::read_runs;
pub use rule::{RunsFault, RunsRule};
pub use schema_fault::RunsSchemaFault;
