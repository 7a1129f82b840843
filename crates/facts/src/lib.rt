//! Facts: what the definitions of each chapter of `docs/promise` compute on small texts, trees, arrays and rows.
//!
//! A module is of one chapter. A function of it does nothing: each clause of its contract is one vector, and the check computes the
//! definition on it. An answer comes from a standard's own examples, which the clause or the function names, or was worked out by hand
//! from the standard or the chapter. So a definition that says something else than it should is refused here, where its contracts
//! would still hold.
//!
//! Nothing depends on this crate. What the code makes of such texts is shown by the crates of tests and of cases.
#![tactic(auto)]

mod answers;
mod csv_text;
mod encoded_runs;
mod formats;
mod inside;
mod links;
mod lists;
mod statuses;
mod streams;
mod structures;
mod table_stages;
mod trees;
mod unions;
mod values;
mod words;

pub use answers::text_answers;
pub use csv_text::{csv_texts, headers, made_texts, rfc_4180};
pub use encoded_runs::{run_arrays, standard_runs};
pub use formats::{format_texts, metadata};
pub use inside::{groups, made_arrays, picked_columns, windows};
pub use links::{batches, link_chunks};
pub use lists::list_rows;
pub use statuses::{run_statuses, tree_statuses};
pub use streams::shown_chunks;
pub use structures::{arrays, standard_arrays};
pub use table_stages::{dictionary_runs, marked_runs, plans, stage_runs, stage_texts};
pub use trees::tree_texts;
pub use unions::{standard_unions, tags, union_arrays};
pub use values::{encodings, fields, standard_columns};
pub use words::{ahead, numbers, option_words, stage_words, tree_words, words_together};
