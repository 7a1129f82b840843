//! List columns of a chunk: rows grouped by a column, and rows whose lists are spread out ("Arrow Columnar Format",
//! "Variable-size List Layout").
//!
//! - [`nest`] groups the rows of a chunk: a row for each distinct value of one column, with lists of the values of the
//!   others.
//! - [`explode`] spreads out the lists of a column: a row for each item of each list. [`exploded_rows`] says how many rows
//!   that makes.
//! - Both take a schema and an array and give new ones. Where they refuse, what was handed in comes back with a
//!   [`ListFault`]. [`wrong_to_nest`] and [`wrong_to_explode`] find the first column at fault, by its number from 0.
//!
//! The definitions are in `specs`: `Nested` (rows that are grouped and spread out); `NestedFields`, `NestedTables` and
//! `ListTrees` (the schema, the array and the list columns of grouped rows); `Fields` and `Exploded` (the schema and the
//! array of rows whose lists are spread out); `Faults` and `NestFaults`.
//!
//! What the contracts say: the new schema, the new array and its rows are exactly those of the definitions, and each fault
//! has exactly its cause. The laws: a table of flat columns that is made of rows is a chunk with these rows
//! ([`flat_tables_have_their_rows`]); a column of lists has these lists ([`list_trees_are_lawful`]); a table of grouped
//! rows has these rows ([`nested_tables_have_their_rows`], [`nested_schemas_have_their_kinds`]); grouped and spread out
//! again, rows of two columns are in the order of their keys ([`keys_come_together`]).
//!
//! Left to others: whether a chunk is lawful (`layout_check`), and which values are the same (`row_groups`).
#![tactic(auto)]

mod columns;
mod exploded;
mod fault;
mod fault_text;
mod fields;
mod kinds;
mod laws;
mod lists;
mod long;
mod nest_alone;
mod nest_columns;
mod nest_laws;
mod nest_lists;
mod nest_schema;
mod nest_table;
mod nest_wrong;
mod nesting;
mod rows;
mod runs;
mod table;
mod totals;
mod trees;
mod wrong;

pub use exploded::explode;
pub use fault::ListFault;
pub use laws::{flat_tables_have_their_rows, keys_come_together};
pub use nest_laws::{
    list_trees_are_lawful, nested_schemas_have_their_kinds, nested_tables_have_their_rows,
};
pub use nest_wrong::wrong_to_nest;
pub use nesting::nest;
pub use rows::exploded_rows;
pub use wrong::wrong_to_explode;
