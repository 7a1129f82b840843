//! Tests of structures and of what is made of them: trees that are made, shared, moved, narrowed and released (`raw_schema`,
//! `raw_array`, `arr_move`); columns, dictionaries and tables that are exported (`arr_export`); owners of foreign trees
//! (`foreign_array`); and run-end encoded arrays at the root of a tree (`run_ends`).
//!
//! They are a crate of their own, so that their check doesn't prove the crates that they test once more.
#![tactic(auto)]

#[cfg(test)]
mod arrays;
#[cfg(test)]
mod column_arrays;
#[cfg(test)]
mod column_schemas;
#[cfg(test)]
mod columns;
#[cfg(test)]
mod drained;
#[cfg(test)]
mod made;
#[cfg(test)]
mod owned;
#[cfg(test)]
mod run_codes;
#[cfg(test)]
mod run_rules;
#[cfg(test)]
mod run_schemas;
#[cfg(test)]
mod run_values;
#[cfg(test)]
mod schemas;
