//! Columns and tables, exported: the schema of columns, and the arrays of columns and of a table ("The Arrow C Data
//! Interface", "The ArrowSchema structure", "The ArrowArray structure").
//!
//! - [`export_schema`] gives a live schema tree whose formats are the canonical spellings of `fmt_string`.
//! - [`export_column`] makes a finished column of `col_build` an array, with a dictionary or without, and [`export_table`]
//!   makes a struct of such columns. Neither copies a byte. Where memory runs out the columns come back; [`let_go_column`]
//!   lets one go.
//!
//! The caller owns the trees, and releases them. Their units come from the pass, which counts their nodes. Lengths and
//! offsets count items.
//!
//! The laws say what the arrays mean to `layout_check`: a column is lawful and has the values that it was made of
//! ([`encoded_columns_are_lawful`]), also through a dictionary ([`indexed_columns_are_lawful`]); a table of lawful columns
//! is a chunk whose rows are the columns' items ([`lawful_columns_make_a_chunk`]); and so is a table of columns that are
//! made of values ([`columns_of_values_make_a_chunk`]).
//!
//! The definitions are in `specs`: `ArrayTrees`, `ValueColumns`, `SchemaSize`; those of schemas in `schema_check`. Left to
//! others: which columns there are, and how their values come into buffers.
#![tactic(auto)]

mod column_array;
mod columns;
mod laws;
mod schema;
mod size;
mod table_array;
mod types;

pub use column_array::{export_column, let_go_column};
pub use laws::{
    columns_of_values_make_a_chunk, encoded_columns_are_lawful, indexed_columns_are_lawful,
    lawful_columns_make_a_chunk,
};
pub use schema::export_schema;
pub use size::schema_size;
pub use table_array::export_table;
pub use types::column_schemas_are_lawful;
