//! Types of the Arrow columnar format, and the definitions of values, columns, tables and trees of types that all crates
//! above use.
//!
//! - [`DataType`] is a type, [`Storage`] how its values are stored ([`storage_of`]), [`ColKind`] and [`ColumnType`] what a
//!   column holds, [`RowFault`] why a record of CSV is no row. [`clone_kind`] and [`clone_columns`] copy, [`is_flat`] says
//!   of which types a field of CSV can spell the values, and [`decode_hex`] reads bytes from hexadecimal digits.
//! - A [`Typed`] is the tree of the types of a schema that meets its rules ("The Arrow C Data Interface", "The ArrowSchema
//!   structure"): a node's type, its children, its dictionary. The law [`kinds_of_typed`] says what one level of it is.
//! - A [`Path`] is the way from the root of a tree to a node, and its text.
//!
//! The definitions are in `specs`: `Value` and `Table`, `Kinds` (the numbers that a type may have), `Storage` (the one
//! table of how values are stored), `FieldText` (fields of CSV), `ValueTexts`, `Packed` (bits and numbers in buffers),
//! `Parts` (columns picked and packed), `Groups` (distinct values), `KindTrees` (which trees of types are valid),
//! `ColumnKinds` (the types of columns).
//!
//! What the contracts say: a copy equals its original; `NoMemory` comes only where memory runs out; and the text of a value
//! of a flat type reads back as that value, under any mark for nulls that it isn't itself. Left to others: how a type is
//! spelled (`fmt_string`), the types of a schema (`schema_check`), and reading and writing fields (`field_codec`).
//!
//! A new type is a variant of [`DataType`] with an arm in [`storage_of`] and one in [`clone_kind`]. [`is_flat`] and
//! [`is_column_type`] name only the types that differ from others of their storage. `fmt_string` has its format string. All
//! else goes by its [`Storage`]; docs/CHANGING.md names the files of a type that is stored in a new way.
#![tactic(auto)]

mod column_view;
mod columns;
mod copied;
mod field_text;
mod hexadecimal;
mod kind;
mod laws;
mod path;
#[cfg(test)]
mod path_tests;
mod path_text;
mod row_fault;
mod storage;
mod typed;

pub use column_view::struct_of;
pub use columns::{clone_kind, is_column_type, is_flat};
pub use copied::{clone_column, clone_columns};
pub use field_text::{fields_are_values, written_texts_read_back};
pub use hexadecimal::decode_hex;
pub use kind::{ColKind, ColumnType, DataType, Tick};
pub use laws::kinds_of_typed;
pub use path::{DICTIONARY_STEP, Path};
pub use row_fault::RowFault;
pub use storage::{Storage, storage_of};
pub use typed::Typed;
