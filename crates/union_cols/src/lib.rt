//! Unions at the root of a tree: their schemas read, their arrays checked, their items read in place ("Arrow Columnar
//! Format", "Union Layout"; "The Arrow C Data Interface", "Data type description -- format strings").
//!
//! - [`read_union`] answers the kinds of a union's schema ([`UnionTyped`]), or its first fault ([`UnionSchemaFault`]).
//! - [`check_union`] tries the rules of a union's array in the order of [`UnionRule`]. It answers the first that fails,
//!   with a place and two numbers, or `Ok` exactly where none does. It takes no memory.
//! - [`UnionCol`] shows the items of an array that passed: an item's type id, its value, and its number in its child.
//! - [`tag`] makes a chunk's columns the children of a union, whose items are the first columns that aren't null. Otherwise
//!   the chunk comes back with a [`TagFault`].
//!
//! An item's child is looked up by its id in a table, never by a search. Ids and offsets outside the array's window are
//! never read. A child that no item names is checked too. No call copies bytes of an array.
//!
//! The definitions are in `specs`: `UnionFormats`, `UnionSchemas`, `UnionRules`, `Unions` (items and values), `Tags` (what
//! is made of a chunk). Left to others: unions below the root, which `fmt_string` refuses, and what a child's items are
//! (`arr_import`).
#![tactic(auto)]

mod check;
mod column;
mod fault_text;
mod format;
mod id_table;
mod kinds;
mod laws;
mod node;
mod number;
mod read;
mod rule;
mod schema_fault;
mod some_format;
mod tag_fault;
mod tag_ids;
mod tag_moves;
mod tag_tops;
mod tagged;

pub use check::check_union;
pub use column::UnionCol;
pub use kinds::UnionTyped;
pub use laws::{one_union_answer, tagged_chunks_are_unions, union_holds};
pub use read::read_union;
pub use rule::{UnionFault, UnionRule};
pub use schema_fault::UnionSchemaFault;
pub use some_format::some_union_format;
pub use tag_fault::TagFault;
pub use tag_ids::first_valued;
pub use tagged::{columns_fault, tag};
