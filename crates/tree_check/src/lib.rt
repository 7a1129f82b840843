//! The check of a schema tree and an array tree together, as they come from a producer or as they are given as a text.
//!
//! - [`import`] takes a schema and an array over from their producer ("The Arrow C Data Interface", "Importing"). It keeps
//!   both where `schema_check` and `layout_check` accept them; otherwise it hands both back whole, with the fault of the
//!   check ([`ImportFault`]).
//! - An [`Imported`] lends its array, the schema's kinds, and the array's items as a column. It can't be dropped:
//!   [`Imported::into_raw`] gives the two structures back with the kinds.
//! - [`check_tree`] reads the two trees of a text, checks the schema, then the array by the schema's kinds, and makes a
//!   report of the array. Otherwise it answers the first fault of the text, of the schema, or of the array, with the path
//!   to the node ([`CheckFault`]). Both trees are released on every path, and the pass has counted what they were made of.
//! - The law [`one_check`] says that each text has exactly one report or one fault, and [`some_schema_answer`] that each
//!   schema which a text can spell has kinds or a first fault.
//! - [`number_between`] reads a number among the words of a program.
//!
//! `NoMemory` comes only where memory runs out: in an import from the schema's check alone.
//!
//! The definitions are in `specs/promise` and `specs/Imports.antt`. Left to others: the lines of a text and the
//! report (`tree_text`), the rules of schemas and arrays (`schema_check`, `layout_rules`), whether the root is a table
//! (`layout_check::check_chunk`), the values of the column ([`Col`](arr_import::Col)), and the release of the structures
//! that are taken.
#![tactic(auto)]

mod check;
mod fault;
mod imported;
mod laws;
mod number;
mod some;

pub use check::check_tree;
pub use fault::{CheckFault, TreeFault};
pub use imported::{ImportFault, Imported, import};
pub use laws::one_check;
pub use number::number_between;
pub use some::some_schema_answer;
