//! Texts of trees: a schema tree and an array tree read from lines of text, and the report of a checked array.
//!
//! - [`read_tree`] reads the two trees ("The Arrow C Data Interface", "Structure definitions", has the members that the
//!   lines spell). It answers exactly the two trees of the text, or its first fault ([`TextFault`]): too many lines, or the
//!   number from 1 of the first line that isn't allowed at its place. The trees may be lawful or not.
//! - [`report`] writes a line for each node of an array that the check accepts: its path, its format, its length and its
//!   null count, both in items.
//! - The law [`one_reading`] says that each text has exactly one answer.
//!
//! A text is read once, line by line, in time that grows with its bytes. A number of parts that a line announces takes no
//! memory before the lines of these parts are read. Each live node and each buffer costs a unit; after a fault all units
//! are back. `NoMemory` comes only where memory runs out.
//!
//! The definitions are in `specs`: `TreeText` (the lines), `Standing` (which line is allowed at which place), `Report`.
//! Left to others: whether the trees are lawful (`schema_check`, `layout_check`), and reading a text from a source
//! (`edge_io`).
#![tactic(auto)]

mod array_tree;
mod buffers;
mod cursor;
mod fault;
mod hexadecimal;
mod laws;
mod lines;
mod node_line;
mod numbers;
mod reading;
mod report_text;
mod report_tree;
mod schema_tree;
mod tokens;

pub use fault::TextFault;
pub use laws::one_reading;
pub use reading::read_tree;
pub use report_tree::report;
