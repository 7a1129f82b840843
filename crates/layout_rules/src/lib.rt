//! Rules of arrays of the C data interface, and what a lawful array promises to its reader ("The Arrow C Data Interface",
//! "Structure definitions"; "Arrow Columnar Format", "Physical memory layout").
//!
//! - A [`LayoutRule`] is what each node of an array must meet. A [`LayoutFault`] is the first that fails, with the path to
//!   its node, a place and two numbers, whose units each rule names. A [`Layout`] says how a type's arrays are laid out
//!   ([`layout_of`]).
//! - Laws say what the reader of a lawful array may rely on: what holds of its root ([`lawful_root`]), that its parts are
//!   lawful ([`lawful_parts`]), and that what is read of an item lies within the buffers, the children and the dictionary
//!   ([`lawful_items_lie_within`], `specs/Within.antt`). [`lawful_trees`] and [`chunks_are_tables`] say it over all trees.
//!
//! The definitions are in `specs`: `Rules`, `Walk` (the first fault over the nodes of an array), `Layout`, `Values` (the
//! values of a lawful array). Left to others: the check itself (`layout_check`), the kinds of a schema (`schema_check`), and
//! reading the values (`arr_import`).
#![tactic(auto)]

mod fault_text;
mod laws;
mod layout;
mod rule;

pub use laws::{
    chunks_are_tables, lawful_has_no_fault, lawful_items_lie_within, lawful_parts, lawful_root,
    lawful_trees,
};
pub use layout::{Layout, buffer_count, layout_of};
pub use rule::{LayoutFault, LayoutRule, Numbers};
