//! Checks that are shared by roots whose format `fmt_string` doesn't spell: unions and run-end encoded arrays ("The Arrow C
//! Data Interface", "Structure definitions").
//!
//! - [`check_own`] tries the rules on the root's own numbers, and on how many parts it has.
//! - [`check_children`] finds the first child, by number, at which `layout_check` finds a fault.
//! - [`check_own_schema`] tries what the schema of every such root must meet besides its format: metadata that spells
//!   pairs, and no dictionary.
//! - [`child_types`] answers the kinds of each child, or the first child at fault.
//! - Laws say that a schema has one answer of each ([`one_root_answer`]), and what holds of arrays at which no rule fails
//!   ([`faultless_roots`]).
//!
//! The definitions are in `specs`: `OwnRules`, `Children`, `Schemas`. The checks of arrays take no memory; `NoMemory` comes
//! from those of schemas alone. Left to `union_cols` and `run_ends`: the format, the buffers and the items of such a root.
#![tactic(auto)]

mod children;
mod fault_text;
mod kids;
mod laws;
mod own;
mod own_schema;

pub use children::{FaultyChild, check_children};
pub use kids::{ChildKindsFault, child_types};
pub use laws::{faultless_roots, one_root_answer};
pub use own::{OwnFault, OwnRule, check_own};
pub use own_schema::{OwnSchemaFault, check_own_schema};
