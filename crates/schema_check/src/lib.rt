//! The check of a schema of the C data interface ("The Arrow C Data Interface", "The ArrowSchema structure"), and the tree
//! of types of one that passes.
//!
//! - [`check_schema`] answers the kinds of a schema that meets each rule at each node: a node's type, its children, its
//!   dictionary. Otherwise it answers the first rule that fails at the first such node in preorder (a node, its children by
//!   number, its dictionary), with the path to it ([`SchemaFault`]). `NoMemory` comes only where memory runs out.
//! - Laws say that a schema has one answer ([`one_schema_answer`]), and that the kinds of one that meets each rule are
//!   valid ([`kinds_are_valid`]).
//!
//! The definitions are in `specs/promise/Schemas.antt` (the rules) and `specs/promise/ColumnSchema.antt` (the schemas of columns and
//! tables). Left to others: trees of kinds and paths (`data_types`), arrays (`layout_check`), and whether a schema is
//! released, moved or shared in the right order.
#![tactic(auto)]

mod fault_text;
mod rule;
mod schema;

pub use rule::SchemaRule;
pub use schema::{SchemaFault, check_schema, kinds_are_valid, one_schema_answer};
