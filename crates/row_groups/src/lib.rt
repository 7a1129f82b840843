//! Items of a column, grouped by value.
//!
//! [`grouped`] finds the groups of a column of a flat type: its distinct values in order of first appearance, and the
//! numbers of the items of each ([`Groups`]). [`first_items`] finds only the first item of each. The
//! definitions are in `specs/promise/Groups.antt` of `data_types`: which values of a flat type are the same, which are the distinct ones
//! of a column, and which items have each.
//!
//! A null is a value of its own, and floats are compared by their bits. An item costs a constant number of steps, whatever
//! the values are, but for the logarithm of their number where they were chosen to have one hash (`item_keys`); and at most
//! 12 bytes beside what each distinct value takes. The bytes of the items are lent and not copied, and the array stays as
//! it is. `NoMemory` comes only where memory runs out.
//!
//! Left to others: which array is lawful (`layout_rules`), and the columns that are made of its items (`column_fill`).
#![tactic(auto)]

mod column;
mod fault;
mod firsts;
mod groups;
mod numbering;
mod numbers;
mod order;

pub use fault::GroupFault;
pub use firsts::first_items;
pub use groups::{Groups, grouped};
