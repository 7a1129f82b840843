//! Values of lawful arrays, read in place ("Arrow Columnar Format", "Physical memory layout").
//!
//! - [`Col`] is a column: a window over the items of an array. [`Col::value`] shows an item: a null, a number, bytes that
//!   are lent from the block, a list as the column of its items, or that it is a struct. [`Col::truth`], [`Col::whole`],
//!   [`Col::bits`] and [`Col::bytes`] show the items of one kind alone, at less cost. [`Col::child`] is a struct's child
//!   over the struct's window, and [`Col::columns`] has all of them. [`Col::home`] follows an item through its
//!   dictionaries.
//! - [`Col::plain`] settles once how a column is stored whose items are in place or between offsets, without a dictionary,
//!   so that an item costs its validity bit and the read alone ([`Plain`]). [`Col::indexed`] finds the dictionary of
//!   indices once ([`Indexed`]).
//!
//! Items are numbered from 0, and a number below the column's length is a condition of each call. Only [`Col::columns`]
//! takes memory, and answers `NoMemory` only where it runs out; no other call fails. No call writes or copies bytes. A
//! column looks its buffers up once, so that a text costs a bit, two offsets and a slice, whatever the length of the
//! column. A list's items, and a dictionary but for [`Indexed`], are columns that are made anew for each item that is read.
//!
//! Contracts see a column as a window (`specs/Window.antt`): the kinds, the array's tree, and which items of it.
//! `specs/promise/Values.antt` of `layout_rules` says what an item is, `specs/Shown.antt` what a reference shows, and
//! `specs/Plain.antt` what a plain column is. Left to others: whether an array is lawful (`layout_check`), and taking in a
//! schema and an array together (`tree_check`).
#![tactic(auto)]

mod access;
mod col;
mod home;
mod indexed;
mod item;
mod one_kind;
mod plain;
mod rows;
mod stored;
mod value;
mod value_ref;
mod view;

pub use col::{Col, buffer_bytes, validity_of};
pub use indexed::Indexed;
pub use plain::Plain;
pub use stored::{start_at, truth_at, whole_at};
pub use value_ref::ValueRef;
