//! Texts of values, and the text of an array's items, a line each.
//!
//! - [`push_value`] appends the text of an item of a column, which it reads in place.
//! - [`items_text`] is the text `ok` and a line for each item of a lawful array. Where the numbers of items and the sizes of the
//!   buffers don't show that the text is short, its length is found first, and then the text is made in room of just that length.
//! - [`BoundedText`] is a text of at most 2^31 bytes. What would make it longer is refused as out of memory: an array of a
//!   few bytes can have 2^40 items, and a dictionary entry can be the value of any number of them.
//! - [`measured_lengths`] finds the lengths in bytes of the texts of all items of an array ([`Lengths`]), in time and memory of the size
//!   of its buffers: items that no buffer holds have one length for all, an item that the buffers hold is measured once, and a byte is
//!   read once. [`text_bound`] says how long the texts are at most, [`struct_length_at`] and [`field_length_at`] how long those of a
//!   struct and of its fields are, by the lengths of its children's ([`children_measured`]).
//!
//! The definitions are in `specs/promise/ValueTexts.antt` of `data_types` (the text of a value) and `specs/Lengths.antt` (its
//! length). The calls go down one level of the checked kinds at a time. They take no memory but that of the text, of the lengths
//! and of the places of a dictionary's entries, and answer `NoMemory` only where it runs out or where a text is too long. Left to
//! others: whether an array is lawful (`layout_check`), and what an item of it is (`arr_import`).
#![tactic(auto)]

mod bound;
mod bounded;
mod escapes;
mod homes;
mod lengths;
mod lines;
mod measure;
mod numbered;
mod placed;
mod table;
mod value;
mod views;

pub use bound::text_bound;
pub use bounded::BoundedText;
pub use lengths::{FieldSums, Lengths, field_sums, plus, times, whole_length};
pub use lines::items_text;
pub use measure::{children_measured, measured_lengths};
pub use numbered::push_numbered;
pub use placed::{field_length_at, struct_length_at};
pub use value::push_value;
