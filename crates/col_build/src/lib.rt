//! Builders of flat columns: the buffers of a column, filled item by item ("Arrow Columnar Format", "Physical memory
//! layout").
//!
//! A [`Builder`] is made for a flat type and takes [`Item`]s. [`Builder::push`] adds one behind those that are there, or
//! answers a [`PushFault`] and changes nothing; [`Builder::push_text`] does so with a text that the caller has tested by
//! [`is_text`]. [`Builder::finish`] moves the buffers into blocks and answers them as a [`FinishedColumn`]. The builder is
//! empty then; where memory runs out it keeps all its items. [`Builder::begin_anew`] makes room in it for the next items.
//! The bytes of a column of texts are UTF-8, and their block is marked as text.
//!
//! - `specs/promise/Encoding.antt` says, from the values alone, what the buffers of a column are: the validity bitmap, the offsets
//!   and the data, which of them are absent, and what a null has in its place. It also says which items a column takes
//!   (`push_fault`).
//! - A contract says which values a builder holds by `Holds`, a relation over its unfinished buffers. It holds of a new
//!   builder and no values, each push adds its value or keeps them, and the finished column is the encoding of exactly
//!   these values (`IsEncoded`).
//! - An item that the caller knows to be taken is added by [`Builder::add_whole`] and its like, which fail only where
//!   memory runs out. Numbers, narrow offsets and the bytes between them have others made ahead behind them, which `Holds`
//!   doesn't see; a push and a finish cut them first.
//! - [`Builder::add_times`] adds an item many times at once, and the bits of items without bytes by whole bytes.
//! - A push allocates only to let a buffer grow, by amortised growth. Validity bits are made with the first null, for all
//!   items before it. The code copies no byte to finish, except where memory runs out; no clause says so.
//! - The caller lets the holds of a finished column go. How a column becomes an array is left to `arr_export`.
#![tactic(auto)]

mod adds;
mod ahead;
mod bits;
mod builder;
mod column;
mod finish;
mod item;
mod numbers;
mod shape;
mod store;
mod text;
mod times;
mod validity;

pub use builder::Builder;
pub use column::FinishedColumn;
pub use finish::SpareBuffers;
pub use item::{Item, PushFault};
pub use text::{is_text, is_text_beyond};

#[cfg(test)]
mod add_tests;
#[cfg(test)]
mod tests;
