//! Arrays of foreign producers: a structure with the private data and the release callback of its maker ("The Arrow C Data
//! Interface", "Release callback semantics -- for producers").
//!
//! - An [`Owner`] is what a producer keeps beside a tree, and how it is given back. What its release gives is a fact of its
//!   type, so the holder of a [`Foreign`] needs no promise from its maker.
//! - A [`Foreign`] is a live tree with its owner, or released. It is moved, parted into the tree and a [`Keep`], or released: the
//!   tree first, then the owner, once. Neither can be dropped, also where the owner can.
//! - [`drain`] shows chunks to a [`Visit`] and releases each, in order and on every outcome. From the first chunk on that
//!   isn't lawful, or whose visit runs out of memory, it only releases, and it answers that fault ([`DrainFault`]).
//!
//! The definitions are in `specs`: `Kept` (a tree with its owner), `Drained`. Left to others: whether a chunk is lawful
//! (`layout_check`), and what a visitor does with its rows.
#![tactic(auto)]

mod draining;
mod foreign;
mod keep;
mod owner;
mod pair;

pub use draining::{DrainFault, Visit, drain};
pub use foreign::Foreign;
pub use keep::Keep;
pub use owner::Owner;
