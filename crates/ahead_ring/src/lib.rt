//! Items that are made in a thread of their own, ahead of the caller who takes them, over a ring buffer (`rtrb`).
//!
//! A [`Maker`] gives the items of a finite list one by one. An [`Ahead`] gives the same items to its caller while the maker
//! works on the next ones. A round moves the maker and the producing end of the ring into a thread, which makes and pushes
//! at most a fixed number of items. After its join both ends are in one hand, so what came into the ring is known, and
//! there is room for another round. So no call waits for a place or for an item, and none tries again: it waits only for
//! the end of a thread.
//!
//! What the contracts say (`specs/Coming.antt`): what comes out is, in order and each once, what the maker had to give,
//! whatever the number of items of a round, and whether or not a thread can be had. Once the ring is made, only the maker
//! runs out of memory. That answer comes after the items that were made before it, and stays. No contract says that maker
//! and caller run at the same time. Left to others: what the items are.
#![tactic(auto)]

mod ahead;
mod flight;
mod maker;
mod round;
mod rounds;
#[cfg(test)]
mod tests;

pub use ahead::Ahead;
pub use maker::{Given, Maker};
