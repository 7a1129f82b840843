//! Units of ownership for live structures and holds of blocks, and two types that all crates above share: [`NoMemory`] and
//! [`Name`], a name as bytes.
//!
//! Each live node of a tree and each hold of a block carries one [`Unit`], so the units outside the passes count the live
//! nodes and the holds. A [`Desk`] gives out [`SUPPLY`] units in a [`Pass`] and closes only once all of them are back, so a
//! run that closes its desk has lost no structure and no hold. A pass also counts the blocks and nodes that were made with
//! it. A closed desk answers these counts as an [`Audit`].
//!
//! The definitions are in `specs`: `Tally` (what the counts are), `Names`. Left to the crates above: which call draws a
//! unit, and which one counts.
#![tactic(auto)]

mod name;
mod no_memory;
mod pass;
#[cfg(test)]
mod tests;

pub use name::Name;
pub use no_memory::NoMemory;
pub use pass::{Audit, CHUNK, Desk, Pass, ROOM, SUPPLY, Unit, open_desk};
