//! Distinct texts, numbered in the order in which they first appear.
//!
//! A [`Distinct`] borrows the texts that it is given, and keeps each once. It answers the number of each, from 0, and
//! whether it is new. No text is copied. `NoMemory` comes only where memory runs out.
//!
//! What the contracts say (`specs/Distinct.antt`): the numbers are those of the order of first appearance, whatever the
//! texts are. Ordinary texts are found by their hash in a constant number of steps, as far as there aren't more of them than
//! were announced, nor more than 2^28. Texts whose slots others have are found by their order. So no choice of texts takes
//! more than a number of steps that grows with the logarithm of the number of texts; no clause counts steps. The slots take
//! 8 to 16 bytes for each text that is announced. Left to others: which items of a column the texts are.
#![tactic(auto)]

mod distinct;
mod hash;

pub use distinct::Distinct;
