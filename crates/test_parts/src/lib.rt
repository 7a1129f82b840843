//! What tests of several crates make: small trees of raw structures, and a gate at which two workers are seen side by side.
//!
//! No call ends a test, since a library may not: what can't be made comes back as its parts, and the test expects that it can.
#![tactic(auto)]

mod arrays;
mod gates;
mod schemas;

pub use arrays::{Items, UnmadeArray, array, built, view};
pub use gates::Meet;
pub use schemas::{UnmadeSchema, node};
