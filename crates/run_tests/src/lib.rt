//! Tests of [`pipe_top::run`] that need more than texts: gates and threads, an input that is too long to be held, and faults as
//! values; of [`pipe_top::RecordTap`]; and of [`pipe_top::drive`] over a lawful stream of a producer's own
//! ([`own::OwnStream`]), whose builders make its chunk when it is asked for.
//!
//! They are a crate of their own, so that their check doesn't prove the crate that they test once more.
#![tactic(auto)]

mod chunk;
#[cfg(test)]
mod driving;
#[cfg(test)]
mod faults;
#[cfg(test)]
mod lines;
mod own;
mod refused;
#[cfg(test)]
mod runs;
#[cfg(test)]
mod taps;
#[cfg(test)]
mod text_columns;
#[cfg(test)]
mod text_faults;
#[cfg(test)]
mod workers;
