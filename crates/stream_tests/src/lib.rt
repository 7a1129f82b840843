//! Tests of streams: checked streams over lawful and over other streams, the workers of a chunk, and dictionaries
//! (`stream_face`, `fan_out`, `dict_stage`); holds of a block that threads let go; and the streams of the rows of a text, the text that is written, and faults as they are printed (`csv_read`, `csv_source`, `csv_write`).
//!
//! They are a crate of their own, so that their check doesn't prove the crates that they test once more.
#![tactic(auto)]

#[cfg(test)]
mod ahead;
#[cfg(test)]
mod bodies;
#[cfg(test)]
mod dictionaries;
#[cfg(test)]
mod faults;
#[cfg(test)]
mod holds;
#[cfg(test)]
mod sources;
#[cfg(test)]
mod stranger;
#[cfg(test)]
mod streams;
#[cfg(test)]
mod texts;
#[cfg(test)]
mod workers;
