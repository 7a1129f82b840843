//! Streams of chunks of the rows of a CSV text, which are read when a chunk is asked for, or ahead in a thread.
//!
//! - A [`CsvSource`] is a [`stream_face::ArrayStream`] over the batches that a [`csv_read::BatchReader`] reads. Its schema
//!   is that of its columns, and each of its chunks has the rows of the next batch.
//! - A [`CsvAhead`] is such a stream over the [`Piece`]s that a [`CsvMaker`] makes in a thread beside the caller's: the
//!   rows of a batch, or the record at which the rows end.
//! - [`Refused`] is why a call for a chunk refused: the record, or out of memory.
//!
//! What the contracts say: at its start a stream means the batches of the records behind the header, as `csv_model` defines
//! them: their columns, their rows in chunks, their ending (`specs/SourceStreams.antt`). Both streams mean the same, and
//! are lawful: a text of at most 2^30 bytes has at most 2^30 rows, whose texts and bytes are at most 2^30 bytes a column,
//! and each of their values is one of its column's type. A call for a record that spells no row answers `EINVAL` (22), and
//! names the record by its number from 1 behind the header; one that runs out of memory answers `ENOMEM` (12). Both answers
//! stay. A stream keeps no structure between two calls, and what its calls still count is the traffic of a source's chunks
//! in `stage_model`. What passes between the threads is filled builders, which hold no block and no unit
//! (`specs/Pieces.antt`).
//!
//! Left to others: reading and numbering of records (`csv_read`), the thread and its ring (`ahead_ring`), and the check of
//! what a stream gives ([`stream_face::RawStream`]).
#![tactic(auto)]

mod ahead;
mod columns;
mod maker;
mod next_ahead;
mod next_chunk;
mod refused;
mod source;

pub use ahead::CsvAhead;
pub use maker::{CsvMaker, Piece};
pub use refused::{LastAnswer, Refused, RefusedRecord};
pub use source::CsvSource;
