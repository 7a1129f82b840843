//! CSV written: the text of a table, from the chunks of its rows, which are read in place.
//!
//! - A [`CsvText`] is the text of a table as it is made: the header, and the rows of the chunks that are added. The text is
//!   that of `csv_model`: the names of the columns and then the rows, a null as the mark. `field_codec` writes each field
//!   from the item of its column, and the writer of `csv` quotes it.
//! - [`write_rows`] asks a checked stream for its chunks to its end, and writes the rows of each, in order. Each chunk of
//!   each link is shown to the tap, once and in order, and the counts rise by what the stream makes. The stream is spent
//!   with all its units on every outcome.
//! - [`DriveFault`] is why there is no text: the record at which the stream ended, or out of memory.
//!
//! The definitions are in `specs`: `CsvTexts` (the text that was made so far), `Runs` (a stream read to its end). Left to
//! others: whether a chunk is lawful (`layout_check`), and where the stream comes from.
#![tactic(auto)]

mod chunk_text;
mod column_form;
mod csv_text;
mod fault;
mod gather;
mod reading;
mod rows;
mod way;
mod writer;

pub use csv_text::CsvText;
pub use fault::DriveFault;
pub use gather::write_rows;
