//! CSV read: the columns that the header of a text names, and the rows that the records behind the header spell.
//!
//! - [`read_header`] answers the columns, or the first fault ([`HeaderFault`]).
//! - [`read_body`] answers a builder for each column, which hold exactly the columns' values; or the fault of the first
//!   record that spells no row, with the record's number from 1 ([`BodyFault`]).
//! - A [`BatchReader`] reads the rows in batches, and [`export_rows`] makes the chunk of the rows that builders hold.
//!
//! The rules of records are those of `csv_model`: a text is a list of records, its first record is the header, and each
//! field of that is the name of a column. Which value a field spells in a column is said by `FieldText` of `data_types`,
//! and read by `field_codec`; a field that equals the mark is null. The definitions of reading in batches are in `specs`:
//! `Body`, `BatchesLeft`, `Chunks`. `NoMemory` comes only where memory runs out; every other answer is the text's.
//!
//! Left to others: which types are asked for (`stage_plan`), and how a column is stored and finished (`col_build`).
#![tactic(auto)]

mod batch_laws;
mod batches;
mod blocks;
mod body;
mod body_columns;
mod chunk;
mod columns;
mod field_push;
mod header;
mod held;
mod names;
mod records;
mod row;

pub use batch_laws::batches_are_read_in_turn;
pub use batches::BatchReader;
pub use blocks::TextBlocks;
pub use body::{BodyFault, read_body};
pub use chunk::{batch_rows_fit, chunks_have_their_rows, count_rows, export_rows};
pub use csv_model::HeaderFault;
pub use header::read_header;
pub use held::BatchRows;
pub use records::Records;
