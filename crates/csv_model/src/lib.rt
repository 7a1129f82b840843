//! Definitions of CSV text: the records of a text, the columns of its header, the rows that its records spell, and the text
//! of a table.
//!
//! They are in `specs`: `Reading` (records, rows, faults), `Batches` (rows in chunks of a size), `Header` (columns,
//! faults), `Text` (the text of a table), `Made` (a table made from a number, whose text is [`made`]). The other calls are laws,
//! and do nothing; [`HeaderFault`] is why a text has no columns. Reading is `csv_read`'s, and writing `csv_write`'s.
#![tactic(auto)]

mod fault;
mod laws;
mod made_text;

pub use fault::HeaderFault;
pub use laws::records_are_read_in_turn;
pub use made_text::{made, made_is_short};
