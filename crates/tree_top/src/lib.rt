//! The top call of the program for trees, [`run_tree`]: from the words of a command and the bytes of a source to the text
//! of a sink.
//!
//! It reads the [`Command`] that the words spell, and the source to its end. It reads the schema tree and the array tree of the
//! text, checks them as the command asks, and writes the text that the command makes of them. Otherwise it reports the first
//! fault: of the words, of reading, of the text, of the schema, of the array, of the command, of writing ([`TreeRunFault`]).
//! [`TreeOutcome`] is what a run came to.
//!
//! What the contract says: on success the sink got exactly the text that the definitions give; each refusal has its cause; and
//! each structure and each hold that was made is given up again on every path. The line of a fault, with its status, goes to a
//! sink of diagnostics. The law [`one_answer`] says that a command and bytes have exactly one answer. [`run_tree_to_exit`]
//! answers the exit status of a process.
//!
//! The definitions are in `specs/promise`: `Ran` and `Over` (what a run comes to), `Answer` (the answer to words and bytes),
//! `RowsAnswer`, `UnionAnswer`, `TagAnswer`, `ForeignAnswer`, `RunsAnswer`, `FlatAnswer`, `ListsAnswer` (that of each command to
//! two trees), `Faults` (causes and statuses). Left to others: sources and sinks (`edge_io`), the lines of trees (`tree_text`),
//! the rules of schemas and arrays (`schema_check`, `layout_check`), unions (`union_cols`), runs (`run_ends`), the chunks of
//! foreign producers (`foreign_array`), rows that are grouped or whose lists are spread out (`list_cols`), and the texts of
//! values (`value_text`).
#![tactic(auto)]

mod answer;
mod carry;
mod chunk;
mod column_number;
mod command;
mod diagnostics;
mod exit;
mod exploded_length;
mod fault;
mod flat;
mod foreign;
mod gathered;
mod laws;
mod lists;
mod nested;
mod outcome;
mod rows;
mod run_faults;
mod runs;
mod shown;
mod tags;
mod top;
mod union;
mod union_length;

pub use command::Command;
pub use exit::run_tree_to_exit;
pub use fault::TreeRunFault;
pub use laws::one_answer;
pub use outcome::TreeOutcome;
pub use top::run_tree;
