//! The top call, [`run`]: from the words of the command and the bytes of a source to the text of a sink.
//!
//! The words ask for a table by stages, or for the check of a tree that is given as a text. For a table, [`run`] reads the
//! source to its end, or makes its rows where the words ask for that. It reads the records of the CSV text as a stream of
//! chunks, each a struct of array structures under the schema of its columns, and hands them from stage to stage over Arrow
//! streams. Each chunk is checked as a foreign producer's would be, and shown to a tap. It reads the values of the last
//! stream in place, and writes the text of the table. A tree is read and checked as a foreign producer's would be, and the
//! text is a report on it; the tap sees nothing of it.
//!
//! What the contracts say: on success the sink got exactly the text that the definitions give (`specs/promise/RunAnswer.antt` of
//! `run_model`), which know nothing of chunks; each refusal has its cause; and each structure and each hold that was made
//! is given up again on every path. Each fault has a line of its own, which goes to a sink of diagnostics, and so does the
//! audit's where the words ask for it. No line takes memory, and a failed write there changes nothing else.
//!
//! `specs/promise/Traffic.antt` says what a run shows and counts. The law [`one_answer`] says that all words and bytes have exactly
//! one answer. [`run_task`] does what the words ask for, by steps of any type; [`AnyStep`] is a step of any kind; [`drive`]
//! is the chain of stages over a stream by these steps; [`run_to_exit`] answers the exit status of a process.
//!
//! A [`RecordTap`] keeps copies of the chunks that it is shown, in order (`specs/SeenChunks.antt`), for tests and small tables: of
//! each the number of the link, the names of the schema, the kinds and the rows, each as a value of its own ([`SeenChunk`],
//! [`OwnedValue`]). Where memory runs out, it keeps nothing of the chunk. A value takes a constant number of steps besides
//! those of its own parts.
//!
//! Left to others: what the words ask for, the faults, the outcome and the lines (`run_model`), what CSV means
//! (`csv_model`), what stages mean (`stage_model`) and how they are spelled (`stage_plan`), the source (`csv_source`), the
//! chain of stages (`stage_chain`), the check of a tree (`tree_check`), the items of a chunk in place (`arr_import`), the
//! structures (`raw_schema`, `raw_array`), and sources and sinks of bytes (`edge_io`).
#![tactic(auto)]

mod ahead;
mod answer;
mod any_step;
mod carry;
mod driven;
mod exit;
mod kept_kinds;
mod kept_names;
mod kept_rows;
mod laws;
mod owned_value;
mod record_tap;
mod top;

pub use any_step::AnyStep;
pub use carry::run_task;
pub use driven::drive;
pub use exit::run_to_exit;
pub use fan_out::Workers;
pub use laws::{memory_stands_alone, one_answer, one_input};
pub use owned_value::OwnedValue;
pub use record_tap::{RecordTap, SeenChunk};
pub use run_model::{Outcome, PlanRule, RunFault, StageFault, TreeFault, TypesRule, WordsFault};
pub use stage_chain::DriveFault;
pub use top::run;
