//! The request of a run, its outcome and its lines: what the words of the command ask for, which fault ended the run, and
//! the lines of the fault and of the audit.
//!
//! - [`read_words`] reads the words of the command ([`Words`]), or answers why they are refused ([`WordsFault`]).
//! - [`read_command_line`] reads the words, and the texts of the stages and of the schema among them. It answers what is
//!   asked for (a [`Task`]: a table by stages, or the check of a tree) or the first fault, and whether the audit is wanted.
//! - [`RunFault`] is why a run wrote no text, or not all of it. The faults of the parts become faults of the run by `From`.
//! - [`Outcome`] is what a run came to: its fault, the exit status of that, and its audit.
//! - [`write_diagnostics`] writes the line of a fault and that of an audit to a sink. No line takes memory. The sink took
//!   exactly these lines, or their first bytes where it failed. The text of a fault's line is what `Display` shows of it.
//!
//! The definitions are in `specs`: `Words` (what the words ask for), `Answer` (the task, and the cause and the status of
//! each fault), `RunAnswer` (what a run answers), `Outcomes` (what a cause says), `Diagnostics` (the lines). Left to
//! others: what the texts among the words spell (`stage_plan`), the rules of trees (`schema_check`, `layout_rules`), and
//! the run (`pipe_top`).
#![tactic(auto)]

mod asked;
mod diagnostics;
mod fault;
mod fault_text;
mod outcome;
mod request;
mod tree_line;
mod words;

pub use asked::{CommandLine, Task, read_command_line};
pub use diagnostics::write_diagnostics;
pub use fault::RunFault;
pub use outcome::{Outcome, outcome_of};
pub use request::Request;
pub use stage_plan::{PlanRule, StageFault, TypesRule};
pub use tree_check::TreeFault;
pub use words::{Words, WordsError, WordsFault, read_words};
