//! Lines, bytes and answers of a transcript, for the programs that run cases of text.
//!
//! A transcript is the standard input of such a program. Where each answer in it is right, it is its standard output too.
//! [`run_transcript`] reads it and writes it again. [`line_of`] says what a line of it is. A [`Case`] is run once, or once
//! for each of its rows. A [`Plan`] is what one of a run asks for, and an [`End`] says how a source or a sink of it
//! behaves. [`Answers`] are written behind a case.
//!
//! Bytes are written as text: a printable ASCII character is its own byte, but for `\`; `\n`, `\r`, `\t`, `\\` and `\xHH`
//! are one byte each; `\e` is no byte.
#![tactic(auto)]

mod answers;
mod case;
mod end;
mod line;
mod plan;
mod program;
mod spelling;

pub use answers::Answers;
pub use case::{Case, push_input};
pub use end::End;
pub use line::{Line, line_of};
pub use plan::Plan;
pub use program::run_transcript;
pub use spelling::{push_line, read_bytes, spelled_lines, spelling_of};
