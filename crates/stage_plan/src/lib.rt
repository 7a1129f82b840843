//! Schema texts and stage texts, read; and stages typed over columns.
//!
//! - [`read_types`] reads a schema text, as `a:l;b:u`: one or more entries separated by `;`. An entry is the name of a
//!   column, the first `:`, and a format string ("The Arrow C Data Interface", "Data type description -- format strings").
//!   The answer is the entries, or the first fault ([`TypesFault`]). What a format string spells is `fmt_string`'s.
//! - [`read_stage`] reads a stage text, as `select=a,b`: the name of a stage, the first `=`, and arguments. The answer is
//!   the stage that `stage_model` says of the text, or its fault ([`StageFault`]).
//! - [`type_plan`] answers the steps and the columns after each stage ([`Plan`]), or the first stage that doesn't fit its
//!   columns, with the rule that it breaks ([`PlanFault`]).
//!
//! `NoMemory` comes only where memory runs out. The definitions of schema texts are in `specs/promise/Types.antt`, those of stages
//! in `stage_model`. Left to the crates above: which columns an input has.
#![tactic(auto)]

mod after;
mod constants;
mod cut;
mod fault;
mod laws;
mod places;
mod stages;
mod types;
mod typing;

pub use fault::{TypesFault, TypesRule};
pub use laws::one_reading;
pub use places::first_twice;
pub use stage_model::{PlanFault, PlanRule, StageFault, StageText};
pub use stages::read_stage;
pub use types::{TypeEntry, read_types};
pub use typing::{Plan, type_plan};
