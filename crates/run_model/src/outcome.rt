//! The outcome of a run: its fault, its exit status and its audit.
ghost use Rattle.std.specs.Prelude.{◌≡◌, Some};
ghost use Rattle.tree_check.specs.promise.Runs.{status_of};
ghost use Rattle.run_model.specs.promise.Answer.{cause_of};
ghost use Rattle.run_model.specs.Outcomes.{fault_in};

use crate::fault::RunFault;
use unit_pass::Audit;

/// What a run came to: its fault, its exit status and its audit.
#[derive(Clone, Copy, PartialEq, Eq, Debug)]
pub struct Outcome {
    /// A function of the fault: 0 without one; 2 for the words, 3 for the stages and the schema text, 4 for the header and the
    /// records, 5 for an input that is too long, 6 and 7 for reading and writing, 8 for the tree, 9 where memory runs out.
    pub status: u8,
    /// The fault, and none where the whole text was written.
    pub fault: Option<RunFault>,
    /// The blocks and nodes that were made, and that none is left.
    pub audit: Audit,
}

/// The outcome of a run that wrote its text or failed with this fault, with this audit.
pub fn outcome_of(carried: Result<(), RunFault>, audit: Audit) -> Outcome
    ensures status { result.status ≡ status_of cause_of result.fault }
    ensures fault { result.fault ≡ fault_in carried }
    ensures audit { result.audit ≡ audit }
{
    match carried {
        Ok(()) => Outcome {
            status: 0,
            fault: None,
            audit,
        },
        Err(fault) => Outcome {
            status: status(fault),
            fault: Some(fault),
            audit,
        },
    }
}

/// The status of a fault.
fn status(fault: RunFault) -> u8
    ensures { result ≡ status_of cause_of (Some fault) }
{
    match fault {
        RunFault::Words(_) => 2,
        RunFault::Stage { stage: _, rule: _ } => 3,
        RunFault::Schema { entry: _, rule: _ } => 3,
        RunFault::Plan { stage: _, rule: _ } => 3,
        RunFault::NoHeader => 4,
        RunFault::TooManyColumns { count: _ } => 4,
        RunFault::HeaderText { column: _ } => 4,
        RunFault::HeaderTwice { column: _ } => 4,
        RunFault::HeaderUnknown { entry: _ } => 4,
        RunFault::Ragged { row: _, found: _ } => 4,
        RunFault::Field { row: _, column: _ } => 4,
        RunFault::InputTooLong => 5,
        RunFault::ReadFault => 6,
        RunFault::WriteFault { taken: _ } => 7,
        RunFault::Tree(_) => 8,
        RunFault::NoMemory => 9,
    }
}
