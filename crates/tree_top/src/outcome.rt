//! The outcome of a run: its fault, its exit status and its audit.
ghost use Rattle.std.specs.Prelude.{◌≡◌, Some};
ghost use Rattle.tree_check.specs.promise.Runs.{status_of};
ghost use Rattle.tree_top.specs.promise.Faults.{cause_of};
ghost use Rattle.tree_top.specs.Faults.{fault_in};

use crate::fault::TreeRunFault;
use unit_pass::Audit;

/// What a run came to: its fault, its exit status and its audit.
#[derive(Clone, Copy, PartialEq, Eq, Debug)]
pub struct TreeOutcome {
    /// A function of the fault: 0 without one; 2 for the words, 5 for an input that is too long, 6 and 7 for reading and writing,
    /// 8 for the text, the schema, the array and columns that a command can't take, 9 where memory runs out.
    pub status: u8,
    /// The fault, and none where the whole text was written.
    pub fault: Option<TreeRunFault>,
    /// The blocks and nodes that were made, and that none is left.
    pub audit: Audit,
}

/// The outcome of a run that wrote its text or failed with this fault, with this audit.
pub(crate) fn outcome_of(carried: Result<(), TreeRunFault>, audit: Audit) -> TreeOutcome
    ensures status { result.status ≡ status_of cause_of result.fault }
    ensures fault { result.fault ≡ fault_in carried }
    ensures audit { result.audit ≡ audit }
{
    match carried {
        Ok(()) => TreeOutcome {
            status: 0,
            fault: None,
            audit,
        },
        Err(fault) => TreeOutcome {
            status: status(fault),
            fault: Some(fault),
            audit,
        },
    }
}

/// The status of a fault.
fn status(fault: TreeRunFault) -> u8
    ensures { result ≡ status_of cause_of (Some fault) }
{
    match fault {
        TreeRunFault::Words => 2,
        TreeRunFault::InputTooLong => 5,
        TreeRunFault::ReadFault => 6,
        TreeRunFault::WriteFault { taken: _ } => 7,
        TreeRunFault::Text(_) => 8,
        TreeRunFault::Schema { path: _, rule: _ } => 8,
        TreeRunFault::Layout(_) => 8,
        TreeRunFault::UnionSchema(_) => 8,
        TreeRunFault::Union(_) => 8,
        TreeRunFault::Tag(_) => 8,
        TreeRunFault::RunsSchema(_) => 8,
        TreeRunFault::Runs(_) => 8,
        TreeRunFault::Code(_) => 8,
        TreeRunFault::TooManyColumns { count: _ } => 8,
        TreeRunFault::Column { column: _ } => 8,
        TreeRunFault::Lists(_) => 8,
        TreeRunFault::NoMemory => 9,
    }
}
