//! The fault of a run: why it wrote no text, or not all of it.
use crate::WordsFault;
use csv_model::HeaderFault;
use stage_plan::{PlanFault, PlanRule, StageFault, TypesRule};
use tree_check::{CheckFault, TreeFault};
use unit_pass::NoMemory;

/// Why a run wrote no text, or not all of it.
#[derive(Clone, Copy, PartialEq, Eq, Debug)]
pub enum RunFault {
    /// The words of the command were not taken.
    Words(WordsFault),
    /// A stage text spells no stage, the first one. Stages are numbered from 1.
    Stage { stage: u32, rule: StageFault },
    /// An entry of the schema text is at fault, the first one. Entries are numbered from 1.
    Schema { entry: u64, rule: TypesRule },
    /// A stage doesn't fit the columns before it, the first one, by this rule. A struct in the output is the fault of the
    /// stage behind the last.
    Plan { stage: u32, rule: PlanRule },
    /// The input has no record, so no header.
    NoHeader,
    /// The header has more than 1,024 fields, this many.
    TooManyColumns { count: u64 },
    /// A name in the header is not UTF-8, the first one. Columns are numbered from 1.
    HeaderText { column: u32 },
    /// A name in the header is one of those before it, the first one.
    HeaderTwice { column: u32 },
    /// An entry of the schema text names no column, the first one.
    HeaderUnknown { entry: u64 },
    /// A record has another number of fields than the header. Records are numbered from 1 after the header.
    Ragged { row: u64, found: u64 },
    /// A field is no text of its column's type. Records and columns are numbered from 1.
    Field { row: u64, column: u32 },
    /// The input is longer than 2^30 bytes.
    InputTooLong,
    /// The source failed.
    ReadFault,
    /// The sink failed after this many bytes of the text.
    WriteFault { taken: u64 },
    /// The tree that was to be checked has no report: its text, its schema or its array is at fault.
    Tree(TreeFault),
    /// Memory ran out.
    NoMemory,
}

impl From<NoMemory> for RunFault {
    ghost use Rattle.std.specs.Prelude.{◌≡◌};
    ghost use Rattle.run_model.specs.declared.fault.RunFault.TheVariants as run;

    ghost from_gives = { λ _ fault. fault ≡ run.NoMemory };

    fn from(_: NoMemory) -> RunFault {
        RunFault::NoMemory
    }
}

impl From<HeaderFault> for RunFault {
    ghost use Rattle.std.specs.Prelude.{◌≡◌};
    ghost use Rattle.run_model.specs.promise.Answer.{fault_of_header};

    ghost from_gives = { λ fault given. given ≡ fault_of_header fault };

    fn from(fault: HeaderFault) -> RunFault {
        match fault {
            HeaderFault::NoHeader => RunFault::NoHeader,
            HeaderFault::TooManyColumns { count } => RunFault::TooManyColumns { count },
            HeaderFault::NotText { column } => RunFault::HeaderText { column },
            HeaderFault::Twice { column } => RunFault::HeaderTwice { column },
            HeaderFault::Unknown { entry } => RunFault::HeaderUnknown { entry },
            HeaderFault::NoMemory => RunFault::NoMemory,
        }
    }
}

impl From<PlanFault> for RunFault {
    ghost use Rattle.std.specs.Prelude.{◌≡◌};
    ghost use Rattle.run_model.specs.promise.Answer.{fault_of_plan};

    ghost from_gives = { λ fault given. given ≡ fault_of_plan fault };

    fn from(fault: PlanFault) -> RunFault {
        match fault {
            PlanFault::At { stage, rule } => RunFault::Plan { stage, rule },
            PlanFault::NoMemory => RunFault::NoMemory,
        }
    }
}

impl From<CheckFault> for RunFault {
    ghost use Rattle.std.specs.Prelude.{◌≡◌};
    ghost use Rattle.run_model.specs.Answer.{fault_of_check};

    ghost from_gives = { λ fault given. given ≡ fault_of_check fault };

    fn from(fault: CheckFault) -> RunFault {
        match fault {
            CheckFault::Tree(fault) => RunFault::Tree(fault),
            CheckFault::NoMemory => RunFault::NoMemory,
        }
    }
}
