//! Why a text is no stage, and why stages don't fit columns.
ghost use Rattle.std.specs.Prelude.{◌≡◌};
ghost use Rattle.stage_model.specs.promise.FaultTexts.{rule_text, stage_fault_text};
ghost use Rattle.stage_model.specs.declared.fault.PlanFault.TheVariants as plan;
ghost use Rattle.stage_model.specs.declared.fault.StageFault.TheVariants as stage;

use std::alloc::{AllocError, AllocFailed};
use std::fmt;
use unit_pass::NoMemory;

/// Why a text is no stage.
#[derive(Clone, Copy, Debug, PartialEq, Eq)]
pub enum StageFault {
    /// What precedes the first `=` is no stage's name.
    UnknownStage,
    /// The name is a stage's, and the `=` is missing or the arguments aren't the stage's.
    BadArguments,
    /// Memory ran out, which says nothing of the text.
    NoMemory,
}

impl From<NoMemory> for StageFault {
    ghost from_gives = { λ _ e. e ≡ stage.NoMemory };

    fn from(_e: NoMemory) -> StageFault {
        StageFault::NoMemory
    }
}

impl From<AllocError> for StageFault {
    ghost from_gives = { λ _ e. e ≡ stage.NoMemory };

    fn from(_e: AllocError) -> StageFault {
        StageFault::NoMemory
    }
}

impl<T: Drop> From<AllocFailed<T>> for StageFault {
    ghost from_gives = { λ _ e. e ≡ stage.NoMemory };

    fn from(_e: AllocFailed<T>) -> StageFault {
        StageFault::NoMemory
    }
}

/// What is wrong with a stage over columns, in the order in which the rules are tried.
#[derive(Clone, Copy, Debug, PartialEq, Eq)]
pub enum PlanRule {
    /// A named column isn't there.
    NoColumn,
    /// A column is named twice, or two columns after the stage have one name.
    SameName,
    /// A named column is of a kind that the stage doesn't take.
    WrongType,
    /// The constant of a filter is no text of its column's kind.
    BadConstant,
    /// Behind the last stage a column is a struct.
    NestedOutput,
    /// No column is left.
    NoColumns,
    /// There are more than 4,096 columns after the stage.
    TooWide,
}

/// Why stages can't be run over columns.
#[derive(Clone, Copy, Debug, PartialEq, Eq)]
pub enum PlanFault {
    /// The first stage at fault, counted from 1, and its first rule. A struct in the output is the fault of the stage
    /// behind the last.
    At { stage: u32, rule: PlanRule },
    /// Memory ran out, which says nothing of the stages.
    NoMemory,
}

impl From<NoMemory> for PlanFault {
    ghost from_gives = { λ _ e. e ≡ plan.NoMemory };

    fn from(_e: NoMemory) -> PlanFault {
        PlanFault::NoMemory
    }
}

impl From<AllocError> for PlanFault {
    ghost from_gives = { λ _ e. e ≡ plan.NoMemory };

    fn from(_e: AllocError) -> PlanFault {
        PlanFault::NoMemory
    }
}

impl<T: Drop> From<AllocFailed<T>> for PlanFault {
    ghost from_gives = { λ _ e. e ≡ plan.NoMemory };

    fn from(_e: AllocFailed<T>) -> PlanFault {
        PlanFault::NoMemory
    }
}

impl StageFault {
    /// What is written of the fault.
    pub fn text(self) -> &'static str
        ensures { result.now ≡ stage_fault_text self }
    {
        match self {
            StageFault::UnknownStage => "unknown stage",
            StageFault::BadArguments => "bad arguments",
            StageFault::NoMemory => "out of memory",
        }
    }
}

impl fmt::Display for StageFault {
    ghost use Rattle.std.specs.Prelude.{Some};

    ghost output = { λ fault. Some (stage_fault_text fault) };

    fn fmt<W: fmt::Write>(&self, f: &mut fmt::Formatter<W>) -> fmt::Result {
        f.write_str(self.text())
    }
}

impl std::error::Error for StageFault {}

impl PlanRule {
    /// What is written of a stage at which the rule fails.
    pub fn text(self) -> &'static str
        ensures { result.now ≡ rule_text self }
    {
        match self {
            PlanRule::NoColumn => "no such column",
            PlanRule::SameName => "same name twice",
            PlanRule::WrongType => "wrong column type",
            PlanRule::BadConstant => "bad constant",
            PlanRule::NestedOutput => "nested column in the output",
            PlanRule::NoColumns => "no column left",
            PlanRule::TooWide => "too many columns",
        }
    }
}

impl fmt::Display for PlanRule {
    ghost use Rattle.std.specs.Prelude.{Some};

    ghost output = { λ rule. Some (rule_text rule) };

    fn fmt<W: fmt::Write>(&self, f: &mut fmt::Formatter<W>) -> fmt::Result {
        f.write_str(self.text())
    }
}

impl fmt::Display for PlanFault {
    ghost use Rattle.std.specs.Prelude.{Some};
    ghost use Rattle.stage_model.specs.FaultTexts.{plan_fault_text};

    ghost output = { λ fault. Some (plan_fault_text fault) };

    fn fmt<W: fmt::Write>(&self, f: &mut fmt::Formatter<W>) -> fmt::Result {
        match self {
            PlanFault::At { stage, rule } => write!(f, "stage {stage}: {rule}"),
            PlanFault::NoMemory => f.write_str("out of memory"),
        }
    }
}

impl std::error::Error for PlanFault {}
