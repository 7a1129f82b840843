//! Why a schema text names no types.
ghost use Rattle.std.specs.Prelude.{◌≡◌};
ghost use Rattle.stage_plan.specs.promise.FaultTexts.{rule_text};
ghost use Rattle.stage_plan.specs.declared.fault.TypesFault.TheVariants.{NoMemory};

use std::alloc::{AllocError, AllocFailed};
use std::fmt;
use unit_pass::NoMemory;

/// What is wrong with an entry.
#[derive(Clone, Copy, Debug, PartialEq, Eq)]
pub enum TypesRule {
    /// There is no `:`, the format is refused, or its type isn't one of a column.
    BadEntry,
    /// An entry before has the same name.
    Twice,
}

/// Why a text names no types.
#[derive(Clone, Copy, Debug, PartialEq, Eq)]
pub enum TypesFault {
    /// The first entry at fault, counted from 1.
    At { entry: u64, rule: TypesRule },
    NoMemory,
}

impl From<NoMemory> for TypesFault {
    ghost from_gives = { λ _ e. e ≡ NoMemory };

    fn from(_e: NoMemory) -> TypesFault {
        TypesFault::NoMemory
    }
}

impl From<AllocError> for TypesFault {
    ghost from_gives = { λ _ e. e ≡ NoMemory };

    fn from(_e: AllocError) -> TypesFault {
        TypesFault::NoMemory
    }
}

impl<T: Drop> From<AllocFailed<T>> for TypesFault {
    ghost from_gives = { λ _ e. e ≡ NoMemory };

    fn from(_e: AllocFailed<T>) -> TypesFault {
        TypesFault::NoMemory
    }
}

impl TypesRule {
    /// What is written of an entry at which the rule fails.
    pub fn text(self) -> &'static str
        ensures { result.now ≡ rule_text self }
    {
        match self {
            TypesRule::BadEntry => "not a column type",
            TypesRule::Twice => "named before",
        }
    }
}

impl fmt::Display for TypesRule {
    ghost use Rattle.std.specs.Prelude.{Some};

    ghost output = { λ rule. Some (rule_text rule) };

    fn fmt<W: fmt::Write>(&self, f: &mut fmt::Formatter<W>) -> fmt::Result {
        f.write_str(self.text())
    }
}

impl fmt::Display for TypesFault {
    ghost use Rattle.std.specs.Prelude.{Some};
    ghost use Rattle.stage_plan.specs.FaultTexts.{fault_text};

    ghost output = { λ fault. Some (fault_text fault) };

    fn fmt<W: fmt::Write>(&self, f: &mut fmt::Formatter<W>) -> fmt::Result {
        match self {
            TypesFault::At { entry, rule } => write!(f, "schema entry {entry}: {rule}"),
            TypesFault::NoMemory => f.write_str("out of memory"),
        }
    }
}

impl std::error::Error for TypesFault {}
