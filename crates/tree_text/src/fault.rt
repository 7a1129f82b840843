//! Why a text gives no trees.
use std::fmt;
use unit_pass::NoMemory;

/// Why a text gives no trees.
#[derive(Clone, Copy, Debug, PartialEq, Eq)]
pub enum TextFault {
    /// The first line, from 1, that isn't allowed at its place. A line that is missing has the number after the last.
    Line { line: u64 },
    /// There are more than 1,048,576 lines, whatever they hold.
    TooManyLines,
    /// Memory ran out; the text may have trees or not.
    NoMemory,
}

impl From<NoMemory> for TextFault {
    ghost use Rattle.std.specs.Prelude.{◌≡◌};
    ghost use Rattle.tree_text.specs.declared.fault.TextFault.TheVariants.{NoMemory};

    ghost from_gives = { λ _ e. e ≡ NoMemory };

    fn from(_e: NoMemory) -> TextFault {
        TextFault::NoMemory
    }
}

impl fmt::Display for TextFault {
    ghost use Rattle.std.specs.Prelude.{Some};
    ghost use Rattle.tree_text.specs.promise.FaultTexts.{text_fault_text};

    ghost output = { λ fault. Some (text_fault_text fault) };

    fn fmt<W: fmt::Write>(&self, f: &mut fmt::Formatter<W>) -> fmt::Result {
        match self {
            TextFault::Line { line } => write!(f, "tree line {line}: not expected"),
            TextFault::TooManyLines => f.write_str("tree: too many lines"),
            TextFault::NoMemory => f.write_str("out of memory"),
        }
    }
}

impl std::error::Error for TextFault {}
