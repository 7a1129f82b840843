//! Why a text of trees has no report.
ghost use Rattle.std.specs.Prelude.{◌≡◌};

use data_types::Path;
use layout_rules::LayoutFault;
use schema_check::{SchemaFault, SchemaRule};
use std::fmt;
use tree_text::TextFault;
use unit_pass::NoMemory;

/// Why a text of trees has no report.
#[derive(Clone, Copy, Debug, PartialEq, Eq)]
pub enum TreeFault {
    /// The text spells no two trees. It is never an out-of-memory.
    Text(TextFault),
    /// A rule of schemas fails at a node: the first one in preorder, and its first rule. The places of the path behind its
    /// depth are 0.
    Schema { path: Path, rule: SchemaRule },
    /// A rule of arrays fails at a node: the first one in preorder, and its first rule. The places of its path behind its
    /// depth are 0.
    Layout(LayoutFault),
}

/// Why no report is given.
#[derive(Clone, Copy, Debug, PartialEq, Eq)]
pub enum CheckFault {
    /// The first fault of the text, of the schema or of the array.
    Tree(TreeFault),
    /// Memory ran out; the trees may be in order or not.
    NoMemory,
}

impl From<NoMemory> for CheckFault {
    ghost use Rattle.tree_check.specs.declared.fault.CheckFault.TheVariants.{NoMemory};

    ghost from_gives = { λ _ fault. fault ≡ NoMemory };

    fn from(_: NoMemory) -> CheckFault {
        CheckFault::NoMemory
    }
}

impl From<TextFault> for CheckFault {
    ghost use Rattle.tree_check.specs.Checks.{text_refused};

    ghost from_gives = { λ fault given. given ≡ text_refused fault };

    fn from(fault: TextFault) -> CheckFault {
        match fault {
            TextFault::Line { line } => CheckFault::Tree(TreeFault::Text(TextFault::Line { line })),
            TextFault::TooManyLines => CheckFault::Tree(TreeFault::Text(TextFault::TooManyLines)),
            TextFault::NoMemory => CheckFault::NoMemory,
        }
    }
}

impl From<SchemaFault> for CheckFault {
    ghost use Rattle.tree_check.specs.Checks.{schema_refused};

    ghost from_gives = { λ fault given. given ≡ schema_refused fault };

    fn from(fault: SchemaFault) -> CheckFault {
        match fault {
            SchemaFault::At { path, rule } => CheckFault::Tree(TreeFault::Schema {
                path: path.cleared(),
                rule,
            }),
            SchemaFault::NoMemory => CheckFault::NoMemory,
        }
    }
}

impl From<LayoutFault> for CheckFault {
    ghost use Rattle.tree_check.specs.Checks.{array_refused};

    ghost from_gives = { λ fault given. given ≡ array_refused fault };

    fn from(fault: LayoutFault) -> CheckFault {
        CheckFault::Tree(TreeFault::Layout(LayoutFault {
            path: fault.path.cleared(),
            rule: fault.rule,
            place: fault.place,
            left: fault.left,
            right: fault.right,
        }))
    }
}

impl fmt::Display for TreeFault {
    ghost use Rattle.std.specs.Prelude.{Some};
    ghost use Rattle.tree_check.specs.promise.FaultTexts.{tree_fault_text};

    ghost output = { λ fault. Some (tree_fault_text fault) };

    fn fmt<W: fmt::Write>(&self, f: &mut fmt::Formatter<W>) -> fmt::Result {
        match self {
            TreeFault::Text(fault) => write!(f, "{fault}"),
            TreeFault::Schema { path, rule } => write!(f, "tree {path}: schema: {rule}"),
            TreeFault::Layout(fault) => write!(f, "tree {fault}"),
        }
    }
}

impl std::error::Error for TreeFault {}

impl fmt::Display for CheckFault {
    ghost use Rattle.std.specs.Prelude.{Some};
    ghost use Rattle.tree_check.specs.FaultTexts.{check_fault_text};

    ghost output = { λ fault. Some (check_fault_text fault) };

    fn fmt<W: fmt::Write>(&self, f: &mut fmt::Formatter<W>) -> fmt::Result {
        match self {
            CheckFault::Tree(fault) => write!(f, "{fault}"),
            CheckFault::NoMemory => f.write_str("out of memory"),
        }
    }
}

impl std::error::Error for CheckFault {}
