//! The fault of a run: why it wrote no text, or not all of it.
ghost use Rattle.std.specs.Prelude.{◌≡◌};
ghost use Rattle.tree_top.specs.promise.Refusals.{rule_told};
ghost use Rattle.tree_top.specs.Refusals.{fault_of_union_schema};
ghost use Rattle.union_cols.specs.UnionAnswers.{rule_of};
ghost use Rattle.union_cols.specs.declared.schema_fault.UnionSchemaFault.TheVariants as unions;

use data_types::Path;
use edge_io::WriteFault;
use layout_rules::LayoutFault;
use list_cols::ListFault;
use run_ends::{CodeFault, RunsFault, RunsSchemaFault};
use schema_check::{SchemaFault, SchemaRule};
use tree_check::{CheckFault, TreeFault};
use tree_text::TextFault;
use union_cols::{TagFault, UnionFault, UnionRule, UnionSchemaFault};
use unit_pass::NoMemory;

/// Why a run wrote no text, or not all of it.
#[derive(Clone, Copy, PartialEq, Eq, Debug)]
pub enum TreeRunFault {
    /// The words aren't a command.
    Words,
    /// The input is longer than 2^30 bytes.
    InputTooLong,
    /// The source failed.
    ReadFault,
    /// The sink failed after this many bytes of the text.
    WriteFault { taken: u64 },
    /// The input spells no two trees. It is never an out-of-memory.
    Text(TextFault),
    /// A rule of schemas fails at a node: the first one in preorder, and its first rule. The places of the path behind its
    /// depth are 0.
    Schema { path: Path, rule: SchemaRule },
    /// A rule of arrays fails at a node: the first one in preorder, and its first rule. The places of its path behind its
    /// depth are 0.
    Layout(LayoutFault),
    /// The schema is no union's: its first fault. The places of a path inside it behind its depth are 0, and it is never an
    /// out-of-memory.
    UnionSchema(UnionSchemaFault),
    /// A rule of unions fails: the first one. The places of a path inside it behind its depth are 0.
    Union(UnionFault),
    /// The columns of a chunk make no union: there are none, or too many, or too many rows. It is never an out-of-memory.
    Tag(TagFault),
    /// The schema is none of a run-end encoded array: its first fault. The places of a path inside it behind its depth are 0, and it is
    /// never an out-of-memory.
    RunsSchema(RunsSchemaFault),
    /// A rule of run-end encoded arrays fails: the first one. The places of a path inside it behind its depth are 0.
    Runs(RunsFault),
    /// A column isn't made into runs: it isn't flat, or is too long. It is never an out-of-memory.
    Code(CodeFault),
    /// There are more than 1,024 columns, by one of which rows are to be grouped or of which the lists in one are to be spread out: their
    /// number.
    TooManyColumns { count: u64 },
    /// There is no column of this number, counted from 0.
    Column { column: u32 },
    /// Rows aren't grouped, or the lists of a column aren't spread out: a column is of another kind, or there would be too many rows, items
    /// or bytes. It is never an out-of-memory.
    Lists(ListFault),
    /// Memory ran out, or the text would have more than 2^31 bytes.
    NoMemory,
}

impl From<NoMemory> for TreeRunFault {
    ghost use Rattle.std.specs.Prelude.{◌≡◌};
    ghost use Rattle.tree_top.specs.declared.fault.TreeRunFault.TheVariants as run;

    ghost from_gives = { λ _ fault. fault ≡ run.NoMemory };

    fn from(_: NoMemory) -> TreeRunFault {
        TreeRunFault::NoMemory
    }
}

impl From<WriteFault> for TreeRunFault {
    ghost use Rattle.std.specs.Prelude.{◌≡◌};
    ghost use Rattle.edge_io.specs.Edge.{taken_by};
    ghost use Rattle.tree_top.specs.declared.fault.TreeRunFault.TheVariants as run;

    ghost from_gives = { λ fault given. given ≡ run.WriteFault (taken_by fault) };

    fn from(fault: WriteFault) -> TreeRunFault {
        match fault {
            WriteFault::Failed { taken } => TreeRunFault::WriteFault { taken },
        }
    }
}

impl From<CheckFault> for TreeRunFault {
    ghost use Rattle.std.specs.Prelude.{◌≡◌};
    ghost use Rattle.tree_top.specs.Refusals.{fault_of_check};

    ghost from_gives = { λ fault given. given ≡ fault_of_check fault };

    fn from(fault: CheckFault) -> TreeRunFault {
        match fault {
            CheckFault::Tree(TreeFault::Text(fault)) => TreeRunFault::Text(fault),
            CheckFault::Tree(TreeFault::Schema { path, rule }) => {
                TreeRunFault::Schema { path, rule }
            }
            CheckFault::Tree(TreeFault::Layout(fault)) => TreeRunFault::Layout(fault),
            CheckFault::NoMemory => TreeRunFault::NoMemory,
        }
    }
}

impl From<UnionSchemaFault> for TreeRunFault {
    ghost use Rattle.std.specs.Prelude.{◌≡◌};
    ghost use Rattle.tree_top.specs.Refusals.{fault_of_union_schema};

    ghost from_gives = { λ fault given. given ≡ fault_of_union_schema fault };

    fn from(fault: UnionSchemaFault) -> TreeRunFault {
        match fault {
            UnionSchemaFault::Released => TreeRunFault::UnionSchema(UnionSchemaFault::Released),
            UnionSchemaFault::Format { place } => {
                TreeRunFault::UnionSchema(UnionSchemaFault::Format { place })
            }
            UnionSchemaFault::Meta(fault) => {
                TreeRunFault::UnionSchema(UnionSchemaFault::Meta(fault))
            }
            UnionSchemaFault::Dictionary => TreeRunFault::UnionSchema(UnionSchemaFault::Dictionary),
            UnionSchemaFault::ChildCount { found, needed } => {
                TreeRunFault::UnionSchema(UnionSchemaFault::ChildCount { found, needed })
            }
            UnionSchemaFault::Child { child, fault } => child_fault(child, fault),
            UnionSchemaFault::NoMemory => TreeRunFault::NoMemory,
        }
    }
}

/// The fault of a union's schema by that of one of its children.
fn child_fault(child: u32, fault: SchemaFault) -> TreeRunFault
    ensures { result ≡ fault_of_union_schema (unions.Child child fault) }
{
    match fault {
        SchemaFault::At { path, rule } => TreeRunFault::UnionSchema(UnionSchemaFault::Child {
            child,
            fault: SchemaFault::At {
                path: path.cleared(),
                rule,
            },
        }),
        SchemaFault::NoMemory => TreeRunFault::NoMemory,
    }
}

/// A rule of unions, with 0 in the places of a path inside it behind its depth.
fn cleared(rule: UnionRule) -> UnionRule
    ensures { result ≡ rule_told (rule_of rule) }
{
    match rule {
        UnionRule::Child(fault) => UnionRule::Child(LayoutFault {
            path: fault.path.cleared(),
            rule: fault.rule,
            place: fault.place,
            left: fault.left,
            right: fault.right,
        }),
        plain => plain,
    }
}

impl From<UnionFault> for TreeRunFault {
    ghost use Rattle.std.specs.Prelude.{◌≡◌};
    ghost use Rattle.tree_top.specs.promise.Refusals.{union_fault_told};
    ghost use Rattle.tree_top.specs.declared.fault.TreeRunFault.TheVariants as run;
    ghost use Rattle.union_cols.specs.UnionAnswers.{found_of};

    ghost from_gives = { λ fault given. given ≡ run.Union (union_fault_told (found_of fault)) };

    fn from(fault: UnionFault) -> TreeRunFault {
        TreeRunFault::Union(UnionFault {
            rule: cleared(fault.rule),
            place: fault.place,
            left: fault.left,
            right: fault.right,
        })
    }
}

impl From<TagFault> for TreeRunFault {
    ghost use Rattle.std.specs.Prelude.{◌≡◌};
    ghost use Rattle.tree_top.specs.Refusals.{fault_of_tag};

    ghost from_gives = { λ fault given. given ≡ fault_of_tag fault };

    fn from(fault: TagFault) -> TreeRunFault {
        match fault {
            TagFault::Columns { count } => TreeRunFault::Tag(TagFault::Columns { count }),
            TagFault::TooLong => TreeRunFault::Tag(TagFault::TooLong),
            TagFault::NoMemory => TreeRunFault::NoMemory,
        }
    }
}

impl From<ListFault> for TreeRunFault {
    ghost use Rattle.std.specs.Prelude.{◌≡◌};
    ghost use Rattle.tree_top.specs.Refusals.{fault_of_list};

    ghost from_gives = { λ fault given. given ≡ fault_of_list fault };

    fn from(fault: ListFault) -> TreeRunFault {
        match fault {
            ListFault::WrongKind { column } => {
                TreeRunFault::Lists(ListFault::WrongKind { column })
            }
            ListFault::TooLong => TreeRunFault::Lists(ListFault::TooLong),
            ListFault::NoMemory => TreeRunFault::NoMemory,
        }
    }
}
