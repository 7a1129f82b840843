//! The fault of a run by that of a run-end encoded column.
ghost use Rattle.std.specs.Prelude.{◌≡◌};
ghost use Rattle.run_ends.specs.RunAnswers.{rule_of};
ghost use Rattle.run_ends.specs.declared.schema_fault.RunsSchemaFault.TheVariants as runs;
ghost use Rattle.tree_top.specs.promise.RunRefusals.{runs_rule_told};
ghost use Rattle.tree_top.specs.RunRefusals.{fault_of_runs_schema};

use crate::fault::TreeRunFault;
use layout_rules::LayoutFault;
use run_ends::{RunsFault, RunsRule, RunsSchemaFault};
use schema_check::SchemaFault;

impl From<RunsSchemaFault> for TreeRunFault {
    ghost use Rattle.std.specs.Prelude.{◌≡◌};
    ghost use Rattle.tree_top.specs.RunRefusals.{fault_of_runs_schema};

    ghost from_gives = { λ fault given. given ≡ fault_of_runs_schema fault };

    fn from(fault: RunsSchemaFault) -> TreeRunFault {
        match fault {
            RunsSchemaFault::Released => TreeRunFault::RunsSchema(RunsSchemaFault::Released),
            RunsSchemaFault::Format => TreeRunFault::RunsSchema(RunsSchemaFault::Format),
            RunsSchemaFault::Meta(fault) => TreeRunFault::RunsSchema(RunsSchemaFault::Meta(fault)),
            RunsSchemaFault::Dictionary => TreeRunFault::RunsSchema(RunsSchemaFault::Dictionary),
            RunsSchemaFault::ChildCount { found } => {
                TreeRunFault::RunsSchema(RunsSchemaFault::ChildCount { found })
            }
            RunsSchemaFault::Child { child, fault } => child_fault(child, fault),
            RunsSchemaFault::EndsType => TreeRunFault::RunsSchema(RunsSchemaFault::EndsType),
            RunsSchemaFault::NoMemory => TreeRunFault::NoMemory,
        }
    }
}

/// The fault of a schema of runs by that of one of its children.
fn child_fault(child: u32, fault: SchemaFault) -> TreeRunFault
    ensures { result ≡ fault_of_runs_schema (runs.Child child fault) }
{
    match fault {
        SchemaFault::At { path, rule } => TreeRunFault::RunsSchema(RunsSchemaFault::Child {
            child,
            fault: SchemaFault::At {
                path: path.cleared(),
                rule,
            },
        }),
        SchemaFault::NoMemory => TreeRunFault::NoMemory,
    }
}

/// A rule of run-end encoded arrays, with 0 in the places of a path inside it behind its depth.
fn cleared(rule: RunsRule) -> RunsRule
    ensures { result ≡ runs_rule_told (rule_of rule) }
{
    match rule {
        RunsRule::Child(fault) => RunsRule::Child(LayoutFault {
            path: fault.path.cleared(),
            rule: fault.rule,
            place: fault.place,
            left: fault.left,
            right: fault.right,
        }),
        plain => plain,
    }
}

impl From<RunsFault> for TreeRunFault {
    ghost use Rattle.std.specs.Prelude.{◌≡◌};
    ghost use Rattle.run_ends.specs.RunAnswers.{found_of};
    ghost use Rattle.tree_top.specs.promise.RunRefusals.{runs_fault_told};
    ghost use Rattle.tree_top.specs.declared.fault.TreeRunFault.TheVariants as run;

    ghost from_gives = { λ fault given. given ≡ run.Runs (runs_fault_told (found_of fault)) };

    fn from(fault: RunsFault) -> TreeRunFault {
        TreeRunFault::Runs(RunsFault {
            rule: cleared(fault.rule),
            place: fault.place,
            left: fault.left,
            right: fault.right,
        })
    }
}
