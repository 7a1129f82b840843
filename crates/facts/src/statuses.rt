//! Chapter 12: the statuses of faults, and their lines.
ghost use Rattle.std.specs.Prelude.{◌≡◌, true, [], ◌∷◌, None, Some, codes};
ghost use Rattle.run_model.specs.declared.fault.RunFault.TheVariants as run;
ghost use Rattle.run_model.specs.declared.words.WordsFault.TheVariants as words;
ghost use Rattle.tree_check.specs.promise.Runs.{status_of};
ghost use Rattle.run_model.specs.promise.Answer.{cause_of};
ghost use Rattle.run_model.specs.promise.Diagnostics.{audit_if, fault_line};
ghost use Rattle.stage_model.specs.declared.fault.PlanRule.TheVariants as rules;
ghost use Rattle.stage_model.specs.declared.fault.StageFault.TheVariants.{UnknownStage};
ghost use Rattle.tree_top.specs.declared.fault.TreeRunFault.TheVariants as trees;
ghost use Rattle.tree_top.specs.promise.Faults.{cause_of as tree_cause};
ghost use Rattle.tree_top.specs.promise.Diagnostics.{status_line};

/// A fault of each status, and the line of some.
pub fn run_statuses()
    ensures none { status_of cause_of None ≡ 0 }
    ensures words { status_of cause_of (Some (run.Words words.Refused)) ≡ 2 }
    ensures stage { status_of cause_of (Some (run.Stage 1 UnknownStage)) ≡ 3 }
    ensures plan { status_of cause_of (Some (run.Plan 1 rules.NoColumn)) ≡ 3 }
    ensures record_of_two { status_of cause_of (Some (run.Ragged 2 2)) ≡ 4 }
    ensures too_long { status_of cause_of (Some run.InputTooLong) ≡ 5 }
    ensures read { status_of cause_of (Some run.ReadFault) ≡ 6 }
    ensures write { status_of cause_of (Some (run.WriteFault 10)) ≡ 7 }
    ensures memory { status_of cause_of (Some run.NoMemory) ≡ 9 }
    ensures no_line { fault_line None ≡ [] }
    ensures words_line { fault_line (Some (run.Words words.Refused)) ≡ codes "arrowpipe: words refused\n" }
    ensures header_line { fault_line (Some run.NoHeader) ≡ codes "arrowpipe: no header\n" }
    ensures plan_line { fault_line (Some (run.Plan 1 rules.NoColumn)) ≡ codes "arrowpipe: stage 1: no such column\n" }
    ensures ragged_line { fault_line (Some (run.Ragged 2 2)) ≡ codes "arrowpipe: record 2: 2 fields\n" }
    ensures field_line { fault_line (Some (run.Field 12 1)) ≡ codes "arrowpipe: record 12, column 1: not a value of its type\n" }
    ensures write_line { fault_line (Some (run.WriteFault 10)) ≡ codes "arrowpipe: write failed after 10 bytes\n" }
    ensures audit_line { audit_if true (record { blocks = 4; nodes = 16; left = 0 }) ≡ codes "audit blocks=4 nodes=16 left=0\n" }
{}

/// The same of arrowtree, whose lines are the status alone.
pub fn tree_statuses()
    ensures none { status_of tree_cause None ≡ 0 }
    ensures words { status_of tree_cause (Some trees.Words) ≡ 2 }
    ensures too_long { status_of tree_cause (Some trees.InputTooLong) ≡ 5 }
    ensures read { status_of tree_cause (Some trees.ReadFault) ≡ 6 }
    ensures write { status_of tree_cause (Some (trees.WriteFault 3)) ≡ 7 }
    ensures column { status_of tree_cause (Some (trees.Column 2)) ≡ 8 }
    ensures memory { status_of tree_cause (Some trees.NoMemory) ≡ 9 }
    ensures no_line { status_line None ≡ [] }
    ensures line { status_line (Some (trees.Column 2)) ≡ codes "arrowtree: status 8\n" }
{}
