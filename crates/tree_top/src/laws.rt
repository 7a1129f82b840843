//! What holds of the answers of runs. The calls do nothing.
ghost use Rattle.std.specs.Prelude.{◌≡◌, ℕ, List, Option, true, false};
ghost use Rattle.tree_top.specs.promise.TextOrFault.{Answer, Fault};
ghost use Rattle.tree_top.specs.promise.Answer.{IsAnswerTo};
ghost use Rattle.tree_top.specs.promise.Faults.{has_memory_inside};
ghost use Rattle.tree_top.specs.Faults.{is_decided};
ghost use Rattle.tree_top.specs.declared.command.Command.{Command as ACommand};
ghost use Rattle.tree_top.specs.declared.fault.TreeRunFault.{TreeRunFault as AFault};

/// A law: whatever the command and the bytes of the input are, there is an answer, and one alone.
pub fn one_answer()
    ensures some { (command : Option ACommand) (bytes : List ℕ) → (answer : Answer) × IsAnswerTo command bytes answer }
    ensures alone { (command : Option ACommand) (bytes : List ℕ) (one other : Answer) → IsAnswerTo command bytes one → IsAnswerTo command bytes other
        → one ≡ other }
{
    tree_text::one_reading();
    schema_check::one_schema_answer();
    tree_check::some_schema_answer();
    union_cols::one_union_answer();
    union_cols::some_union_format();
    run_ends::one_runs_answer();
}

/// A law: no fault that is an answer has an out-of-memory inside it, nor has any that words and bytes don't decide.
pub(crate) fn memory_stands_alone()
    ensures { (command : Option ACommand) (bytes : List ℕ) (fault : AFault)
        → (is_decided fault ≡ true → IsAnswerTo command bytes (Fault fault)) → has_memory_inside fault ≡ false }
{}
