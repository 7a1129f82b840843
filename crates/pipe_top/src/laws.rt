//! What holds of the answers of runs. The calls do nothing.
ghost use Rattle.std.specs.Prelude.{◌≡◌, ℕ, List, Option, true, false};
ghost use Rattle.run_model.specs.promise.Answer.{Answer, Fault};
ghost use Rattle.run_model.specs.promise.MemoryFaults.{has_memory_inside};
ghost use Rattle.run_model.specs.Outcomes.{is_decided};
ghost use Rattle.run_model.specs.declared.fault.RunFault.{RunFault as AFault};
ghost use Rattle.run_model.specs.promise.RunAnswer.{AreInput, IsAnswer};
ghost use Rattle.run_model.specs.RunAnswer.{IsInput};

/// A law: whatever the words and the bytes of the input are, there is an answer, and one alone.
pub fn one_answer()
    ensures some { (words : List (List ℕ)) (bytes : List ℕ) → (answer : Answer) × IsAnswer words bytes answer }
    ensures alone { (words : List (List ℕ)) (bytes : List ℕ) (one other : Answer) → IsAnswer words bytes one → IsAnswer words bytes other → one ≡ other }
{
    stage_plan::one_reading();
    tree_check::one_check();
}

/// A law: the bytes of an input are those that its source states or that are made, where there are such.
pub fn one_input()
    ensures alone { (words : List (List ℕ)) (left : Option (List ℕ)) (bytes told : List ℕ)
        → AreInput words left bytes → IsInput words left told → told ≡ bytes }
{}

/// A law: no fault that is an answer has an out-of-memory inside it, nor has any that words and bytes don't decide.
pub fn memory_stands_alone()
    ensures faults { (words : List (List ℕ)) (bytes : List ℕ) (fault : AFault)
        → (is_decided fault ≡ true → IsAnswer words bytes (Fault fault)) → has_memory_inside fault ≡ false }
{}
