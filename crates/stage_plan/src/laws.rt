//! What holds of schema texts. The calls do nothing.
ghost use Rattle.std.specs.Prelude.{◌≡◌, ℕ, List, Result};
ghost use Rattle.stage_plan.specs.promise.Types.{Reads};
ghost use Rattle.stage_plan.specs.declared.fault.TypesFault.{TypesFault};
ghost use Rattle.stage_plan.specs.declared.types.TypeEntry.{TypeEntry};

/// A law: each text is entries or has a first fault, and one alone.
pub fn one_reading()
    ensures some { (text : List ℕ) → (read : Result (List TypeEntry) TypesFault) × Reads text read }
    ensures alone { (text : List ℕ) (first second : Result (List TypeEntry) TypesFault) → Reads text first → Reads text second → first ≡ second }
{
    fmt_string::one_reading();
}
