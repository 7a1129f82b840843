//! What holds of texts of trees. The calls do nothing.
ghost use Rattle.std.specs.Prelude.{◌≡◌, ℕ, List, Result};
ghost use Rattle.raw_schema.specs.promise.Members.{SchemaTree};
ghost use Rattle.raw_array.specs.promise.Members.{ArrayTree};
ghost use Rattle.tree_text.specs.declared.fault.TextFault.{TextFault};
ghost use Rattle.tree_text.specs.promise.Answers.{Reads};

/// A law: each text is that of two trees or has a first fault, and one alone.
pub fn one_reading()
    ensures some { (bytes : List ℕ) → (read : Result (SchemaTree × ArrayTree) TextFault) × Reads bytes read }
    ensures alone { (bytes : List ℕ) (first second : Result (SchemaTree × ArrayTree) TextFault) → Reads bytes first → Reads bytes second → first ≡ second }
{}
