//! A law of the reading.
ghost use Rattle.std.specs.Prelude.{◌≡◌, ℕ, List, Result};
ghost use Rattle.schema_meta.specs.declared.pair.Pair.{Pair};
ghost use Rattle.schema_meta.specs.declared.fault.MetaFault.{MetaFault};
ghost use Rattle.schema_meta.specs.Meta.{Reads};

/// A law: bytes spell one list of pairs or have one first fault.
pub fn one_reading()
    ensures { (bytes : List ℕ) (first second : Result (List Pair) MetaFault) → Reads bytes first → Reads bytes second → first ≡ second }
{}
