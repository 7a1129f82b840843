//! A law of format strings: none is without a reading. The call does nothing.
ghost use Rattle.std.specs.Prelude.{ℕ, List, Result};
ghost use Rattle.union_cols.specs.promise.UnionFormats.{UnionFormat};
ghost use Rattle.union_cols.specs.UnionFormats.{FormatReads};

/// A law: each text is the format of a union or has a first fault.
pub fn some_union_format()
    ensures { (text : List ℕ) → (read : Result UnionFormat ℕ) × FormatReads text read }
{}
