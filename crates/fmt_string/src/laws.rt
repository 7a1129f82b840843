//! Why reading may be trusted: one answer for each text, one text for each type, and numbers in their ranges.
ghost use Rattle.std.specs.Prelude.{◌≡◌, ℕ, List, Result};
ghost use Rattle.data_types.specs.declared.kind.DataType.{DataType};
ghost use Rattle.fmt_string.specs.declared.fault.FormatFault.{FormatFault};
ghost use Rattle.fmt_string.specs.promise.FormatString.{FormatIs};
ghost use Rattle.data_types.specs.Kinds.{KindOk};
ghost use Rattle.fmt_string.specs.promise.Spelling.{spelling_of};
ghost use Rattle.fmt_string.specs.Answer.{Reads};

/// A law: each text spells a type or has a first fault, and only one.
pub fn one_reading()
    ensures some { (text : List ℕ) → (read : Result DataType FormatFault) × Reads text read }
    ensures alone { (text : List ℕ) (first second : Result DataType FormatFault) → Reads text first → Reads text second → first ≡ second }
{}

/// A law: the canonical spelling of a type spells it, and no other type has that spelling.
pub fn spelling_reads_back()
    ensures spelled { (kind : DataType) → KindOk kind → FormatIs (spelling_of kind) kind }
    ensures alone { (kind other : DataType) → KindOk kind → KindOk other → spelling_of kind ≡ spelling_of other → kind ≡ other }
{}

/// A law: the numbers of each type that a text spells are in their ranges.
pub fn spelled_is_valid()
    ensures { (text : List ℕ) (kind : DataType) → FormatIs text kind → KindOk kind }
{}
