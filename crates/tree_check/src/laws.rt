//! What holds of the checks of texts. The calls do nothing.
ghost use Rattle.std.specs.Prelude.{◌≡◌, ℕ, List};
ghost use Rattle.tree_check.specs.promise.Checks.{Checked, ChecksTo};

/// A law: the check of each text comes to a report or a first fault, and to one alone.
pub fn one_check()
    ensures some { (bytes : List ℕ) → (checked : Checked) × ChecksTo bytes checked }
    ensures alone { (bytes : List ℕ) (one other : Checked) → ChecksTo bytes one → ChecksTo bytes other → one ≡ other }
{
    fmt_string::one_reading();
    tree_text::one_reading();
    schema_check::one_schema_answer();
}
