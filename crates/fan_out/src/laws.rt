//! What holds of the pieces that rows are cut into, as a law. The call does nothing.
ghost use Rattle.std.specs.Prelude.{◌≡◌, ◌<◌, ◌≤◌, ◌+◌, ℕ};
ghost use Rattle.array_laws.specs.Pieces.{border};

/// A law: the first piece begins with the first row, each begins where the one before it ends, no piece ends before it
/// begins, and the last ends with the last row.
pub fn pieces_are_in_order()
    ensures first { (rows workers : ℕ) → 0 < workers → border rows workers 0 ≡ 0 }
    ensures rising { (rows workers w : ℕ) → 0 < workers → border rows workers w ≤ border rows workers (w + 1) }
    ensures last { (rows workers : ℕ) → 0 < workers → border rows workers workers ≡ rows }
{}
