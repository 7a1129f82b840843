//! A law of reading records one after the other.
ghost use Rattle.std.specs.Prelude.{◌≡◌, ◌≤◌, ◌<◌, ◌+◌, ◌∷◌, ℕ, List, [], false, length, None, Some};
ghost use Rattle.std.specs.List.{concat};
ghost use Rattle.csv.specs.Machine.{Read, ends_at_end, next_record};
ghost use Rattle.csv.specs.Reading.{default_config, records_from};
ghost use Rattle.csv.specs.declared.parser.State.{State};

/// A law: between two records of a text, what the machine reads next is the first of the records that are left, and those
/// behind it are the others. It takes at least a byte, no fewer bytes than its fields have, and at most one field more than
/// bytes.
pub fn records_are_read_in_turn()
    ensures next { (s : State) (xs : List ℕ) (q : Read) → ends_at_end s ≡ false → next_record default_config s [] [] xs ≡ Some q
        → records_from default_config (length xs + 1) s xs ≡ q.0 ∷ records_from default_config (length q.2 + 1) q.1 q.2 }
    ensures end { (s : State) (xs : List ℕ) → next_record default_config s [] [] xs ≡ None → records_from default_config (length xs + 1) s xs ≡ [] }
    ensures between { (s : State) (xs : List ℕ) (q : Read) → next_record default_config s [] [] xs ≡ Some q → ends_at_end q.1 ≡ false }
    ensures shorter { (s : State) (xs : List ℕ) (q : Read) → ends_at_end s ≡ false → next_record default_config s [] [] xs ≡ Some q → length q.2 < length xs }
    ensures bytes { (s : State) (xs : List ℕ) (q : Read) → next_record default_config s [] [] xs ≡ Some q → length (concat q.0) + length q.2 ≤ length xs }
    ensures count { (s : State) (xs : List ℕ) (q : Read) → next_record default_config s [] [] xs ≡ Some q → length q.0 + length q.2 ≤ length xs + 1 }
{}
