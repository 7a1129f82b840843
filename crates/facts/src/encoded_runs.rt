//! Chapter 10: the items of run-end encoded arrays, and their first fault ("Arrow Columnar Format", "Run-End Encoded Layout").
ghost use Rattle.std.specs.Prelude.{◌≡◌, None, [], ◌∷◌, ◌^◌, ◌-◌, ◌+◌, pos, codes};
ghost use Rattle.data_types.specs.promise.Value.{Bytes};
ghost use Rattle.run_ends.specs.promise.Runs.{run_values};
ghost use Rattle.run_ends.specs.promise.RunRules.{runs_fault, EndsNull, EndsFall, ValuesShort, EndsShort, WindowTooLong};
ghost use Rattle.facts.specs.Runs.{short_runs, long_runs, over_two, two_ends, null_second, last_ends, far_end, two_texts, one_text, no_ends, no_texts, found};
ghost use Rattle.data_types.specs.promise.Value.{Null, Bits};
ghost use Rattle.run_ends.specs.promise.RunCoding.{runs_from};
ghost use Rattle.facts.specs.Runs.{float_runs, floats};

/// What the definitions say of small run-end encoded arrays: their values, and the first fault ("Arrow Columnar Format", "Run-End
/// Encoded Layout").
pub fn run_arrays()
    // Three items behind one: an end equal to an item's place is behind the item's run.
    ensures window { run_values short_runs (over_two (pos 3) (pos 1) (two_ends 2 4) two_texts)
        ≡ Bytes (codes "a") ∷ Bytes (codes "b") ∷ Bytes (codes "b") ∷ [] }
    ensures window_is_lawful { runs_fault short_runs (over_two (pos 3) (pos 1) (two_ends 2 4) two_texts) ≡ None }
    // The window of the ends is their own.
    ensures own_window { run_values short_runs (over_two (pos 3) (pos 1) last_ends two_texts)
        ≡ Bytes (codes "a") ∷ Bytes (codes "b") ∷ Bytes (codes "b") ∷ [] }
    ensures own_window_is_lawful { runs_fault short_runs (over_two (pos 3) (pos 1) last_ends two_texts) ≡ None }
    // An end far behind the window, and no items without runs.
    ensures far { run_values long_runs (over_two (pos 1) (pos (2 ^ 40 - 1)) far_end one_text) ≡ Bytes (codes "a") ∷ [] }
    ensures far_is_lawful { runs_fault long_runs (over_two (pos 1) (pos (2 ^ 40 - 1)) far_end one_text) ≡ None }
    ensures none_is_lawful { runs_fault short_runs (over_two (pos 0) (pos 0) no_ends no_texts) ≡ None }
    // Ends that do not rise, an end that is 0, and one that is null.
    ensures still { runs_fault short_runs (over_two (pos 3) (pos 1) (two_ends 2 2) two_texts) ≡ found EndsFall 1 (pos 2) (pos 2) }
    ensures at_zero { runs_fault short_runs (over_two (pos 3) (pos 1) (two_ends 0 4) two_texts) ≡ found EndsFall 0 (pos 0) (pos 0) }
    ensures null { runs_fault short_runs (over_two (pos 2) (pos 0) null_second two_texts) ≡ found EndsNull 1 (pos 0) (pos 0) }
    // Too few values, ends before the window's, and a window that ends too far.
    ensures values { runs_fault short_runs (over_two (pos 3) (pos 1) (two_ends 2 4) one_text) ≡ found ValuesShort 0 (pos 1) (pos 2) }
    ensures ends { runs_fault short_runs (over_two (pos 4) (pos 1) (two_ends 2 4) two_texts) ≡ found EndsShort 0 (pos 4) (pos 5) }
    ensures no_runs { runs_fault short_runs (over_two (pos 1) (pos 0) no_ends no_texts) ≡ found EndsShort 0 (pos 0) (pos 1) }
    ensures too_far { runs_fault long_runs (over_two (pos 1) (pos (2 ^ 40)) far_end one_text) ≡ found WindowTooLong 0 (pos (2 ^ 40 + 1)) (pos (2 ^ 40)) }
{}

/// The array that the standard writes out, with the bits of 1.0 and 2.0 as IEEE 754 has them, and its values as runs.
pub fn standard_runs()
    ensures values { run_values float_runs floats
        ≡ Bits 0x3f800000 ∷ Bits 0x3f800000 ∷ Bits 0x3f800000 ∷ Bits 0x3f800000 ∷ Null ∷ Null ∷ Bits 0x40000000 ∷ [] }
    ensures values_are_lawful { runs_fault float_runs floats ≡ None }
    ensures runs { runs_from 0 (Bits 0x3f800000 ∷ Bits 0x3f800000 ∷ Bits 0x3f800000 ∷ Bits 0x3f800000 ∷ Null ∷ Null ∷ Bits 0x40000000 ∷ [])
        ≡ record { value = Bits 0x3f800000; stop = 4 } ∷ record { value = Null; stop = 6 } ∷ record { value = Bits 0x40000000; stop = 7 } ∷ [] }
{}
