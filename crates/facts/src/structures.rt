//! Chapter 06: the values of arrays, and their first fault ("Arrow Columnar Format", "Physical Memory Layout").
ghost use Rattle.std.specs.Prelude.{◌≡◌, None, [], ◌∷◌, pos, negsuc, codes};
ghost use Rattle.data_types.specs.declared.kind.DataType.TheVariants as kinds;
ghost use Rattle.data_types.specs.promise.Value.{values, Null, Whole, Bytes, Items, Fields};
ghost use Rattle.layout_rules.specs.declared.rule.LayoutRule.TheVariants as rules;
ghost use Rattle.layout_rules.specs.promise.Walk.{first_fault};
ghost use Rattle.layout_rules.specs.promise.Values.{values_of};
ghost use Rattle.facts.specs.Arrays.{faulty, flat, int32, text, row_of, coded, buffer, last_three, window_over_window, no_text, falling_text, index, short_numbers, short_column, far_null};
ghost use Rattle.facts.specs.Standard.{address_kind, addresses, bytes, coded_kind, coded_names, list_kind, lists, names, numbers, people, person_kind};

/// What the definitions say of small arrays: the values of a window, and the first fault ("Arrow Columnar Format").
pub fn arrays()
    // A window over numbers with a null among them; and a window over a window.
    ensures window { values_of (flat int32) last_three ≡ Whole (pos 7) ∷ Null ∷ Whole (negsuc 0) ∷ [] }
    ensures window_is_lawful { first_fault (flat int32) last_three ≡ None }
    ensures windows { values_of (row_of int32) window_over_window ≡ Fields (values (Whole (pos 20) ∷ [])) ∷ Fields (values (Whole (pos 30) ∷ [])) ∷ [] }
    ensures windows_are_lawful { first_fault (row_of int32) window_over_window ≡ None }
    // A text of no items without its buffers, and one whose offsets fall.
    ensures no_text_is_lawful { first_fault (flat text) no_text ≡ None }
    ensures no_values { values_of (flat text) no_text ≡ [] }
    ensures falling { first_fault (flat text) falling_text ≡ faulty [] rules.OffsetsFall 1 (pos 3) (pos 2) }
    // Indices into a dictionary of two.
    ensures index_outside { first_fault coded (index None (pos 0) 2) ≡ faulty [] rules.IndexRange 0 (pos 2) (pos 2) }
    ensures null_index_is_lawful { first_fault coded (index (buffer (0 ∷ [])) (pos 1) 2) ≡ None }
    ensures null_index { values_of coded (index (buffer (0 ∷ [])) (pos 1) 2) ≡ Null ∷ [] }
    ensures index_inside { values_of coded (index None (pos 0) 1) ≡ Bytes (121 ∷ []) ∷ [] }
    // Too few bytes, too few items, and too many places.
    ensures short_buffer { first_fault (flat int32) short_numbers ≡ faulty [] rules.BufferShort 1 (pos 8) (pos 12) }
    ensures short_child { first_fault (row_of int32) short_column ≡ faulty [] rules.ChildShort 0 (pos 1) (pos 2) }
    ensures long_window { first_fault (flat kinds.Null) far_null ≡ faulty [] rules.WindowTooLong 0 (pos 1099511627777) (pos 1099511627776) }
{}

/// The arrays that the standard writes out, with their values; no rule fails at any of them.
pub fn standard_arrays()
    ensures numbers { values_of (flat int32) numbers ≡ Whole (pos 1) ∷ Null ∷ Whole (pos 2) ∷ Whole (pos 4) ∷ Whole (pos 8) ∷ [] }
    ensures numbers_are_lawful { first_fault (flat int32) numbers ≡ None }
    ensures names { values_of bytes names ≡ Bytes (codes "joe") ∷ Null ∷ Null ∷ Bytes (codes "mark") ∷ [] }
    ensures names_are_lawful { first_fault bytes names ≡ None }
    ensures lists { values_of list_kind lists
        ≡ Items (values (Whole (pos 12) ∷ Whole (negsuc 6) ∷ Whole (pos 25) ∷ [])) ∷ Null
        ∷ Items (values (Whole (pos 0) ∷ Whole (negsuc 126) ∷ Whole (pos 127) ∷ Whole (pos 50) ∷ [])) ∷ Items (values []) ∷ [] }
    ensures lists_are_lawful { first_fault list_kind lists ≡ None }
    ensures addresses { values_of address_kind addresses
        ≡ Items (values (Whole (pos 192) ∷ Whole (pos 168) ∷ Whole (pos 0) ∷ Whole (pos 12) ∷ [])) ∷ Null
        ∷ Items (values (Whole (pos 192) ∷ Whole (pos 168) ∷ Whole (pos 0) ∷ Whole (pos 25) ∷ []))
        ∷ Items (values (Whole (pos 192) ∷ Whole (pos 168) ∷ Whole (pos 0) ∷ Whole (pos 1) ∷ [])) ∷ [] }
    ensures addresses_are_lawful { first_fault address_kind addresses ≡ None }
    ensures people { values_of person_kind people
        ≡ Fields (values (Bytes (codes "joe") ∷ Whole (pos 1) ∷ [])) ∷ Fields (values (Null ∷ Whole (pos 2) ∷ [])) ∷ Null
        ∷ Fields (values (Bytes (codes "mark") ∷ Whole (pos 4) ∷ [])) ∷ [] }
    ensures people_are_lawful { first_fault person_kind people ≡ None }
    ensures coded { values_of coded_kind coded_names
        ≡ Bytes (codes "foo") ∷ Bytes (codes "bar") ∷ Bytes (codes "foo") ∷ Bytes (codes "bar") ∷ Null ∷ Bytes (codes "baz") ∷ [] }
    ensures coded_are_lawful { first_fault coded_kind coded_names ≡ None }
{}
