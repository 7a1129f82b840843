//! Chapter 09: the items of unions, their first fault, and columns made into one ("Arrow Columnar Format", "Union Layout").
ghost use Rattle.std.specs.Prelude.{◌≡◌, true, false, None, Some, [], ◌∷◌, pos, negsuc, codes};
ghost use Rattle.data_types.specs.promise.Value.{Null, Whole, Bytes};
ghost use Rattle.root_check.specs.declared.own.OwnRule.TheVariants as own;
ghost use Rattle.facts.specs.Arrays.{buffer};
ghost use Rattle.union_cols.specs.promise.UnionRules.{union_fault, Own, BufferShort, BadTypeId, ChildShort, OffsetRange};
ghost use Rattle.facts.specs.Unions.{numbers_and_bytes, over_two, two_numbers, one_binary, some_binaries, starts, dense_union, dense_window, sparse_window, values_of_union, found, number_and_bytes, numbers_beside_bytes, shown};
ghost use Rattle.layout_rules.specs.promise.Values.{rows_of};
ghost use Rattle.layout_rules.specs.promise.Walk.{first_chunk_fault};
ghost use Rattle.union_cols.specs.promise.Unions.{union_items};
ghost use Rattle.union_cols.specs.declared.tag_fault.TagFault.TheVariants as tags;
ghost use Rattle.union_cols.specs.promise.Tags.{tag_fault, tagged_items};
ghost use Rattle.union_cols.specs.Tags.{start_bytes, tag_format, tagged_array, tagged_kinds};
ghost use Rattle.facts.specs.Unions.{dense_floats, float_and_number, number_float_text, sparse_items};
ghost use Rattle.data_types.specs.promise.Value.{Bits};

/// What the definitions say of small unions: their values, and the first fault ("Arrow Columnar Format", "Union Layout").
pub fn union_arrays()
    // A dense union, and a window over it: the id before the window isn't looked at.
    ensures dense { values_of_union (numbers_and_bytes true) (dense_union (5 ∷ 7 ∷ 5 ∷ []))
        ≡ Whole (pos 10) ∷ Bytes (codes "hi") ∷ Whole (pos 11) ∷ [] }
    ensures dense_is_lawful { union_fault (numbers_and_bytes true) (dense_union (5 ∷ 7 ∷ 5 ∷ [])) ≡ None }
    ensures window { values_of_union (numbers_and_bytes true) dense_window ≡ Bytes (codes "hi") ∷ Whole (pos 11) ∷ [] }
    ensures window_is_lawful { union_fault (numbers_and_bytes true) dense_window ≡ None }
    // A sparse union's item is in its child at the item's own place.
    ensures sparse { values_of_union (numbers_and_bytes false) sparse_window ≡ Bytes (codes "hi") ∷ [] }
    ensures sparse_is_lawful { union_fault (numbers_and_bytes false) sparse_window ≡ None }
    // An id that no child has; one above 127 is below 0.
    ensures bad_id { union_fault (numbers_and_bytes true) (dense_union (5 ∷ 7 ∷ 6 ∷ [])) ≡ found BadTypeId 2 (pos 6) (pos 0) }
    ensures signed_id { union_fault (numbers_and_bytes true) (dense_union (5 ∷ 0xff ∷ 5 ∷ [])) ≡ found BadTypeId 1 (negsuc 0) (pos 0) }
    // Too few bytes of ids, an offset behind its child, a child of a sparse union that is too short, and a buffer too many.
    ensures short { union_fault (numbers_and_bytes true) (dense_union (5 ∷ 7 ∷ [])) ≡ found BufferShort 0 (pos 2) (pos 3) }
    ensures outside { union_fault (numbers_and_bytes true) (dense_union (5 ∷ 7 ∷ 7 ∷ [])) ≡ found OffsetRange 2 (pos 1) (pos 1) }
    ensures short_child { union_fault (numbers_and_bytes false) (over_two (pos 2) (pos 0) (buffer (5 ∷ 5 ∷ []) ∷ []) two_numbers one_binary)
        ≡ found ChildShort 1 (pos 1) (pos 2) }
    ensures buffers { union_fault (numbers_and_bytes false) (over_two (pos 2) (pos 0) (buffer (5 ∷ 5 ∷ []) ∷ starts ∷ []) two_numbers some_binaries)
        ≡ found (Own own.BufferCount) 0 (pos 2) (pos 1) }
{}

/// What the definitions say of columns that are tagged.
pub fn tags()
    ensures chunk { first_chunk_fault number_and_bytes numbers_beside_bytes ≡ None }
    // Each row by its first column that isn't null, and the first one where all are null.
    ensures items { tagged_items (rows_of number_and_bytes numbers_beside_bytes)
        ≡ shown 1 (Bytes (codes "b")) ∷ shown 0 Null ∷ shown 0 (Whole (pos 4)) ∷ [] }
    // They are the items of what is made of the chunk, at which no rule fails.
    ensures sparse { union_items (tagged_kinds false number_and_bytes) (tagged_array false number_and_bytes numbers_beside_bytes)
        ≡ tagged_items (rows_of number_and_bytes numbers_beside_bytes) }
    ensures dense { union_items (tagged_kinds true number_and_bytes) (tagged_array true number_and_bytes numbers_beside_bytes)
        ≡ tagged_items (rows_of number_and_bytes numbers_beside_bytes) }
    ensures sparse_is_lawful { union_fault (tagged_kinds false number_and_bytes) (tagged_array false number_and_bytes numbers_beside_bytes) ≡ None }
    ensures dense_is_lawful { union_fault (tagged_kinds true number_and_bytes) (tagged_array true number_and_bytes numbers_beside_bytes) ≡ None }
    // The format, and the offsets.
    ensures format { tag_format true 3 ≡ codes "+ud:0,1,2" }
    ensures starts { start_bytes 3 ≡ 0 ∷ 0 ∷ 0 ∷ 0 ∷ 1 ∷ 0 ∷ 0 ∷ 0 ∷ 2 ∷ 0 ∷ 0 ∷ 0 ∷ [] }
    // What is refused, in its order.
    ensures no_columns { tag_fault true 0 5000000000 ≡ Some (tags.Columns 0) }
    ensures columns { tag_fault true 129 5000000000 ≡ Some (tags.Columns 129) }
    ensures too_long { tag_fault true 128 2147483648 ≡ Some tags.TooLong }
    ensures dense_fits { tag_fault true 128 2147483647 ≡ None }
    ensures sparse_fits { tag_fault false 1 2147483648 ≡ None }
{}

/// The unions that the standard writes out, with the bits of 1.2 and 3.4 as IEEE 754 has them.
pub fn standard_unions()
    ensures dense { values_of_union float_and_number dense_floats ≡ Bits 0x3f99999a ∷ Null ∷ Bits 0x4059999a ∷ Whole (pos 5) ∷ [] }
    ensures dense_is_lawful { union_fault float_and_number dense_floats ≡ None }
    ensures sparse { values_of_union number_float_text sparse_items
        ≡ Whole (pos 5) ∷ Bits 0x3f99999a ∷ Bytes (codes "joe") ∷ Bits 0x4059999a ∷ Whole (pos 4) ∷ Bytes (codes "mark") ∷ [] }
    ensures sparse_is_lawful { union_fault number_float_text sparse_items ≡ None }
{}
