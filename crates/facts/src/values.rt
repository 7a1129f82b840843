//! Chapter 03: the values of fields, and the buffers of columns.
ghost use Rattle.std.specs.Prelude.{◌≡◌, pos, negsuc, true, false, [], ◌∷◌, None, Some, codes};
ghost use Rattle.data_types.specs.declared.kind.DataType.TheVariants.{Bool, Int, Float, Utf8, Binary, FixedBinary, Decimal, DateDay};
ghost use Rattle.data_types.specs.promise.Value.{Null, Truth, Whole, Bits, Bytes};
ghost use Rattle.data_types.specs.promise.FieldText.{read_field, written_text};
ghost use Rattle.data_types.specs.FieldText.{IsFlatKind, IsValueOf};
ghost use Rattle.col_build.specs.promise.Encoding.{bit_bytes, encoded};
ghost use Rattle.col_build.specs.Encoding.{push_fault};
ghost use Rattle.col_build.specs.declared.item.PushFault.TheVariants.{WrongKind, OutOfRange, NotText};

/// Fields on which the definitions are computed.
pub fn fields()
    ensures empty { read_field [] (Int 8 true) [] ≡ Some Null }
    ensures truths { read_field [] Bool (codes "TRUE") ≡ Some (Truth true) }
    ensures truth_form { read_field [] Bool (codes "tRUE") ≡ None }
    ensures truth_written { written_text [] Bool (Truth false) ≡ codes "false" }
    ensures plus_and_zeros { read_field [] (Int 64 true) (codes "+007") ≡ Some (Whole (pos 7)) }
    ensures sign_alone { read_field [] (Int 64 true) (codes "-") ≡ None }
    ensures largest_byte { read_field [] (Int 8 false) (codes "255") ≡ Some (Whole (pos 255)) }
    ensures past_largest_byte { read_field [] (Int 8 false) (codes "256") ≡ None }
    ensures least_short { read_field [] (Int 8 true) (codes "-128") ≡ Some (Whole (negsuc 127)) }
    ensures past_least_short { read_field [] (Int 8 true) (codes "-129") ≡ None }
    ensures largest_short { read_field [] (Int 8 true) (codes "127") ≡ Some (Whole (pos 127)) }
    ensures past_largest_short { read_field [] (Int 8 true) (codes "128") ≡ None }
    ensures least_long { read_field [] (Int 64 true) (codes "-9223372036854775808") ≡ Some (Whole (negsuc 9223372036854775807)) }
    ensures past_least_long { read_field [] (Int 64 true) (codes "-9223372036854775809") ≡ None }
    ensures largest_long { read_field [] (Int 64 true) (codes "9223372036854775807") ≡ Some (Whole (pos 9223372036854775807)) }
    ensures past_largest_long { read_field [] (Int 64 true) (codes "9223372036854775808") ≡ None }
    ensures least_long_written { written_text [] (Int 64 true) (Whole (negsuc 9223372036854775807)) ≡ codes "-9223372036854775808" }
    ensures date_past { read_field [] DateDay (codes "2147483648") ≡ None }
    ensures lower_case { read_field [] (Float 16) (codes "3c0f") ≡ Some (Bits 15375) }
    ensures upper_case { read_field [] (Float 16) (codes "3C0F") ≡ Some (Bits 15375) }
    ensures float_short { read_field [] (Float 16) (codes "3c0") ≡ None }
    ensures float_written { written_text [] (Float 16) (Bits 15375) ≡ codes "3c0f" }
    ensures bytes_read { read_field [] (Binary false) (codes "00fF") ≡ Some (Bytes (0 ∷ 255 ∷ [])) }
    ensures bytes_odd { read_field [] (Binary false) (codes "00f") ≡ None }
    ensures two_bytes { read_field [] (FixedBinary 2) (codes "0aFF") ≡ Some (Bytes (10 ∷ 255 ∷ [])) }
    ensures three_bytes { read_field [] (FixedBinary 2) (codes "0aff00") ≡ None }
    ensures bytes_written { written_text [] (FixedBinary 2) (Bytes (10 ∷ 255 ∷ [])) ≡ codes "0aff" }
    ensures decimal_short { read_field [] (Decimal 5 (pos 2) false) (codes "7.5") ≡ Some (Whole (pos 750)) }
    ensures decimal_below_0 { read_field [] (Decimal 5 (pos 2) false) (codes "-0.05") ≡ Some (Whole (negsuc 4)) }
    ensures decimal_too_large { read_field [] (Decimal 5 (pos 2) false) (codes "1000") ≡ None }
    ensures decimal_too_fine { read_field [] (Decimal 5 (pos 2) false) (codes "1.234") ≡ None }
    ensures decimal_bare_point { read_field [] (Decimal 5 (pos 2) false) (codes "1.") ≡ None }
    ensures decimal_no_whole { read_field [] (Decimal 5 (pos 2) false) (codes ".5") ≡ None }
    ensures decimal_written { written_text [] (Decimal 5 (pos 2) false) (Whole (pos 750)) ≡ codes "7.50" }
    ensures decimal_written_below_0 { written_text [] (Decimal 5 (pos 2) false) (Whole (negsuc 4)) ≡ codes "-0.05" }
    ensures scale_below_0 { read_field [] (Decimal 5 (negsuc 1) false) (codes "12") ≡ Some (Whole (pos 12)) }
    ensures text { read_field [] (Utf8 false) (codes "a,b") ≡ Some (Bytes (codes "a,b")) }
    ensures not_text { read_field [] (Utf8 true) (0xff ∷ []) ≡ None }
    ensures in_its_kind { IsFlatKind (Decimal 5 (pos 2) false) × IsValueOf (Decimal 5 (pos 2) false) (Whole (pos 99999)) }
    ensures out_of_its_kind { ¬ IsValueOf (Int 8 true) (Whole (pos 128)) }
    ensures marked { read_field (codes "NA") (Int 8 true) (codes "NA") ≡ Some Null }
    ensures marked_text { read_field (codes "NA") (Utf8 false) (codes "NA") ≡ Some Null }
    ensures empty_unmarked { read_field (codes "NA") (Utf8 false) [] ≡ Some (Bytes []) }
    ensures empty_number_unmarked { read_field (codes "NA") (Int 8 true) [] ≡ None }
    ensures longer_than_the_mark { read_field (codes "N") (Utf8 false) (codes "NA") ≡ Some (Bytes (codes "NA")) }
    ensures mark_written { written_text (codes "NA") (Int 8 true) Null ≡ codes "NA" }
    ensures spelled_like_the_mark { written_text (codes "7") (Int 8 true) (Whole (pos 7)) ≡ codes "7" }
    ensures wide_decimal { read_field [] (Decimal 5 (pos 2) true) (codes "7.5") ≡ None }
{}

/// Small columns, and items that a column refuses.
pub fn encodings()
    ensures bits_of_three { bit_bytes (true ∷ false ∷ true ∷ []) ≡ 5 ∷ [] }
    ensures bits_of_nine { bit_bytes (false ∷ true ∷ true ∷ false ∷ true ∷ false ∷ false ∷ false ∷ true ∷ []) ≡ 0x16 ∷ 1 ∷ [] }
    ensures no_items { encoded (Int 32 true) [] ≡ record { length = 0; null_count = 0; buffers = None ∷ None ∷ [] } }
    ensures no_texts { encoded (Utf8 false) [] ≡ record { length = 0; null_count = 0; buffers = None ∷ Some (0 ∷ 0 ∷ 0 ∷ 0 ∷ []) ∷ None ∷ [] } }
    ensures numbers { encoded (Int 16 true) (Whole (pos 513) ∷ Null ∷ Whole (negsuc 0) ∷ [])
        ≡ record { length = 3; null_count = 1; buffers = Some (5 ∷ []) ∷ Some (1 ∷ 2 ∷ 0 ∷ 0 ∷ 255 ∷ 255 ∷ []) ∷ [] } }
    ensures truths { encoded Bool (Truth true ∷ Truth false ∷ Truth true ∷ []) ≡ record { length = 3; null_count = 0; buffers = None ∷ Some (5 ∷ []) ∷ [] } }
    ensures texts { encoded (Utf8 false) (Bytes (codes "ab") ∷ Null ∷ Bytes (codes "c") ∷ [])
        ≡ record {
          length = 3;
          null_count = 1;
          buffers = Some (5 ∷ []) ∷ Some (0 ∷ 0 ∷ 0 ∷ 0 ∷ 2 ∷ 0 ∷ 0 ∷ 0 ∷ 2 ∷ 0 ∷ 0 ∷ 0 ∷ 3 ∷ 0 ∷ 0 ∷ 0 ∷ []) ∷ Some (codes "abc") ∷ [];
        } }
    ensures no_bytes_each { encoded (FixedBinary 0) (Bytes [] ∷ []) ≡ record { length = 1; null_count = 0; buffers = None ∷ None ∷ [] } }
    ensures largest_byte { push_fault (Int 8 false) [] (Whole (pos 255)) ≡ None }
    ensures past_largest_byte { push_fault (Int 8 false) [] (Whole (pos 256)) ≡ Some OutOfRange }
    ensures truth_among_numbers { push_fault (Int 8 false) [] (Truth true) ≡ Some WrongKind }
    ensures no_text { push_fault (Utf8 false) [] (Bytes (255 ∷ [])) ≡ Some NotText }
    ensures null_anywhere { push_fault (Utf8 false) [] Null ≡ None }
    ensures too_many_bits { push_fault (Float 16) [] (Bits 65536) ≡ Some OutOfRange }
    ensures wrong_size { push_fault (FixedBinary 2) [] (Bytes (1 ∷ [])) ≡ Some OutOfRange }
{}

/// Columns of "Arrow Columnar Format", "Fixed-Size Primitive Layout" and "Variable-size Binary Layout", with their buffers.
pub fn standard_columns()
    ensures numbers { encoded (Int 32 true) (Whole (pos 1) ∷ Null ∷ Whole (pos 2) ∷ Whole (pos 4) ∷ Whole (pos 8) ∷ [])
        ≡ record {
          length = 5;
          null_count = 1;
          buffers = Some (0x1d ∷ []) ∷ Some (1 ∷ 0 ∷ 0 ∷ 0 ∷ 0 ∷ 0 ∷ 0 ∷ 0 ∷ 2 ∷ 0 ∷ 0 ∷ 0 ∷ 4 ∷ 0 ∷ 0 ∷ 0 ∷ 8 ∷ 0 ∷ 0 ∷ 0 ∷ []) ∷ [];
        } }
    ensures no_null { encoded (Int 32 true) (Whole (pos 1) ∷ Whole (pos 2) ∷ Whole (pos 3) ∷ Whole (pos 4) ∷ Whole (pos 8) ∷ [])
        ≡ record {
          length = 5;
          null_count = 0;
          buffers = None ∷ Some (1 ∷ 0 ∷ 0 ∷ 0 ∷ 2 ∷ 0 ∷ 0 ∷ 0 ∷ 3 ∷ 0 ∷ 0 ∷ 0 ∷ 4 ∷ 0 ∷ 0 ∷ 0 ∷ 8 ∷ 0 ∷ 0 ∷ 0 ∷ []) ∷ [];
        } }
    ensures texts { encoded (Binary false) (Bytes (codes "joe") ∷ Null ∷ Null ∷ Bytes (codes "mark") ∷ [])
        ≡ record {
          length = 4;
          null_count = 2;
          buffers = Some (9 ∷ []) ∷ Some (0 ∷ 0 ∷ 0 ∷ 0 ∷ 3 ∷ 0 ∷ 0 ∷ 0 ∷ 3 ∷ 0 ∷ 0 ∷ 0 ∷ 3 ∷ 0 ∷ 0 ∷ 0 ∷ 7 ∷ 0 ∷ 0 ∷ 0 ∷ []) ∷ Some (codes "joemark") ∷ [];
        } }
{}
