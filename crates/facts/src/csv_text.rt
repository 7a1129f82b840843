//! Chapter 02: the records of a text, its header, its rows, and the text of a table (RFC 4180, section 2).
ghost use Rattle.std.specs.Prelude.{◌≡◌, ◌∷◌, ◌++◌, [], codes, true, false, Ok, Err, Some, replicate};
ghost use Rattle.facts.specs.Csv.{echo, NoHeader, Refused, Text, asks, column, read_columns};
ghost use Rattle.data_types.specs.declared.row_fault.RowFault.TheVariants as row;
ghost use Rattle.data_types.specs.declared.kind.DataType.TheVariants as kinds;
ghost use Rattle.csv_model.specs.promise.Header.{first_twice, header_fault};
ghost use Rattle.csv_model.specs.declared.fault.HeaderFault.TheVariants as faults;
ghost use Rattle.csv_model.specs.promise.Made.{made, made_row};
ghost use Rattle.csv_model.specs.promise.Reading.{records_of};
ghost use Rattle.csv_model.specs.Text.{header_text};

/// Texts on which the definitions are computed.
pub fn csv_texts()
    ensures null_field { echo [] (codes "a,b\n1,\n") ≡ Text (codes "a,b\n1,\n") }
    ensures null_alone { echo [] (codes "x\n\"\"\n") ≡ Text (codes "x\n\"\"\n") }
    ensures header_alone { echo [] (codes "a,b\n") ≡ Text (codes "a,b\n") }
    ensures no_header { echo [] [] ≡ NoHeader }
    ensures not_text { echo [] (codes "a\ncaf" ++ 0xff ∷ 10 ∷ []) ≡ Refused (row.Field 1 1) }
    ensures ragged { echo [] (codes "a,b\n1\n") ≡ Refused (row.Ragged 1 1) }
    ensures marked { echo (codes "NA") (codes "a,b\nNA,\n") ≡ Text (codes "a,b\nNA,\n") }
    ensures unmarked_alone { echo (codes "NA") (codes "x\n\"\"\nNA\n") ≡ Text (codes "x\n\"\"\nNA\n") }
    ensures mark_and_quotes { echo [] (0xef ∷ 0xbb ∷ 0xbf ∷ codes "a\r\n\"x,y\"\r\n") ≡ Text (codes "a\n\"x,y\"\n") }
{}

/// Headers as the definitions read them, with the entries that ask for types.
pub fn headers()
    ensures no_record { read_columns [] [] ≡ Err faults.NoHeader }
    ensures blank_lines { read_columns [] (codes "\n\r\n") ≡ Err faults.NoHeader }
    ensures all_text { read_columns [] (codes "a,b\n1,2\n") ≡ Ok (column (codes "a") (kinds.Utf8 false) ∷ column (codes "b") (kinds.Utf8 false) ∷ []) }
    ensures asked { read_columns (asks (codes "b") (kinds.Int 64 true) ∷ []) (codes "a,b\n")
        ≡ Ok (column (codes "a") (kinds.Utf8 false) ∷ column (codes "b") (kinds.Int 64 true) ∷ []) }
    ensures first_asked { read_columns (asks (codes "a") kinds.Bool ∷ asks (codes "a") kinds.DateDay ∷ []) (codes "a\n")
        ≡ Ok (column (codes "a") kinds.Bool ∷ []) }
    ensures not_text { read_columns [] (codes "a,caf" ++ 0xff ∷ codes ",a\n") ≡ Err (faults.NotText 2) }
    ensures twice { read_columns [] (codes "a,a\n") ≡ Err (faults.Twice 2) }
    ensures first_twice { read_columns [] (codes "a,b,b,a\n") ≡ Err (faults.Twice 3) }
    ensures empty_names { read_columns [] (codes ",\n") ≡ Err (faults.Twice 2) }
    ensures unknown { read_columns (asks (codes "q") (kinds.Int 64 true) ∷ []) (codes "a,b\n") ≡ Err (faults.Unknown 1) }
    ensures second_unknown { read_columns (asks (codes "b") kinds.Bool ∷ asks (codes "q") kinds.Bool ∷ asks (codes "r") kinds.Bool ∷ []) (codes "a,b\n")
        ≡ Err (faults.Unknown 2) }
    ensures twice_before_unknown { read_columns (asks (codes "q") kinds.Bool ∷ []) (codes "a,a\n") ≡ Err (faults.Twice 2) }
    ensures most { header_fault [] (replicate 1024 []) ≡ Some (faults.Twice 2) }
    ensures too_many { header_fault [] (replicate 1025 []) ≡ Some (faults.TooManyColumns 1025) }
{}

/// A law: what the definitions say of small numbers.
pub fn made_texts()
    ensures none { made 0 ≡ codes "id,name,amount,paid\n" }
    ensures one { made 1 ≡ codes "id,name,amount,paid\n1,item1,1.25,true\n" }
    ensures two { made 2 ≡ codes "id,name,amount,paid\n1,item1,1.25,true\n2,item2,2.25,false\n" }
    ensures tenth { made_row 10 ≡ codes "10,item0,10.25,false\n" }
{}

/// Records by the rules of RFC 4180, section 2.
pub fn rfc_4180()
    ensures lines { records_of (codes "aaa,bbb,ccc\r\nzzz,yyy,xxx\r\n") ≡ (codes "aaa" ∷ codes "bbb" ∷ codes "ccc" ∷ []) ∷ (codes "zzz" ∷ codes "yyy" ∷ codes "xxx" ∷ []) ∷ [] }
    ensures no_last_end { records_of (codes "aaa,bbb,ccc\r\nzzz,yyy,xxx") ≡ (codes "aaa" ∷ codes "bbb" ∷ codes "ccc" ∷ []) ∷ (codes "zzz" ∷ codes "yyy" ∷ codes "xxx" ∷ []) ∷ [] }
    ensures blanks { records_of (codes "aaa, b ,ccc\r\n") ≡ (codes "aaa" ∷ codes " b " ∷ codes "ccc" ∷ []) ∷ [] }
    ensures quotes { records_of (codes "\"aaa\",\"bbb\",\"ccc\"\r\nzzz\r\n") ≡ (codes "aaa" ∷ codes "bbb" ∷ codes "ccc" ∷ []) ∷ (codes "zzz" ∷ []) ∷ [] }
    ensures line_within { records_of (codes "\"aaa\",\"b\r\nbb\",\"ccc\"\r\n") ≡ (codes "aaa" ∷ codes "b\r\nbb" ∷ codes "ccc" ∷ []) ∷ [] }
    ensures doubled { records_of (codes "\"aaa\",\"b\"\"bb\",\"ccc\"") ≡ (codes "aaa" ∷ codes "b\"bb" ∷ codes "ccc" ∷ []) ∷ [] }
    ensures comma_written { header_text (column (codes "a,b") (kinds.Utf8 false) ∷ column (codes "c") (kinds.Utf8 false) ∷ []) ≡ codes "\"a,b\",c\n" }
    ensures quote_written { header_text (column (codes "b\"bb") (kinds.Utf8 false) ∷ []) ≡ codes "\"b\"\"bb\"\n" }
    ensures line_written { header_text (column (codes "b\r\nbb") (kinds.Utf8 false) ∷ []) ≡ codes "\"b\r\nbb\"\n" }
{}
