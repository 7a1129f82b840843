//! Chapter 14: windows, shares and pieces of a chunk, picked columns, arrays that are made, and groups of values.
ghost use Rattle.std.specs.Prelude.{◌≡◌, [], ◌∷◌, None, pos, negsuc, true, false, map, Some, codes, ◌^◌};
ghost use Rattle.data_types.specs.promise.Value.{Null, Whole, Bytes, Bits};
ghost use Rattle.raw_array.specs.Members.{Lowered, LoweredBy, ShareOf};
ghost use Rattle.raw_array.specs.Windows.{Window};
ghost use Rattle.layout_rules.specs.promise.Values.{values_of, rows_of};
ghost use Rattle.layout_rules.specs.promise.Walk.{first_fault};
ghost use Rattle.facts.specs.Chunks.{HasRows, chunk, hello, hi, n, text_views, texts, three, types, shorts};
ghost use Rattle.array_laws.specs.Pieces.{rows_of_pieces};
ghost use Rattle.data_types.specs.ColumnKinds.{table_type};
ghost use Rattle.data_types.specs.promise.Parts.{picked};
ghost use Rattle.tree_model.specs.promise.TreeData.{Released, Live, absent, no_trees, more_trees};
ghost use Rattle.arr_move.specs.TreeActs.{Columns};
ghost use Rattle.facts.specs.Columns.{held, holed, holed_types, one_held, pack, types_packed};
ghost use Rattle.array_laws.specs.Picking.{Replaced, Unpacked, unpacked_types};
ghost use Rattle.data_types.specs.declared.kind.DataType.TheVariants.{Int, Utf8};
ghost use Rattle.raw_array.specs.declared.array.ReleaseKind.TheVariants.{Assembled, Exported};
ghost use Rattle.arr_export.specs.promise.ArrayTrees.{column_tree, table_tree};
ghost use Rattle.arr_export.specs.ArrayTrees.{looked_up, rows_of_values};
ghost use Rattle.data_types.specs.promise.Groups.{distinct};
ghost use Rattle.data_types.specs.Groups.{firsts_of, offsets_of, order_of};

/// A chunk, its windows and its shares, and windows on a column of views.
pub fn windows()
    ensures chunk { HasRows types chunk (three (n 2) (n 20) Null ∷ three (n 3) Null hello ∷ three (n 4) (n 40) hi ∷ []) }
    ensures window { HasRows types (Window chunk (pos 1) (pos 2)) (three (n 3) Null hello ∷ three (n 4) (n 40) hi ∷ []) }
    ensures views { values_of text_views (Window texts (pos 2) (pos 3)) ≡ hello ∷ hi ∷ hello ∷ [] }
    ensures views_are_lawful { first_fault text_views (Window texts (pos 2) (pos 3)) ≡ None }
    ensures share { HasRows types (ShareOf (Lowered chunk)) (three (n 2) (n 20) Null ∷ three (n 3) Null hello ∷ three (n 4) (n 40) hi ∷ []) }
    ensures piece { HasRows types (Window (ShareOf (LoweredBy 3 chunk)) (pos 2) (pos 1)) (three (n 4) (n 40) hi ∷ []) }
    ensures pieces { rows_of_pieces (table_type types) chunk 2 2 ≡ three (n 2) (n 20) Null ∷ three (n 3) Null hello ∷ three (n 4) (n 40) hi ∷ [] }
    ensures nothing { HasRows types (Window chunk (pos 3) (pos 0)) [] }
{}

/// Columns of a chunk, and a struct with a null, which unpacks to its child's items though the row has none.
pub fn picked_columns()
    ensures picked { HasRows (picked Released (2 ∷ 0 ∷ 2 ∷ []) types) (Columns chunk (2 ∷ 0 ∷ 2 ∷ []))
        (three Null (n 2) Null ∷ three hello (n 3) hello ∷ three hi (n 4) hi ∷ []) }
    ensures packed { HasRows types_packed pack
        ((n 20 ∷ held Null (n 2) ∷ []) ∷ (Null ∷ held hello (n 3) ∷ []) ∷ (n 40 ∷ held hi (n 4) ∷ []) ∷ []) }
    ensures unpacked { HasRows (unpacked_types 1 (picked Released (2 ∷ 0 ∷ []) types) types_packed) (Unpacked pack 1)
        (three (n 20) Null (n 2) ∷ three Null hello (n 3) ∷ three (n 40) hi (n 4) ∷ []) }
    ensures replaced { HasRows (picked Released (0 ∷ 0 ∷ 2 ∷ []) types) (Replaced chunk 1 shorts)
        (three (n 2) (n 1) Null ∷ three (n 3) (n 2) hello ∷ three (n 4) (n 3) hi ∷ []) }
    ensures null_struct { HasRows (unpacked_types 0 (picked Released (0 ∷ []) types) holed_types) (Unpacked holed 0)
        ((n 1 ∷ []) ∷ (n 2 ∷ []) ∷ []) }
    ensures null_row { rows_of (table_type holed_types) holed ≡ (one_held 1 ∷ []) ∷ (Null ∷ []) ∷ [] }
{}

/// A column of numbers with a null, one of no texts, a table of one row over it, what indices look up, and the rows of two
/// columns of which the second is longer.
pub fn made_arrays()
    ensures numbers { column_tree (Int 16 true) (Whole (pos 513) ∷ Null ∷ Whole (negsuc 0) ∷ []) None
        ≡ Live (record {
          length = pos 3;
          null_count = pos 1;
          offset = pos 0;
          buffers = Some (record { bytes = 5 ∷ []; amount = 4294967296 }) ∷ Some (record { bytes = 1 ∷ 2 ∷ 0 ∷ 0 ∷ 255 ∷ 255 ∷ []; amount = 4294967296 }) ∷ [];
          kind = Exported;
        }) no_trees absent }
    ensures no_texts { column_tree (Utf8 false) [] None ≡ Live (record {
      length = pos 0;
      null_count = pos 0;
      offset = pos 0;
      buffers = None ∷ Some (record { bytes = 0 ∷ 0 ∷ 0 ∷ 0 ∷ []; amount = 4294967296 }) ∷ None ∷ [];
      kind = Exported;
    }) no_trees absent }
    ensures table { table_tree 1 (column_tree (Int 8 true) (Whole (pos 7) ∷ []) None ∷ [])
        ≡ Live (record { length = pos 1; null_count = pos 0; offset = pos 0; buffers = None ∷ []; kind = Assembled })
        (more_trees (Live (record {
          length = pos 1;
          null_count = pos 0;
          offset = pos 0;
          buffers = None ∷ Some (record { bytes = 7 ∷ []; amount = 4294967296 }) ∷ [];
          kind = Exported;
        }) no_trees absent) no_trees) absent }
    ensures indices { map (looked_up (Bytes (codes "a") ∷ Null ∷ Bytes (codes "b") ∷ [])) (Whole (pos 2) ∷ Null ∷ Whole (pos 0) ∷ Whole (pos 1) ∷ [])
        ≡ Bytes (codes "b") ∷ Null ∷ Bytes (codes "a") ∷ Null ∷ [] }
    ensures rows { rows_of_values ((Whole (pos 1) ∷ Null ∷ []) ∷ (Bytes (codes "a") ∷ Bytes (codes "b") ∷ Bytes (codes "c") ∷ []) ∷ []) 2
        ≡ (Whole (pos 1) ∷ Bytes (codes "a") ∷ []) ∷ (Null ∷ Bytes (codes "b") ∷ []) ∷ [] }
{}

/// What the definitions say of few values: which are distinct, and where they are.
pub fn groups()
    // x, y, x.
    ensures distinct { distinct (Bytes (codes "x") ∷ Bytes (codes "y") ∷ Bytes (codes "x") ∷ []) ≡ Bytes (codes "x") ∷ Bytes (codes "y") ∷ [] }
    ensures firsts { firsts_of (Bytes (codes "x") ∷ Bytes (codes "y") ∷ Bytes (codes "x") ∷ []) ≡ 0 ∷ 1 ∷ [] }
    ensures order { order_of (Bytes (codes "x") ∷ Bytes (codes "y") ∷ Bytes (codes "x") ∷ []) ≡ 0 ∷ 2 ∷ 1 ∷ [] }
    ensures offsets { offsets_of (Bytes (codes "x") ∷ Bytes (codes "y") ∷ Bytes (codes "x") ∷ []) ≡ 0 ∷ 2 ∷ 3 ∷ [] }
    // A null is a value, and no empty text; the order is that of first appearance.
    ensures nulls { distinct (Bytes (codes "y") ∷ Null ∷ Bytes [] ∷ Bytes (codes "x") ∷ Null ∷ []) ≡ Bytes (codes "y") ∷ Null ∷ Bytes [] ∷ Bytes (codes "x") ∷ [] }
    ensures nulls_order { order_of (Bytes (codes "y") ∷ Null ∷ Bytes [] ∷ Bytes (codes "x") ∷ Null ∷ []) ≡ 0 ∷ 1 ∷ 4 ∷ 2 ∷ 3 ∷ [] }
    // The two zeros of floats have other bits.
    ensures zeros { distinct (Bits 0 ∷ Bits (2 ^ 63) ∷ Bits 0 ∷ []) ≡ Bits 0 ∷ Bits (2 ^ 63) ∷ [] }
    // No values are in no group.
    ensures none { offsets_of [] ≡ 0 ∷ [] }
{}
