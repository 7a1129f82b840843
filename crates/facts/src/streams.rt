//! Chapter 11: what a tap is shown ("The Arrow C Stream Interface", "The ArrowArrayStream structure").
ghost use Rattle.std.specs.Prelude.{◌≡◌, true, false, [], ◌∷◌, None, Some, codes, drop};
ghost use Rattle.data_types.specs.declared.kind.DataType.TheVariants as kinds;
ghost use Rattle.tree_model.specs.promise.TreeData.{Live, trees, absent, no_trees, present};
ghost use Rattle.stream_face.specs.promise.Calls.{IsMade};
ghost use Rattle.stream_face.specs.promise.Shown.{of_link, rows_of_link, shown_tables};
ghost use Rattle.facts.specs.Streams.{row, seen, shown, two_columns};

/// What is shown of a column of numbers beside one with a dictionary, and what was seen of two links.
pub fn shown_chunks()
    // The names in preorder: the table's, which is empty, that of each column, and none of the dictionary.
    ensures names { (shown 1).names ≡ Some [] ∷ Some (codes "n") ∷ Some (codes "k") ∷ None ∷ [] }
    ensures kinds { (shown 1).kinds
        ≡ Live kinds.Struct (trees (Live (kinds.Int 64 true) no_trees absent ∷ Live (kinds.Int 32 true) no_trees (present (Live (kinds.Utf8 false) no_trees absent)) ∷ [])) absent }
    ensures rows { (shown 1).rows ≡ row 1 ∷ [] }
    ensures tables { shown_tables two_columns ((row 1 ∷ []) ∷ (row 2 ∷ []) ∷ []) ≡ shown 1 ∷ shown 2 ∷ [] }
    ensures no_tables { shown_tables two_columns [] ≡ [] }
    ensures source { of_link 0 seen ≡ shown 1 ∷ shown 2 ∷ [] }
    ensures stage { rows_of_link 1 seen ≡ (row 2 ∷ []) ∷ [] }
    ensures no_link { of_link 2 seen ≡ [] }
    // A stage that drops the first chunk has shown all that it makes of what was seen, and nothing of it before.
    ensures made { IsMade (Some (record { link = 0; makes = drop 1 })) 1 seen }
    ensures begun { IsMade (Some (record { link = 0; makes = λ tables. tables })) 2 seen }
{}
