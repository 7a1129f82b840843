//! Chapter 13: rows with lists, spread out and grouped ("Arrow Columnar Format", "Variable-size List Layout").
ghost use Rattle.std.specs.Prelude.{◌≡◌, pos, true, false, [], ◌∷◌, None, Some, codes};
ghost use Rattle.data_types.specs.declared.kind.DataType.TheVariants as kinds;
ghost use Rattle.data_types.specs.ColumnKinds.{table_type};
ghost use Rattle.data_types.specs.promise.Value.{Null, Whole, Bytes, Items, values};
ghost use Rattle.list_cols.specs.declared.fault.ListFault.TheVariants.{WrongKind};
ghost use Rattle.list_cols.specs.promise.Faults.{explode_fault};
ghost use Rattle.list_cols.specs.ListTrees.{list_offsets};
ghost use Rattle.list_cols.specs.promise.NestFaults.{nest_fault};
ghost use Rattle.list_cols.specs.promise.Nested.{Explode, Nest};
ghost use Rattle.tree_top.specs.declared.fault.TreeRunFault.TheVariants as run;
ghost use Rattle.tree_top.specs.promise.ListsAnswer.{column_fault};
ghost use Rattle.facts.specs.Lists.{flat_types, keyed, keyed_lists, list_types, text};

/// Rows of a text and a list, and of a text and a number.
pub fn list_rows()
    ensures spread { Explode 1 keyed_lists ≡ (text (codes "x") ∷ Whole (pos 1) ∷ []) ∷ (text (codes "x") ∷ Null ∷ []) ∷ (text (codes "w") ∷ Whole (pos 2) ∷ []) ∷ [] }
    ensures spread_none { Explode 1 ((text (codes "y") ∷ Null ∷ []) ∷ (text (codes "z") ∷ Items (values []) ∷ []) ∷ []) ≡ [] }
    ensures grouped { Nest 2 0 keyed ≡ (text (codes "x") ∷ Items (values (Whole (pos 1) ∷ Whole (pos 3) ∷ [])) ∷ []) ∷ (text (codes "y") ∷ Items (values (Null ∷ [])) ∷ []) ∷ [] }
    ensures grouped_by_numbers { Nest 2 1 keyed
        ≡ (Items (values (text (codes "x") ∷ [])) ∷ Whole (pos 1) ∷ []) ∷ (Items (values (text (codes "y") ∷ [])) ∷ Null ∷ []) ∷ (Items (values (text (codes "x") ∷ [])) ∷ Whole (pos 3) ∷ []) ∷ [] }
    ensures nothing_grouped { Nest 2 0 [] ≡ [] }
    ensures spread_lists { explode_fault 1 (table_type list_types) keyed_lists ≡ None }
    ensures no_list { explode_fault 0 (table_type flat_types) keyed ≡ Some (WrongKind 0) }
    ensures other_list { explode_fault 0 (table_type list_types) keyed_lists ≡ Some (WrongKind 0) }
    ensures flat { nest_fault 0 (table_type flat_types) keyed ≡ None }
    ensures list { nest_fault 0 (table_type list_types) keyed_lists ≡ Some (WrongKind 1) }
    ensures last_column { column_fault 1 2 ≡ None }
    ensures past_the_columns { column_fault 2 2 ≡ Some (run.Column 2) }
    ensures too_many_columns { column_fault 2000 1025 ≡ Some (run.TooManyColumns 1025) }
    // The offsets that the standard has of lists of 3, 0, 4 and 0 items.
    ensures offsets { list_offsets (3 ∷ 0 ∷ 4 ∷ 0 ∷ []) ≡ 0 ∷ 0 ∷ 0 ∷ 0 ∷ 3 ∷ 0 ∷ 0 ∷ 0 ∷ 3 ∷ 0 ∷ 0 ∷ 0 ∷ 7 ∷ 0 ∷ 0 ∷ 0 ∷ 7 ∷ 0 ∷ 0 ∷ 0 ∷ [] }
{}
