//! Laws on trees of arrays: what a reader sees of them, and windows on them.
ghost use Rattle.std.specs.Prelude.{◌≡◌, ◌≤◌, ◌<◌, ◌≤ℤ◌, ◌+◌, ◌-◌, ℕ, pos, List, take, drop, length, get_or, ◌++◌};
ghost use Rattle.data_types.specs.promise.Table.{Row};
ghost use Rattle.tree_model.specs.promise.TreeParts.{IsLive, child_at, children_of};
ghost use Rattle.tree_model.specs.promise.TreeData.{Released};
ghost use Rattle.tree_model.specs.Tree.{Depth};
ghost use Rattle.raw_array.specs.promise.Members.{ArrayTree, members_of};
ghost use Rattle.raw_array.specs.Members.{Like, Lowered, LoweredBy, ShareOf};
ghost use Rattle.data_types.specs.promise.KindTrees.{KindTree};
ghost use Rattle.data_types.specs.KindTrees.{NodesOk};
ghost use Rattle.layout_rules.specs.promise.Layout.{end};
ghost use Rattle.layout_rules.specs.promise.Values.{rows_of, tree_items, values_of};
ghost use Rattle.layout_rules.specs.promise.Walk.{ChunkOk, LayoutOk, first_chunk_fault, first_fault};
ghost use Rattle.raw_array.specs.Windows.{FitsWindow, Window};
ghost use Rattle.data_types.specs.ColumnKinds.{table_type};
ghost use Rattle.array_laws.specs.Shown.{SameShown};
ghost use Rattle.array_laws.specs.Pieces.{border, joined_pieces, piece, rows_of_pieces};
ghost use Rattle.layout_rules.specs.promise.Rules.{window_limit};

/// A law: faults, values and rows are those of what a tree shows.
pub fn trees_that_show_the_same()
    ensures fault { (typed : KindTree) (t u : ArrayTree) → SameShown t u → first_fault typed t ≡ first_fault typed u }
    ensures chunk_fault { (typed : KindTree) (t u : ArrayTree) → SameShown t u → first_chunk_fault typed t ≡ first_chunk_fault typed u }
    ensures lawful { (typed : KindTree) (t u : ArrayTree) → SameShown t u → LayoutOk typed t → LayoutOk typed u }
    ensures chunk { (typed : KindTree) (t u : ArrayTree) → SameShown t u → ChunkOk typed t → ChunkOk typed u }
    ensures items { (t u : ArrayTree) → SameShown t u → tree_items t ≡ tree_items u }
    ensures values { (typed : KindTree) (t u : ArrayTree) → SameShown t u → values_of typed t ≡ values_of typed u }
    ensures rows { (typed : KindTree) (t u : ArrayTree) → SameShown t u → rows_of typed t ≡ rows_of typed u }
{}

/// A law: a share shows what its source shows, and so do the source behind one share or more, and any tree that is like it.
pub fn shares_show_the_same()
    ensures share { (t : ArrayTree) → SameShown (ShareOf t) t }
    ensures lowered { (t : ArrayTree) → SameShown (Lowered t) t }
    ensures like { (t u : ArrayTree) → Like t u → SameShown t u }
    ensures lowered_by { (n : ℕ) (t : ArrayTree) → SameShown (LoweredBy n t) t }
{}

/// A law: a window of a lawful array is lawful, and its values are the part ("The Arrow C Data Interface", "offset"); and
/// so it is with the rows of a chunk.
pub fn windows_are_parts()
    ensures lawful { (typed : KindTree) (t : ArrayTree) (off len : ℕ) → off + len ≤ tree_items t → LayoutOk typed t
        → LayoutOk typed (Window t (pos off) (pos len)) }
    ensures values { (typed : KindTree) (t : ArrayTree) (off len : ℕ) → off + len ≤ tree_items t → LayoutOk typed t
        → values_of typed (Window t (pos off) (pos len)) ≡ take len (drop off (values_of typed t)) }
    ensures chunk { (typed : KindTree) (t : ArrayTree) (off len : ℕ) → off + len ≤ tree_items t → ChunkOk typed t
        → ChunkOk typed (Window t (pos off) (pos len)) }
    ensures rows { (typed : KindTree) (t : ArrayTree) (off len : ℕ) → off + len ≤ tree_items t → LayoutOk typed t
        → rows_of typed (Window t (pos off) (pos len)) ≡ take len (drop off (rows_of typed t)) }
    ensures items { (t : ArrayTree) (off len : ℕ) → IsLive t → tree_items (Window t (pos off) (pos len)) ≡ len }
    ensures fits { (typed : KindTree) (t : ArrayTree) (off len : ℕ) → IsLive typed → off + len ≤ tree_items t → LayoutOk typed t
        → FitsWindow t (pos off) (pos len) }
{}

/// A law: windows one behind another have the values and the rows of the window on both.
pub fn windows_join()
    ensures values { (typed : KindTree) (t : ArrayTree) (off a b : ℕ) → off + a + b ≤ tree_items t → LayoutOk typed t
        → values_of typed (Window t (pos off) (pos a)) ++ values_of typed (Window t (pos (off + a)) (pos b))
        ≡ values_of typed (Window t (pos off) (pos (a + b))) }
    ensures rows { (typed : KindTree) (t : ArrayTree) (off a b : ℕ) → off + a + b ≤ tree_items t → LayoutOk typed t
        → rows_of typed (Window t (pos off) (pos a)) ++ rows_of typed (Window t (pos (off + a)) (pos b))
        ≡ rows_of typed (Window t (pos off) (pos (a + b))) }
{}

/// A law: what a lawful struct offers to those that take its columns: each is lawful, and has the items that the struct
/// shows, from the struct's offset on ("Arrow Columnar Format", "Struct Layout").
pub fn lawful_structs_have_columns()
    ensures live { (types : List KindTree) (t : ArrayTree) → LayoutOk (table_type types) t → IsLive t }
    ensures offset { (types : List KindTree) (t : ArrayTree) → LayoutOk (table_type types) t → pos 0 ≤ℤ (members_of t).offset }
    ensures length { (types : List KindTree) (t : ArrayTree) → LayoutOk (table_type types) t → pos 0 ≤ℤ (members_of t).length }
    ensures end { (types : List KindTree) (t : ArrayTree) → LayoutOk (table_type types) t → end (members_of t) ≤ window_limit }
    ensures children { (types : List KindTree) (t : ArrayTree) → LayoutOk (table_type types) t → length (children_of t) ≡ length types }
    ensures column { (types : List KindTree) (t : ArrayTree) (p : ℕ) → p < length types → LayoutOk (table_type types) t
        → LayoutOk (get_or types p Released) (child_at t p) }
    ensures column_live { (types : List KindTree) (t : ArrayTree) (p : ℕ) → p < length types → IsLive (get_or types p Released)
        → LayoutOk (table_type types) t → IsLive (child_at t p) }
    ensures column_long { (types : List KindTree) (t : ArrayTree) (p : ℕ) → p < length types → IsLive (get_or types p Released)
        → LayoutOk (table_type types) t → end (members_of t) ≤ tree_items (child_at t p) }
{}

/// A law: a lawful array is no deeper than its type.
pub fn lawful_arrays_are_not_deep()
    ensures { (typed : KindTree) (t : ArrayTree) → NodesOk typed → LayoutOk typed t → Depth t ≤ Depth typed }
{}

/// A law: a worker's window on its share of a chunk, of which k shares were made before, is a chunk with the part of the
/// rows.
pub fn pieces_of_shares()
    ensures fits { (typed : KindTree) (k : ℕ) (t : ArrayTree) (off len : ℕ) → IsLive typed → off + len ≤ tree_items t → LayoutOk typed t
        → FitsWindow (ShareOf (LoweredBy k t)) (pos off) (pos len) }
    ensures chunk { (typed : KindTree) (k : ℕ) (t : ArrayTree) (off len : ℕ) → off + len ≤ tree_items t → ChunkOk typed t
        → ChunkOk typed (Window (ShareOf (LoweredBy k t)) (pos off) (pos len)) }
    ensures rows { (typed : KindTree) (k : ℕ) (t : ArrayTree) (off len : ℕ) → off + len ≤ tree_items t → LayoutOk typed t
        → rows_of typed (Window (ShareOf (LoweredBy k t)) (pos off) (pos len)) ≡ take len (drop off (rows_of typed t)) }
{}

/// A law: the borders of workers' pieces lie within the items, and the pieces of a list, joined, are the list.
pub fn pieces_are_the_whole()
    ensures fit { (items workers w : ℕ) → w < workers
        → border items workers w + (border items workers (w + 1) - border items workers w) ≤ items }
    ensures rows { (rows : List Row) (workers : ℕ) → 0 < workers
        → joined_pieces (border (length rows) workers) rows workers ≡ rows }
{}

/// A law: each worker's piece of a chunk is a chunk, and the rows of the pieces, joined, are those of the chunk.
pub fn workers_read_the_whole()
    ensures chunk { (typed : KindTree) (t : ArrayTree) (workers w : ℕ) → w < workers → ChunkOk typed t → ChunkOk typed (piece t workers w) }
    ensures rows { (typed : KindTree) (t : ArrayTree) (workers : ℕ) → 0 < workers → LayoutOk typed t
        → rows_of_pieces typed t workers workers ≡ rows_of typed t }
{}
