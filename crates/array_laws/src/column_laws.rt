//! Laws on the columns of trees: picked, packed, unpacked and replaced.
ghost use Rattle.std.specs.Prelude.{◌≡◌, ◌≤◌, ◌<◌, ◌+◌, ℕ, List, map, length, get_or, All, ◌++◌};
ghost use Rattle.data_types.specs.promise.ColumnView.{members};
ghost use Rattle.data_types.specs.promise.Parts.{member_columns, picked, replaced};
ghost use Rattle.data_types.specs.Parts.{packed, packed_columns, unpacked, unpacked_columns, AreWithin, IsFields};
ghost use Rattle.data_types.specs.promise.Table.{Column, Columns as StructOf, Members};
ghost use Rattle.data_types.specs.promise.Value.{Null};
ghost use Rattle.tree_model.specs.promise.TreeParts.{IsLive};
ghost use Rattle.tree_model.specs.promise.TreeData.{Released};
ghost use Rattle.tree_model.specs.Tree.{Depth};
ghost use Rattle.raw_array.specs.promise.Members.{ArrayTree, Cost};
ghost use Rattle.data_types.specs.promise.KindTrees.{KindTree};
ghost use Rattle.data_types.specs.KindTrees.{NodesOk};
ghost use Rattle.layout_rules.specs.promise.Values.{rows_of, tree_items, values_of};
ghost use Rattle.layout_rules.specs.promise.Walk.{ChunkOk, LayoutOk};
ghost use Rattle.arr_move.specs.TreeActs.{Columns, Distinct, FitParentWindow, InRange};
ghost use Rattle.data_types.specs.promise.ColumnKinds.{type_of_columns, type_of_kind};
ghost use Rattle.data_types.specs.ColumnKinds.{table_type, types_of_columns};
ghost use Rattle.array_laws.specs.Picking.{AreLive, Packed, Replaced, Unpacked, packed_types, unpacked_types};

/// A law: columns of a lawful struct can be taken: each pick is the place of a child, which has the items of the struct's
/// window.
pub fn columns_can_be_taken()
    ensures range { (types : List KindTree) (t : ArrayTree) (picks : List ℕ) → LayoutOk (table_type types) t → AreWithin (length types) picks
        → InRange t picks }
    ensures fit { (types : List KindTree) (t : ArrayTree) (picks : List ℕ) → AreLive types → LayoutOk (table_type types) t
        → AreWithin (length types) picks → FitParentWindow t picks }
{}

/// A law: picked columns of a lawful struct make a chunk, and its rows are the picked items of the struct's rows.
pub fn picked_columns_make_a_chunk()
    ensures chunk { (types : List KindTree) (t : ArrayTree) (picks : List ℕ) → AreLive types → LayoutOk (table_type types) t
        → AreWithin (length types) picks
        → ChunkOk (table_type (picked Released picks types)) (Columns t picks) }
    ensures rows { (types : List KindTree) (t : ArrayTree) (picks : List ℕ) → AreLive types → LayoutOk (table_type types) t
        → AreWithin (length types) picks
        → rows_of (table_type (picked Released picks types)) (Columns t picks) ≡ map (picked Null picks) (rows_of (table_type types) t) }
{}

/// A law: columns under a new struct behind the others make a chunk, whose rows have these items packed.
pub fn packed_columns_make_a_chunk()
    ensures chunk { (types : List KindTree) (t : ArrayTree) (rest picks : List ℕ) → AreLive types → LayoutOk (table_type types) t
        → AreWithin (length types) rest → AreWithin (length types) picks
        → ChunkOk (table_type (packed_types rest picks types)) (Packed t rest picks) }
    ensures rows { (types : List KindTree) (t : ArrayTree) (rest picks : List ℕ) → AreLive types → LayoutOk (table_type types) t
        → AreWithin (length types) rest → AreWithin (length types) picks
        → rows_of (table_type (packed_types rest picks types)) (Packed t rest picks) ≡ map (packed rest picks) (rows_of (table_type types) t) }
{}

/// A law: a struct's columns in its place make a chunk, and its rows have the struct's items unpacked, where no item of
/// the struct is null.
pub fn unpacked_columns_make_a_chunk()
    ensures chunk { (types fields : List KindTree) (t : ArrayTree) (place : ℕ) → AreLive types → AreLive fields
        → LayoutOk (table_type types) t → place < length types → get_or types place Released ≡ table_type fields
        → ChunkOk (table_type (unpacked_types place fields types)) (Unpacked t place) }
    ensures rows { (types fields : List KindTree) (t : ArrayTree) (place : ℕ) → AreLive types → AreLive fields
        → LayoutOk (table_type types) t → place < length types → get_or types place Released ≡ table_type fields
        → All (λ row. IsFields (get_or row place Null)) (rows_of (table_type types) t)
        → rows_of (table_type (unpacked_types place fields types)) (Unpacked t place) ≡ map (unpacked place) (rows_of (table_type types) t) }
{}

/// A law: another lawful column in the place of one makes a chunk, and where it has the same values the rows are the same.
pub fn replaced_columns_make_a_chunk()
    ensures chunk { (types : List KindTree) (t : ArrayTree) (place : ℕ) (type : KindTree) (column : ArrayTree) → AreLive types
        → LayoutOk (table_type types) t → IsLive type → LayoutOk type column → tree_items t ≤ tree_items column
        → ChunkOk (table_type (replaced place type types)) (Replaced t place column) }
    ensures rows { (types : List KindTree) (t : ArrayTree) (place : ℕ) (type : KindTree) (column : ArrayTree) → AreLive types
        → LayoutOk (table_type types) t → IsLive type → LayoutOk type column → place < length types
        → values_of type column ≡ map (λ row. get_or row place Null) (rows_of (table_type types) t)
        → rows_of (table_type (replaced place type types)) (Replaced t place column) ≡ rows_of (table_type types) t }
{}

/// A law: picked columns cost no more than the struct that they are taken of, packed ones one node more, and unpacked
/// ones no more.
pub fn taken_columns_cost_no_more()
    ensures picked { (t : ArrayTree) (picks : List ℕ) → IsLive t → Distinct picks → Cost (Columns t picks) ≤ Cost t }
    ensures packed { (t : ArrayTree) (rest picks : List ℕ) → IsLive t → Distinct (rest ++ picks) → Cost (Packed t rest picks) ≤ Cost t + 1 }
    ensures unpacked { (t : ArrayTree) (place : ℕ) → IsLive t → Cost (Unpacked t place) ≤ Cost t }
{}

/// A law: picked and unpacked columns are no deeper than the struct that they are taken of, and packed ones at most one
/// level.
pub fn taken_columns_are_no_deeper()
    ensures picked { (t : ArrayTree) (picks : List ℕ) → IsLive t → Depth (Columns t picks) ≤ Depth t }
    ensures packed { (t : ArrayTree) (rest picks : List ℕ) → IsLive t → Depth (Packed t rest picks) ≤ Depth t + 1 }
    ensures unpacked { (t : ArrayTree) (place : ℕ) → IsLive t → Depth (Unpacked t place) ≤ Depth t }
{}

/// A law: the types of a table's columns, and those below a struct's type that is in order, are live; they follow picks,
/// and those of a struct are those of its columns.
pub fn column_types_follow_picks()
    ensures live { (columns : List Column) → AreLive (types_of_columns columns) }
    ensures checked { (types : List KindTree) → NodesOk (table_type types) → AreLive types }
    ensures picked { (columns : List Column) (none : Column) (picks : List ℕ) → AreWithin (length columns) picks
        → types_of_columns (picked none picks columns) ≡ picked Released picks (types_of_columns columns) }
    ensures packed { (columns : List Column) → type_of_kind (StructOf (members columns)) ≡ table_type (types_of_columns columns) }
    ensures unpacked { (fields : Members) → type_of_kind (StructOf fields) ≡ table_type (types_of_columns (member_columns fields)) }
{}

/// A law: what select, pack and unpack make of a chunk of a table, by the table's columns.
pub fn columns_of_a_table()
    ensures select_range { (columns : List Column) (t : ArrayTree) (picks : List ℕ) → ChunkOk (type_of_columns columns) t
        → AreWithin (length columns) picks → InRange t picks }
    ensures select_fits { (columns : List Column) (t : ArrayTree) (picks : List ℕ) → ChunkOk (type_of_columns columns) t
        → AreWithin (length columns) picks → FitParentWindow t picks }
    ensures select { (columns : List Column) (none : Column) (t : ArrayTree) (picks : List ℕ) → ChunkOk (type_of_columns columns) t
        → AreWithin (length columns) picks
        → ChunkOk (type_of_columns (picked none picks columns)) (Columns t picks) }
    ensures select_rows { (columns : List Column) (none : Column) (t : ArrayTree) (picks : List ℕ) → ChunkOk (type_of_columns columns) t
        → AreWithin (length columns) picks
        → rows_of (type_of_columns (picked none picks columns)) (Columns t picks) ≡ map (picked Null picks) (rows_of (type_of_columns columns) t) }
    ensures pack { (columns : List Column) (none : Column) (name : List ℕ) (t : ArrayTree) (rest picks : List ℕ)
        → ChunkOk (type_of_columns columns) t → AreWithin (length columns) rest → AreWithin (length columns) picks
        → ChunkOk (type_of_columns (packed_columns none name rest picks columns)) (Packed t rest picks) }
    ensures pack_rows { (columns : List Column) (none : Column) (name : List ℕ) (t : ArrayTree) (rest picks : List ℕ)
        → ChunkOk (type_of_columns columns) t → AreWithin (length columns) rest → AreWithin (length columns) picks
        → rows_of (type_of_columns (packed_columns none name rest picks columns)) (Packed t rest picks)
        ≡ map (packed rest picks) (rows_of (type_of_columns columns) t) }
    ensures unpack { (columns : List Column) (none : Column) (t : ArrayTree) (place : ℕ) (fields : Members)
        → ChunkOk (type_of_columns columns) t → place < length columns → (get_or columns place none).kind ≡ StructOf fields
        → ChunkOk (type_of_columns (unpacked_columns place fields columns)) (Unpacked t place) }
    ensures unpack_rows { (columns : List Column) (none : Column) (t : ArrayTree) (place : ℕ) (fields : Members)
        → ChunkOk (type_of_columns columns) t → place < length columns → (get_or columns place none).kind ≡ StructOf fields
        → All (λ row. IsFields (get_or row place Null)) (rows_of (type_of_columns columns) t)
        → rows_of (type_of_columns (unpacked_columns place fields columns)) (Unpacked t place)
        ≡ map (unpacked place) (rows_of (type_of_columns columns) t) }
{}
