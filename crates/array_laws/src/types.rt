//! The trees of flat types.
ghost use Rattle.std.specs.Prelude.{◌≡◌, None};
ghost use Rattle.data_types.specs.ColumnForms.{HasForm};
ghost use Rattle.data_types.specs.promise.FieldText.{form_of};
ghost use Rattle.data_types.specs.promise.Table.{Flat};
ghost use Rattle.tree_model.specs.promise.TreeParts.{dictionary_of};
ghost use Rattle.data_types.specs.promise.ColumnKinds.{type_of_kind};
ghost use Rattle.data_types.specs.promise.KindTrees.{KindTree, kind_in};
ghost use Rattle.data_types.specs.KindTrees.{TypedOk};

/// A law: a flat type has no children, so that its tree, where it has no dictionary either, is its kind alone.
pub fn flat_types_have_no_children()
    ensures { (typed : KindTree) → TypedOk typed → HasForm (form_of (kind_in typed)) → dictionary_of typed ≡ None → typed ≡ type_of_kind (Flat (kind_in typed)) }
{}
