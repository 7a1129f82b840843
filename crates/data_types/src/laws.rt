//! What the kinds of a schema are to their reader, as a law over the definitions. The call does nothing.
ghost use Rattle.std.specs.Prelude.{◌≡◌};
ghost use Rattle.tree_model.specs.promise.TreeData.{Live, trees, maybe_tree};
ghost use Rattle.data_types.specs.declared.typed.Typed.{out-Typed};
ghost use Rattle.data_types.specs.promise.TypedView.{typed_of};
ghost use Rattle.data_types.specs.TypedView.{kind_of, kids_of, dict_in};

use crate::typed::Typed;

/// A law: the tree of a [`Typed`] is its kind, and below it the trees of its kids and of its dictionary.
#[tactic(auto, using(crate::proofs::Levels::one_level))]
pub fn kinds_of_typed(typed: &Typed)
    ensures { typed_of typed.now ≡ Live (kind_of typed.now) (trees (kids_of typed.now)) (maybe_tree (dict_in (out-Typed typed.now).dict)) }
{}
