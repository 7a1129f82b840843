//! The values of a lawful array.
ghost use Rattle.std.specs.Prelude.{◌≡◌, ◌+◌, ◌<◌, ◌≤◌, ℕ, List, [], length, map, true, None, All};
ghost use Rattle.data_types.specs.promise.FieldText.{form_of};
ghost use Rattle.data_types.specs.promise.Table.{Flat};
ghost use Rattle.data_types.specs.promise.Value.{Value};
ghost use Rattle.data_types.specs.declared.kind.DataType.{DataType};
ghost use Rattle.col_build.specs.promise.Encoding.{are_within, is_wide};
ghost use Rattle.data_types.specs.promise.Value.{byte_total};
ghost use Rattle.col_build.specs.Encoding.{Fits, HasForm, are_bounded, push_fault};
ghost use Rattle.data_types.specs.promise.ColumnKinds.{type_of_kind};
ghost use Rattle.data_types.specs.KindTrees.{TypedOk};
ghost use Rattle.data_types.specs.promise.TypedView.{typed_of};
ghost use Rattle.layout_rules.specs.promise.Values.{tree_items, value_at, values_of};
ghost use Rattle.layout_rules.specs.promise.Walk.{LayoutOk};
ghost use Rattle.array_laws.specs.Items.{AreApart, IsItemOf};
ghost use Rattle.layout_rules.specs.promise.Rules.{window_limit};

use crate::stored::numbers_of_bytes;
use data_types::Typed;
use layout_rules::{lawful_root, lawful_trees};
use raw_array::RawArray;

/// A law: the values of a lawful array of a flat type without a dictionary have an encoding, and so has each item. So has any list of
/// its items and of nulls, each as often as it may be, whose bytes offsets reach (`items`): of these, that is what the caller has to
/// see to. Where they have no more bytes than the array's values, offsets reach them (`fewer`), and so they do where they are taken
/// once each, by numbers that are counted from an item on (`once`).
///
/// The call looks up one buffer, and does nothing else.
pub fn lawful_values_fit(typed: &Typed, array: &RawArray)
    requires types { TypedOk (typed_of typed.now) }
    requires lawful { LayoutOk (typed_of typed.now) array.now }
    ensures each { (kind : DataType) (i : ℕ) → typed_of typed.now ≡ type_of_kind (Flat kind) → HasForm (form_of kind) → i < tree_items array.now
        → push_fault kind [] (value_at (typed_of typed.now) array.now i) ≡ None }
    ensures whole { (kind : DataType) → typed_of typed.now ≡ type_of_kind (Flat kind) → HasForm (form_of kind)
        → Fits kind (values_of (typed_of typed.now) array.now) }
    ensures items { (kind : DataType) (values : List Value) → typed_of typed.now ≡ type_of_kind (Flat kind) → HasForm (form_of kind)
        → All (IsItemOf (typed_of typed.now) array.now) values → length values ≤ window_limit
        → are_within (is_wide kind) (form_of kind) (byte_total values) ≡ true → are_bounded (form_of kind) (byte_total values) ≡ true
        → Fits kind values }
    ensures fewer { (kind : DataType) (values : List Value) → typed_of typed.now ≡ type_of_kind (Flat kind) → HasForm (form_of kind)
        → All (IsItemOf (typed_of typed.now) array.now) values → length values ≤ window_limit
        → byte_total values ≤ byte_total (values_of (typed_of typed.now) array.now)
        → Fits kind values }
    ensures once { (kind : DataType) (start : ℕ) (kept : List ℕ) → typed_of typed.now ≡ type_of_kind (Flat kind) → HasForm (form_of kind)
        → All (λ i. start + i < tree_items array.now) kept → AreApart kept
        → Fits kind (map (λ i. value_at (typed_of typed.now) array.now (start + i)) kept) }
{
    lawful_root(typed, array);
    lawful_trees();
    numbers_of_bytes(array);
}
