//! Which columns are flat, and their types.
ghost use Rattle.std.specs.Prelude.{◌≡◌, true};
ghost use Rattle.data_types.specs.promise.FieldText.{form_of};
ghost use Rattle.data_types.specs.Kinds.{KindOk};
ghost use Rattle.data_types.specs.promise.Table.{Flat};
ghost use Rattle.col_build.specs.Encoding.{HasForm};
ghost use Rattle.data_types.specs.promise.ColumnKinds.{type_of_kind};
ghost use Rattle.data_types.specs.promise.KindTrees.{kind_in};
ghost use Rattle.data_types.specs.KindTrees.{TypedOk};
ghost use Rattle.data_types.specs.promise.TypedView.{typed_of};
ghost use Rattle.column_fill.specs.promise.FlatColumns.{is_flat_column};

use array_laws::flat_types_have_no_children;
use data_types::{DataType, Typed, is_flat, kinds_of_typed};

/// Whether values are of a flat column kind, without a dictionary.
pub fn is_flat_column(typed: &Typed) -> bool
    ensures { result ≡ is_flat_column (typed_of typed.now) }
{
    kinds_of_typed(typed);
    typed.dict.is_none() && is_flat(&typed.kind)
}

/// The type of the values of a flat column without a dictionary.
pub fn flat_kind(typed: &Typed) -> &DataType
    requires types { TypedOk (typed_of typed.now) }
    requires flat { is_flat_column (typed_of typed.now) ≡ true }
    ensures is { result.now ≡ kind_in (typed_of typed.now) }
    ensures typed { typed_of typed.now ≡ type_of_kind (Flat result.now) }
    ensures valid { KindOk result.now }
    ensures form { HasForm (form_of result.now) }
{
    kinds_of_typed(typed);
    flat_types_have_no_children();
    &typed.kind
}
