//! Laws of the field texts (`specs/promise/FieldText.antt`): functions with an empty body, whose contracts are the laws.
ghost use Rattle.std.specs.Prelude.{◌≡◌, ◌⊎◌, ℕ, [], List, Some};
ghost use Rattle.data_types.specs.promise.Value.{Value, Null, Bytes};
ghost use Rattle.data_types.specs.promise.FieldText.{read_field, written_text};
ghost use Rattle.data_types.specs.FieldText.{IsFlatKind, IsValueOf};

use crate::DataType;

/// The text of a value of a flat column kind reads back as the value under the same mark, but where a value's text is the
/// mark: it reads back as a null. Under the empty mark that is so of empty bytes alone.
pub fn written_texts_read_back(kind: &DataType)
    ensures back { (mark : List ℕ) (value : Value) → IsFlatKind kind.now → IsValueOf kind.now value → (written_text mark kind.now value ≡ mark → value ≡ Null)
        → read_field mark kind.now (written_text mark kind.now value) ≡ Some value }
    ensures null_is_the_mark { (mark : List ℕ) → written_text mark kind.now Null ≡ mark }
    ensures the_mark_is_null { (mark : List ℕ) → read_field mark kind.now mark ≡ Some Null }
    ensures empty_texts { (value : Value) → IsFlatKind kind.now → IsValueOf kind.now value → written_text [] kind.now value ≡ []
        → (value ≡ Null) ⊎ (value ≡ Bytes []) }
{}

/// What a field of a flat column kind spells is a value of the kind: of its form, range and size.
pub fn fields_are_values(kind: &DataType)
    ensures { (mark text : List ℕ) (value : Value) → IsFlatKind kind.now → read_field mark kind.now text ≡ Some value → IsValueOf kind.now value }
{}
