//! The form of a column: how its fields are read and written.
ghost use Rattle.std.specs.Prelude.{◌≡◌, option_map, IfSome, Some};
ghost use Rattle.data_types.specs.promise.FieldText.{form_of, places, stored_form};
ghost use Rattle.data_types.specs.Kinds.{KindOk};
ghost use Rattle.data_types.specs.ColumnForms.{IsColumnKind};
ghost use Rattle.field_codec.specs.FieldForms.{IsProper, form_in};

use data_types::{DataType, Storage, storage_of};

/// How the fields of a column are read and written: what of its type a field's text depends on. It is found once for a
/// column, and copied for each field.
#[derive(Clone, Copy, Debug, PartialEq, Eq)]
pub enum FieldForm {
    /// `true` or `false`.
    Truths,
    /// A whole number, stored in this many bits.
    Wholes { bits: u8, signed: bool },
    /// The bits of a float, by hexadecimal digits.
    FloatBits { bits: u8 },
    /// UTF-8 as it is.
    Text,
    /// Bytes by pairs of hexadecimal digits.
    HexBytes,
    /// This many bytes by pairs of hexadecimal digits.
    SizedHex { size: u32 },
    /// A decimal of at most `precision` digits, `places` of them behind the point.
    Decimals { precision: u8, places: u32 },
}

/// The form of a flat type; any other type has none.
pub fn form_of(kind: &DataType) -> Option<FieldForm>
    ensures form { option_map form_in result ≡ form_of kind.now }
    ensures proper { KindOk kind.now → IfSome result IsProper }
{
    match kind {
        DataType::Decimal {
            precision,
            scale,
            wide: false,
        } => Some(FieldForm::Decimals {
            precision: *precision,
            places: places(*scale),
        }),
        DataType::Decimal { wide: true, .. }
        | DataType::IntervalDayTime
        | DataType::IntervalMonthDayNano => None,
        other => stored_form(storage_of(other)),
    }
}

/// The form of what is stored so.
fn stored_form(storage: Storage) -> Option<FieldForm>
    ensures { option_map form_in result ≡ stored_form storage }
{
    match storage {
        Storage::Truths => Some(FieldForm::Truths),
        Storage::Wholes { bits, signed } => Some(FieldForm::Wholes { bits, signed }),
        Storage::Floats { bits } => Some(FieldForm::FloatBits { bits }),
        Storage::Sized { size } => Some(FieldForm::SizedHex { size }),
        Storage::Between { text: true, .. } => Some(FieldForm::Text),
        Storage::Between { text: false, .. } => Some(FieldForm::HexBytes),
        Storage::Nothing
        | Storage::Lists { .. }
        | Storage::FixedLists { .. }
        | Storage::Children
        | Storage::Views { .. } => None,
    }
}

/// The form of a type that a column has.
pub fn flat_form(kind: &DataType) -> FieldForm
    requires { IsColumnKind kind.now }
    ensures is { form_of kind.now ≡ Some (form_in result) }
    ensures proper { IsProper result }
{
    match form_of(kind) {
        Some(form) => form,
        None => unreachable!(),
    }
}

/// The digits behind the point: a scale below 0 is read and written as 0.
fn places(scale: i32) -> u32
    ensures { result ≡ places scale }
{
    if scale < 0 { 0 } else { scale as u32 }
}
