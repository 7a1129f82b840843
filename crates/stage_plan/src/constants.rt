//! The constants of filters.
ghost use Rattle.std.specs.Prelude.{◌≡◌, IfOk, option_map, Some, None, if◌then◌else◌};
ghost use Rattle.std.specs.Str.{is_utf8};
ghost use Rattle.stage_model.specs.declared.stage.Const.TheVariants as consts;
ghost use Rattle.std.specs.Option.{option_and_then};
ghost use Rattle.data_types.specs.ColumnForms.{KindsOk};
ghost use Rattle.data_types.specs.ColumnView.{kind_of};
ghost use Rattle.data_types.specs.promise.FieldText.{hex_bytes, read_form};
ghost use Rattle.data_types.specs.Kinds.{KindOk};
ghost use Rattle.data_types.specs.promise.Value.{Bytes, Whole};
ghost use Rattle.field_codec.specs.FieldForms.{IsProper, form_in};
ghost use Rattle.stage_model.specs.promise.Typing.{compares, const_for, const_of, constant_value, empty_value};

use data_types::{ColKind, DataType};
use field_codec::{FieldForm, form_of, read_bytes, read_decimal, read_truth, read_whole};
use stage_model::{Const, Test};
use std::alloc::Global;
use unit_pass::{Name, NoMemory};

/// The constant of a test on a column, or none where the text spells none of the column's kind.
pub(crate) fn constant_for(
    alloc: Global,
    kind: &ColKind,
    test: Test,
    text: &[u8],
) -> Result<Option<Const>, NoMemory>
    requires { KindsOk (kind_of kind.now) }
    ensures { IfOk result (λ constant. constant ≡ const_for (kind_of kind.now) test text.now) }
{
    if !compares(test) {
        return Ok(Some(Const::None));
    }
    match kind {
        ColKind::Flat(kind) => constant_in(alloc, kind, text),
        ColKind::Dict(_) | ColKind::Columns(_) => Ok(None),
    }
}

/// Whether a test takes a constant.
pub(crate) fn compares(test: Test) -> bool
    ensures { result ≡ compares test }
{
    match test {
        Test::Null | Test::Valid => false,
        Test::Eq | Test::Ne | Test::Lt | Test::Le | Test::Gt | Test::Ge => true,
    }
}

/// The constant that a text spells in a type.
fn constant_in(alloc: Global, kind: &DataType, text: &[u8]) -> Result<Option<Const>, NoMemory>
    requires { KindOk kind.now }
    ensures { IfOk result (λ constant. constant ≡ option_and_then const_of (constant_value kind.now text.now)) }
{
    if text.is_empty() {
        return Ok(empty_constant(alloc, kind));
    }
    match form_of(kind) {
        Some(form) => constant_of(alloc, form, text),
        None => Ok(None),
    }
}

/// The empty text is a value of texts and bytes alone.
fn empty_constant(alloc: Global, kind: &DataType) -> Option<Const>
    ensures { result ≡ option_and_then const_of (empty_value kind.now) }
{
    match kind {
        DataType::Utf8 { .. } | DataType::Binary { .. } => {
            Some(Const::Bytes(Name::from_vec(Vec::new(alloc))))
        }
        _ => None,
    }
}

/// The constant that a text spells in a form. Floats are compared with none.
fn constant_of(alloc: Global, form: FieldForm, text: &[u8]) -> Result<Option<Const>, NoMemory>
    requires { IsProper form }
    ensures { IfOk result (λ constant. constant ≡ option_and_then const_of (read_form (form_in form) text.now)) }
{
    match form {
        FieldForm::Truths => Ok(read_truth(text).map(|truth| Const::Truth(truth))),
        FieldForm::Wholes { bits, signed } => Ok(whole(read_whole(bits, signed, text))),
        FieldForm::Decimals { precision, places } => {
            Ok(whole(read_decimal(precision, places, text)))
        }
        FieldForm::FloatBits { .. } => Ok(None),
        FieldForm::Text => text_constant(alloc, text),
        FieldForm::HexBytes => hex_constant(alloc, text),
        FieldForm::SizedHex { size } => {
            if text.len() != 2 * size as usize {
                return Ok(None);
            }
            hex_constant(alloc, text)
        }
    }
}

/// A whole number as a constant.
fn whole(number: Option<i128>) -> Option<Const>
    ensures { result ≡ option_and_then const_of (option_map Whole number) }
{
    match number {
        Some(number) => Some(Const::Whole(number)),
        None => None,
    }
}

/// The constant of a text column.
fn text_constant(alloc: Global, text: &[u8]) -> Result<Option<Const>, NoMemory>
    ensures { IfOk result (λ constant. constant ≡ (if is_utf8 text.now then Some (consts.Bytes text.now) else None)) }
{
    match std::str::from_utf8(text) {
        Ok(_) => {
            let text = Name::from_slice(alloc, text)?;
            Ok(Some(Const::Bytes(text)))
        }
        Err(_) => Ok(None),
    }
}

/// The constant that pairs of hexadecimal digits spell.
fn hex_constant(alloc: Global, text: &[u8]) -> Result<Option<Const>, NoMemory>
    ensures { IfOk result (λ constant. constant ≡ option_and_then const_of (option_map Bytes (hex_bytes text.now))) }
{
    let mut room = Vec::new(alloc);
    match read_bytes(text, &mut room) {
        Ok(Some(bytes)) => {
            let bytes = Name::from_slice(alloc, bytes)?;
            Ok(Some(Const::Bytes(bytes)))
        }
        Ok(None) => Ok(None),
        Err(NoMemory) => Err(NoMemory),
    }
}
