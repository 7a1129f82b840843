//! The ways in which the items of plain columns are written, settled before the first of them.
ghost use Rattle.std.specs.Prelude.{◌≡◌, ℕ, List, IfOk, IfSome};
ghost use Rattle.data_types.specs.promise.FieldText.{FloatBits, HexBytes, Text, Wholes};
ghost use Rattle.data_types.specs.FieldText.{IsFlatForm};
ghost use Rattle.data_types.specs.declared.storage.Storage.TheVariants as storages;
ghost use Rattle.arr_import.specs.Plain.{IsItemThere, storage_in, valid_item};
ghost use Rattle.field_codec.specs.FieldForms.{form_in, written_in};
ghost use Rattle.csv_write.specs.Ways.{form_by, storage_by};

use arr_import::Plain;
use data_types::Storage;
use field_codec::{FieldForm, bits_text, bytes_text, decimal_text, truth_text, whole_text};
use unit_pass::NoMemory;

/// How the items of a plain column are written: the form of its fields, and how the items are stored. The common widths have
/// ways of their own, in which they are constants.
#[derive(Clone, Copy)]
pub(crate) enum Way {
    Texts,
    /// Texts between offsets of 64 bits.
    WideTexts,
    /// Whole numbers of 32 bits with a sign.
    Ints,
    /// Whole numbers of 64 bits with a sign.
    Longs,
    /// Any other whole numbers.
    Wholes { bits: u8, signed: bool },
    Decimals { precision: u8, places: u32 },
    Truths,
    /// Floats of 64 bits.
    Doubles,
    /// Any other floats.
    Floats { bits: u8 },
    /// Bytes, which are written by their digits.
    Bytes,
    /// Bytes between offsets of 64 bits.
    WideBytes,
    /// This many bytes each.
    Sized { size: u32 },
}

/// The way of a form, where the items are stored as its values are.
pub(crate) fn way_of(form: FieldForm, storage: Storage) -> Option<Way>
    ensures form { IfSome result (λ way. form_by way ≡ form_in form) }
    ensures storage { IfSome result (λ way. storage_by way ≡ storage) }
{
    match form {
        FieldForm::Text => texts_way(storage),
        FieldForm::HexBytes => bytes_way(storage),
        FieldForm::Wholes { bits, signed } => {
            if storage != (Storage::Wholes { bits, signed }) {
                return None;
            }
            Some(wholes_way(bits, signed))
        }
        FieldForm::Decimals { precision, places } => match storage {
            Storage::Wholes {
                bits: 128,
                signed: true,
            } => Some(Way::Decimals { precision, places }),
            _ => None,
        },
        FieldForm::Truths => match storage {
            Storage::Truths => Some(Way::Truths),
            _ => None,
        },
        FieldForm::FloatBits { bits } => {
            if storage != (Storage::Floats { bits }) {
                return None;
            }
            Some(floats_way(bits))
        }
        FieldForm::SizedHex { size } => {
            if storage != (Storage::Sized { size }) {
                return None;
            }
            Some(Way::Sized { size })
        }
    }
}

/// The way of texts.
fn texts_way(storage: Storage) -> Option<Way>
    ensures form { IfSome result (λ way. form_by way ≡ Text) }
    ensures storage { IfSome result (λ way. storage_by way ≡ storage) }
{
    match storage {
        Storage::Between {
            wide: false,
            text: true,
        } => Some(Way::Texts),
        Storage::Between {
            wide: true,
            text: true,
        } => Some(Way::WideTexts),
        _ => None,
    }
}

/// The way of bytes between offsets.
fn bytes_way(storage: Storage) -> Option<Way>
    ensures form { IfSome result (λ way. form_by way ≡ HexBytes) }
    ensures storage { IfSome result (λ way. storage_by way ≡ storage) }
{
    match storage {
        Storage::Between {
            wide: false,
            text: false,
        } => Some(Way::Bytes),
        Storage::Between {
            wide: true,
            text: false,
        } => Some(Way::WideBytes),
        _ => None,
    }
}

/// The way of whole numbers.
fn wholes_way(bits: u8, signed: bool) -> Way
    ensures form { form_by result ≡ Wholes bits signed }
    ensures storage { storage_by result ≡ storages.Wholes bits signed }
{
    match (bits, signed) {
        (32, true) => Way::Ints,
        (64, true) => Way::Longs,
        _ => Way::Wholes { bits, signed },
    }
}

/// The way of floats.
fn floats_way(bits: u8) -> Way
    ensures form { form_by result ≡ FloatBits bits }
    ensures storage { storage_by result ≡ storages.Floats bits }
{
    match bits {
        64 => Way::Doubles,
        _ => Way::Floats { bits },
    }
}

/// The text of an item that isn't null.
#[inline(always)]
pub(crate) fn way_text<'a: 'b, 'b>(
    way: &Way,
    items: &Plain<'a>,
    i: u64,
    room: &'b mut Vec<u8>,
) -> Result<&'b [u8], NoMemory>
    requires there { IsItemThere items.now i }
    requires stored { storage_in items.now ≡ storage_by way.now }
    requires proper { IsFlatForm (form_by way.now) }
    ensures { IfOk result (λ text. (mark : List ℕ) → text.now ≡ written_in mark (form_by way.now) (valid_item items.now i)) }
{
    match way {
        Way::Texts => Ok(items.between(false, i)),
        Way::WideTexts => Ok(items.between(true, i)),
        Way::Ints => whole_text(items.whole(32, true, i), room),
        Way::Longs => whole_text(items.whole(64, true, i), room),
        Way::Wholes { bits, signed } => whole_text(items.whole(*bits, *signed, i), room),
        Way::Decimals { places, .. } => decimal_text(*places, items.whole(128, true, i), room),
        Way::Truths => Ok(truth_text(items.truth(i))),
        Way::Doubles => bits_text(64, items.float_bits(64, i), room),
        Way::Floats { bits } => bits_text(*bits, items.float_bits(*bits, i), room),
        Way::Bytes => bytes_text(items.between(false, i), room),
        Way::WideBytes => bytes_text(items.between(true, i), room),
        Way::Sized { size } => bytes_text(items.sized(*size, i), room),
    }
}
