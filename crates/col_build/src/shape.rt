//! How the items of a type are laid out ("Arrow Columnar Format", "Physical memory layout").
ghost use Rattle.std.specs.Prelude.{◌≡◌};
ghost use Rattle.data_types.specs.promise.FieldText.{form_of};
ghost use Rattle.data_types.specs.promise.Storage.{storage_of};
ghost use Rattle.col_build.specs.Encoding.{HasForm};
ghost use Rattle.col_build.specs.Shapes.{shape_in};

use data_types::{DataType, Storage, storage_of};

/// What an item of a column is, and how it lies in the buffers.
#[derive(Clone, Copy)]
pub(crate) enum Shape {
    // A truth value, by a bit.
    Truths,
    // A whole number of this many bytes.
    Wholes { width: usize, signed: bool },
    // The bits of a float of this many bytes.
    Floats { width: usize },
    // This many bytes.
    Sized { size: usize },
    // Bytes, or UTF-8, between offsets of 32 bits or, where they are wide, of 64.
    Between { wide: bool, text: bool },
}

/// The shape of a flat type, by how it is stored.
pub(crate) fn shape_of(kind: &DataType) -> Shape
    requires flat { HasForm (form_of kind.now) }
    ensures { result ≡ shape_in (storage_of kind.now) }
{
    match storage_of(kind) {
        Storage::Truths => Shape::Truths,
        Storage::Wholes { bits, signed } => Shape::Wholes {
            width: usize::from(bits) / 8,
            signed,
        },
        Storage::Floats { bits } => Shape::Floats {
            width: usize::from(bits) / 8,
        },
        Storage::Sized { size } => Shape::Sized {
            size: size as usize,
        },
        Storage::Between { wide, text } => Shape::Between { wide, text },
        _ => unreachable!(),
    }
}
