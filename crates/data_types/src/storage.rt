//! How the values of each type are stored.
ghost use Rattle.std.specs.Prelude.{◌≡◌, true};
ghost use Rattle.data_types.specs.promise.Storage.{storage_of, time_bits};
ghost use Rattle.data_types.specs.declared.storage.Storage.TheVariants.{Wholes};

use crate::{DataType, Tick};

/// How the values of a type are stored ("Arrow Columnar Format", "Physical memory layout"). What depends on the layout of a
/// type alone asks for this, and not for the type.
#[derive(Clone, Copy, Debug, PartialEq, Eq)]
pub enum Storage {
    /// Nothing: each item is null.
    Nothing,
    /// A bit an item.
    Truths,
    /// Whole numbers of this many bits, with a sign or without.
    Wholes { bits: u8, signed: bool },
    /// The bits of floats, this many.
    Floats { bits: u8 },
    /// This many bytes an item.
    Sized { size: u32 },
    /// Bytes, or text, between offsets of 32 bits or, where they are wide, of 64.
    Between { wide: bool, text: bool },
    /// Lists of items of the one child, between offsets of 32 bits or, where they are wide, of 64.
    Lists { wide: bool },
    /// This many items of the one child for each item.
    FixedLists { size: u32 },
    /// An item of each child.
    Children,
    /// Bytes, or text, behind views of 16 bytes.
    Views { text: bool },
}

/// How the values of a type are stored. Decimals of 256 bits and intervals of several numbers are stored as bytes of one size.
pub fn storage_of(kind: &DataType) -> Storage
    ensures { result ≡ storage_of kind.now }
{
    match kind {
        DataType::Null => Storage::Nothing,
        DataType::Bool => Storage::Truths,
        DataType::Int { bits, signed } => Storage::Wholes {
            bits: *bits,
            signed: *signed,
        },
        DataType::Float { bits } => Storage::Floats { bits: *bits },
        DataType::Binary { wide } => Storage::Between {
            wide: *wide,
            text: false,
        },
        DataType::Utf8 { wide } => Storage::Between {
            wide: *wide,
            text: true,
        },
        DataType::FixedBinary { size } => Storage::Sized { size: *size },
        DataType::Decimal { wide: false, .. } => signed_of(128),
        DataType::Decimal { wide: true, .. } => Storage::Sized { size: 32 },
        DataType::DateDay | DataType::IntervalMonths => signed_of(32),
        DataType::DateMilli | DataType::Timestamp { .. } | DataType::Duration { .. } => {
            signed_of(64)
        }
        DataType::TimeOfDay { tick } => signed_of(time_bits(*tick)),
        DataType::IntervalDayTime => Storage::Sized { size: 8 },
        DataType::IntervalMonthDayNano => Storage::Sized { size: 16 },
        DataType::List { wide } => Storage::Lists { wide: *wide },
        DataType::FixedList { size } => Storage::FixedLists { size: *size },
        DataType::Struct => Storage::Children,
        DataType::Map => Storage::Lists { wide: false },
        DataType::BinaryView => Storage::Views { text: false },
        DataType::Utf8View => Storage::Views { text: true },
    }
}

/// Whole numbers of this many bits, with a sign.
fn signed_of(bits: u8) -> Storage
    ensures { result ≡ Wholes bits true }
{
    Storage::Wholes { bits, signed: true }
}

/// The bits of a time of day.
fn time_bits(tick: Tick) -> u8
    ensures { result ≡ time_bits tick }
{
    match tick {
        Tick::Second | Tick::Milli => 32,
        Tick::Micro | Tick::Nano => 64,
    }
}
