//! Which types a column may have, which of them a field can spell, and copies of types.
ghost use Rattle.std.specs.Prelude.{◌≡◌, IfOk, IfErr, is_some};
ghost use Rattle.data_types.specs.promise.FieldText.{stored_form};
ghost use Rattle.data_types.specs.promise.Kinds.{is_flat, is_within, is_column_type};
ghost use Rattle.data_types.specs.Kinds.{KindOk, HasZone};

use crate::{DataType, Storage, storage_of};
use std::alloc::Global;
use unit_pass::{Name, NoMemory};

/// A copy of a type. Only a timestamp's zone takes memory. `NoMemory` comes only where memory runs out.
pub fn clone_kind(alloc: Global, kind: &DataType) -> Result<DataType, NoMemory>
    requires { KindOk kind.now }
    ensures same { IfOk result (λ copy. copy ≡ kind.now) }
    ensures valid { IfOk result KindOk }
    ensures memory { IfErr result (λ _. HasZone kind.now) }
{
    Ok(match kind {
        DataType::Null => DataType::Null,
        DataType::Bool => DataType::Bool,
        DataType::Int { bits, signed } => DataType::Int {
            bits: *bits,
            signed: *signed,
        },
        DataType::Float { bits } => DataType::Float { bits: *bits },
        DataType::Binary { wide } => DataType::Binary { wide: *wide },
        DataType::Utf8 { wide } => DataType::Utf8 { wide: *wide },
        DataType::FixedBinary { size } => DataType::FixedBinary { size: *size },
        DataType::Decimal {
            precision,
            scale,
            wide,
        } => DataType::Decimal {
            precision: *precision,
            scale: *scale,
            wide: *wide,
        },
        DataType::DateDay => DataType::DateDay,
        DataType::DateMilli => DataType::DateMilli,
        DataType::TimeOfDay { tick } => DataType::TimeOfDay { tick: *tick },
        DataType::Timestamp { tick, zone } => DataType::Timestamp {
            tick: *tick,
            zone: Name::from_slice(alloc, zone.as_slice())?,
        },
        DataType::Duration { tick } => DataType::Duration { tick: *tick },
        DataType::IntervalMonths => DataType::IntervalMonths,
        DataType::IntervalDayTime => DataType::IntervalDayTime,
        DataType::IntervalMonthDayNano => DataType::IntervalMonthDayNano,
        DataType::List { wide } => DataType::List { wide: *wide },
        DataType::FixedList { size } => DataType::FixedList { size: *size },
        DataType::Struct => DataType::Struct,
        DataType::Map => DataType::Map,
        DataType::BinaryView => DataType::BinaryView,
        DataType::Utf8View => DataType::Utf8View,
    })
}

/// Whether a field of text spells the type's values: no null type, no list, struct or map, no interval of several
/// numbers, no decimal of 256 bits and no view.
pub fn is_flat(kind: &DataType) -> bool
    ensures { result ≡ is_flat kind.now }
{
    match kind {
        DataType::Decimal { wide, .. } => !*wide,
        DataType::IntervalDayTime | DataType::IntervalMonthDayNano => false,
        other => is_flat_storage(storage_of(other)),
    }
}

/// Whether an item is stored in place or between offsets.
fn is_flat_storage(storage: Storage) -> bool
    ensures { result ≡ is_some (stored_form storage) }
{
    match storage {
        Storage::Truths
        | Storage::Wholes { .. }
        | Storage::Floats { .. }
        | Storage::Sized { .. }
        | Storage::Between { .. } => true,
        Storage::Nothing
        | Storage::Lists { .. }
        | Storage::FixedLists { .. }
        | Storage::Children
        | Storage::Views { .. } => false,
    }
}

/// Whether a scale is from 0 to the precision.
fn is_within(scale: i32, precision: u8) -> bool
    ensures { result ≡ is_within scale precision }
{
    0 <= scale && scale <= i32::from(precision)
}

/// Whether a column of text may be asked to have the type: a flat type, where a `w:` has 1 to 65,536 bytes, and a
/// decimal a scale from 0 to its precision.
pub fn is_column_type(kind: &DataType) -> bool
    ensures { result ≡ is_column_type kind.now }
{
    match kind {
        DataType::FixedBinary { size } => 1 <= *size && *size <= 65536,
        DataType::Decimal {
            precision,
            scale,
            wide: false,
        } => is_within(*scale, *precision),
        other => is_flat(other),
    }
}
