//! The canonical spelling of a type: its keyword, and the numbers or the zone behind it.
ghost use Rattle.std.specs.Prelude.{◌≡◌, ◌++◌, decimal, codes, IfOk};
ghost use Rattle.std.specs.Fmt.{signed_decimal};
ghost use Rattle.fmt_string.specs.promise.FormatString.{comma, FormatIs};
ghost use Rattle.data_types.specs.Kinds.{KindOk};
ghost use Rattle.fmt_string.specs.promise.Spelling.{int_word, time_word, timestamp_word, duration_word, word_of, width_text, rest_of, spelling_of};
ghost use Rattle.fmt_string.specs.Spelling.{float_word};

use data_types::{DataType, Tick};
use itoa::Buffer;
use std::alloc::Global;
use unit_pass::NoMemory;

fn int_word(bits: u8, signed: bool) -> &'static [u8]
    ensures { result.now ≡ int_word bits signed }
{
    match (bits, signed) {
        (8, true) => b"c",
        (16, true) => b"s",
        (32, true) => b"i",
        (_, true) => b"l",
        (8, false) => b"C",
        (16, false) => b"S",
        (32, false) => b"I",
        (_, false) => b"L",
    }
}

fn float_word(bits: u8) -> &'static [u8]
    ensures { result.now ≡ float_word bits }
{
    match bits {
        16 => b"e",
        32 => b"f",
        _ => b"g",
    }
}

fn time_word(tick: Tick) -> &'static [u8]
    ensures { result.now ≡ time_word tick }
{
    match tick {
        Tick::Second => b"tts",
        Tick::Milli => b"ttm",
        Tick::Micro => b"ttu",
        Tick::Nano => b"ttn",
    }
}

fn timestamp_word(tick: Tick) -> &'static [u8]
    ensures { result.now ≡ timestamp_word tick }
{
    match tick {
        Tick::Second => b"tss:",
        Tick::Milli => b"tsm:",
        Tick::Micro => b"tsu:",
        Tick::Nano => b"tsn:",
    }
}

fn duration_word(tick: Tick) -> &'static [u8]
    ensures { result.now ≡ duration_word tick }
{
    match tick {
        Tick::Second => b"tDs",
        Tick::Milli => b"tDm",
        Tick::Micro => b"tDu",
        Tick::Nano => b"tDn",
    }
}

/// The keyword of a type.
fn word(kind: &DataType) -> &'static [u8]
    ensures { result.now ≡ word_of kind.now }
{
    match kind {
        DataType::Null => b"n",
        DataType::Bool => b"b",
        DataType::Int { bits, signed } => int_word(*bits, *signed),
        DataType::Float { bits } => float_word(*bits),
        DataType::Binary { wide: false } => b"z",
        DataType::Binary { wide: true } => b"Z",
        DataType::Utf8 { wide: false } => b"u",
        DataType::Utf8 { wide: true } => b"U",
        DataType::FixedBinary { .. } => b"w:",
        DataType::Decimal { .. } => b"d:",
        DataType::DateDay => b"tdD",
        DataType::DateMilli => b"tdm",
        DataType::TimeOfDay { tick } => time_word(*tick),
        DataType::Timestamp { tick, .. } => timestamp_word(*tick),
        DataType::Duration { tick } => duration_word(*tick),
        DataType::IntervalMonths => b"tiM",
        DataType::IntervalDayTime => b"tiD",
        DataType::IntervalMonthDayNano => b"tin",
        DataType::List { wide: false } => b"+l",
        DataType::List { wide: true } => b"+L",
        DataType::FixedList { .. } => b"+w:",
        DataType::Struct => b"+s",
        DataType::Map => b"+m",
        DataType::BinaryView => b"vz",
        DataType::Utf8View => b"vu",
    }
}

fn push_size(text: &mut Vec<u8>, size: u32) -> Result<(), NoMemory>
    ensures { IfOk result (λ _. text.new.items ≡ text.old.items ++ decimal size) }
{
    let mut buffer = Buffer::new();
    text.extend_from_slice(buffer.format(size).as_bytes())?;
    Ok(())
}

fn push_decimal(text: &mut Vec<u8>, precision: u8, scale: i32, wide: bool) -> Result<(), NoMemory>
    ensures { IfOk result (λ _. text.new.items ≡ text.old.items ++ (decimal precision ++ comma ++ signed_decimal scale ++ width_text wide)) }
{
    let mut buffer = Buffer::new();
    text.extend_from_slice(buffer.format(precision).as_bytes())?;
    text.push(b',')?;
    text.extend_from_slice(buffer.format(scale).as_bytes())?;
    if wide {
        text.extend_from_slice(b",256")?;
    }
    Ok(())
}

fn spelling(alloc: Global, kind: &DataType) -> Result<Vec<u8>, NoMemory>
    ensures { IfOk result (λ text. text.items ≡ spelling_of kind.now) }
{
    let mut text = Vec::from_slice(alloc, word(kind))?;
    match kind {
        DataType::FixedBinary { size } => push_size(&mut text, *size)?,
        DataType::FixedList { size } => push_size(&mut text, *size)?,
        DataType::Decimal {
            precision,
            scale,
            wide,
        } => push_decimal(&mut text, *precision, *scale, *wide)?,
        DataType::Timestamp { zone, .. } => text.extend_from_slice(zone.as_slice())?,
        _ => {}
    }
    Ok(text)
}

/// The one canonical spelling of a type ("The Arrow C Data Interface", "Data type description -- format strings"), which
/// `read_format` reads as that type again. A decimal's width of 128 bits is left out.
pub fn write_format(alloc: Global, kind: &DataType) -> Result<Vec<u8>, NoMemory>
    requires { KindOk kind.now }
    ensures canonical { IfOk result (λ text. text.items ≡ spelling_of kind.now) }
    ensures spelled { IfOk result (λ text. FormatIs text.items kind.now) }
{
    spelling(alloc, kind)
}
