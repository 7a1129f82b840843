//! The types of the columnar format, and the columns that are made of them.
use unit_pass::Name;

/// The unit of a time.
#[derive(Clone, Copy, Debug, PartialEq, Eq)]
pub enum Tick {
    Second,
    Milli,
    Micro,
    Nano,
}

/// A type of the columnar format ("Arrow Columnar Format", "Physical memory layout"; "The Arrow C Data Interface", "Data type
/// description -- format strings"). A `wide` binary, text or list has offsets of 64 bits, and a `wide` decimal has 256 bits.
/// A type's numbers are in their ranges where `KindOk` holds of it, which `fmt_string::read_format` and `clone_kind` promise.
#[derive(Debug, Drop)]
pub enum DataType {
    /// Nulls alone.
    Null,
    /// Truth values.
    Bool,
    /// Of 8, 16, 32 or 64 bits.
    Int {
        bits: u8,
        signed: bool,
    },
    /// Of 16, 32 or 64 bits.
    Float {
        bits: u8,
    },
    /// Bytes between offsets.
    Binary {
        wide: bool,
    },
    /// UTF-8 between offsets.
    Utf8 {
        wide: bool,
    },
    /// Of `size` bytes each, below 2^31.
    FixedBinary {
        size: u32,
    },
    /// Numbers of 1 to 38 digits, or to 76 where `wide`; the value is the whole number times 10 to the power of
    /// `-scale`.
    Decimal {
        precision: u8,
        scale: i32,
        wide: bool,
    },
    /// Days since 1970-01-01, 4 bytes.
    DateDay,
    /// Milliseconds since 1970-01-01, 8 bytes.
    DateMilli,
    /// Time since midnight: 4 bytes in seconds and milliseconds, else 8.
    TimeOfDay {
        tick: Tick,
    },
    /// Time since 1970-01-01; the zone's bytes are any, and none where there is no zone.
    Timestamp {
        tick: Tick,
        zone: Name,
    },
    /// A length of time, 8 bytes.
    Duration {
        tick: Tick,
    },
    /// Months, 4 bytes.
    IntervalMonths,
    /// Days and milliseconds, 8 bytes.
    IntervalDayTime,
    /// Months, days and nanoseconds, 16 bytes.
    IntervalMonthDayNano,
    /// Lists between offsets.
    List {
        wide: bool,
    },
    /// Of `size` items each, below 2^31.
    FixedList {
        size: u32,
    },
    /// A value of each child.
    Struct,
    /// A list of structs of a key and a value.
    Map,
    /// Bytes behind views of 16 bytes.
    BinaryView,
    /// Text behind views of 16 bytes.
    Utf8View,
}

/// What a column holds. Contracts see the definition `kind_of` of it.
#[derive(Debug, Drop)]
#[cycle(column)]
pub enum ColKind {
    /// Values of a type.
    Flat(DataType),
    /// Values of a type, by indices of 32 bits into a dictionary.
    Dict(DataType),
    /// A struct of columns.
    Columns(Vec<ColumnType>),
}

/// A column's name and what it holds. Contracts see the definition `column_of` of it.
#[derive(Debug, Drop)]
#[cycle(column)]
pub struct ColumnType {
    /// The name, as bytes.
    pub name: Name,
    /// What the column holds.
    pub kind: ColKind,
}
