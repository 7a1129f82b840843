//! What a column takes, and why it may not take it.
use std::fmt;

/// An item of a column: a null, a truth value, a whole number, the bits of a float, or bytes.
#[derive(Clone, Copy, Debug, PartialEq, Eq)]
pub enum Item<'a> {
    /// A null.
    Null,
    /// A truth value.
    Truth(bool),
    /// Of integers, dates, times, timestamps, durations, months, and decimals by their unscaled number.
    Whole(i128),
    /// Of a float, in as many of the lowest bits as it has.
    Bits(u64),
    /// Of binary, text and fixed-size binary.
    Bytes(&'a [u8]),
}

/// Why a column doesn't take an item. The causes are tried in this order.
#[derive(Clone, Copy, Debug, PartialEq, Eq)]
pub enum PushFault {
    /// The item isn't null, and its form isn't that of the column's type.
    WrongKind,
    /// A whole number is outside the type's stored numbers, bits exceed its width, fixed-size bytes have another length, or
    /// the bytes of a column with 32-bit offsets would pass 2^31 - 1.
    OutOfRange,
    /// The bytes of a text aren't UTF-8.
    NotText,
    /// Memory ran out.
    NoMemory,
}

impl fmt::Display for PushFault {
    ghost use Rattle.std.specs.Prelude.{Some};
    ghost use Rattle.col_build.specs.FaultTexts.{fault_text};

    ghost output = { λ fault. Some (fault_text fault) };

    fn fmt<W: fmt::Write>(&self, f: &mut fmt::Formatter<W>) -> fmt::Result {
        f.write_str(match self {
            PushFault::WrongKind => "not a value of the column's type",
            PushFault::OutOfRange => "out of the column's range",
            PushFault::NotText => "not UTF-8",
            PushFault::NoMemory => "out of memory",
        })
    }
}

impl std::error::Error for PushFault {}
