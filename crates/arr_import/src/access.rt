//! How the items of a column are read where that is settled before the first of them.
ghost use Rattle.std.specs.Prelude.{◌≡◌};
ghost use Rattle.arr_import.specs.Accesses.{access_of};

use data_types::Storage;

/// How the items of a column are read: in one of the common ways, each with its width, or in any other. It is found once for
/// a column, so that an item costs one test of it. Numbers that are read in a common way have no dictionary.
#[derive(Clone, Copy)]
pub(crate) enum Access {
    Truths,
    Int32,
    Int64,
    Int128,
    /// Bytes or text between offsets of 32 bits.
    Between32,
    /// Any other way.
    Other,
}

/// How the items are read that are stored so, by whether they have a dictionary.
pub(crate) fn access_of(storage: Storage, is_index: bool) -> Access
    ensures { result ≡ access_of storage is_index }
{
    match storage {
        Storage::Truths => Access::Truths,
        Storage::Between { wide: false, .. } => Access::Between32,
        Storage::Wholes { bits, signed: true } if !is_index => match bits {
            32 => Access::Int32,
            64 => Access::Int64,
            128 => Access::Int128,
            _ => Access::Other,
        },
        _ => Access::Other,
    }
}
