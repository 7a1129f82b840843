//! How the arrays of a type are laid out, and how many buffers they have.
ghost use Rattle.std.specs.Prelude.{◌≡◌};
ghost use Rattle.data_types.specs.promise.Storage.{storage_of};
ghost use Rattle.layout_rules.specs.promise.Layout.{layout_of, buffer_count};

use data_types::{DataType, Storage, storage_of};

/// How an array of a kind is laid out.
#[derive(Clone, Copy, Debug, PartialEq, Eq)]
pub enum Layout {
    /// No buffer at all, and each item is null.
    NoBuffers,
    /// Validity, and items of this many bytes.
    FixedWidth { width: u32 },
    /// Validity, and a bit an item.
    TruthBits,
    /// Validity, offsets, and data.
    ByOffsets { wide: bool },
    /// Validity, and offsets into the one child.
    ListOffsets { wide: bool },
    /// Validity, and this many items of the one child for each item.
    FixedItems { size: u32 },
    /// Validity, and an item of each child.
    ByChildren,
    /// Validity, views of 16 bytes, any number of data buffers, and their lengths.
    Views,
}

/// The layout of a type's arrays, by how its values are stored.
pub fn layout_of(kind: &DataType) -> Layout
    ensures { result ≡ layout_of kind.now }
{
    match storage_of(kind) {
        Storage::Nothing => Layout::NoBuffers,
        Storage::Truths => Layout::TruthBits,
        Storage::Wholes { bits, .. } | Storage::Floats { bits } => Layout::FixedWidth {
            width: u32::from(bits) / 8,
        },
        Storage::Sized { size } => Layout::FixedWidth { width: size },
        Storage::Between { wide, .. } => Layout::ByOffsets { wide },
        Storage::Lists { wide } => Layout::ListOffsets { wide },
        Storage::FixedLists { size } => Layout::FixedItems { size },
        Storage::Children => Layout::ByChildren,
        Storage::Views { .. } => Layout::Views,
    }
}

/// How many buffers an array of this layout must have, where it has this many: the number is the layout's, and views need at
/// least 3 ("Arrow Columnar Format", "Buffer Listing for Each Layout").
pub fn buffer_count(layout: Layout, found: usize) -> usize
    ensures { result ≡ buffer_count layout found }
{
    match layout {
        Layout::NoBuffers => 0,
        Layout::FixedWidth { .. } | Layout::TruthBits | Layout::ListOffsets { .. } => 2,
        Layout::ByOffsets { .. } => 3,
        Layout::FixedItems { .. } | Layout::ByChildren => 1,
        Layout::Views => found.max(3),
    }
}
