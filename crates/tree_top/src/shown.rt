//! The lines of a chunk that was shown.
ghost use Rattle.std.specs.Prelude.{◌≡◌, map};
ghost use Rattle.data_types.specs.promise.TypedView.{typed_of};
ghost use Rattle.layout_rules.specs.promise.Values.{rows_of};
ghost use Rattle.data_types.specs.promise.ValueTexts.{lines_text};
ghost use Rattle.tree_top.specs.promise.ForeignAnswer.{row_value};

use data_types::Typed;
use raw_array::RawArray;
use std::snapshot::Snapshot;

/// The lines of a chunk that was shown. Which chunk it was is kept for contracts alone, and has no bytes.
#[derive(Drop)]
pub(crate) struct Lines {
    pub(crate) text: Vec<u8>,
    pub(crate) typed: Snapshot<Typed>,
    pub(crate) array: Snapshot<RawArray>,
    ghost told: { text.items ≡ lines_text (map row_value (rows_of (typed_of typed.value) array.value)) },
}
