//! The indices of some items of a column with a dictionary.
ghost use Rattle.std.specs.Prelude.{◌≡◌, ◌==◌, ◌+◌, ◌*◌, ◌<◌, ◌≤◌, ◌≤ℤ◌, pos, length, IfOk, OnOk};
ghost use Rattle.data_types.specs.promise.Table.{Dict};
ghost use Rattle.data_types.specs.declared.kind.DataType.{DataType as AType};
ghost use Rattle.data_types.specs.promise.Packed.{bit};
ghost use Rattle.col_build.specs.Holding.{Adds, Holds, HoldsWholes, Takes};
ghost use Rattle.tree_model.specs.promise.TreeParts.{IsLive};
ghost use Rattle.raw_array.specs.promise.Members.{members_of};
ghost use Rattle.layout_rules.specs.promise.Layout.{buffer, bytes, first, is_valid_by};
ghost use Rattle.layout_rules.specs.Layout.{IsLong};
ghost use Rattle.layout_rules.specs.promise.Rules.{window_limit};
ghost use Rattle.arr_import.specs.Lent.{lent_bytes};
ghost use Rattle.stage_filter.specs.Kept.{index_in};
ghost use Rattle.stage_filter.specs.KeptTrees.{index_type, indices_at};
ghost use Rattle.stage_filter.specs.Moving.{CanMove};

use bit_pack::{bit_at, int_at};
use col_build::Builder;
use data_types::DataType;
use layout_rules::lawful_trees;
use raw_array::RawArray;
use std::alloc::Global;
use unit_pass::NoMemory;

/// A validity bit.
#[inline(always)]
fn is_set(validity: &[u8], place: u64) -> bool
    requires { place < 8 * length validity.now }
    ensures { result ≡ (bit validity.now place == 1) }
{
    bit_at(validity, place as usize)
}

/// Whether an index is there; with no validity bitmap each is.
#[inline(always)]
fn is_valid(validity: Option<&[u8]>, place: u64) -> bool
    requires { IsLong (place + 1) (lent_bytes validity) }
    ensures { result ≡ is_valid_by (lent_bytes validity.entry) place }
{
    match validity {
        Some(bits) => is_set(bits, place),
        None => true,
    }
}

/// Adds the index at a place of the buffers, or a null.
#[inline(always)]
fn add_index(
    builder: &mut Builder,
    validity: Option<&[u8]>,
    stored: &[u8],
    place: u64,
) -> Result<(), NoMemory>
    requires near { place < window_limit }
    requires long { IsLong (place + 1) (lent_bytes validity) }
    requires there { (place + 1) * 4 ≤ length stored.now }
    requires takes { Takes builder.old (index_in (lent_bytes validity) stored.now place) }
    requires width { HoldsWholes 4 builder.old }
    ensures { OnOk result (Adds (index_in (lent_bytes validity.entry) stored.now place) builder.old builder.new) }
{
    if is_valid(validity, place) {
        builder.add_whole(4, int_at(stored, place as usize * 4, 4, true))
    } else {
        builder.add_null()
    }
}

/// The bytes of a buffer, and none where it is absent.
fn stored_bytes(array: &RawArray, k: usize) -> &[u8]
    requires { k < length (members_of array.now).buffers }
    ensures { result.now ≡ bytes (members_of array.now) k }
{
    match array.buffer(k) {
        Some(bytes) => bytes,
        None => &[],
    }
}

/// The validity bitmap, where there is one.
fn validity_of(array: &RawArray) -> Option<&[u8]>
    requires { 0 < length (members_of array.now).buffers }
    ensures { lent_bytes result ≡ buffer (members_of array.now) 0 }
{
    array.buffer(0)
}

/// The number of items of the buffers that come before an array's first.
fn first_of(array: &RawArray) -> u64
    requires live { IsLive array.now }
    requires placed { pos 0 ≤ℤ (members_of array.now).offset }
    ensures { result ≡ first (members_of array.now) }
{
    array.offset() as u64
}

/// A builder that holds the indices of the items of these numbers, in their order.
pub(crate) fn moved_indices(
    alloc: Global,
    array: &RawArray,
    start: u64,
    kept: &[u32],
) -> Result<Builder, NoMemory>
    requires { (kind : AType) × CanMove (Dict kind) array.now start kept.now }
    ensures { IfOk result (λ builder. Holds builder index_type (indices_at array.now start kept.now)) }
{
    lawful_trees();
    let first = first_of(array) + start;
    let validity = validity_of(array);
    let stored = stored_bytes(array, 1);
    let mut builder = Builder::new(
        alloc,
        DataType::Int {
            bits: 32,
            signed: true,
        },
    );
    for i in kept {
        add_index(&mut builder, validity, stored, first + u64::from(*i))?;
    }
    Ok(builder)
}
