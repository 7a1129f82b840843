//! How long the texts of an array's items are at most, told by the numbers of items and the sizes of buffers alone: most arrays are
//! so short that nothing has to be measured.
ghost use Rattle.std.specs.Prelude.{◌≡◌, ◌+◌, ◌<◌, ◌≤◌, ℕ, length, map, get_or};
ghost use Rattle.data_types.specs.promise.KindTrees.{most_levels};
ghost use Rattle.data_types.specs.KindTrees.{AllNodesOk, NodesOk, TypedOk};
ghost use Rattle.data_types.specs.promise.TypedView.{typed_of};
ghost use Rattle.layout_rules.specs.promise.Walk.{LayoutOk};
ghost use Rattle.tree_model.specs.promise.TreeParts.{IsLive, child_at, children_of};
ghost use Rattle.tree_model.specs.promise.TreeData.{Released, trees};
ghost use Rattle.tree_model.specs.Tree.{Depth, depth_of_all};

use arr_import::buffer_bytes;
use data_types::{Storage, Typed, storage_of};
use layout_rules::{lawful_parts, lawful_root};
use raw_array::RawArray;

/// At most how many bytes the texts of all items of an array have together, each with a comma or a line's end.
pub fn text_bound(typed: &Typed, array: &RawArray) -> u64
    requires types { TypedOk (typed_of typed.now) }
    requires lawful { LayoutOk (typed_of typed.now) array.now }
{
    bound_of(typed, array)
}

#[cycle(bounds)]
fn bound_of(typed: &Typed, array: &RawArray) -> u64
    requires lawful { LayoutOk (typed_of typed.now) array.now }
    requires levels { Depth (typed_of typed.now) ≤ most_levels }
    requires types { NodesOk (typed_of typed.now) }
{
    lawful_root(typed, array);
    lawful_parts(typed, array);
    let count = array.length() as u64;
    match (&typed.dict, array.dictionary()) {
        (Some(dict), Some(dictionary)) => {
            let entries = bound_of(dict, dictionary);
            count.saturating_mul(entries.max(2))
        }
        _ => kids_bound(&typed.kids, array).saturating_add(own_bound(typed, array, count)),
    }
}

#[cycle(bounds)]
fn kids_bound(kids: &[Typed], array: &RawArray) -> u64
    requires lawful { (k : ℕ) → k < length (map typed_of kids.now) → LayoutOk (get_or (map typed_of kids.now) k Released) (child_at array.now k) }
    requires levels { 1 + depth_of_all (trees (map typed_of kids.now)) ≤ most_levels }
    requires types { AllNodesOk (trees (map typed_of kids.now)) }
    requires live { IsLive array.now }
    requires children { length (children_of array.now) ≡ length kids.now }
{
    let mut sum = 0u64;
    for k in 0..kids.len() {
        sum = sum.saturating_add(bound_of(&kids[k], array.child(k)));
    }
    sum
}

/// The same of what items have beside the texts of their children's.
fn own_bound(typed: &Typed, array: &RawArray, count: u64) -> u64
    requires { IsLive array.now }
{
    let each = match storage_of(&typed.kind) {
        Storage::Nothing => 1,
        Storage::Truths => 5,
        Storage::Wholes { bits, .. } => 2 + u64::from(bits) / 3,
        Storage::Floats { .. } => 17,
        Storage::Sized { size } => 1 + 3 * u64::from(size),
        Storage::Between { .. } => return escaped_bound(count, array),
        Storage::Views { .. } => longest_view(array),
        Storage::Lists { .. } | Storage::FixedLists { .. } | Storage::Children => 2,
    };
    count.saturating_mul(each.saturating_add(1))
}

/// The same of items that share a buffer's bytes: each byte has three at most.
fn escaped_bound(count: u64, array: &RawArray) -> u64
    requires { IsLive array.now }
{
    let bytes = buffer_bytes(array, 2).len() as u64;
    count
        .saturating_mul(2)
        .saturating_add(bytes.saturating_mul(3))
}

/// At most how many bytes the text of a view has: it shows no more than a data buffer.
fn longest_view(array: &RawArray) -> u64
    requires { IsLive array.now }
{
    let mut most = 12;
    for k in 2..array.n_buffers() as usize {
        most = most.max(buffer_bytes(array, k).len() as u64);
    }
    1 + most.min(1 << 31) * 3
}
