//! Chunks: what is asked of an array that holds rows.
ghost use Rattle.std.specs.Prelude.{◌≡◌, None, Some, IsOk, IsTrue, is_none, is_some, not, ◌&&◌, ◌↔◌, pos, ℕ, length, Option};
ghost use Rattle.raw_array.specs.promise.Members.{ArrayTree};
ghost use Rattle.data_types.specs.KindTrees.{TypedOk};
ghost use Rattle.data_types.specs.declared.typed.Typed.{out-Typed};
ghost use Rattle.data_types.specs.promise.TypedView.{typed_of};
ghost use Rattle.layout_rules.specs.promise.Layout.{layout_of, buffer_count};
ghost use Rattle.layout_rules.specs.Found.{found};
ghost use Rattle.layout_rules.specs.promise.Values.{rows_of};
ghost use Rattle.layout_rules.specs.promise.Walk.{LayoutOk, ChunkOk, root_fault, first_chunk_fault, top_fault, is_struct, is_table};
ghost use Rattle.layout_rules.specs.Walk.{nulls_in};

use crate::failing::Failing;
use crate::node::WellFormedNode;
use crate::nulls::null_total;
use crate::walk::{check_array, passes};
use data_types::{DataType, Path, Typed};
use layout_rules::{LayoutFault, LayoutRule, Numbers, lawful_root, layout_of};
use raw_array::RawArray;

/// Runs [`check_array`], and then checks the root: its type is a struct without a dictionary, and no item is null. Takes no
/// memory.
#[tactic(auto, using(crate::proofs::Chunks::lawful))]
pub fn check_chunk(typed: &Typed, array: &RawArray) -> Result<(), LayoutFault>
    requires { TypedOk (typed_of typed.now) }
    ensures fault { found result ≡ first_chunk_fault (typed_of typed.now) array.now }
    ensures lawful { IsOk result ↔ ChunkOk (typed_of typed.now) array.now }
{
    check_array(typed, array)?;
    check_top(typed, array)
}

/// Whether [`check_chunk`] finds no fault. Takes no memory.
pub fn chunk_passes(typed: &Typed, array: &RawArray) -> bool
    requires { TypedOk (typed_of typed.now) }
    ensures { IsTrue result ↔ ChunkOk (typed_of typed.now) array.now }
{
    passes(typed, array) && top_passes(typed, array)
}

/// How many items of a lawful array's window are null ("Arrow Columnar Format", "Validity bitmaps"). With a layout that has
/// no buffer all are ("Null Layout"). Takes no memory.
#[tactic(auto, using(crate::proofs::Chunks::nulls))]
pub fn nulls_of(typed: &Typed, array: &RawArray) -> i64
    requires { LayoutOk (typed_of typed.now) array.now }
    ensures { result ≡ pos (nulls_in (typed_of typed.now) array.now) }
{
    lawful_root(typed, array);
    let node = WellFormedNode::of(layout_of(&typed.kind), array);
    if node.buffer_count() == 0 {
        array.length()
    } else {
        null_total(&node) as i64
    }
}

/// How many items a lawful array's window has, which are the rows of a struct.
#[tactic(auto, using(layout_rules::proofs::TreeLaws::rows))]
pub fn count_rows(typed: &Typed, array: &RawArray) -> i64
    requires { LayoutOk (typed_of typed.now) array.now }
    ensures { result ≡ pos (length (rows_of (typed_of typed.now) array.now)) }
{
    lawful_root(typed, array);
    array.length()
}

fn is_struct(kind: &DataType) -> bool
    ensures exact { result ≡ is_struct kind.now }
    ensures buffers { IsTrue result → (found : ℕ) → buffer_count (layout_of kind.now) found ≡ 1 }
{
    matches!(kind, DataType::Struct)
}

/// The type is a struct without a dictionary.
#[tactic(auto, using(crate::proofs::Chunks::tables))]
fn is_table(typed: &Typed) -> bool
    ensures exact { result ≡ is_table (typed_of typed.now) }
    ensures buffers { IsTrue result → (found : ℕ) → buffer_count (layout_of (out-Typed typed.now).kind) found ≡ 1 }
{
    is_struct(&typed.kind) && typed.dict.is_none()
}

/// The two rules of a chunk's root.
#[tactic(auto, using(crate::proofs::Chunks::tops))]
fn check_top(typed: &Typed, array: &RawArray) -> Result<(), LayoutFault>
    requires { LayoutOk (typed_of typed.now) array.now }
    ensures { found result ≡ top_fault (typed_of typed.now) array.now }
{
    lawful_root(typed, array);
    if !is_table(typed) {
        return top_ruled(LayoutRule::TopKind, 0);
    }
    let nulls = null_total(&WellFormedNode::of(layout_of(&typed.kind), array));
    if nulls > 0 {
        return top_ruled(LayoutRule::TopNulls, nulls);
    }
    Ok(())
}

/// Whether the two rules of a chunk's root hold.
#[inline(always)]
#[tactic(auto, using(crate::proofs::Chunks::tops))]
fn top_passes(typed: &Typed, array: &RawArray) -> bool
    requires { LayoutOk (typed_of typed.now) array.now }
    ensures { result ≡ is_none (top_fault (typed_of typed.now) array.now) }
{
    lawful_root(typed, array);
    is_table(typed) && null_total(&WellFormedNode::of(layout_of(&typed.kind), array)) == 0
}

fn top_ruled(rule: LayoutRule, left: u64) -> Result<(), LayoutFault>
    ensures { found result ≡ Some (root_fault rule (pos left)) }
{
    let numbers = Numbers {
        place: 0,
        left: i128::from(left),
        right: 0,
    };
    let failing = Failing { rule, numbers };
    Err(failing.at(&Path::root()))
}
