//! Two threads that read a table at once, each by a tree of its own over the same blocks.
ghost use Rattle.std.specs.Prelude.{◌≡◌};
ghost use Rattle.data_types.specs.KindTrees.{TypedOk};
ghost use Rattle.data_types.specs.promise.TypedView.{typed_of};
ghost use Rattle.layout_rules.specs.promise.Walk.{LayoutOk};
ghost use Rattle.first_exchange.specs.Tables.{IsOfTwo};

use arr_import::Col;
use data_types::Typed;
use raw_array::RawArray;
use std::thread::{self, Threads};

/// Finds the greatest id by one tree and the longest name by the other, at once. Each thread has a tree of its own until both
/// are done. (A thread that released its tree would take a pass of its own along: `Pass::split`.)
pub fn read_in_threads<R: Threads + Sync>(
    rt: &R,
    typed: &Typed,
    one: &mut RawArray,
    other: &mut RawArray,
) -> (Option<i128>, usize)
    requires types { TypedOk (typed_of typed.now) }
    requires of_two { IsOfTwo (typed_of typed.now) }
    requires one { LayoutOk (typed_of typed.now) one.old }
    requires other { LayoutOk (typed_of typed.now) other.old }
    ensures one { one.new ≡ one.old }
    ensures other { other.new ≡ other.old }
{
    thread::join_mut(
        rt,
        &mut || greatest_id(typed, one),
        &mut || longest_name(typed, other),
    )
}

/// The greatest of the ids, or none where all are null.
fn greatest_id(typed: &Typed, table: &mut RawArray) -> Option<i128>
    requires types { TypedOk (typed_of typed.now) }
    requires of_two { IsOfTwo (typed_of typed.now) }
    requires lawful { LayoutOk (typed_of typed.now) table.old }
    ensures table { table.new ≡ table.old }
{
    let ids = Col::of(typed, table).child(0);
    let mut greatest = None;
    for row in 0..ids.len() {
        greatest = greatest.max(ids.whole(row));
    }
    greatest
}

/// The bytes of the longest name.
fn longest_name(typed: &Typed, table: &mut RawArray) -> usize
    requires types { TypedOk (typed_of typed.now) }
    requires of_two { IsOfTwo (typed_of typed.now) }
    requires lawful { LayoutOk (typed_of typed.now) table.old }
    ensures table { table.new ≡ table.old }
{
    let names = Col::of(typed, table).child(1);
    let mut longest = 0;
    for row in 0..names.len() {
        if let Some(name) = names.bytes(row) {
            longest = longest.max(name.len());
        }
    }
    longest
}
