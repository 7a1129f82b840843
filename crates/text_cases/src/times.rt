//! Columns whose items are each added many times by one call.
ghost use Rattle.std.specs.Prelude.{◌≡◌, ◌≤◌, ◌<◌, ◌+◌, ◌++◌, ℕ, [], List, length, replicate, None, OnOk};
ghost use Rattle.data_types.specs.promise.Value.{Value};
ghost use Rattle.data_types.specs.declared.kind.DataType.{DataType as AType};
ghost use Rattle.col_build.specs.Encoding.{most_values, push_fault};
ghost use Rattle.col_build.specs.Holding.{Adds, Holds, HoldsFew, HoldsSome};
ghost use Rattle.col_build.specs.Items.{value_of};
ghost use Rattle.col_build.specs.Times.{AddsTimes};

use crate::added::no_case;
use crate::columns::item_of;
use crate::subject::no_memory;
use col_build::{Builder, Item, PushFault};
use std::io;
use unit_pass::NoMemory;

/// Pushes an item to a column, which tries it.
fn push_one(pushed: &mut Builder, item: Item<'_>) -> io::Result<()>
    requires few { HoldsFew pushed.old }
    ensures added { OnOk result (Adds (value_of item.entry) pushed.old pushed.new) }
    ensures taken { OnOk result ((kind : AType) (values : List Value) → Holds pushed.old kind values
        → push_fault kind values (value_of item.entry) ≡ None) }
{
    match pushed.push(item) {
        Ok(()) => Ok(()),
        Err(PushFault::NoMemory) => Err(no_memory()),
        Err(_fault) => Err(no_case()),
    }
}

/// Pushes an item this many times to a column, which tries it each time.
fn push_each(pushed: &mut Builder, item: Item<'_>, times: usize) -> io::Result<()>
    requires room { (kind : AType) × (values : List Value) × Holds pushed.old kind values × (length values + times ≤ most_values) }
    ensures pushed { OnOk result (AddsTimes (value_of item.entry) times pushed.old pushed.new) }
    ensures taken { OnOk result ((kind : AType) (values : List Value) → Holds pushed.old kind values → (i : ℕ) → i < times
        → push_fault kind (values ++ replicate i (value_of item.entry)) (value_of item.entry) ≡ None) }
{
    for _time in 0..times {
        push_one(pushed, item)?;
    }
    Ok(())
}

/// Adds an item this many times at once to a column, behind as many pushes to another of the same items.
fn take_times(
    pushed: &mut Builder,
    added: &mut Builder,
    item: Item<'_>,
    times: usize,
) -> io::Result<()>
    requires same { (kind : AType) × (values : List Value) × Holds pushed.old kind values × Holds added.old kind values
        × (length values + times ≤ most_values) }
    ensures pushed { OnOk result (AddsTimes (value_of item.entry) times pushed.old pushed.new) }
    ensures added { OnOk result (AddsTimes (value_of item.entry) times added.old added.new) }
{
    push_each(pushed, item, times)?;
    match added.add_times(item, times as u64) {
        Ok(()) => Ok(()),
        Err(NoMemory) => Err(no_memory()),
    }
}

/// Takes the items that the words spell, each this many times.
pub(crate) fn take_words(
    pushed: &mut Builder,
    added: &mut Builder,
    words: &[Vec<u8>],
    times: usize,
) -> io::Result<()>
    requires none { (kind : AType) × Holds pushed.old kind [] × Holds added.old kind [] }
    requires words { length words.now ≤ 1000 }
    requires few { times ≤ 100000 }
    ensures { OnOk result (HoldsSome added.new) }
{
    for word in words {
        let item = item_of(word.as_slice()).ok_or_else(no_case)?;
        take_times(pushed, added, item, times)?;
    }
    Ok(())
}
