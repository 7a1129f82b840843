//! An item that is added many times.
ghost use Rattle.std.specs.Prelude.{◌≡◌, ◌≢◌, ◌≤◌, ◌+◌, ◌/◌, ◌++◌, Bool, List, true, length, replicate, OnErr, OnOk, vec_capacity, vec_len};
ghost use Rattle.data_types.specs.promise.Value.{Value};
ghost use Rattle.col_build.specs.promise.Encoding.{if_some, is_set, null_total, validity_of};
ghost use Rattle.data_types.specs.promise.Value.{is_null};
ghost use Rattle.col_build.specs.Encoding.{most_values};
ghost use Rattle.col_build.specs.Holding.{HasBytes, HasValidity};
ghost use Rattle.col_build.specs.Items.{value_of};
ghost use Rattle.col_build.specs.Times.{IsBitwise};

use crate::bits::push_bits;
use crate::builder::is_null;
use crate::shape::Shape;
use crate::{Builder, Item};
use unit_pass::NoMemory;

/// Makes room for the bits of this many items more.
fn make_room(bits: &mut Vec<u8>, times: usize) -> Result<(), NoMemory>
    requires { times ≤ most_values }
    ensures items { bits.new.items ≡ bits.old.items }
    ensures room { OnOk result (vec_len bits.new + (times / 8 + 16) ≤ vec_capacity bits.new) }
{
    match bits.reserve(times / 8 + 16) {
        Ok(()) => Ok(()),
        Err(_) => Err(NoMemory),
    }
}

/// Adds the validity bits of an item that is there this many times more, behind this many, this many of them nulls. One that is null
/// is behind another null.
fn repeat_validity(
    validity: &mut Vec<u8>,
    count: usize,
    nulls: usize,
    null: bool,
    times: usize,
) -> Result<(), NoMemory>
    requires has { (values : List Value) × HasValidity validity.old.items count nulls values }
    requires few { count + times ≤ most_values }
    requires behind { null ≡ true → nulls ≢ 0 }
    ensures added { OnOk result ((values : List Value) (value : Value) → HasValidity validity.old.items count nulls values → is_null value ≡ null
        → if_some validity.new.items ≡ validity_of (values ++ replicate times value)) }
    ensures kept { OnErr result (validity.new.items ≡ validity.old.items) }
{
    if nulls == 0 {
        return Ok(());
    }
    make_room(validity, times)?;
    push_bits(validity, count, !null, times);
    Ok(())
}

/// How many of this many items are null, where all are or none.
fn nulls_among(null: bool, times: usize) -> usize
    ensures { (value : Value) → is_null value ≡ null → result ≡ null_total (replicate times value) }
{
    if null { times } else { 0 }
}

/// The truth value of an item, and false where it is none.
fn is_set(item: &Item<'_>) -> bool
    ensures { result ≡ is_set (value_of item.now) }
{
    match item {
        Item::Truth(truth) => *truth,
        _ => false,
    }
}

impl Builder {
    ghost use Rattle.col_build.specs.Holding.{Adds, Keeps, Takes};
    ghost use Rattle.col_build.specs.Times.{AddsSome, AddsTimes, TakesTimes};
    ghost use Rattle.col_build.specs.declared.shape.Shape.TheVariants.{Sized, Truths};

    /// Adds an item that the column takes this many times. Where its items have no bytes of their own, so as truth values, their
    /// bits are added by whole bytes.
    ///
    /// # Errors
    ///
    /// `NoMemory` where there is no memory for them. The item is there less often then, or not at all.
    pub fn add_times(&mut self, item: Item<'_>, times: u64) -> Result<(), NoMemory>
        requires takes { TakesTimes self.old (value_of item) times }
        ensures added { OnOk result (AddsTimes (value_of item.entry) times self.old self.new) }
        ensures some { OnErr result (AddsSome (value_of item.entry) times self.old self.new) }
    {
        let times = times as usize;
        match self.shape {
            Shape::Truths if times != 0 => self.add_bitwise(item, times),
            Shape::Sized { size: 0 } if times != 0 => self.add_bitwise(item, times),
            _ => self.add_each(item, times),
        }
    }

    /// Adds any item that the column takes, of a text without testing it again.
    #[inline(always)]
    fn add_any(&mut self, item: Item<'_>) -> Result<(), NoMemory>
        requires takes { Takes self.old (value_of item) }
        ensures added { OnOk result (Adds (value_of item.entry) self.old self.new) }
        ensures kept { OnErr result (Keeps self.old self.new) }
    {
        match item {
            Item::Bytes(bytes) => self.add_bytes(bytes),
            _ => self.add(item),
        }
    }

    /// The same, one by one.
    fn add_each(&mut self, item: Item<'_>, times: usize) -> Result<(), NoMemory>
        requires takes { TakesTimes self.old (value_of item) times }
        ensures added { OnOk result (AddsTimes (value_of item.entry) times self.old self.new) }
        ensures some { OnErr result (AddsSome (value_of item.entry) times self.old self.new) }
    {
        for _time in 0..times {
            self.add_any(item)?;
        }
        Ok(())
    }

    /// The same, by whole bytes of bits.
    fn add_bitwise(&mut self, item: Item<'_>, times: usize) -> Result<(), NoMemory>
        requires takes { TakesTimes self.old (value_of item) times }
        requires bitwise { IsBitwise self.old.shape }
        requires often { times ≢ 0 }
        ensures added { OnOk result (AddsTimes (value_of item.entry) times self.old self.new) }
        ensures some { OnErr result (AddsSome (value_of item.entry) times self.old self.new) }
    {
        self.add(item)?;
        self.repeat(is_set(&item), is_null(&item), times - 1)
    }

    /// Adds an item this many times more, which is a null behind another, or has this truth value.
    fn repeat(&mut self, truth: bool, null: bool, times: usize) -> Result<(), NoMemory>
        requires takes { (value : Value) × (is_null value ≡ null) × (is_set value ≡ truth) × TakesTimes self.old value times }
        requires bitwise { IsBitwise self.old.shape }
        requires behind { null ≡ true → self.old.nulls ≢ 0 }
        ensures added { OnOk result ((value : Value) → is_null value ≡ null → is_set value ≡ truth → TakesTimes self.old value times
            → AddsTimes value times self.old self.new) }
        ensures kept { OnErr result (Keeps self.old self.new) }
    {
        match self.shape {
            Shape::Truths => self.repeat_truth(truth, null, times),
            _ => self.repeat_nothing(null, times),
        }
    }

    /// Adds a truth value or a null this many times more.
    fn repeat_truth(&mut self, truth: bool, null: bool, times: usize) -> Result<(), NoMemory>
        requires takes { (value : Value) × (is_null value ≡ null) × (is_set value ≡ truth) × TakesTimes self.old value times }
        requires truths { self.old.shape ≡ Truths }
        requires behind { null ≡ true → self.old.nulls ≢ 0 }
        ensures added { OnOk result ((value : Value) → is_null value ≡ null → is_set value ≡ truth → TakesTimes self.old value times
            → AddsTimes value times self.old self.new) }
        ensures kept { OnErr result (Keeps self.old self.new) }
    {
        make_room(&mut self.bytes, times)?;
        repeat_validity(&mut self.validity, self.count, self.nulls, null, times)?;
        push_bits(&mut self.bytes, self.count, truth, times);
        self.count += times;
        self.nulls += nulls_among(null, times);
        Ok(())
    }

    /// Adds an item without bytes, or a null, this many times more.
    fn repeat_nothing(&mut self, null: bool, times: usize) -> Result<(), NoMemory>
        requires takes { (value : Value) × (is_null value ≡ null) × TakesTimes self.old value times }
        requires nothing { self.old.shape ≡ Sized 0 }
        requires behind { null ≡ true → self.old.nulls ≢ 0 }
        ensures added { OnOk result ((value : Value) → is_null value ≡ null → TakesTimes self.old value times
            → AddsTimes value times self.old self.new) }
        ensures kept { OnErr result (Keeps self.old self.new) }
    {
        repeat_validity(&mut self.validity, self.count, self.nulls, null, times)?;
        self.count += times;
        self.nulls += nulls_among(null, times);
        Ok(())
    }
}
