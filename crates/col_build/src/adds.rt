//! Values added to a column that takes them. A number or a short text costs one test and the stores, since its place was made
//! ahead, and behind a null its validity bit.
ghost use Rattle.std.specs.Prelude.{◌≡◌, ◌≢◌, ◌≤◌, ◌<◌, ◌+◌, ◌*◌, ◌⊎◌, ◌∷◌, [], Bool, List, false, true, length, take, vec_len, IfOk, OnOk, OnErr};
ghost use Rattle.data_types.specs.promise.FieldText.{form_of};
ghost use Rattle.data_types.specs.Kinds.{KindOk};
ghost use Rattle.data_types.specs.promise.Value.{Value, Null, Truth, Whole, Bits, Bytes, bytes_of};
ghost use Rattle.data_types.specs.declared.kind.DataType.{DataType};
ghost use Rattle.data_types.specs.promise.Value.{is_null};
ghost use Rattle.col_build.specs.promise.Encoding.{is_set};
ghost use Rattle.col_build.specs.Encoding.{HasForm, most_values};
ghost use Rattle.col_build.specs.Holding.{HasBytes, bytes_in, offsets_in};
ghost use Rattle.col_build.specs.Items.{value_of};

use crate::ahead::{
    AHEAD, end_of, fill_ahead, last_end, put_bytes, put_number, put_whole, put_zeros,
};
use crate::bits::push_bit;
use crate::shape::{Shape, shape_of};
use crate::validity::{add_validity, make_room, push_validity};
use crate::{Builder, Item, PushFault};
use data_types::DataType;
use std::alloc::Global;
use unit_pass::NoMemory;

/// Whether an offset of four bytes behind this many items has its place.
#[inline(always)]
fn is_offset_there(offsets: &Vec<u8>, count: usize) -> bool
    requires { count ≤ most_values }
    ensures { result ≡ true → count * 4 + 8 ≤ vec_len offsets.now }
{
    count * 4 + 8 <= offsets.len()
}

/// Makes this many zeros, the first narrow offset and what is ahead of it.
fn fill_first(offsets: &mut Vec<u8>, end: usize) -> Result<(), NoMemory>
    requires none { offsets.old.items ≡ [] }
    requires some { 4 ≤ end }
    ensures { OnOk result (take 4 offsets.new.items ≡ 0 ∷ 0 ∷ 0 ∷ 0 ∷ []) }
{
    match offsets.resize(end, 0) {
        Ok(()) => Ok(()),
        Err(_) => Err(NoMemory),
    }
}

/// The first narrow offset, with zeros ahead and room for the offsets of this many items.
fn begin_ahead(alloc: Global, items: usize) -> Result<Vec<u8>, NoMemory>
    ensures { IfOk result (λ offsets. take 4 offsets.items ≡ 0 ∷ 0 ∷ 0 ∷ 0 ∷ []) }
{
    let all = items.saturating_add(1).saturating_mul(4);
    let Ok(mut offsets) = Vec::with_capacity(alloc, all) else {
        return Err(NoMemory);
    };
    fill_first(&mut offsets, all.min(AHEAD))?;
    Ok(offsets)
}

/// The offsets of no items, with room for those of this many where they are narrow.
fn first_offsets(alloc: Global, shape: Shape, items: usize) -> Result<Vec<u8>, NoMemory>
    ensures { IfOk result (λ offsets. HasBytes shape [] (offsets_in shape 0 offsets.items) (bytes_in shape 0 offsets.items [])) }
{
    match shape {
        Shape::Between {
            wide: false,
            text: _,
        } => begin_ahead(alloc, items),
        _ => Ok(Vec::new(alloc)),
    }
}

impl Builder {
    ghost use Rattle.col_build.specs.Holding.{Adds, Holds, HoldsFew, HoldsFloats, HoldsSome, HoldsWholes, Keeps, Takes};
    ghost use Rattle.col_build.specs.Settled.{IsNarrow, IsNumbers};
    ghost use Rattle.col_build.specs.declared.shape.Shape.TheVariants.{Between, Floats, Sized, Truths, Wholes};

    /// Adds any item that the column takes.
    #[inline(never)]
    pub fn add(&mut self, item: Item<'_>) -> Result<(), NoMemory>
        requires takes { Takes self.old (value_of item) }
        ensures added { OnOk result (Adds (value_of item.entry) self.old self.new) }
        ensures kept { OnErr result (Keeps self.old self.new) }
    {
        match self.push(item) {
            Ok(()) => Ok(()),
            Err(PushFault::NoMemory) => Err(NoMemory),
            Err(_) => unreachable!(),
        }
    }

    /// Whether the next number of a width has its place.
    #[inline(always)]
    fn has_place(&self, width: usize) -> bool
        requires few { self.now.count ≤ most_values }
        requires width { width ≤ 16 }
        ensures { result ≡ true → self.now.count * width + width ≤ vec_len self.now.bytes }
    {
        self.count * width + width <= self.bytes.len()
    }

    /// Makes places for the next numbers.
    #[inline(never)]
    fn make_places(&mut self, width: usize) -> Result<(), NoMemory>
        requires holds { HoldsSome self.old }
        requires numbers { IsNumbers width self.old.shape }
        ensures kept { Keeps self.old self.new }
        ensures place { OnOk result (self.new.count * width + width ≤ vec_len self.new.bytes) }
        ensures shape { self.new.shape ≡ self.old.shape }
        ensures nulls { self.new.nulls ≡ self.old.nulls }
    {
        fill_ahead(&mut self.bytes, self.count * width, width)
    }

    /// Makes the place of the next number, where it isn't there.
    #[tactic(auto, using(crate::proofs::OneMore::null_adds))]
    #[inline(always)]
    fn make_place(&mut self, width: usize) -> Result<(), NoMemory>
        requires holds { HoldsFew self.old }
        requires numbers { IsNumbers width self.old.shape }
        ensures kept { Keeps self.old self.new }
        ensures place { OnOk result (self.new.count * width + width ≤ vec_len self.new.bytes) }
        ensures shape { self.new.shape ≡ self.old.shape }
    {
        if self.has_place(width) {
            return Ok(());
        }
        self.make_places(width)
    }

    /// Stores a whole number in its place, and its validity bit.
    #[tactic(auto, using(crate::proofs::OneMore::whole_adds))]
    #[inline(always)]
    fn put_whole(&mut self, width: usize, number: i128) -> Result<(), NoMemory>
        requires takes { Takes self.old (Whole number) }
        requires shape { (signed : Bool) × (self.old.shape ≡ Wholes width signed) }
        requires place { self.old.count * width + width ≤ vec_len self.old.bytes }
        ensures added { OnOk result (Adds (Whole number) self.old self.new) }
        ensures kept { OnErr result (Keeps self.old self.new) }
    {
        add_validity(&mut self.validity, self.count, self.nulls, false)?;
        put_whole(&mut self.bytes, self.count * width, width, number);
        self.count += 1;
        Ok(())
    }

    /// Adds a whole number that the column takes, of a width in bytes that is a constant where it is added.
    #[tactic(auto, using(crate::proofs::OneMore::whole_adds))]
    #[inline(always)]
    pub fn add_whole(&mut self, width: usize, number: i128) -> Result<(), NoMemory>
        requires takes { Takes self.old (Whole number) }
        requires width { HoldsWholes width self.old }
        ensures added { OnOk result (Adds (Whole number) self.old self.new) }
        ensures kept { OnErr result (Keeps self.old self.new) }
    {
        if self.has_place(width) {
            return self.put_whole(width, number);
        }
        self.add_whole_rarely(width, number)
    }

    #[tactic(auto, using(crate::proofs::OneMore::whole_adds))]
    #[inline(never)]
    fn add_whole_rarely(&mut self, width: usize, number: i128) -> Result<(), NoMemory>
        requires takes { Takes self.old (Whole number) }
        requires shape { (signed : Bool) × (self.old.shape ≡ Wholes width signed) }
        ensures added { OnOk result (Adds (Whole number) self.old self.new) }
        ensures kept { OnErr result (Keeps self.old self.new) }
    {
        self.make_places(width)?;
        self.put_whole(width, number)
    }

    /// Stores the bits of a float in their place, and its validity bit.
    #[tactic(auto, using(crate::proofs::OneMore::float_adds))]
    #[inline(always)]
    fn put_bits(&mut self, width: usize, number: u64) -> Result<(), NoMemory>
        requires takes { Takes self.old (Bits number) }
        requires shape { self.old.shape ≡ Floats width }
        requires place { self.old.count * width + width ≤ vec_len self.old.bytes }
        ensures added { OnOk result (Adds (Bits number) self.old self.new) }
        ensures kept { OnErr result (Keeps self.old self.new) }
    {
        add_validity(&mut self.validity, self.count, self.nulls, false)?;
        put_number(&mut self.bytes, self.count * width, width, number);
        self.count += 1;
        Ok(())
    }

    /// Adds the bits of a float that the column takes, of a width in bytes that is a constant where it is added.
    #[tactic(auto, using(crate::proofs::OneMore::float_adds))]
    #[inline(always)]
    pub fn add_bits(&mut self, width: usize, number: u64) -> Result<(), NoMemory>
        requires takes { Takes self.old (Bits number) }
        requires width { HoldsFloats width self.old }
        ensures added { OnOk result (Adds (Bits number) self.old self.new) }
        ensures kept { OnErr result (Keeps self.old self.new) }
    {
        if self.has_place(width) {
            return self.put_bits(width, number);
        }
        self.add_bits_rarely(width, number)
    }

    #[tactic(auto, using(crate::proofs::OneMore::float_adds))]
    #[inline(never)]
    fn add_bits_rarely(&mut self, width: usize, number: u64) -> Result<(), NoMemory>
        requires takes { Takes self.old (Bits number) }
        requires shape { self.old.shape ≡ Floats width }
        ensures added { OnOk result (Adds (Bits number) self.old self.new) }
        ensures kept { OnErr result (Keeps self.old self.new) }
    {
        self.make_places(width)?;
        self.put_bits(width, number)
    }

    /// Adds a truth value that the column takes.
    #[inline(always)]
    pub fn add_truth(&mut self, truth: bool) -> Result<(), NoMemory>
        requires takes { Takes self.old (Truth truth) }
        ensures added { OnOk result (Adds (Truth truth) self.old self.new) }
        ensures kept { OnErr result (Keeps self.old self.new) }
    {
        self.put_truth(truth, false)
    }

    /// Adds a bit and its validity bit: a truth value, or a null by a clear bit.
    #[inline(always)]
    fn put_truth(&mut self, truth: bool, null: bool) -> Result<(), NoMemory>
        requires holds { HoldsFew self.old }
        requires truths { self.old.shape ≡ Truths }
        ensures added { OnOk result ((value : Value) → is_null value ≡ null → is_set value ≡ truth → Takes self.old value
            → Adds value self.old self.new) }
        ensures kept { OnErr result (Keeps self.old self.new) }
    {
        let nulls = self.nulls;
        match make_room(&mut self.validity, self.count, nulls, null) {
            Ok(()) => {}
            Err(_) => return Err(NoMemory),
        }
        push_bit(&mut self.bytes, self.count, truth)?;
        push_validity(&mut self.validity, self.count, nulls, null);
        self.count += 1;
        self.nulls += usize::from(null);
        Ok(())
    }

    /// Adds bytes that the column takes.
    #[inline(always)]
    pub fn add_bytes(&mut self, bytes: &[u8]) -> Result<(), NoMemory>
        requires takes { Takes self.old (Bytes bytes.now) }
        ensures added { OnOk result (Adds (Bytes bytes.now) self.old self.new) }
        ensures kept { OnErr result (Keeps self.old self.new) }
    {
        match self.shape {
            Shape::Between {
                wide: false,
                text: _,
            } if is_offset_there(&self.offsets, self.count) => { self.put_between(bytes, false) }
            _ => self.add_bytes_rarely(bytes),
        }
    }

    /// Adds bytes that are first of all, between wide offsets, or of a fixed size.
    #[inline(never)]
    fn add_bytes_rarely(&mut self, bytes: &[u8]) -> Result<(), NoMemory>
        requires takes { Takes self.old (Bytes bytes.now) }
        ensures added { OnOk result (Adds (Bytes bytes.now) self.old self.new) }
        ensures kept { OnErr result (Keeps self.old self.new) }
    {
        match self.shape {
            Shape::Between {
                wide: false,
                text: _,
            } if !self.offsets.is_empty() => {
                self.make_offset()?;
                self.put_between(bytes, false)
            }
            Shape::Between {
                wide: true,
                text: _,
            } => self.push_untested(true, bytes),
            Shape::Between {
                wide: false,
                text: _,
            } => self.push_untested(false, bytes),
            Shape::Sized { size } => self.push_sized(size, bytes),
            _ => self.add(Item::Bytes(bytes)),
        }
    }

    /// Adds a null among numbers of a width.
    #[tactic(auto, using(crate::proofs::OneMore::null_adds))]
    #[inline(always)]
    fn add_null_number(&mut self, width: usize) -> Result<(), NoMemory>
        requires holds { HoldsFew self.old }
        requires numbers { IsNumbers width self.old.shape }
        ensures added { OnOk result (Adds Null self.old self.new) }
        ensures kept { OnErr result (Keeps self.old self.new) }
    {
        self.make_place(width)?;
        add_validity(&mut self.validity, self.count, self.nulls, true)?;
        put_zeros(&mut self.bytes, self.count * width, width);
        self.count += 1;
        self.nulls += 1;
        Ok(())
    }

    /// Adds a null.
    #[tactic(auto, using(crate::proofs::OneMore::null_adds))]
    #[inline(never)]
    pub fn add_null(&mut self) -> Result<(), NoMemory>
        requires holds { HoldsFew self.old }
        ensures added { OnOk result (Adds Null self.old self.new) }
        ensures kept { OnErr result (Keeps self.old self.new) }
    {
        match self.shape {
            Shape::Wholes { width, signed: _ } => self.add_null_number(width),
            Shape::Floats { width } => self.add_null_number(width),
            Shape::Truths => self.put_truth(false, true),
            Shape::Between {
                wide: false,
                text: _,
            } if !self.offsets.is_empty() => {
                self.make_offset()?;
                self.put_between(&[], true)
            }
            _ => self.add(Item::Null),
        }
    }

    /// Makes the place of the next narrow offset, where it isn't there.
    #[inline(always)]
    fn make_offset(&mut self) -> Result<(), NoMemory>
        requires holds { HoldsFew self.old }
        requires narrow { IsNarrow self.old.shape }
        requires begun { self.old.offsets.items ≢ [] }
        ensures kept { Keeps self.old self.new }
        ensures place { OnOk result (self.new.count * 4 + 8 ≤ vec_len self.new.offsets) }
        ensures shape { self.new.shape ≡ self.old.shape }
    {
        if is_offset_there(&self.offsets, self.count) {
            return Ok(());
        }
        fill_ahead(&mut self.offsets, self.count * 4 + 4, 4)
    }

    /// Stores bytes and their narrow offset in its place, or a null without bytes.
    #[inline(always)]
    fn put_between(&mut self, bytes: &[u8], null: bool) -> Result<(), NoMemory>
        requires holds { HoldsFew self.old }
        requires narrow { IsNarrow self.old.shape }
        requires place { self.old.count * 4 + 8 ≤ vec_len self.old.offsets }
        ensures added { OnOk result ((value : Value) → is_null value ≡ null → bytes_of value ≡ bytes.now → Takes self.old value
            → Adds value self.old self.new) }
        ensures kept { OnErr result (Keeps self.old self.new) }
    {
        let start = last_end(&self.offsets, self.count);
        put_bytes(&mut self.bytes, start, bytes)?;
        add_validity(&mut self.validity, self.count, self.nulls, null)?;
        let end = start + bytes.len();
        put_number(&mut self.offsets, self.count * 4 + 4, 4, end as u64);
        self.count += 1;
        self.nulls += usize::from(null);
        Ok(())
    }

    /// Adds bytes that the column takes, so that a text isn't tested again.
    #[inline(always)]
    fn push_untested(&mut self, wide: bool, bytes: &[u8]) -> Result<(), NoMemory>
        requires takes { Takes self.old (Bytes bytes.now) }
        requires between { (text : Bool) × (self.old.shape ≡ Between wide text) }
        ensures added { OnOk result (Adds (Bytes bytes.now) self.old self.new) }
        ensures kept { OnErr result (Keeps self.old self.new) }
    {
        self.settle();
        match self.push_as(Shape::Between { wide, text: false }, Item::Bytes(bytes)) {
            Ok(()) => Ok(()),
            Err(PushFault::NoMemory) => Err(NoMemory),
            Err(_) => unreachable!(),
        }
    }

    /// Adds bytes of a fixed size that the column takes.
    #[inline(always)]
    fn push_sized(&mut self, size: usize, bytes: &[u8]) -> Result<(), NoMemory>
        requires takes { Takes self.old (Bytes bytes.now) }
        requires sized { self.old.shape ≡ Sized size }
        ensures added { OnOk result (Adds (Bytes bytes.now) self.old self.new) }
        ensures kept { OnErr result (Keeps self.old self.new) }
    {
        self.settle();
        match self.push_as(Shape::Sized { size }, Item::Bytes(bytes)) {
            Ok(()) => Ok(()),
            Err(PushFault::NoMemory) => Err(NoMemory),
            Err(_) => unreachable!(),
        }
    }

    /// How many bytes the items have between narrow offsets.
    fn bytes_between(&self) -> usize
        requires holds { HoldsSome self.now }
        requires narrow { IsNarrow self.now.shape }
    {
        end_of(&self.offsets, self.count)
    }

    /// How many items there are, and how many bytes they take beside their offsets, as a measure of the room that others
    /// like them need.
    pub fn used(&self) -> (usize, usize)
        requires holds { HoldsSome self.now }
        ensures { (kind : DataType) (values : List Value) → Holds self.now kind values → result.0 ≡ length values }
    {
        let bytes = match self.shape {
            Shape::Wholes { width, signed: _ } => self.count * width,
            Shape::Floats { width } => self.count * width,
            Shape::Between {
                wide: false,
                text: _,
            } => self.bytes_between(),
            _ => self.bytes.len(),
        };
        (self.count, bytes)
    }

    /// Begins anew: the column without values, with room for this many items, and for this many bytes of theirs. Where memory runs
    /// out it stays.
    pub fn begin_anew(&mut self, alloc: Global, items: usize, bytes: usize) -> Result<(), NoMemory>
        requires holds { HoldsSome self.old }
        ensures begun { OnOk result ((kind : DataType) (values : List Value) → Holds self.old kind values → Holds self.new kind []) }
        ensures kept { OnErr result (self.new ≡ self.old) }
    {
        let offsets = first_offsets(alloc, self.shape, items)?;
        let Ok(bytes) = Vec::with_capacity(alloc, bytes) else {
            return Err(NoMemory);
        };
        self.count = 0;
        self.nulls = 0;
        self.validity.clear();
        self.offsets = offsets;
        self.bytes = bytes;
        Ok(())
    }

    /// A column of a flat type, without values, with room for this many items, and for this many bytes of theirs.
    pub fn with_room(
        alloc: Global,
        kind: DataType,
        items: usize,
        bytes: usize,
    ) -> Result<Builder, NoMemory>
        requires kind { KindOk kind }
        requires flat { HasForm (form_of kind) }
        ensures { IfOk result (λ builder. Holds builder kind []) }
    {
        let shape = shape_of(&kind);
        let offsets = first_offsets(alloc, shape, items)?;
        let Ok(bytes) = Vec::with_capacity(alloc, bytes) else {
            return Err(NoMemory);
        };
        Ok(Builder {
            kind,
            shape,
            count: 0,
            nulls: 0,
            validity: Vec::new(alloc),
            offsets,
            bytes,
        })
    }
}
