//! A flat column in the making: items pushed one by one, and the column of them.
ghost use Rattle.std.specs.Prelude.{◌≡◌, ◌≤◌, ◌<◌, ◌^◌, ◌+◌, ◌∷◌, [], List, Bool, true, pos, length, map, IfOk, OnOk, OnErr};
ghost use Rattle.data_types.specs.promise.FieldText.{form_of};
ghost use Rattle.data_types.specs.Kinds.{KindOk};
ghost use Rattle.data_types.specs.promise.Value.{Value, Bytes};
ghost use Rattle.std.specs.Str.{is_utf8};
ghost use Rattle.data_types.specs.declared.kind.DataType.{DataType};
ghost use Rattle.data_types.specs.promise.Value.{is_null};
ghost use Rattle.col_build.specs.Encoding.{HasForm};
ghost use Rattle.col_build.specs.Items.{value_of};

use crate::ahead::cut_ahead;
use crate::shape::{Shape, shape_of};
use crate::store::store;
use crate::validity::{make_room, push_validity};
use crate::{Item, PushFault};
use data_types::DataType;
use std::alloc::Global;

/// A flat column in the making. Contracts say which values it holds, by `Holds`: its buffers are those of their encoding.
#[derive(Drop)]
pub struct Builder {
    pub(crate) kind: DataType,
    pub(crate) shape: Shape,
    pub(crate) count: usize,
    pub(crate) nulls: usize,
    pub(crate) validity: Vec<u8>,
    pub(crate) offsets: Vec<u8>,
    pub(crate) bytes: Vec<u8>,
}

/// Whether an item is null.
#[inline(always)]
pub(crate) fn is_null(item: &Item<'_>) -> bool
    ensures { result ≡ is_null (value_of item.now) }
{
    match item {
        Item::Null => true,
        _ => false,
    }
}

impl Builder {
    ghost use Rattle.col_build.specs.Holding.{Adds, Holds, HoldsFew, HoldsSome, IsLaidAs, IsPushed, Keeps};
    ghost use Rattle.col_build.specs.Settled.{AddsWhole, HoldsFewWhole, HoldsSomeWhole, HoldsWhole, IsPushedWhole, KeepsWhole, Settles};
    ghost use Rattle.col_build.specs.Shapes.{shape_fault};

    /// A column of a flat type, without values. Takes no memory.
    pub fn new(alloc: Global, kind: DataType) -> Builder
        requires kind { KindOk kind }
        requires flat { HasForm (form_of kind) }
        ensures { Holds result kind [] }
    {
        Builder {
            shape: shape_of(&kind),
            kind,
            count: 0,
            nulls: 0,
            validity: Vec::new(alloc),
            offsets: Vec::new(alloc),
            bytes: Vec::new(alloc),
        }
    }

    /// Cuts what is made ahead of further items.
    #[inline(always)]
    pub(crate) fn settle(&mut self)
        requires holds { HoldsSome self.old }
        ensures { Settles self.old self.new }
    {
        cut_ahead(self.shape, self.count, &mut self.offsets, &mut self.bytes);
    }

    /// Adds an item where nothing is made ahead, by a shape that lays it out as the builder's own does and takes it where
    /// that does.
    #[inline(always)]
    #[tactic(auto, using(crate::proofs::MadeAhead::whole_holds))]
    pub(crate) fn push_as(&mut self, shape: Shape, item: Item<'_>) -> Result<(), PushFault>
        requires holds { HoldsFewWhole self.old }
        requires laid { IsLaidAs shape self.old.shape }
        requires same { shape_fault shape (length self.old.bytes.items) (value_of item)
            ≡ shape_fault self.old.shape (length self.old.bytes.items) (value_of item) }
        ensures added { OnOk result (AddsWhole (value_of item.entry) self.old self.new) }
        ensures kept { OnErr result (KeepsWhole self.old self.new) }
        ensures answer { IsPushedWhole (value_of item.entry) self.old result }
    {
        let null = is_null(&item);
        make_room(&mut self.validity, self.count, self.nulls, null)?;
        store(shape, self.count, &mut self.offsets, &mut self.bytes, item)?;
        push_validity(&mut self.validity, self.count, self.nulls, null);
        self.count += 1;
        self.nulls += usize::from(null);
        Ok(())
    }

    /// Adds an item behind those that are there. Where it isn't taken the column is as before.
    #[inline(always)]
    pub fn push(&mut self, item: Item<'_>) -> Result<(), PushFault>
        requires holds { HoldsFew self.old }
        ensures added { OnOk result (Adds (value_of item.entry) self.old self.new) }
        ensures kept { OnErr result (Keeps self.old self.new) }
        ensures answer { IsPushed (value_of item.entry) self.old result }
    {
        self.settle();
        self.push_as(self.shape, item)
    }

    /// Adds bytes by a call, so that a push of a text is short where it is laid out.
    #[inline(never)]
    fn push_bytes(&mut self, bytes: &[u8]) -> Result<(), PushFault>
        requires holds { HoldsFew self.old }
        ensures added { OnOk result (Adds (Bytes bytes.now) self.old self.new) }
        ensures kept { OnErr result (Keeps self.old self.new) }
        ensures answer { IsPushed (Bytes bytes.now) self.old result }
    {
        self.push(Item::Bytes(bytes))
    }

    /// Adds a text that is UTF-8, which isn't tested again. Else as [`Builder::push`] of its bytes.
    #[inline(always)]
    pub fn push_text(&mut self, text: &[u8]) -> Result<(), PushFault>
        requires holds { HoldsFew self.old }
        requires text { is_utf8 text.now ≡ true }
        ensures added { OnOk result (Adds (Bytes text.now) self.old self.new) }
        ensures kept { OnErr result (Keeps self.old self.new) }
        ensures answer { IsPushed (Bytes text.now) self.old result }
    {
        match self.shape {
            Shape::Between { wide, text: _ } => {
                self.settle();
                self.push_as(Shape::Between { wide, text: false }, Item::Bytes(text))
            }
            _ => self.push_bytes(text),
        }
    }

    /// How many items there are.
    pub fn len(&self) -> i64
        requires holds { HoldsSome self.now }
        ensures { (kind : DataType) (values : List Value) → Holds self.now kind values → result ≡ pos (length values) }
    {
        self.count as i64
    }
}
