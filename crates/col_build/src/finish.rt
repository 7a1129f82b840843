//! The buffers of a builder, moved into blocks, and taken out again where memory runs out.
ghost use Rattle.std.specs.Prelude.{◌≡◌, ◌+◌, ◌<◌, ◌≤◌, ◌∷◌, [], ℕ, List, Option, true, false, length, if◌then◌else◌, is_ok, IfOk, IsTrue, IsUtf8, OnErr, OnOk};
ghost use Rattle.std.specs.Prelude.{vec_capacity, vec_len};
ghost use Rattle.unit_pass.specs.promise.Tally.{risen};
ghost use Rattle.unit_pass.specs.declared.pass.TheConstants.{SUPPLY};
ghost use Rattle.col_build.specs.Blocks.{AreAdded, AreSame, CanTake, IsAdded, IsEmptied, count_if};
ghost use Rattle.col_build.specs.promise.Encoding.{if_some};
ghost use Rattle.col_build.specs.Finished.{AreMade};

use crate::shape::Shape;
use crate::store::begin_offsets;
use crate::{Builder, FinishedColumn};
use buf_block::{BufView, make, make_text};
use std::alloc::Global;
use std::mem::replace;
use unit_pass::{NoMemory, Pass, SUPPLY};

/// Room to take the validity bits and the offsets of columns out of their blocks again, where memory runs out. It serves for
/// many columns.
#[derive(Drop)]
pub struct SpareBuffers {
    // The room for the first of three buffers, and for the one before the bytes.
    pub(crate) first: Vec<u8>,
    pub(crate) next: Vec<u8>,
}

impl SpareBuffers {
    /// No room yet. Takes no memory.
    pub fn new(alloc: Global) -> SpareBuffers {
        SpareBuffers {
            first: Vec::new(alloc),
            next: Vec::new(alloc),
        }
    }
}

/// The bytes of a kept block, whose hold is let go.
#[inline(never)]
fn take_out(alloc: Global, view: BufView, spare: &mut Vec<u8>, pass: &mut Pass) -> Vec<u8>
    requires none { spare.old.items ≡ [] }
    requires room { length view.hold.bytes ≤ vec_capacity spare.old }
    requires units { pass.old.units < SUPPLY }
    ensures bytes { result.items ≡ view.hold.bytes }
    ensures units { pass.new.units ≡ pass.old.units + 1 }
    ensures blocks { pass.new.blocks ≡ pass.old.blocks }
    ensures nodes { pass.new.nodes ≡ pass.old.nodes }
{
    let mut taken = replace(spare, Vec::new(alloc));
    match taken.extend_from_slice(view.hold.bytes()) {
        Ok(()) => {}
        Err(_) => unreachable!(),
    }
    let _left = view.let_go(pass);
    taken
}

/// Moves the bytes into a block, and adds the buffer of it; nothing where there are none. Where there is no memory the bytes
/// stay, and no buffer is added.
#[inline(always)]
fn add_block(
    buffers: &mut Vec<Option<BufView>>,
    alloc: Global,
    bytes: &mut Vec<u8>,
    text: bool,
    pass: &mut Pass,
) -> bool
    requires room { vec_len buffers.old < vec_capacity buffers.old }
    requires units { 1 ≤ pass.old.units }
    requires text { IsTrue text → IsUtf8 bytes.old.items }
    ensures added { result ≡ true → IsAdded buffers.old.items (if_some bytes.old.items) buffers.new.items }
    ensures moved { result ≡ true → bytes.new.items ≡ [] }
    ensures kept { result ≡ false → (bytes.new.items ≡ bytes.old.items) × (buffers.new.items ≡ buffers.old.items) }
    ensures room { vec_capacity buffers.new ≡ vec_capacity buffers.old }
    ensures units { pass.new.units + (if result then count_if bytes.old.items else 0) ≡ pass.old.units }
    ensures blocks { pass.new.blocks ≡ (if result then risen pass.old.blocks (count_if bytes.old.items) else pass.old.blocks) }
    ensures nodes { pass.new.nodes ≡ pass.old.nodes }
{
    if bytes.is_empty() {
        buffers.push_reserved(None);
        return true;
    }
    let moved = replace(bytes, Vec::new(alloc));
    let made = if text {
        make_text(alloc, moved, pass)
    } else {
        make(alloc, moved, pass)
    };
    match made {
        Ok(hold) => {
            buffers.push_reserved(Some(BufView::whole(hold)));
            true
        }
        Err((back, NoMemory)) => {
            *bytes = back;
            false
        }
    }
}

/// The same, with room to take the bytes out again.
#[inline(always)]
fn add_kept_block(
    buffers: &mut Vec<Option<BufView>>,
    alloc: Global,
    bytes: &mut Vec<u8>,
    spare: &mut Vec<u8>,
    pass: &mut Pass,
) -> bool
    requires room { vec_len buffers.old < vec_capacity buffers.old }
    requires units { 1 ≤ pass.old.units }
    ensures added { result ≡ true → IsAdded buffers.old.items (if_some bytes.old.items) buffers.new.items }
    ensures moved { result ≡ true → bytes.new.items ≡ [] }
    ensures spare { result ≡ true → CanTake spare.new bytes.old.items }
    ensures kept { result ≡ false → (bytes.new.items ≡ bytes.old.items) × (buffers.new.items ≡ buffers.old.items) }
    ensures room { vec_capacity buffers.new ≡ vec_capacity buffers.old }
    ensures units { pass.new.units + (if result then count_if bytes.old.items else 0) ≡ pass.old.units }
    ensures blocks { pass.new.blocks ≡ (if result then risen pass.old.blocks (count_if bytes.old.items) else pass.old.blocks) }
    ensures nodes { pass.new.nodes ≡ pass.old.nodes }
{
    if bytes.is_empty() {
        buffers.push_reserved(None);
        return true;
    }
    spare.clear();
    if spare.reserve(bytes.len()).is_err() {
        return false;
    }
    add_block(buffers, alloc, bytes, false, pass)
}

/// Takes the bytes of the last buffer out again, and the buffer away.
#[inline(never)]
fn take_back(
    buffers: &mut Vec<Option<BufView>>,
    alloc: Global,
    bytes: &mut Vec<u8>,
    spare: &mut Vec<u8>,
    pass: &mut Pass,
)
    requires last { (first : List (Option BufView)) × (content : List ℕ) × IsAdded first (if_some content) buffers.old.items × CanTake spare.old content
        × (pass.old.units + count_if content ≤ SUPPLY) }
    requires moved { bytes.old.items ≡ [] }
    ensures bytes { (first : List (Option BufView)) (content : List ℕ) → IsAdded first (if_some content) buffers.old.items → bytes.new.items ≡ content }
    ensures buffers { (first : List (Option BufView)) (content : List ℕ) → IsAdded first (if_some content) buffers.old.items → buffers.new.items ≡ first }
    ensures units { (first : List (Option BufView)) (content : List ℕ) → IsAdded first (if_some content) buffers.old.items
        → pass.new.units ≡ pass.old.units + count_if content }
    ensures nodes { pass.new.nodes ≡ pass.old.nodes }
{
    if let Some(Some(view)) = buffers.pop() {
        *bytes = take_out(alloc, view, spare, pass);
    }
}

/// Moves bytes that are kept and the last bytes into blocks, and adds their buffers. Where there is no memory all stay.
#[inline(always)]
fn lay_two(
    buffers: &mut Vec<Option<BufView>>,
    alloc: Global,
    kept: &mut Vec<u8>,
    bytes: &mut Vec<u8>,
    text: bool,
    spares: &mut SpareBuffers,
    pass: &mut Pass,
) -> bool
    requires room { vec_len buffers.old + 2 ≤ vec_capacity buffers.old }
    requires units { 2 ≤ pass.old.units }
    requires text { IsTrue text → IsUtf8 bytes.old.items }
    ensures added { result ≡ true → AreAdded buffers.old.items (if_some kept.old.items ∷ if_some bytes.old.items ∷ []) buffers.new.items }
    ensures moved { result ≡ true → (kept.new.items ≡ []) × (bytes.new.items ≡ []) }
    ensures kept { result ≡ false → (kept.new.items ≡ kept.old.items) × (bytes.new.items ≡ bytes.old.items) }
    ensures refused { result ≡ false → buffers.new.items ≡ buffers.old.items }
    ensures first { spares.new.first ≡ spares.old.first }
    ensures units { pass.new.units + (if result then count_if kept.old.items + count_if bytes.old.items else 0) ≡ pass.old.units }
    ensures blocks { result ≡ true → pass.new.blocks ≡ risen pass.old.blocks (count_if kept.old.items + count_if bytes.old.items) }
    ensures nodes { pass.new.nodes ≡ pass.old.nodes }
{
    if !add_kept_block(buffers, alloc, kept, &mut spares.next, pass) {
        return false;
    }
    if add_block(buffers, alloc, bytes, text, pass) {
        return true;
    }
    take_back(buffers, alloc, kept, &mut spares.next, pass);
    false
}

/// Moves the buffers of a column between offsets into blocks. Where there is no memory all stay.
#[inline(always)]
fn lay_three(
    buffers: &mut Vec<Option<BufView>>,
    alloc: Global,
    builder: &mut Builder,
    text: bool,
    spares: &mut SpareBuffers,
    pass: &mut Pass,
) -> bool
    requires none { buffers.old.items ≡ [] }
    requires room { 3 ≤ vec_capacity buffers.old }
    requires units { 3 ≤ pass.old.units }
    requires text { IsTrue text → IsUtf8 builder.old.bytes.items }
    ensures laid { result ≡ true → AreMade buffers.new.items
        (if_some builder.old.validity.items ∷ if_some builder.old.offsets.items ∷ if_some builder.old.bytes.items ∷ []) }
    ensures emptied { result ≡ true → IsEmptied builder.old builder.new }
    ensures kept { result ≡ false → AreSame builder.old builder.new }
    ensures refused { result ≡ false → buffers.new.items ≡ [] }
    ensures units { pass.new.units
        + (if result then count_if builder.old.validity.items + count_if builder.old.offsets.items + count_if builder.old.bytes.items else 0) ≡ pass.old.units }
    ensures blocks { result ≡ true → pass.new.blocks
        ≡ risen pass.old.blocks (count_if builder.old.validity.items + count_if builder.old.offsets.items + count_if builder.old.bytes.items) }
    ensures nodes { pass.new.nodes ≡ pass.old.nodes }
{
    if !add_kept_block(
        buffers,
        alloc,
        &mut builder.validity,
        &mut spares.first,
        pass,
    ) {
        return false;
    }
    if lay_two(
        buffers,
        alloc,
        &mut builder.offsets,
        &mut builder.bytes,
        text,
        spares,
        pass,
    ) {
        return true;
    }
    take_back(
        buffers,
        alloc,
        &mut builder.validity,
        &mut spares.first,
        pass,
    );
    false
}

impl Builder {
    ghost use Rattle.col_build.specs.promise.Encoding.{encoded};
    ghost use Rattle.col_build.specs.Encoding.{Fits};
    ghost use Rattle.col_build.specs.promise.Finished.{blocks_of};
    ghost use Rattle.col_build.specs.Finished.{IsEncoded};
    ghost use Rattle.col_build.specs.Holding.{Holds, HoldsSome, Keeps};
    ghost use Rattle.col_build.specs.Settled.{HoldsSomeWhole, HoldsWhole, KeepsWhole};
    ghost use Rattle.data_types.specs.promise.Value.{Value};
    ghost use Rattle.data_types.specs.declared.kind.DataType.{DataType};

    /// Moves the buffers of a column with nothing ahead into blocks. Where there is no memory the builder holds the same.
    #[inline(always)]
    fn lay_out(
        &mut self,
        buffers: &mut Vec<Option<BufView>>,
        alloc: Global,
        spares: &mut SpareBuffers,
        pass: &mut Pass,
    ) -> bool
        requires none { buffers.old.items ≡ [] }
        requires room { 3 ≤ vec_capacity buffers.old }
        requires holds { HoldsSomeWhole self.old }
        requires units { 3 ≤ pass.old.units }
        ensures laid { result ≡ true
            → (kind : DataType) (values : List Value) → HoldsWhole self.old kind values → AreMade buffers.new.items (encoded kind values).buffers }
        ensures emptied { result ≡ true → IsEmptied self.old self.new }
        ensures kept { result ≡ false → KeepsWhole self.old self.new }
        ensures refused { result ≡ false → buffers.new.items ≡ [] }
        ensures units { (kind : DataType) (values : List Value) → HoldsWhole self.old kind values
            → pass.new.units + (if result then blocks_of kind values else 0) ≡ pass.old.units }
        ensures blocks { result ≡ true
            → (kind : DataType) (values : List Value) → HoldsWhole self.old kind values → pass.new.blocks ≡ risen pass.old.blocks (blocks_of kind values) }
        ensures nodes { pass.new.nodes ≡ pass.old.nodes }
    {
        match self.shape {
            Shape::Between { wide, text } => match begin_offsets(&mut self.offsets, wide) {
                Ok(()) => lay_three(buffers, alloc, self, text, spares, pass),
                Err(_) => false,
            },
            _ => lay_two(
                buffers,
                alloc,
                &mut self.validity,
                &mut self.bytes,
                false,
                spares,
                pass,
            ),
        }
    }

    /// The column of the items of a builder with nothing ahead. As [`Builder::finish`].
    #[inline(always)]
    fn finish_whole(
        &mut self,
        alloc: Global,
        spares: &mut SpareBuffers,
        pass: &mut Pass,
    ) -> Result<FinishedColumn, NoMemory>
        requires holds { HoldsSomeWhole self.old }
        requires units { 3 ≤ pass.old.units }
        ensures encoded { IfOk result (λ column. (kind : DataType) (values : List Value) → HoldsWhole self.old kind values → IsEncoded column kind values) }
        ensures emptied { OnOk result ((kind : DataType) (values : List Value) → HoldsWhole self.old kind values → Holds self.new kind []) }
        ensures kept { OnErr result (KeepsWhole self.old self.new) }
        ensures units { (kind : DataType) (values : List Value) → HoldsWhole self.old kind values
            → pass.new.units + (if is_ok result then blocks_of kind values else 0) ≡ pass.old.units }
        ensures blocks { OnOk result
            ((kind : DataType) (values : List Value) → HoldsWhole self.old kind values → pass.new.blocks ≡ risen pass.old.blocks (blocks_of kind values)) }
        ensures nodes { pass.new.nodes ≡ pass.old.nodes }
    {
        let Ok(mut buffers) = Vec::with_capacity(alloc, 3) else {
            return Err(NoMemory);
        };
        if !self.lay_out(&mut buffers, alloc, spares, pass) {
            buffers.destroy_empty();
            return Err(NoMemory);
        }
        let column = FinishedColumn {
            length: self.count as i64,
            null_count: self.nulls as i64,
            buffers,
        };
        self.count = 0;
        self.nulls = 0;
        Ok(column)
    }

    /// The column of the items, whose buffers are moved into blocks. Draws a unit and counts a block for each buffer that is
    /// there. The builder holds no items then, and where memory runs out the same as before. The spares serve for many columns.
    #[inline(always)]
    pub fn finish(
        &mut self,
        alloc: Global,
        spares: &mut SpareBuffers,
        pass: &mut Pass,
    ) -> Result<FinishedColumn, NoMemory>
        requires holds { HoldsSome self.old }
        requires units { 3 ≤ pass.old.units }
        ensures encoded { IfOk result (λ column. (kind : DataType) (values : List Value) → Holds self.old kind values → IsEncoded column kind values) }
        ensures fits { (kind : DataType) (values : List Value) → Holds self.old kind values → Fits kind values }
        ensures emptied { OnOk result ((kind : DataType) (values : List Value) → Holds self.old kind values → Holds self.new kind []) }
        ensures kept { OnErr result (Keeps self.old self.new) }
        ensures units { (kind : DataType) (values : List Value) → Holds self.old kind values
            → pass.new.units + (if is_ok result then blocks_of kind values else 0) ≡ pass.old.units }
        ensures blocks { OnOk result
            ((kind : DataType) (values : List Value) → Holds self.old kind values → pass.new.blocks ≡ risen pass.old.blocks (blocks_of kind values)) }
        ensures nodes { pass.new.nodes ≡ pass.old.nodes }
    {
        self.settle();
        self.finish_whole(alloc, spares, pass)
    }
}
