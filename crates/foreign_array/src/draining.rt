//! Chunks of a foreign producer, shown one after another and released.
ghost use Rattle.std.specs.Prelude.{◌≡◌, ◌+◌, ◌≤◌, List, [], ◌∷◌, Option, map, OnErr, OnOk};
ghost use Rattle.data_types.specs.promise.Table.{Row};
ghost use Rattle.data_types.specs.KindTrees.{TypedOk};
ghost use Rattle.data_types.specs.promise.TypedView.{typed_of};
ghost use Rattle.layout_rules.specs.promise.Values.{rows_of};
ghost use Rattle.layout_rules.specs.promise.Walk.{ChunkOk};
ghost use Rattle.unit_pass.specs.declared.pass.TheConstants.{SUPPLY};
ghost use Rattle.foreign_array.specs.Kept.{AreKept, tree_in, units_of_all};
ghost use Rattle.foreign_array.specs.Drained.{Drained, ShownAfter, grown};

use crate::foreign::Foreign;
use crate::owner::Owner;
use data_types::Typed;
use layout_check::check_chunk;
use layout_rules::LayoutFault;
use raw_array::RawArray;
use std::fmt;
use unit_pass::{NoMemory, Pass, SUPPLY};

/// A visitor that is shown chunks.
pub trait Visit {
    /// The rows of each chunk that it was shown, where it states them.
    ghost seen: { Self → Option (List (List Row)) };

    /// Shows a chunk that passes the check under these kinds. After `NoMemory` nothing is kept of it.
    fn chunk(&mut self, typed: &Typed, array: &RawArray) -> Result<(), NoMemory>
        requires kinds { TypedOk (typed_of typed.now) }
        requires chunk { ChunkOk (typed_of typed.now) array.now }
        ensures seen { OnOk result (seen self.new ≡ grown (seen self.old) (rows_of (typed_of typed.now) array.now ∷ [])) }
        ensures unseen { OnErr result (seen self.new ≡ seen self.old) };
}

/// Why not all chunks were shown.
#[derive(Clone, Copy, Debug, PartialEq, Eq)]
pub enum DrainFault {
    /// A chunk, by its number from 0, isn't lawful: its first fault.
    Layout { chunk: u64, fault: LayoutFault },
    /// The visitor ran out of memory.
    NoMemory,
}

impl From<NoMemory> for DrainFault {
    ghost use Rattle.foreign_array.specs.declared.draining.DrainFault.TheVariants.{NoMemory};

    ghost from_gives = { λ _ fault. fault ≡ NoMemory };

    fn from(_: NoMemory) -> DrainFault {
        DrainFault::NoMemory
    }
}

impl fmt::Display for DrainFault {
    ghost use Rattle.std.specs.Prelude.{Some};
    ghost use Rattle.foreign_array.specs.FaultTexts.{drain_fault_text};

    ghost output = { λ fault. Some (drain_fault_text fault) };

    fn fmt<W: fmt::Write>(&self, f: &mut fmt::Formatter<W>) -> fmt::Result {
        match self {
            DrainFault::Layout { chunk, fault } => write!(f, "chunk {chunk}: {fault}"),
            DrainFault::NoMemory => write!(f, "{NoMemory}"),
        }
    }
}

impl std::error::Error for DrainFault {}

/// Checks each chunk as a table of these kinds (`layout_check::check_chunk`), shows it and releases it, in their order; from the first
/// that is refused on, by the check or by the visitor, it only releases. So each chunk is released, whatever comes. Only the visitor
/// takes memory.
pub fn drain<O: Owner, V: Visit>(
    typed: &Typed,
    chunks: Vec<Foreign<O>>,
    visit: &mut V,
    pass: &mut Pass,
) -> Result<(), DrainFault>
    requires kinds { TypedOk (typed_of typed.now) }
    requires live { AreKept chunks.items }
    requires room { pass.old.units + units_of_all O.owes chunks.items ≤ SUPPLY }
    ensures drained { Drained (typed_of typed.now) (map tree_in chunks.items) result (V.seen visit.old) (V.seen visit.new) }
    ensures units { pass.new.units ≡ pass.old.units + units_of_all O.owes chunks.items }
    ensures blocks { pass.new.blocks ≡ pass.old.blocks }
    ensures nodes { pass.new.nodes ≡ pass.old.nodes }
{
    let mut chunks = chunks;
    chunks.reverse();
    let mut shown = Ok(());
    let mut number = 0;
    while let Some(mut chunk) = chunks.pop() {
        shown = go_on(shown, typed, number, chunk.array(), visit);
        number += 1;
        chunk.release(pass);
        chunk.discard();
    }
    chunks.destroy_empty();
    shown
}

/// Checks one chunk and shows it, unless one before it was refused.
fn go_on<V: Visit>(
    shown: Result<(), DrainFault>,
    typed: &Typed,
    number: u64,
    chunk: &RawArray,
    visit: &mut V,
) -> Result<(), DrainFault>
    requires { TypedOk (typed_of typed.now) }
    ensures { ShownAfter (typed_of typed.now) chunk.now number shown result (V.seen visit.old) (V.seen visit.new) }
{
    shown?;
    if let Err(fault) = check_chunk(typed, chunk) {
        return Err(DrainFault::Layout {
            chunk: number,
            fault,
        });
    }
    visit.chunk(typed, chunk)?;
    Ok(())
}
