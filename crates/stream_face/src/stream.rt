//! The trait of streams of chunks.
ghost use Rattle.std.specs.Prelude.{◌≡◌, ◌≢◌, ◌≤◌, ◌+◌, ◌↔◌, IsTrue, Some, false, not, pos};
ghost use Rattle.std.specs.Thread.{IsSync};
ghost use Rattle.tree_model.specs.promise.TreeData.{Released};
ghost use Rattle.raw_array.specs.promise.Members.{Cost};
ghost use Rattle.tree_model.specs.promise.TreeCost.{Nodes};
ghost use Rattle.unit_pass.specs.declared.pass.TheConstants.{ROOM, SUPPLY};
ghost use Rattle.stream_face.specs.Calls.{Answers, Counts, IsCode, IsRowFault, IsTold, Repeats, SchemaAnswer, ShowsInOrder, Tells};
ghost use Rattle.stream_face.specs.Codes.{enomem};
ghost use Rattle.stream_face.specs.Lawful.{LawfulColumns, LawfulTables};
ghost use Rattle.stream_face.specs.Streams.{IsFresh, Keeps, Stream, kept, telling};
ghost use Rattle.stream_face.specs.Texts.{lent_text, text_in};

use crate::tap::Tap;
use data_types::RowFault;
use edge_io::Gate;
use raw_array::{Acted, RawArray};
use raw_schema::RawSchema;
use std::alloc::Global;
use std::thread::Threads;
use unit_pass::{Pass, ROOM, SUPPLY};

/// A stream of chunks ("The Arrow C Stream Interface", "The ArrowArrayStream structure"). It can't be dropped: it is
/// released, and then discarded. It is used by one thread at a time. A get call answers 0, or an error code from 1 to 4095
/// (of errno).
pub trait ArrayStream {
    /// What the stream means.
    ghost state: { Self → Stream };

    /// Gives the schema of the chunks in a released structure; or answers a code that isn't 0, and the structure stays
    /// released ("The ArrowArrayStream structure", `get_schema`). The caller owns the schema.
    fn get_schema(&mut self, alloc: Global, out: &mut RawSchema, pass: &mut Pass) -> i32
        requires live { IsTrue (state self.old).live }
        requires empty { out.old ≡ Released }
        requires room { ROOM ≤ pass.old.units }
        ensures same { state self.new ≡ telling (state self.new).said (state self.old) }
        ensures code { IsCode result }
        ensures tells { Tells result (state self.new).said }
        ensures refuses { result ≢ pos 0 → out.new ≡ Released }
        ensures told { result ≡ pos 0 → IsTold (state self.old).schema out.new }
        ensures units { pass.new.units + Nodes out.new ≡ pass.old.units }
        ensures lawful { IsTrue (state self.old).lawful → SchemaAnswer (state self.old).columns result out.new (state self.new).said pass.old pass.new };

    /// Gives the next chunk in a released structure, or leaves it released where no chunk is left; or answers a code that
    /// isn't 0, and it stays released ("The ArrowArrayStream structure", `get_next`). The caller owns the chunk.
    fn get_next<R: Threads + Sync, T: Tap>(
        &mut self,
        rt: &R,
        alloc: Global,
        out: &mut RawArray,
        pass: &mut Pass,
        tap: &mut T,
        gate: &(dyn Gate + Sync),
    ) -> i32
        requires shared { IsSync R.row }
        requires live { IsTrue (state self.old).live }
        requires empty { out.old ≡ Released }
        requires room { ROOM ≤ pass.old.units }
        ensures keeps { Keeps (state self.old) (state self.new) }
        ensures code { IsCode result }
        ensures tells { Tells result (state self.new).said }
        ensures refuses { result ≢ pos 0 → out.new ≡ Released }
        ensures told { result ≡ pos 0 → IsTold (state self.old).chunk out.new }
        ensures gave { (state self.old).lawful ≡ false → result ≡ pos 0 → (state self.new).gave ≡ Some out.new }
        ensures units { pass.new.units + Cost out.new ≡ pass.old.units }
        ensures failure { (state self.new).failure ≡ (state self.new).said }
        ensures row_fault { IsRowFault result (state self.new).ending (state self.new).fault }
        ensures repeats { Repeats (state self.old) (state self.new) result pass.old pass.new (T.seen tap.old) (T.seen tap.new) }
        ensures answers { IsFresh (state self.old) → Answers (state self.old) (state self.new) result out.new }
        ensures counts { IsFresh (state self.old) → result ≢ enomem → Counts (state self.old).due (state self.new).due pass.old pass.new out.new }
        ensures shows { IsFresh (state self.old) → ShowsInOrder (state self.old) (state self.new) result out.new (T.seen tap.old) (T.seen tap.new) };

    /// The text of the error of the last get call, where its code wasn't 0 ("The ArrowArrayStream structure",
    /// `get_last_error`). Takes no memory.
    fn get_last_error(&self) -> Option<&str>
        ensures { lent_text result ≡ text_in (state self.now).said };

    /// The record at fault, where the last call for a chunk refused for it.
    fn fault(&self) -> Option<RowFault>
        ensures { result ≡ (state self.now).fault };

    /// Whether the stream is released.
    fn is_released(&self) -> bool
        ensures { result ≡ not (state self.now).live };

    /// Releases the stream with all that it keeps, once ("The ArrowArrayStream structure", `release`). A released one stays
    /// as it is. Takes no memory.
    fn release(&mut self, pass: &mut Pass) -> Acted
        requires { pass.old.units + kept (state self.old) ≤ SUPPLY }
        ensures acted { result ≡ Acted.Acted ↔ IsTrue (state self.old).live }
        ensures released { (state self.new).live ≡ false }
        ensures columns { (state self.new).columns ≡ (state self.old).columns }
        ensures units { pass.new.units ≡ pass.old.units + kept (state self.old) }
        ensures blocks { pass.new.blocks ≡ pass.old.blocks }
        ensures nodes { pass.new.nodes ≡ pass.old.nodes };

    /// Gives up a released stream. Takes no memory.
    fn discard(self)
        requires { (state self).live ≡ false };

    /// A law: what holds of a lawful stream at every moment. The call does nothing.
    fn lawful_facts(&self)
        ensures columns { IsTrue (state self.now).lawful → LawfulColumns (state self.now).columns }
        ensures tables { IsTrue (state self.now).lawful → LawfulTables (state self.now).columns (state self.now).ahead };
}
