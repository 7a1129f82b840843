//! The checked stream: a stream with its schema, each of whose chunks is checked and shown to a tap.
ghost use Rattle.std.specs.Prelude.{◌≡◌, ◌≢◌, ◌≤◌, ◌+◌, ◌↔◌, IsTrue, List, ℕ, ℤ, None, Some, Option, true, false, pos, IfOk, IfErr, IsSomeAnd, MatchResult, OnOk};
ghost use Rattle.std.specs.Prelude.{not, [], ◌∷◌};
ghost use Rattle.std.specs.Thread.{IsSync};
ghost use Rattle.std.specs.Coded.{Coded-set, codes};
ghost use Rattle.data_types.specs.declared.row_fault.RowFault.{RowFault as RowFaultValue};
ghost use Rattle.data_types.specs.contracts.row_fault.RowFault as rows;
ghost use Rattle.tree_model.specs.promise.TreeData.{Released};
ghost use Rattle.tree_model.specs.promise.TreeParts.{IsLive};
ghost use Rattle.raw_array.specs.promise.Members.{Cost};
ghost use Rattle.tree_model.specs.promise.TreeCost.{Nodes};
ghost use Rattle.raw_schema.specs.Members.{coded_schema};
ghost use Rattle.schema_check.specs.promise.ColumnSchema.{SchemaOf};
ghost use Rattle.data_types.specs.promise.KindTrees.{KindTree};
ghost use Rattle.data_types.specs.KindTrees.{TypedOk};
ghost use Rattle.schema_check.specs.promise.Schemas.{TypedOf};
ghost use Rattle.data_types.specs.promise.TypedView.{typed_of};
ghost use Rattle.layout_rules.specs.promise.Walk.{ChunkOk};
ghost use Rattle.unit_pass.specs.promise.Tally.{risen};
ghost use Rattle.unit_pass.specs.declared.pass.TheConstants.{CHUNK, ROOM, SUPPLY};
ghost use Rattle.stream_face.specs.Calls.{Answers, Counts, IsCode, IsRowFault, IsTold, Repeats, ShowsInOrder, Tells};
ghost use Rattle.stream_face.specs.Checked.{is_live};
ghost use Rattle.stream_face.specs.Codes.{einval, enomem};
ghost use Rattle.stream_face.specs.Failures.{why};
ghost use Rattle.stream_face.specs.Faults.{IsOwnFault, IsStartFault, IsWhy, code_of, fault_text};
ghost use Rattle.stream_face.specs.Lawful.{LawfulColumns, LawfulTables};
ghost use Rattle.stream_face.specs.Raw.{raw_state, row_or};
ghost use Rattle.stream_face.specs.promise.Shown.{Seen, grown, seen_of};
ghost use Rattle.stream_face.specs.Streams.{IsFresh, Keeps, Stream, is_nil, kept, telling};
ghost use Rattle.stream_face.specs.Texts.{Refusal, lent_text, text_in};
ghost use Rattle.stream_face.specs.declared.fault.StreamFault.{StreamFault as StreamFaultValue};
ghost use Rattle.stream_face.specs.declared.fault.StreamFault.TheVariants as faults;

use crate::checked_schema::CheckedSchema;
use crate::fault::{Failure, StartFault, StreamFault};
use crate::stream::ArrayStream;
use crate::tap::Tap;
use crate::{EINVAL, ENOMEM};
use data_types::{RowFault, Typed};
use edge_io::Gate;
use layout_check::{check_chunk, chunk_passes};
use raw_array::{Acted, RawArray};
use raw_schema::RawSchema;
use std::alloc::Global;
use std::thread::Threads;
use unit_pass::{CHUNK, NoMemory, Pass, ROOM, SUPPLY};

/// A stream whose schema was checked, and whose chunks are checked and shown to a tap ("The Arrow C Stream Interface", "The
/// ArrowArrayStream structure"). It can't be dropped: it is released, and then discarded.
pub struct RawStream<S: ArrayStream> {
    inner: S,
    link: u32,
    known: CheckedSchema,
    failure: Option<Failure>,
    ghost lives: { is_live known.schema ≡ (S.state inner).live },
    ghost same: { IsTrue (S.state inner).live → IsTrue (S.state inner).lawful
        → known.schema ≡ SchemaOf (S.state inner).columns } by { Prim.hlevel (Coded-set coded_schema) },
    ghost own_link: { IsTrue (S.state inner).live → IsTrue (S.state inner).lawful → failure ≡ None → is_nil ((S.state inner).joints link) ≡ true },
    ghost ends: { IsTrue (S.state inner).live → (fault : RowFaultValue) → why failure ≡ Some (faults.Row fault)
        → (S.state inner).ending ≡ Some fault } by { Prim.hlevel (codes, rows.the_row.coded) },
}

/// Why a get call of the inner stream refused.
fn fault_of(code: i32, row: Option<RowFault>) -> StreamFault
    requires refused { code ≢ pos 0 }
    requires row { (fault : RowFaultValue) → row ≡ Some fault → code ≡ einval }
    ensures code { code_of result ≡ code }
    ensures row { row_or (Some result) row ≡ row }
    ensures why { (kinds : KindTree) (before after : Stream) → Tells code after.said → after.fault ≡ row → IsWhy code kinds before after (Some result) }
{
    if code == ENOMEM {
        return StreamFault::NoMemory;
    }
    match row {
        Some(row) if code == EINVAL => StreamFault::Row(row),
        _ => StreamFault::Code(code),
    }
}

/// The text of a refusal, from what the inner stream says.
fn error_text<'a>(fault: StreamFault, said: Option<&'a str>) -> &'a str
    ensures { (refusal : Option Refusal) → lent_text said.entry ≡ text_in refusal → result.now ≡ fault_text fault refusal }
{
    match said {
        Some(text) => text,
        None => fault.own_text(),
    }
}

/// Why a structure is refused that the inner stream gave: it breaks a rule, or the tap has no memory.
fn chunk_fault(typed: &Typed, chunk: &RawArray) -> StreamFault
    requires { TypedOk (typed_of typed.now) }
    ensures why { IsOwnFault (typed_of typed.now) chunk.now result }
    ensures lawful { ChunkOk (typed_of typed.now) chunk.now → result ≡ faults.NoMemory }
{
    match check_chunk(typed, chunk) {
        Err(fault) => StreamFault::Chunk(fault),
        Ok(()) => StreamFault::NoMemory,
    }
}

/// Checks a structure that the inner stream gave, and shows it to the tap.
fn admits<T: Tap>(
    alloc: Global,
    known: &CheckedSchema,
    link: u32,
    chunk: &RawArray,
    tap: &mut T,
) -> bool
    requires { IsLive known.now.schema }
    ensures only { (kinds : KindTree) → TypedOf known.now.schema kinds → kinds ≡ typed_of known.now.typed }
    ensures chunk { IsTrue result → ChunkOk (typed_of known.now.typed) chunk.now }
    ensures seen { IsTrue result → T.seen tap.new ≡ grown (T.seen tap.old) (seen_of link known.now.schema (typed_of known.now.typed) chunk.now ∷ []) }
    ensures unseen { result ≡ false → T.seen tap.new ≡ T.seen tap.old }
{
    let typed = known.typed();
    chunk_passes(typed, chunk) && tap.see(alloc, link, known.schema(), typed, chunk).is_ok()
}

/// Keeps why the inner stream refused.
#[inline(never)]
fn refuse<S: ArrayStream>(inner: &S, code: i32, failure: &mut Option<Failure>)
    requires number { IsCode code }
    requires refused { code ≢ pos 0 }
    requires tells { Tells code (S.state inner.now).said }
    requires row { IsRowFault code (S.state inner.now).ending (S.state inner.now).fault }
    ensures code { IsSomeAnd (why failure.new) (λ fault. code_of fault ≡ code) }
    ensures row { row_or (why failure.new) (S.state inner.now).fault ≡ (S.state inner.now).fault }
    ensures why { (kinds : KindTree) (before : Stream) → IsWhy code kinds before (S.state inner.now) (why failure.new) }
{
    let fault = fault_of(code, inner.fault());
    *failure = Some(Failure { fault });
}

/// Releases a structure that isn't admitted, and keeps why, whose code is the answer.
#[inline(never)]
fn refuse_chunk(
    known: &CheckedSchema,
    out: &mut RawArray,
    pass: &mut Pass,
    failure: &mut Option<Failure>,
) -> i32
    requires schema { IsLive known.now.schema }
    requires room { pass.old.units + Cost out.old ≤ SUPPLY }
    ensures code { IsSomeAnd (why failure.new) (λ fault. code_of fault ≡ result) }
    ensures why { IsSomeAnd (why failure.new) (IsOwnFault (typed_of known.now.typed) out.old) }
    ensures lawful { ChunkOk (typed_of known.now.typed) out.old → IsSomeAnd (why failure.new) (λ fault. fault ≡ faults.NoMemory) }
    ensures released { out.new ≡ Released }
    ensures units { pass.new.units ≡ pass.old.units + Cost out.old }
    ensures blocks { pass.new.blocks ≡ pass.old.blocks }
    ensures nodes { pass.new.nodes ≡ pass.old.nodes }
{
    let fault = chunk_fault(known.typed(), out);
    out.release(pass);
    *failure = Some(Failure { fault });
    fault.code()
}

impl<S: ArrayStream> RawStream<S> {
    ghost use Rattle.stream_face.specs.Meaning.{below, meaning, raw_fault, raw_kinds, raw_link, raw_schema};
    ghost use Rattle.data_types.specs.promise.ColumnKinds.{type_of_columns};

    /// Asks the inner stream for its schema, once, and checks it. `link` is the number under which its chunks are shown.
    ///
    /// # Errors
    ///
    /// The inner stream comes back, with its code or the first fault of its schema, and all units are back.
    // A function of its own, since a chain of streams has one for each of its levels.
    #[inline(never)]
    pub fn start(
        alloc: Global,
        inner: S,
        link: u32,
        pass: &mut Pass,
    ) -> Result<RawStream<S>, (S, StartFault)>
        requires live { IsTrue (S.state inner).live }
        requires own_link { (S.state inner).joints link ≡ [] }
        requires room { ROOM ≤ pass.old.units }
        ensures started { IfOk result (λ raw. below S.state raw ≡ telling None (S.state inner)) }
        ensures link { IfOk result (λ raw. raw_link raw ≡ link) }
        ensures fault { IfOk result (λ raw. raw_fault raw ≡ None) }
        ensures schema { IfOk result (λ raw. IsTold (S.state inner).schema (raw_schema raw)) }
        ensures kinds { IfOk result (λ raw. TypedOf (raw_schema raw) (raw_kinds raw)) }
        ensures lawful { IsTrue (S.state inner).lawful → IfOk result (λ raw. raw_schema raw ≡ SchemaOf (S.state inner).columns) }
        ensures few { IsTrue (S.state inner).lawful → IfOk result (λ raw. Nodes (raw_schema raw) ≤ CHUNK) }
        ensures refused { IfErr result
            (λ refused. (said : Option Refusal) × (S.state refused.0 ≡ telling said (S.state inner)) × IsStartFault (S.state inner) said refused.1) }
        ensures units { MatchResult result
            (λ raw. pass.new.units + Nodes (raw_schema raw) ≡ pass.old.units)
            (λ _. pass.new.units ≡ pass.old.units) }
        ensures nodes { IsTrue (S.state inner).lawful → OnOk result (pass.new.nodes ≡ risen pass.old.nodes (Nodes (SchemaOf (S.state inner).columns))) }
        ensures blocks { IsTrue (S.state inner).lawful → OnOk result (pass.new.blocks ≡ pass.old.blocks) }
    {
        inner.lawful_facts();
        let mut inner = inner;
        let mut schema = RawSchema::released();
        let code = inner.get_schema(alloc, &mut schema, pass);
        if code != 0 {
            schema.discard();
            return Err((inner, StartFault::Code(code)));
        }
        match CheckedSchema::of(alloc, schema) {
            Ok(known) => Ok(RawStream {
                inner,
                link,
                known,
                failure: None,
            }),
            Err((schema, fault)) => {
                schema.end(pass);
                Err((inner, StartFault::Schema(fault)))
            }
        }
    }

    /// The schema. It is released with the stream.
    pub fn schema(&self) -> &RawSchema
        ensures schema { result.now ≡ raw_schema self.now }
        ensures live { is_live result.now ≡ (meaning S.state self.now).live }
        ensures lawful { IsTrue (meaning S.state self.now).live → IsTrue (meaning S.state self.now).lawful
            → result.now ≡ SchemaOf (meaning S.state self.now).columns }
    {
        self.known.schema()
    }

    /// The kinds of the schema.
    pub fn typed(&self) -> &Typed
        requires { IsTrue (meaning S.state self.now).live }
        ensures kinds { typed_of result.now ≡ raw_kinds self.now }
        ensures schema { TypedOf (raw_schema self.now) (raw_kinds self.now) }
        ensures types { TypedOk (raw_kinds self.now) }
        ensures lawful { IsTrue (meaning S.state self.now).lawful → raw_kinds self.now ≡ type_of_columns (meaning S.state self.now).columns }
    {
        self.inner.lawful_facts();
        self.known.typed()
    }

    /// The next chunk, checked and shown to the tap, in a released structure, which stays released where no chunk is left; or
    /// a code that isn't 0 ([`StreamFault::code`](crate::StreamFault::code)). What the check refuses is released. After a
    /// code that isn't 0 every later call answers the same and does nothing.
    pub fn next<R: Threads + Sync, T: Tap>(
        &mut self,
        rt: &R,
        alloc: Global,
        out: &mut RawArray,
        pass: &mut Pass,
        tap: &mut T,
        gate: &(dyn Gate + Sync),
    ) -> i32
        requires live { IsTrue (meaning S.state self.old).live }
        requires empty { out.old ≡ Released }
        requires room { ROOM ≤ pass.old.units }
        ensures keeps { Keeps (meaning S.state self.old) (meaning S.state self.new) }
        ensures link { raw_link self.new ≡ raw_link self.old }
        ensures schema { raw_schema self.new ≡ raw_schema self.old }
        ensures kinds { raw_kinds self.new ≡ raw_kinds self.old }
        ensures code { IsCode result }
        ensures tells { Tells result (meaning S.state self.new).said }
        ensures refuses { result ≢ pos 0 → out.new ≡ Released }
        ensures told { result ≡ pos 0 → IsTold (below S.state self.old).chunk out.new }
        ensures checked { IsLive out.new → ChunkOk (raw_kinds self.old) out.new }
        ensures shown { IsLive out.new → (before : Option (List Seen))
            × (T.seen tap.new ≡ grown before (seen_of (raw_link self.old) (raw_schema self.old) (raw_kinds self.old) out.new ∷ [])) }
        ensures units { pass.new.units + Cost out.new ≡ pass.old.units }
        ensures why { raw_fault self.old ≡ None → IsWhy result (raw_kinds self.old) (below S.state self.old) (below S.state self.new) (raw_fault self.new) }
        ensures stays { (fault : StreamFaultValue) → raw_fault self.old ≡ Some fault → (result ≡ code_of fault) × (self.new ≡ self.old) }
        ensures failure { (meaning S.state self.new).failure ≡ (meaning S.state self.new).said }
        ensures row_fault { IsRowFault result (meaning S.state self.new).ending (meaning S.state self.new).fault }
        ensures repeats { Repeats (meaning S.state self.old) (meaning S.state self.new) result pass.old pass.new (T.seen tap.old) (T.seen tap.new) }
        ensures answers { IsFresh (meaning S.state self.old) → Answers (meaning S.state self.old) (meaning S.state self.new) result out.new }
        ensures counts { IsFresh (meaning S.state self.old) → result ≢ enomem
            → Counts (meaning S.state self.old).due (meaning S.state self.new).due pass.old pass.new out.new }
        ensures shows { IsFresh (meaning S.state self.old)
            → ShowsInOrder (meaning S.state self.old) (meaning S.state self.new) result out.new (T.seen tap.old) (T.seen tap.new) }
    {
        if let Some(failure) = &self.failure {
            return failure.fault.code();
        }
        let code = self.inner.get_next(rt, alloc, out, pass, tap, gate);
        if code != 0 {
            refuse(&self.inner, code, &mut self.failure);
            return code;
        }
        if out.is_released() {
            return 0;
        }
        self.inner.lawful_facts();
        if admits(alloc, &self.known, self.link, out, tap) {
            return 0;
        }
        refuse_chunk(&self.known, out, pass, &mut self.failure)
    }

    /// A law: what holds of a lawful stream at every moment. The call does nothing.
    pub fn lawful_facts(&self)
        ensures columns { IsTrue (meaning S.state self.now).lawful → LawfulColumns (meaning S.state self.now).columns }
        ensures tables { IsTrue (meaning S.state self.now).lawful → LawfulTables (meaning S.state self.now).columns (meaning S.state self.now).ahead }
    {
        self.inner.lawful_facts();
    }

    /// Why the last call of `next` refused; none where it didn't.
    pub fn fault(&self) -> Option<StreamFault>
        ensures { result ≡ raw_fault self.now }
    {
        match &self.failure {
            None => None,
            Some(failure) => Some(failure.fault),
        }
    }

    /// The record at fault, where the last call of `next` refused for it.
    pub fn row_fault(&self) -> Option<RowFault>
        ensures { result ≡ (meaning S.state self.now).fault }
    {
        match &self.failure {
            None => self.inner.fault(),
            Some(failure) => match failure.fault {
                StreamFault::Row(fault) => Some(fault),
                _ => None,
            },
        }
    }

    /// The text of the error of the last call, where its code wasn't 0 ("The ArrowArrayStream structure", `get_last_error`).
    /// Takes no memory.
    pub fn last_error(&self) -> Option<&str>
        ensures { lent_text result ≡ text_in (meaning S.state self.now).said }
    {
        match &self.failure {
            None => self.inner.get_last_error(),
            Some(failure) => Some(error_text(failure.fault, self.inner.get_last_error())),
        }
    }

    /// Whether the stream is released.
    pub fn is_released(&self) -> bool
        ensures { result ≡ not (meaning S.state self.now).live }
    {
        self.inner.is_released()
    }

    /// Releases the schema and the inner stream, once. Takes no memory.
    pub fn release(&mut self, pass: &mut Pass) -> Acted
        requires { pass.old.units + kept (meaning S.state self.old) ≤ SUPPLY }
        ensures acted { result ≡ Acted.Acted ↔ IsTrue (meaning S.state self.old).live }
        ensures released { (meaning S.state self.new).live ≡ false }
        ensures schema { raw_schema self.new ≡ Released }
        ensures columns { (meaning S.state self.new).columns ≡ (meaning S.state self.old).columns }
        ensures units { pass.new.units ≡ pass.old.units + kept (meaning S.state self.old) }
        ensures blocks { pass.new.blocks ≡ pass.old.blocks }
        ensures nodes { pass.new.nodes ≡ pass.old.nodes }
    {
        if self.inner.is_released() {
            return Acted::Was;
        }
        self.known.release(pass);
        self.inner.release(pass)
    }

    /// Gives up a released stream. Takes no memory.
    pub fn discard(self)
        requires { (meaning S.state self).live ≡ false }
    {
        let RawStream {
            inner,
            link: _,
            known,
            failure: _,
        } = self;
        known.discard();
        inner.discard();
    }
}
