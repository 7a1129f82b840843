//! The rows of a chunk that a foreign producer owns.
ghost use Rattle.std.specs.Prelude.{◌≡◌, ◌≢◌, ◌+◌, ◌⊎◌, ◌≤◌, [], ◌∷◌, None, Some, codes, IfOk, IfErr, OnErr, OnOk, MatchResult};
ghost use Rattle.data_types.specs.KindTrees.{TypedOk};
ghost use Rattle.data_types.specs.promise.TypedView.{typed_of};
ghost use Rattle.layout_rules.specs.promise.Walk.{first_chunk_fault};
ghost use Rattle.raw_array.specs.promise.Members.{Cost};
ghost use Rattle.tree_model.specs.promise.TreeCost.{Nodes};
ghost use Rattle.tree_model.specs.promise.TreeParts.{IsLive};
ghost use Rattle.tree_model.specs.promise.TreeData.{Released};
ghost use Rattle.foreign_array.specs.Kept.{tree_in};
ghost use Rattle.unit_pass.specs.promise.Tally.{risen};
ghost use Rattle.unit_pass.specs.declared.pass.TheConstants.{SUPPLY};
ghost use Rattle.tree_top.specs.promise.ForeignAnswer.{ForeignAnswer};
ghost use Rattle.tree_top.specs.AnswerParts.{chunk_unless};
ghost use Rattle.tree_top.specs.promise.TextOrFault.{Fault, Text};

use crate::fault::TreeRunFault;
use crate::gathered::Gathered;
use buf_block::{Hold, make};
use data_types::Typed;
use foreign_array::{DrainFault, Foreign, Owner, drain};
use layout_check::check_chunk;
use layout_rules::{chunks_are_tables, lawful_has_no_fault, lawful_root};
use raw_array::RawArray;
use raw_schema::RawSchema;
use schema_check::check_schema;
use std::alloc::{AllocFailed, Global};
use tree_check::CheckFault;
use unit_pass::{NoMemory, Pass, SUPPLY};

/// What the producer keeps beside its tree: a block of its own, which its release lets go.
struct Producer {
    hold: Hold,
}

impl Owner for Producer {
    ghost owes = { λ _. 1 };

    ghost releases = { λ _ before after. after ≡ before + 1 };

    fn owes(&self) -> u64 {
        1
    }

    fn release(self, pass: &mut Pass) {
        let Producer { hold } = self;
        let _left = hold.let_go(pass);
    }
}

impl Producer {
    /// A producer with a new block of the bytes `owner`.
    fn new(alloc: Global, pass: &mut Pass) -> Result<Producer, NoMemory>
        requires { 1 ≤ pass.old.units }
        ensures bytes { IfOk result (λ producer. producer.hold.bytes ≡ codes "owner") }
        ensures units { MatchResult result (λ _. pass.new.units + 1 ≡ pass.old.units) (λ _. pass.new.units ≡ pass.old.units) }
        ensures blocks { OnOk result (pass.new.blocks ≡ risen pass.old.blocks 1) }
        ensures nodes { OnOk result (pass.new.nodes ≡ pass.old.nodes) }
    {
        let bytes = Vec::from_slice(alloc, b"owner")?;
        match make(alloc, bytes, pass) {
            Ok(hold) => Ok(Producer { hold }),
            Err((_bytes, NoMemory)) => Err(NoMemory),
        }
    }
}

/// A line for each row of a chunk, or the first fault: of the schema, and then of the chunk. The tree is handed on with a block of its
/// producer ("The Arrow C Data Interface", "Release callback semantics -- for producers"), and all of it is released.
pub(crate) fn foreign_text(
    alloc: Global,
    schema: RawSchema,
    array: RawArray,
    pass: &mut Pass,
) -> Result<Vec<u8>, TreeRunFault>
    requires some { 1 ≤ pass.old.units }
    requires room { pass.old.units + (Nodes schema + Cost array) ≤ SUPPLY }
    ensures text { IfOk result (λ text. ForeignAnswer schema array (Text text.items)) }
    ensures fault { IfErr result (λ fault. (fault ≡ TreeRunFault.NoMemory) ⊎ ForeignAnswer schema array (Fault fault)) }
    ensures units { pass.new.units ≡ pass.old.units + (Nodes schema + Cost array) }
    ensures blocks { OnOk result (pass.new.blocks ≡ risen pass.old.blocks 1) }
    ensures nodes { OnOk result (pass.new.nodes ≡ pass.old.nodes) }
{
    let checked = check_schema(alloc, &schema);
    schema.end(pass);
    match checked {
        Ok(typed) => chunk_text(alloc, &typed, array, pass),
        Err(fault) => {
            array.end(pass);
            Err(TreeRunFault::from(CheckFault::from(fault)))
        }
    }
}

/// The text of a tree with these kinds, which its producer owns, or its first fault as a chunk's.
fn chunk_text(
    alloc: Global,
    typed: &Typed,
    array: RawArray,
    pass: &mut Pass,
) -> Result<Vec<u8>, TreeRunFault>
    requires kinds { TypedOk (typed_of typed.now) }
    requires some { 1 ≤ pass.old.units }
    requires room { pass.old.units + Cost array ≤ SUPPLY }
    ensures text { IfOk result (λ text. Text text.items ≡ chunk_unless (typed_of typed.now) array (first_chunk_fault (typed_of typed.now) array)) }
    ensures fault { IfErr result (λ fault. (fault ≡ TreeRunFault.NoMemory)
        ⊎ (Fault fault ≡ chunk_unless (typed_of typed.now) array (first_chunk_fault (typed_of typed.now) array))) }
    ensures units { pass.new.units ≡ pass.old.units + Cost array }
    ensures blocks { OnOk result (pass.new.blocks ≡ risen pass.old.blocks 1) }
    ensures nodes { OnOk result (pass.new.nodes ≡ pass.old.nodes) }
{
    if array.is_released() {
        let fault = released_fault(typed, &array);
        array.end(pass);
        return Err(fault);
    }
    match Producer::new(alloc, pass) {
        Ok(producer) => drained_text(alloc, typed, Foreign::new(array, producer), pass),
        Err(NoMemory) => {
            array.end(pass);
            Err(TreeRunFault::NoMemory)
        }
    }
}

/// The fault of a released array, which no chunk is.
fn released_fault(typed: &Typed, array: &RawArray) -> TreeRunFault
    requires kinds { TypedOk (typed_of typed.now) }
    requires released { array.now ≡ Released }
    ensures { Fault result ≡ chunk_unless (typed_of typed.now) array.now (first_chunk_fault (typed_of typed.now) array.now) }
{
    match check_chunk(typed, array) {
        Err(fault) => TreeRunFault::from(CheckFault::from(fault)),
        Ok(()) => {
            lawful_root(typed, array);
            unreachable!()
        }
    }
}

/// The text of a producer's tree, or its first fault as a chunk's. It is released with its producer.
fn drained_text(
    alloc: Global,
    typed: &Typed,
    foreign: Foreign<Producer>,
    pass: &mut Pass,
) -> Result<Vec<u8>, TreeRunFault>
    requires kinds { TypedOk (typed_of typed.now) }
    requires live { foreign ≢ None }
    requires room { pass.old.units + (Cost (tree_in foreign) + 1) ≤ SUPPLY }
    ensures text { IfOk result (λ text. Text text.items ≡ chunk_unless (typed_of typed.now) (tree_in foreign) (first_chunk_fault (typed_of typed.now) (tree_in foreign))) }
    ensures fault { IfErr result (λ fault. (fault ≡ TreeRunFault.NoMemory)
        ⊎ (Fault fault ≡ chunk_unless (typed_of typed.now) (tree_in foreign) (first_chunk_fault (typed_of typed.now) (tree_in foreign)))) }
    ensures units { pass.new.units ≡ pass.old.units + (Cost (tree_in foreign) + 1) }
    ensures blocks { pass.new.blocks ≡ pass.old.blocks }
    ensures nodes { pass.new.nodes ≡ pass.old.nodes }
{
    chunks_are_tables();
    lawful_has_no_fault(typed, foreign.array());
    let chunks = match alone(alloc, foreign) {
        Ok(chunks) => chunks,
        Err(mut foreign) => {
            foreign.release(pass);
            foreign.discard();
            return Err(TreeRunFault::NoMemory);
        }
    };
    let mut gathered = Gathered::new(alloc);
    match drain(typed, chunks, &mut gathered, pass) {
        Ok(()) => Ok(gathered.only_text()),
        Err(DrainFault::Layout { chunk: _, fault }) => {
            Err(TreeRunFault::from(CheckFault::from(fault)))
        }
        Err(DrainFault::NoMemory) => Err(TreeRunFault::NoMemory),
    }
}

/// A list of one chunk. Where there is no memory the chunk comes back.
fn alone(
    alloc: Global,
    foreign: Foreign<Producer>,
) -> Result<Vec<Foreign<Producer>>, Foreign<Producer>>
    ensures listed { IfOk result (λ chunks. chunks.items ≡ foreign ∷ []) }
    ensures back { IfErr result (λ back. back ≡ foreign) }
{
    let mut chunks = Vec::new(alloc);
    match chunks.push(foreign) {
        Ok(()) => Ok(chunks),
        Err(AllocFailed { value }) => {
            chunks.destroy_empty();
            Err(value)
        }
    }
}
