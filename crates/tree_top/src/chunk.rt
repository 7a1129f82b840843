//! Chunks: their kinds, and the lines of one that a command made.
ghost use Rattle.std.specs.Prelude.{◌≡◌, ◌⊎◌, None, IfOk, IfErr, map};
ghost use Rattle.data_types.specs.promise.KindTrees.{KindTree};
ghost use Rattle.data_types.specs.KindTrees.{TypedOk};
ghost use Rattle.data_types.specs.promise.TypedView.{typed_of};
ghost use Rattle.layout_rules.specs.promise.Values.{rows_of, tree_items};
ghost use Rattle.layout_rules.specs.promise.Walk.{ChunkOk, first_chunk_fault};
ghost use Rattle.schema_check.specs.promise.Schemas.{TypedOf};
ghost use Rattle.data_types.specs.promise.ValueTexts.{lines_text};
ghost use Rattle.tree_top.specs.promise.ChunkAnswer.{ChunkAnswer};
ghost use Rattle.tree_top.specs.AnswerParts.{ChunkCommand};
ghost use Rattle.tree_top.specs.promise.ForeignAnswer.{row_value};
ghost use Rattle.tree_top.specs.promise.TextOrFault.{Fault};

use crate::fault::TreeRunFault;
use data_types::Typed;
use layout_check::check_chunk;
use layout_rules::{chunks_are_tables, lawful_root};
use raw_array::RawArray;
use raw_schema::RawSchema;
use schema_check::{SchemaFault, check_schema, one_schema_answer};
use std::alloc::Global;
use tree_check::CheckFault;
use unit_pass::NoMemory;
use value_text::items_text;

/// The kinds of a chunk, or the first fault: of its schema, and then of the chunk.
pub(crate) fn chunk_kinds(
    alloc: Global,
    schema: &RawSchema,
    array: &RawArray,
) -> Result<Typed, TreeRunFault>
    ensures found { IfOk result (λ typed. TypedOf schema.now (typed_of typed)) }
    ensures valid { IfOk result (λ typed. TypedOk (typed_of typed)) }
    ensures chunk { IfOk result (λ typed. ChunkOk (typed_of typed) array.now) }
    ensures passed { IfOk result (λ typed. first_chunk_fault (typed_of typed) array.now ≡ None) }
    // Whatever is said of chunks, this is the answer.
    ensures fault { IfErr result (λ fault. (fault ≡ TreeRunFault.NoMemory) ⊎ ((said : ChunkCommand) → ChunkAnswer said schema.now array.now (Fault fault))) }
{
    let typed = match check_schema(alloc, schema) {
        Ok(typed) => typed,
        Err(fault) => return Err(TreeRunFault::from(CheckFault::from(fault))),
    };
    match check_chunk(&typed, array) {
        Ok(()) => Ok(typed),
        Err(fault) => Err(TreeRunFault::from(CheckFault::from(fault))),
    }
}

/// How many rows a chunk has.
pub(crate) fn row_count(typed: &Typed, array: &RawArray) -> u64
    requires { ChunkOk (typed_of typed.now) array.now }
    ensures { result ≡ tree_items array.now }
{
    lawful_root(typed, array);
    array.length() as u64
}

/// The lines of a chunk: those of its rows. The kinds are read of its schema.
pub(crate) fn chunk_lines(
    alloc: Global,
    schema: &RawSchema,
    array: &RawArray,
) -> Result<Vec<u8>, NoMemory>
    requires chunk { (typed : KindTree) × TypedOf schema.now typed × ChunkOk typed array.now }
    ensures { IfOk result (λ text. (typed : KindTree) → TypedOf schema.now typed → text.items ≡ lines_text (map row_value (rows_of typed array.now))) }
{
    one_schema_answer();
    chunks_are_tables();
    match check_schema(alloc, schema) {
        Ok(typed) => items_text(alloc, &typed, array),
        Err(SchemaFault::At { path: _, rule: _ }) => unreachable!(),
        Err(SchemaFault::NoMemory) => Err(NoMemory),
    }
}
