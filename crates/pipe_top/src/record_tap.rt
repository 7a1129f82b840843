//! A tap that keeps what it is shown.
ghost use Rattle.std.specs.Prelude.{◌≡◌, [], IfOk, map};
ghost use Rattle.schema_check.specs.promise.Schemas.{TypedOf};
ghost use Rattle.data_types.specs.promise.TypedView.{typed_of};
ghost use Rattle.layout_rules.specs.promise.Walk.{ChunkOk};
ghost use Rattle.stream_face.specs.promise.Shown.{seen_of};
ghost use Rattle.pipe_top.specs.SeenChunks.{seen_by, seen_in};

use crate::kept_kinds::kept_kinds;
use crate::kept_names::kept_names;
use crate::kept_rows::kept_rows;
use crate::owned_value::OwnedValue;
use data_types::Typed;
use raw_array::RawArray;
use raw_schema::RawSchema;
use schema_check::kinds_are_valid;
use std::alloc::Global;
use stream_face::Tap;
use unit_pass::{Name, NoMemory};

/// A chunk that was shown. Contracts see the definition `seen_in` of it.
#[derive(Debug, Drop)]
pub struct SeenChunk {
    /// The number of the link that showed it.
    pub link: u32,
    /// The names of the schema's nodes: a node's, those of its children, those of its dictionary. A node may have none.
    pub names: Vec<Option<Name>>,
    pub typed: Typed,
    /// Each row has a value of each column.
    pub rows: Vec<Vec<OwnedValue>>,
}

/// A tap that keeps what it is shown. Contracts see the definition `seen_by` of it.
#[derive(Debug, Drop)]
pub struct RecordTap {
    seen: Vec<SeenChunk>,
}

/// What is kept of a chunk.
fn seen_chunk(
    alloc: Global,
    link: u32,
    schema: &RawSchema,
    typed: &Typed,
    chunk: &RawArray,
) -> Result<SeenChunk, NoMemory>
    requires kinds { TypedOf schema.now (typed_of typed.now) }
    requires chunk { ChunkOk (typed_of typed.now) chunk.now }
    ensures { IfOk result (λ seen. seen_in seen ≡ seen_of link schema.now (typed_of typed.now) chunk.now) }
{
    kinds_are_valid();
    let names = kept_names(alloc, schema)?;
    let rows = kept_rows(alloc, typed, chunk)?;
    let typed = kept_kinds(alloc, typed)?;
    Ok(SeenChunk {
        link,
        names,
        typed,
        rows,
    })
}

impl RecordTap {
    /// A tap that has seen nothing. Takes no memory.
    pub fn new(alloc: Global) -> RecordTap
        ensures { seen_by result ≡ [] }
    {
        RecordTap {
            seen: Vec::new(alloc),
        }
    }

    /// What it has seen, in order.
    pub fn seen(&self) -> &[SeenChunk]
        ensures { map seen_in result.now ≡ seen_by self.now }
    {
        self.seen.as_slice()
    }
}

impl Tap for RecordTap {
    ghost use Rattle.std.specs.Prelude.{Some};
    ghost use Rattle.pipe_top.specs.SeenChunks.{seen_by};

    ghost seen = { λ tap. Some (seen_by tap) };

    fn see(
        &mut self,
        alloc: Global,
        link: u32,
        schema: &RawSchema,
        typed: &Typed,
        chunk: &RawArray,
    ) -> Result<(), NoMemory> {
        let seen = seen_chunk(alloc, link, schema, typed, chunk)?;
        match self.seen.push(seen) {
            Ok(()) => Ok(()),
            Err(_failed) => Err(NoMemory),
        }
    }
}
