//! The trait of taps, which are shown the chunks of a run.
ghost use Rattle.std.specs.Prelude.{◌≡◌, List, Option, [], ◌∷◌, IsOk, OnErr, OnOk};
ghost use Rattle.schema_check.specs.promise.Schemas.{TypedOf};
ghost use Rattle.data_types.specs.promise.TypedView.{typed_of};
ghost use Rattle.layout_rules.specs.promise.Walk.{ChunkOk};
ghost use Rattle.stream_face.specs.promise.Shown.{Seen, grown, seen_of};

use data_types::Typed;
use raw_array::RawArray;
use raw_schema::RawSchema;
use std::alloc::Global;
use unit_pass::NoMemory;

/// A listener that is shown each chunk of each link. Link 0 is the source's, and link K that of stage K.
pub trait Tap {
    /// What it was shown, where it states it.
    ghost seen: { Self → Option (List Seen) };

    /// Shows a chunk that passes the check under its schema, whose kinds are handed in too. After `NoMemory` nothing is
    /// kept of it.
    fn see(
        &mut self,
        alloc: Global,
        link: u32,
        schema: &RawSchema,
        typed: &Typed,
        chunk: &RawArray,
    ) -> Result<(), NoMemory>
        requires kinds { TypedOf schema.now (typed_of typed.now) }
        requires chunk { ChunkOk (typed_of typed.now) chunk.now }
        ensures seen { OnOk result (seen self.new ≡ grown (seen self.old) (seen_of link schema.now (typed_of typed.now) chunk.now ∷ [])) }
        ensures unseen { OnErr result (seen self.new ≡ seen self.old) };
}

/// A tap that keeps nothing and states nothing, and never runs out of memory.
#[derive(Drop)]
pub struct NoTap;

impl Tap for NoTap {
    ghost use Rattle.std.specs.Prelude.{None};

    ghost seen = { λ _. None };

    fn see(
        &mut self,
        _alloc: Global,
        _link: u32,
        _schema: &RawSchema,
        _typed: &Typed,
        _chunk: &RawArray,
    ) -> Result<(), NoMemory>
        ensures taken { IsOk result }
    {
        Ok(())
    }
}
