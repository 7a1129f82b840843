//! The run that a case asks for.
use case_text::Plan;
use data_types::Typed;
use edge_io::{MemSink, OpenGate};
use pipe_top::{Outcome, RecordTap, run};
use raw_array::RawArray;
use raw_schema::RawSchema;
use std::alloc::Global;
use std::io;
use std::thread::Threads;
use stream_face::Tap;
use unit_pass::NoMemory;

/// A tap that keeps what it is shown, where that is asked for.
#[derive(Drop)]
pub(crate) struct AskedTap {
    pub(crate) kept: Option<RecordTap>,
}

impl AskedTap {
    fn new(alloc: Global, is_tapped: bool) -> AskedTap {
        AskedTap {
            kept: if is_tapped {
                Some(RecordTap::new(alloc))
            } else {
                None
            },
        }
    }
}

impl Tap for AskedTap {
    ghost use Rattle.std.specs.Prelude.{None};

    ghost seen = { λ _. None };

    fn see(
        &mut self,
        alloc: Global,
        link: u32,
        schema: &RawSchema,
        typed: &Typed,
        chunk: &RawArray,
    ) -> Result<(), NoMemory> {
        match &mut self.kept {
            Some(tap) => tap.see(alloc, link, schema, typed, chunk),
            None => Ok(()),
        }
    }
}

/// What came of a run.
#[derive(Drop)]
pub(crate) struct Ran {
    pub(crate) outcome: Outcome,
    pub(crate) text: MemSink,
    pub(crate) told: MemSink,
    pub(crate) tap: AskedTap,
    /// Whether the source was to fail at its first call, and was never called.
    pub(crate) is_unread: bool,
}

/// Runs what a case asks for.
pub(crate) fn run_plan<R: Threads + Sync>(rt: &R, alloc: Global, plan: Plan) -> io::Result<Ran> {
    let Plan {
        words,
        input,
        read,
        write,
        lines,
        is_tapped,
    } = plan;
    let mut source = read.source(alloc, input)?;
    let (mut text, mut told) = (write.sink(alloc)?, lines.sink(alloc)?);
    let mut tap = AskedTap::new(alloc, is_tapped);
    let outcome = run(
        rt,
        alloc,
        &words,
        &mut source,
        &mut text,
        &mut told,
        &mut tap,
        &OpenGate,
    );
    Ok(Ran {
        outcome,
        text,
        told,
        tap,
        is_unread: read.is_unread(&mut source),
    })
}
