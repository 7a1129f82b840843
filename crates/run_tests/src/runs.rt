//! Runs from a source to sinks in memory.
use edge_io::{Gate, MemSink, Source};
use pipe_top::{Outcome, run};
use std::alloc::Global;
use std::test::Fail;
use std::thread::Threads;
use stream_face::NoTap;

/// A sink with room for this many bytes.
fn sink_of(alloc: Global, room: usize) -> Result<MemSink, Fail> {
    match MemSink::new(alloc, room, 4096, Vec::new(alloc)) {
        Ok(sink) => Ok(sink),
        Err(_) => Err(Fail::from("memory")),
    }
}

/// The words of a line, apart by blanks.
fn words_of(alloc: Global, line: &str) -> Result<Vec<String>, Fail> {
    let mut words = Vec::new(alloc);
    for word in line.split(' ') {
        words.push(String::from_str(alloc, word)?)?;
    }
    Ok(words)
}

/// What a run came to, and what it wrote.
#[derive(Drop)]
pub(crate) struct Ran {
    pub(crate) outcome: Outcome,
    pub(crate) sink: MemSink,
}

/// Runs with the words of a line over a source.
pub(crate) fn run_from<R: Threads + Sync, S: Source>(
    rt: &R,
    alloc: Global,
    line: &str,
    source: &mut S,
    gate: &(dyn Gate + Sync),
) -> Result<Ran, Fail> {
    let words = words_of(alloc, line)?;
    let mut sink = sink_of(alloc, 20_000)?;
    let mut errs = sink_of(alloc, 1000)?;
    let outcome = run(
        rt, alloc, &words, source, &mut sink, &mut errs, &mut NoTap, gate,
    );
    Ok(Ran { outcome, sink })
}
