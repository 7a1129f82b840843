//! The run that a case asks for.
use case_text::Plan;
use edge_io::MemSink;
use std::alloc::Global;
use std::io;
use tree_top::{TreeOutcome, run_tree};

/// What came of a run.
#[derive(Drop)]
pub(crate) struct Ran {
    pub(crate) outcome: TreeOutcome,
    pub(crate) text: MemSink,
    pub(crate) told: MemSink,
    /// Whether the source was to fail at its first call, and was never called.
    pub(crate) is_unread: bool,
}

/// Runs what a case asks for.
pub(crate) fn run_plan(alloc: Global, plan: Plan) -> io::Result<Ran> {
    let Plan {
        words,
        input,
        read,
        write,
        lines,
        is_tapped: _,
    } = plan;
    let mut source = read.source(alloc, input)?;
    let (mut text, mut told) = (write.sink(alloc)?, lines.sink(alloc)?);
    let outcome = run_tree(alloc, &words, &mut source, &mut text, &mut told);
    Ok(Ran {
        outcome,
        text,
        told,
        is_unread: read.is_unread(&mut source),
    })
}
