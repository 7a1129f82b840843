//! Sources and sinks of bytes: the two traits, those in memory, and those of the process.
//!
//! - Contracts see a [`Source`] by the bytes that it has left, a [`Sink`] by the bytes that it took, and both by how often
//!   they failed. [`read_all`] reads all bytes of a source, and [`write_all`] writes a whole text to a sink. A fault is
//!   answered exactly where the count of failures rose in the call.
//! - [`MemSource`] and [`MemSink`] fail where they are asked to. [`CountSource`] gives many bytes and keeps none.
//! - [`StdSource`] and [`StdSink`] pass on the bytes of a reader and of a writer of the system. A call that a signal
//!   interrupts is made again. [`program_words`] gives the words of the command line, of which no contract says anything.
//! - A test can hold a worker at a [`Gate`].
//!
//! The definitions are in `specs`: `Edge` (what a read and a write do), `Memory` and `Standard` (the sources and sinks
//! above).
#![tactic(auto)]

mod arguments;
mod counted;
mod edge;
mod fault_text;
mod gate;
mod mem_sink;
mod mem_source;
mod memory;
mod standard;
#[cfg(test)]
mod tests;
mod whole;

pub use arguments::program_words;
pub use counted::CountSource;
pub use edge::{Got, ReadFault, Sink, Source, Took, WriteFault};
pub use gate::{Gate, OpenGate};
pub use memory::{MemSink, MemSource};
pub use standard::{StdSink, StdSource};
pub use unit_pass::NoMemory;
pub use whole::{read_all, write_all};
