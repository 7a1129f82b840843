//! Why a stream was not started, and why a call of a checked stream refused.
ghost use Rattle.std.specs.Prelude.{◌≡◌, ◌≢◌, ◌≤ℤ◌, pos};
ghost use Rattle.stream_face.specs.Faults.{code_of, own_text};

use crate::{EINVAL, ENOMEM};
use data_types::RowFault;
use layout_rules::LayoutFault;
use schema_check::SchemaFault;
use std::fmt;

/// Why a stream was not started.
#[derive(Clone, Copy, PartialEq, Eq, Debug)]
pub enum StartFault {
    /// The stream's own code.
    Code(i32),
    /// The first fault of its schema, or out of memory in the check.
    Schema(SchemaFault),
}

/// Why a call of a checked stream refused.
#[derive(Clone, Copy, PartialEq, Eq, Debug)]
pub enum StreamFault {
    /// The inner stream ended at a refused record.
    Row(RowFault),
    /// The inner stream gave a chunk that the check refuses.
    Chunk(LayoutFault),
    /// The inner stream's code.
    Code(i32),
    /// The inner stream or the tap ran out of memory.
    NoMemory,
}

impl StreamFault {
    /// The code of the call: 22 (EINVAL) for a record or a chunk at fault, 12 (ENOMEM) where memory ran out, and else the
    /// inner stream's own ("The Arrow C Stream Interface", "The ArrowArrayStream structure").
    pub fn code(&self) -> i32
        ensures { result ≡ code_of self.now }
    {
        match self {
            StreamFault::Row(_) | StreamFault::Chunk(_) => EINVAL,
            StreamFault::Code(code) => *code,
            StreamFault::NoMemory => ENOMEM,
        }
    }

    /// The text of a refusal that isn't the inner stream's.
    pub(crate) fn own_text(&self) -> &'static str
        ensures { result.now ≡ own_text self.now }
    {
        match self {
            StreamFault::NoMemory => "out of memory",
            _ => "chunk refused",
        }
    }
}

/// A refusal that stays: its code isn't 0.
#[derive(Clone, Copy)]
pub(crate) struct Failure {
    pub(crate) fault: StreamFault,
    ghost refused: { code_of fault ≢ pos 0 },
    ghost from: { pos 0 ≤ℤ code_of fault },
    ghost to: { code_of fault ≤ℤ pos 4095 },
}

impl fmt::Display for StartFault {
    ghost use Rattle.std.specs.Prelude.{Some};
    ghost use Rattle.stream_face.specs.FaultTexts.{start_fault_text};

    ghost output = { λ fault. Some (start_fault_text fault) };

    fn fmt<W: fmt::Write>(&self, f: &mut fmt::Formatter<W>) -> fmt::Result {
        match self {
            StartFault::Code(code) => write!(f, "code {code}"),
            StartFault::Schema(fault) => write!(f, "{fault}"),
        }
    }
}

impl std::error::Error for StartFault {}

impl fmt::Display for StreamFault {
    ghost use Rattle.std.specs.Prelude.{Some};
    ghost use Rattle.stream_face.specs.FaultTexts.{stream_fault_text};

    ghost output = { λ fault. Some (stream_fault_text fault) };

    fn fmt<W: fmt::Write>(&self, f: &mut fmt::Formatter<W>) -> fmt::Result {
        match self {
            StreamFault::Row(fault) => write!(f, "{fault}"),
            StreamFault::Chunk(fault) => write!(f, "{fault}"),
            StreamFault::Code(code) => write!(f, "code {code}"),
            StreamFault::NoMemory => f.write_str("out of memory"),
        }
    }
}

impl std::error::Error for StreamFault {}
