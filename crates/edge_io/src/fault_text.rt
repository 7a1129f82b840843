//! The texts of faults.
use crate::{ReadFault, WriteFault};
use std::fmt;

impl fmt::Display for ReadFault {
    ghost use Rattle.std.specs.Prelude.{Some};
    ghost use Rattle.edge_io.specs.FaultTexts.{read_fault_text};

    ghost output = { λ fault. Some (read_fault_text fault) };

    fn fmt<W: fmt::Write>(&self, f: &mut fmt::Formatter<W>) -> fmt::Result {
        f.write_str(match self {
            ReadFault::Failed => "read failed",
            ReadFault::TooLong => "input too long",
            ReadFault::NoMemory => "out of memory",
        })
    }
}

impl std::error::Error for ReadFault {}

impl fmt::Display for WriteFault {
    ghost use Rattle.std.specs.Prelude.{Some};
    ghost use Rattle.edge_io.specs.FaultTexts.{write_fault_text};

    ghost output = { λ fault. Some (write_fault_text fault) };

    fn fmt<W: fmt::Write>(&self, f: &mut fmt::Formatter<W>) -> fmt::Result {
        match self {
            WriteFault::Failed { taken } => write!(f, "write failed after {taken} bytes"),
        }
    }
}

impl std::error::Error for WriteFault {}
