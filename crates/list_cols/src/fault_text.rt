//! The texts of faults.
ghost use Rattle.std.specs.Prelude.{Some};
ghost use Rattle.list_cols.specs.FaultTexts.{list_fault_text};

use crate::fault::ListFault;
use std::fmt;

impl fmt::Display for ListFault {
    ghost output = { λ fault. Some (list_fault_text fault) };

    fn fmt<W: fmt::Write>(&self, f: &mut fmt::Formatter<W>) -> fmt::Result {
        match self {
            ListFault::WrongKind { column } => write!(f, "WrongKind: {column}"),
            ListFault::TooLong => f.write_str("TooLong"),
            ListFault::NoMemory => f.write_str("out of memory"),
        }
    }
}

impl std::error::Error for ListFault {}
