//! Why an exchange failed.
use col_build::PushFault;
use std::{fmt, io};
use tree_check::ImportFault;
use unit_pass::NoMemory;

/// Why the exchange failed. The one who answers it has released what it owned.
#[derive(Debug, Drop)]
pub enum Fault {
    NoMemory,
    /// A column of the producer doesn't take an item.
    Item(PushFault),
    /// The structures break a rule of the interface.
    Refused(ImportFault),
    /// They are lawful, and no table of two columns.
    OtherTable,
    Print(io::Error),
}

impl fmt::Display for Fault {
    fn fmt<W: fmt::Write>(&self, f: &mut fmt::Formatter<W>) -> fmt::Result {
        match self {
            Fault::NoMemory => f.write_str("out of memory"),
            Fault::Item(fault) => write!(f, "an item is {fault}"),
            Fault::Refused(fault) => write!(f, "refused: {fault}"),
            Fault::OtherTable => f.write_str("not a table of two columns"),
            Fault::Print(error) => write!(f, "not printed: {error}"),
        }
    }
}

impl std::error::Error for Fault {}

impl From<NoMemory> for Fault {
    fn from(_e: NoMemory) -> Fault {
        Fault::NoMemory
    }
}

impl From<PushFault> for Fault {
    fn from(fault: PushFault) -> Fault {
        match fault {
            PushFault::NoMemory => Fault::NoMemory,
            fault => Fault::Item(fault),
        }
    }
}

impl From<io::Error> for Fault {
    fn from(error: io::Error) -> Fault {
        Fault::Print(error)
    }
}
