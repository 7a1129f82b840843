//! Why a stream has no text.
use data_types::RowFault;
use std::fmt;
use unit_pass::NoMemory;

/// Why there is no text.
#[derive(Clone, Copy, PartialEq, Eq, Debug)]
pub enum DriveFault {
    /// The record at which the stream ends.
    Row(RowFault),
    /// Memory ran out, which says nothing of the stream.
    NoMemory,
}

impl From<NoMemory> for DriveFault {
    ghost use Rattle.std.specs.Prelude.{◌≡◌};
    ghost use Rattle.csv_write.specs.declared.fault.DriveFault.TheVariants as faults;

    ghost from_gives = { λ _ fault. fault ≡ faults.NoMemory };

    fn from(_: NoMemory) -> DriveFault {
        DriveFault::NoMemory
    }
}
