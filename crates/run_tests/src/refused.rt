//! Why a call refuses.
ghost use Rattle.std.specs.Prelude.{◌≡◌};
ghost use Rattle.run_tests.specs.Own.{own_record, refusal_of};

use data_types::RowFault;

/// The record at which the stream ends, or there was no memory.
#[derive(Clone, Copy)]
pub(crate) enum Refused {
    Record,
    NoMemory,
}

/// The record at which the stream ends where it ends badly.
pub(crate) fn own_record() -> RowFault
    ensures { result ≡ own_record }
{
    RowFault::Ragged { row: 4, found: 1 }
}

impl Refused {
    /// The code of the answer.
    pub(crate) fn code(self) -> i32
        ensures { result ≡ (refusal_of self).code }
    {
        match self {
            Refused::Record => 22,
            Refused::NoMemory => 12,
        }
    }

    /// The text of the error.
    pub(crate) fn text(self) -> &'static str
        ensures { result.now ≡ (refusal_of self).text }
    {
        match self {
            Refused::Record => "record 4: 1 fields",
            Refused::NoMemory => "out of memory",
        }
    }
}
