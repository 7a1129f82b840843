//! Why a call for a chunk refused: the code, the text and the record at fault.
ghost use Rattle.std.specs.Prelude.{◌≡◌, IfOk, string_bytes};
ghost use Rattle.data_types.specs.FaultTexts.{row_fault_text};

use csv_read::BodyFault;
use data_types::RowFault;
use std::alloc::Global;
use stream_face::{EINVAL, ENOMEM};
use unit_pass::NoMemory;

/// A record that spells no row, and the text of the refusal.
#[derive(Drop)]
pub struct RefusedRecord {
    fault: RowFault,
    text: String,
    ghost told: { string_bytes text ≡ row_fault_text fault },
}

/// Why a call for a chunk refused.
#[derive(Drop)]
pub enum Refused {
    /// A record spells no row.
    Row(RefusedRecord),
    /// Memory ran out.
    NoMemory,
}

/// What the last get call said: nothing, that memory for a schema ran out, or the refusal that stays.
#[derive(Clone, Copy)]
pub enum LastAnswer {
    Nothing,
    Memory,
    Refusal,
}

impl RefusedRecord {
    /// The text of a record's fault is made where the call refuses.
    fn of(alloc: Global, fault: RowFault) -> Result<RefusedRecord, NoMemory>
        ensures { IfOk result (λ row. row.fault ≡ fault) }
    {
        let text = fault.to_string(alloc)?;
        Ok(RefusedRecord { fault, text })
    }
}

impl Refused {
    ghost use Rattle.csv_source.specs.Refusals.{TellsOf, refusal_of, row_of};

    /// The refusal for a fault of the records. Where memory runs out for the text of a record's, it is `NoMemory`.
    pub fn of(alloc: Global, fault: BodyFault) -> Refused
        ensures { TellsOf fault result }
    {
        match fault {
            BodyFault::Row(fault) => match RefusedRecord::of(alloc, fault) {
                Ok(row) => Refused::Row(row),
                Err(NoMemory) => Refused::NoMemory,
            },
            BodyFault::NoMemory => Refused::NoMemory,
        }
    }

    /// The code of the call for a chunk: 22 (EINVAL) for a record, 12 (ENOMEM) where memory ran out.
    pub fn code(&self) -> i32
        ensures { result ≡ (refusal_of self.now).code }
    {
        match self {
            Refused::Row(_) => EINVAL,
            Refused::NoMemory => ENOMEM,
        }
    }

    /// The text of the error ("The Arrow C Stream Interface", "The ArrowArrayStream structure", `get_last_error`).
    pub fn text(&self) -> &str
        ensures { result.now ≡ (refusal_of self.now).text }
    {
        match self {
            Refused::Row(row) => row.text.as_str(),
            Refused::NoMemory => "out of memory",
        }
    }

    /// The record at fault; none where memory ran out.
    pub fn row(&self) -> Option<RowFault>
        ensures { result ≡ row_of self.now }
    {
        match self {
            Refused::Row(row) => Some(row.fault),
            Refused::NoMemory => None,
        }
    }
}
