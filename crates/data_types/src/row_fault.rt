//! Why a record spells no row, as reading CSV and streams of chunks both say it.
use std::fmt;

/// Why a record spells no row of a table. Records are numbered from 1 after the header, columns from 1.
#[derive(Clone, Copy, PartialEq, Eq, Debug)]
pub enum RowFault {
    /// The record has another number of fields than the header.
    Ragged { row: u64, found: u64 },
    /// The field in this column is no text of the column's type.
    Field { row: u64, column: u32 },
}

impl fmt::Display for RowFault {
    ghost use Rattle.std.specs.Prelude.{Some};
    ghost use Rattle.data_types.specs.FaultTexts.{row_fault_text};

    ghost output = { λ fault. Some (row_fault_text fault) };

    fn fmt<W: fmt::Write>(&self, f: &mut fmt::Formatter<W>) -> fmt::Result {
        match self {
            RowFault::Ragged { row, found } => write!(f, "record {row}: {found} fields"),
            RowFault::Field { row, column } => {
                write!(f, "record {row}, column {column}")?;
                f.write_str(": not a value of its type")
            }
        }
    }
}

impl std::error::Error for RowFault {}
