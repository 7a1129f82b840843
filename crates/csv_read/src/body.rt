//! The body of a text: the rows of the records behind its header.
ghost use Rattle.std.specs.Prelude.{◌≡◌, ◌≤◌, ◌+◌, ◌^◌, [], List, map, IfErr, IfOk, OnOk};
ghost use Rattle.data_types.specs.ColumnView.{column_of};
ghost use Rattle.data_types.specs.promise.Table.{Column};
ghost use Rattle.csv_read.specs.Body.{HoldsBody, IsBodyFault};
ghost use Rattle.csv_read.specs.BodyRows.{HasRows, ReadsBatch, RefusesBatch};
ghost use Rattle.field_codec.specs.TextColumns.{AreAllowed, AreProper};
ghost use Rattle.csv_read.specs.declared.body.BodyFault.TheVariants.{NoMemory};

use crate::body_columns::BodyColumns;
use crate::records::Records;
use col_build::Builder;
use data_types::{ColumnType, RowFault};
use std::alloc::Global;
use std::fmt;
use std::io::Read;
use unit_pass::NoMemory;

/// Why the records behind a header make no columns.
#[derive(Clone, Copy, PartialEq, Eq, Debug)]
pub enum BodyFault {
    /// The first record that spells no row, and why.
    Row(RowFault),
    /// Memory ran out, which says nothing of the text.
    NoMemory,
}

impl From<NoMemory> for BodyFault {
    ghost from_gives = { λ _ e. e ≡ NoMemory };

    fn from(_e: NoMemory) -> BodyFault {
        BodyFault::NoMemory
    }
}

impl fmt::Display for BodyFault {
    ghost use Rattle.std.specs.Prelude.{Some};
    ghost use Rattle.csv_read.specs.FaultTexts.{body_fault_text};

    ghost output = { λ fault. Some (body_fault_text fault) };

    fn fmt<W: fmt::Write>(&self, f: &mut fmt::Formatter<W>) -> fmt::Result {
        match self {
            BodyFault::Row(fault) => write!(f, "{fault}"),
            BodyFault::NoMemory => f.write_str("out of memory"),
        }
    }
}

impl std::error::Error for BodyFault {}

/// Reads all records that are left behind the header, and answers a builder for each column. A field that equals the mark is
/// null.
///
/// # Errors
///
/// The first record that spells no row, by its number from 1 behind the header: it has another number of fields than there
/// are columns, or else a field, of which the first counts, that is no value of its column. `NoMemory` comes only where
/// memory runs out.
pub fn read_body<R: Read + Drop>(
    alloc: Global,
    records: Records<R>,
    columns: &[ColumnType],
    mark: &[u8],
) -> Result<Vec<Builder>, BodyFault>
    requires short { records.size ≤ 2 ^ 30 }
    // The columns are such as a header names: of plain values, and of types that may be asked for.
    requires proper { AreProper (map column_of columns.now) }
    requires allowed { AreAllowed (map column_of columns.now) }
    // The builders hold the rows that the records spell.
    ensures body { IfOk result (λ builders. HoldsBody mark.now builders.items (map column_of columns.now) records.records) }
    // Which fault it is.
    ensures fault { IfErr result (λ fault. IsBodyFault fault mark.now (map column_of columns.now) records.records) }
{
    let mut made = BodyColumns::new(alloc, columns, mark)?;
    let mut records = records;
    read_rows(&mut records, &mut made, u64::MAX, 0)?;
    Ok(made.builders)
}

/// Reads the next records into columns without rows, this many or all that are left; `read` were read before.
#[inline(never)]
pub(crate) fn read_rows<R: Read>(
    records: &mut Records<R>,
    made: &mut BodyColumns,
    batch: u64,
    read: u64,
) -> Result<(), BodyFault>
    requires none { (columns : List Column) × HasRows made.old columns [] }
    requires short { records.old.size ≤ 2 ^ 30 }
    requires few { read ≤ 2 ^ 30 }
    ensures rows { OnOk result (ReadsBatch (read + 1) batch records.old made.old made.new records.new) }
    ensures fault { IfErr result (λ fault. RefusesBatch fault (read + 1) batch records.old.records made.old) }
    ensures forms { made.new.forms ≡ made.old.forms }
    ensures mark { made.new.mark ≡ made.old.mark }
{
    while made.rows < batch {
        if !records.next()? {
            return Ok(());
        }
        made.push(records.row(), records.are_texts(), read + made.rows + 1)?;
    }
    Ok(())
}
