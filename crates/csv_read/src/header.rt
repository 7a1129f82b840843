//! The header of a text.
ghost use Rattle.std.specs.Prelude.{◌≡◌, ◌≢◌, ◌≤◌, vec_len, All, Ok, Err, IfOk, IfErr, OnOk, OnErr, [], map, length, nat_le, true, false};
ghost use Rattle.csv.specs.Records.{fields_of};
ghost use Rattle.data_types.specs.ColumnView.{column_of};
ghost use Rattle.data_types.specs.Kinds.{KindOk};
ghost use Rattle.csv_model.specs.promise.Header.{header_of, most_columns};
ghost use Rattle.csv_model.specs.promise.Reading.{behind_header};
ghost use Rattle.stage_plan.specs.promise.Entries.{entries_of};
ghost use Rattle.field_codec.specs.TextColumns.{AreAllowed, AreProper, IsAllowed, NamesDiffer};

use crate::columns::columns;
use crate::names::check_names;
use crate::records::Records;
use crate::row::fields;
use csv::ByteRecord;
use csv_model::HeaderFault;
use data_types::ColumnType;
use stage_plan::TypeEntry;
use std::alloc::Global;
use std::io::Read;

/// The columns that the header of a text names, each of the type of the first entry of its name, and of text where there is
/// none. The header is the first of the records, and those behind it are left.
///
/// # Errors
///
/// The first fault, in the order of the variants of [`HeaderFault`]; `NoMemory` comes only where memory runs out. After an
/// error no record is left.
pub fn read_header<R: Read>(
    alloc: Global,
    records: &mut Records<R>,
    entries: &[TypeEntry],
) -> Result<Vec<ColumnType>, HeaderFault>
    // The entries' types are proper ones.
    requires { All (λ e. KindOk e.kind) entries.now }
    // The columns are the header's.
    ensures found { IfOk result (λ columns. header_of (entries_of entries.now) records.old.records ≡ Ok (map column_of columns.items)) }
    // There is a column, and there are at most 1,024.
    ensures some { IfOk result (λ columns. 1 ≤ vec_len columns) }
    ensures few { IfOk result (λ columns. vec_len columns ≤ most_columns) }
    // Their names differ.
    ensures differ { IfOk result (λ columns. NamesDiffer (map column_of columns.items)) }
    // Their types are proper ones, and such as may be asked for where the entries' types are.
    ensures proper { IfOk result (λ columns. AreProper (map column_of columns.items)) }
    ensures allowed { IfOk result (λ columns. All (λ e. IsAllowed e.kind) entries.now → AreAllowed (map column_of columns.items)) }
    // Which fault it is.
    ensures fault { IfErr result (λ f. f ≢ HeaderFault.NoMemory → header_of (entries_of entries.now) records.old.records ≡ Err f) }
    // The records behind it are left, and after an error none.
    ensures behind { OnOk result (records.new.records ≡ behind_header records.old.records) }
    ensures fault_ends { OnErr result (records.new.records ≡ []) }
    ensures size { records.new.size ≤ records.old.size }
{
    match header_columns(alloc, records, entries) {
        Ok(columns) => Ok(columns),
        Err(fault) => {
            records.end();
            Err(fault)
        }
    }
}

/// The columns of the first record, or why there are none.
fn header_columns<R: Read>(
    alloc: Global,
    records: &mut Records<R>,
    entries: &[TypeEntry],
) -> Result<Vec<ColumnType>, HeaderFault>
    requires { All (λ e. KindOk e.kind) entries.now }
    ensures found { IfOk result (λ columns. header_of (entries_of entries.now) records.old.records ≡ Ok (map column_of columns.items)) }
    ensures some { IfOk result (λ columns. 1 ≤ vec_len columns) }
    ensures few { IfOk result (λ columns. vec_len columns ≤ most_columns) }
    ensures differ { IfOk result (λ columns. NamesDiffer (map column_of columns.items)) }
    ensures proper { IfOk result (λ columns. AreProper (map column_of columns.items)) }
    ensures allowed { IfOk result (λ columns. All (λ e. IsAllowed e.kind) entries.now → AreAllowed (map column_of columns.items)) }
    ensures fault { IfErr result (λ f. f ≢ HeaderFault.NoMemory → header_of (entries_of entries.now) records.old.records ≡ Err f) }
    ensures behind { OnOk result (records.new.records ≡ behind_header records.old.records) }
    ensures size { records.new.size ≤ records.old.size }
{
    if !records.next()? {
        return Err(HeaderFault::NoHeader);
    }
    check_count(records.row())?;
    let names = fields(alloc, records.row())?;
    check_names(alloc, names.as_slice(), entries)?;
    Ok(columns(alloc, names.as_slice(), entries)?)
}

/// The most columns that a text may have.
const MOST_COLUMNS: usize = 1024;

/// Refuses a header of too many fields.
fn check_count(header: &ByteRecord) -> Result<(), HeaderFault>
    ensures few { OnOk result (nat_le (length (fields_of header.now)) most_columns ≡ true) }
    ensures many { IfErr result
        (λ f. (nat_le (length (fields_of header.now)) most_columns ≡ false) × (f ≡ HeaderFault.TooManyColumns (length (fields_of header.now)))) }
{
    let count = header.len();
    if count > MOST_COLUMNS {
        return Err(HeaderFault::TooManyColumns {
            count: count as u64,
        });
    }
    Ok(())
}
