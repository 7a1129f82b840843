//! Records that no command reads so: a body as a whole, and batches of the records behind another text's header.
ghost use Rattle.std.specs.Prelude.{◌≤◌, List, length, map, IfOk};
ghost use Rattle.data_types.specs.ColumnView.{column_of};
ghost use Rattle.data_types.specs.promise.Table.{Column, Row};
ghost use Rattle.csv_read.specs.Body.{HoldEach};
ghost use Rattle.field_codec.specs.TextColumns.{AreAllowed, AreProper};

use col_build::Builder;
use csv_read::{BatchReader, BodyFault, Records, read_body, read_header};
use data_types::{ColumnType, RowFault};
use stage_plan::read_types;
use std::alloc::Global;
use std::process::Abort;
use std::test::Fail;

/// The columns of the header of a text: the first holds whole numbers, the others texts.
fn columns_of(alloc: Global, records: &mut Records<&[u8]>) -> Result<Vec<ColumnType>, Fail>
    ensures proper { IfOk result (λ columns. AreProper (map column_of columns.items)) }
    ensures allowed { IfOk result (λ columns. AreAllowed (map column_of columns.items)) }
    ensures size { records.new.size ≤ records.old.size }
{
    let entries = read_types(alloc, "a:l")?;
    match read_header(alloc, records, entries.as_slice()) {
        Ok(columns) => Ok(columns),
        Err(_) => Err(Fail::from("the header is read")),
    }
}

/// Expects two columns of this many values.
fn expect_lengths(rt: &impl Abort, builders: &[Builder], rows: i64)
    requires { (columns : List Column) × (rows : List Row) × HoldEach builders.now columns rows }
{
    assert_eq!(rt; builders.len(), 2);
    for builder in builders {
        assert_eq!(rt; builder.len(), rows);
    }
}

/// The fault of the body of a text. Where there is none, two columns of two values are expected.
fn fault_of(rt: &impl Abort, alloc: Global, text: &[u8]) -> Result<Option<BodyFault>, Fail>
    requires { length text.now ≤ 100 }
{
    let mut records = Records::start(alloc, text)?;
    let named = columns_of(alloc, &mut records)?;
    match read_body(alloc, records, named.as_slice(), b"") {
        Ok(builders) => {
            expect_lengths(rt, builders.as_slice(), 2);
            Ok(None)
        }
        Err(fault) => Ok(Some(fault)),
    }
}

#[test]
fn a_body_is_read_as_a_whole(rt: HostRuntime) -> Result<(), Fail> {
    let alloc = rt.alloc();
    let whole = fault_of(&rt, alloc, b"a,b\n1,x\n,y")?;
    let ragged = fault_of(&rt, alloc, b"a,b\n1,x\n2\n")?;
    let fault = BodyFault::Row(RowFault::Ragged { row: 2, found: 1 });
    assert_eq!(rt; (whole, ragged), (None, Some(fault)));
    Ok(())
}

#[test]
fn a_batch_has_all_rows_where_it_may(rt: HostRuntime) -> Result<(), Fail> {
    let alloc = rt.alloc();
    let mut header = Records::start(alloc, b"a,b\n")?;
    let named = columns_of(alloc, &mut header)?;
    let records = Records::behind_header(alloc, b"c,d\n1,x\n2,y\n3,z\n4,\n5,v\n")?;
    let mut batches = BatchReader::start(alloc, records, named, b"")?;
    match batches.next(alloc, u64::MAX) {
        Ok(true) => expect_lengths(&rt, batches.builders(), 5),
        Ok(false) | Err(_) => return Err(Fail::from("a batch is read")),
    }
    let ends = (batches.next(alloc, 1), batches.next(alloc, 1));
    assert_eq!(rt; ends, (Ok(false), Ok(false)));
    Ok(())
}
