//! Tests of a text that is read ahead: its pieces, its chunks and how they end, however many are made ahead.
ghost use Rattle.std.specs.Prelude.{◌≡◌, ◌≤◌, ◌^◌, IsTrue, length, map, vec_len};
ghost use Rattle.csv_source.specs.AheadSources.{ahead_state};
ghost use Rattle.csv_model.specs.promise.Header.{most_columns};
ghost use Rattle.data_types.specs.ColumnView.{column_of};
ghost use Rattle.field_codec.specs.TextColumns.{AreAllowed, AreProper, NamesDiffer};

use crate::sources::{CASES, Case, closed, end, expect_chunks, expect_end, same};
use ahead_ring::{Ahead, Given};
use csv_read::{Records, TextBlocks, read_header};
use csv_source::{CsvAhead, CsvMaker, Piece};
use data_types::{ColumnType, RowFault};
use stage_plan::read_types;
use std::alloc::Global;
use std::process::Abort;
use std::thread::Threads;
use unit_pass::{NoMemory, open_desk};

/// How many batches a round makes.
static ROUNDS: [u32; 3] = [1, 2, 64];

/// The records of a text behind its header, whose first column has whole numbers; and its columns.
fn begun(rt: &impl Abort, alloc: Global, text: &[u8]) -> (Records<TextBlocks>, Vec<ColumnType>)
    requires short { length text.now ≤ 2 ^ 30 }
    ensures short { result.0.size ≤ 2 ^ 30 }
    ensures some { 1 ≤ vec_len result.1 }
    ensures few { vec_len result.1 ≤ most_columns }
    ensures differ { NamesDiffer (map column_of result.1.items) }
    ensures proper { AreProper (map column_of result.1.items) }
    ensures allowed { AreAllowed (map column_of result.1.items) }
{
    let Ok(entries) = read_types(alloc, "a:l") else {
        panic!(rt; "the types are read");
    };
    let Ok(bytes) = Vec::from_slice(alloc, text) else {
        panic!(rt; "there is memory");
    };
    let Ok(mut records) = Records::start_owned(alloc, bytes) else {
        panic!(rt; "there is memory");
    };
    match read_header(alloc, &mut records, entries.as_slice()) {
        Ok(columns) => (records, columns),
        Err(_fault) => panic!(rt; "the header is read"),
    }
}

// ---- the pieces

/// The numbers of pieces of rows and of records at fault, and the last of these.
type Pieces = (u32, u32, Option<RowFault>);

/// What comes of a maker in a hundred calls at most.
fn taken<R: Threads + Drop>(ahead: &mut Ahead<R, CsvMaker>) -> Pieces {
    let mut found = (0u32, 0u32, None);
    for _ in 0..100u32 {
        match ahead.next() {
            Given::Item(Piece::Rows(_rows)) => found.0 = found.0.saturating_add(1),
            Given::Item(Piece::Bad(fault)) => {
                found.1 = found.1.saturating_add(1);
                found.2 = Some(fault);
            }
            Given::Done | Given::NoMemory => break,
        }
    }
    found
}

/// The pieces that a text gives.
fn pieces<R: Abort + Threads>(
    rt: &R,
    alloc: Global,
    text: &[u8],
    batch: u32,
    ahead: u32,
) -> Pieces {
    assert!(rt; text.len() <= 100 && batch >= 1 && ahead >= 1 && ahead <= 64);
    let (records, columns) = begun(rt, alloc, text);
    let Ok(maker) = CsvMaker::start(alloc, records, columns, b"", batch) else {
        panic!(rt; "there is memory");
    };
    let Ok(mut ahead) = Ahead::start(alloc, rt, maker, ahead) else {
        panic!(rt; "there is memory");
    };
    let found = taken(&mut ahead);
    ahead.close();
    found
}

#[test]
fn a_text_comes_in_pieces_and_ends_at_a_bad_record(rt: HostRuntime) {
    for ahead in &ROUNDS {
        let good = pieces(&rt, rt.alloc(), b"a,b\n1,2\n3,4\n5,6\n", 2, *ahead);
        same(&rt, &good, &(2, 0, None));
        let bad = pieces(&rt, rt.alloc(), b"a,b\n1,2\n3,4\n5\n7,8\n", 2, *ahead);
        same(
            &rt,
            &bad,
            &(1, 1, Some(RowFault::Ragged { row: 3, found: 1 })),
        );
    }
}

// ---- the stream

/// The source of a text, this many batches of which are read a round.
fn source_of<'r, R: Abort + Threads>(
    rt: &'r R,
    alloc: Global,
    text: &[u8],
    batch: u32,
    ahead: u32,
) -> CsvAhead<&'r R> {
    assert!(rt; text.len() <= 100 && batch >= 1 && batch <= 1000000 && ahead >= 1 && ahead <= 64);
    let (records, columns) = begun(rt, alloc, text);
    match CsvAhead::start(alloc, rt, records, columns, b"", batch, ahead) {
        Ok(source) => source,
        Err(NoMemory) => panic!(rt; "there is memory"),
    }
}

/// Expects the chunks and the end of a case, behind which all units are back.
fn expect_case<R: Abort + Threads + Sync>(rt: &R, alloc: Global, case: Case<'_>, ahead: u32) {
    let (text, batch, lengths, wanted) = case;
    let mut source = source_of(rt, alloc, text, batch, ahead);
    let (desk, mut pass) = open_desk();
    expect_chunks(rt, alloc, &mut source, &mut pass, lengths);
    expect_end(rt, alloc, &mut source, &mut pass, wanted);
    end(rt, source, &mut pass);
    closed(rt, batch, desk, pass);
}

#[test]
fn a_text_that_is_read_ahead_has_the_chunks_of_its_batches(rt: HostRuntime) {
    for ahead in &ROUNDS {
        for case in &CASES {
            expect_case(&rt, rt.alloc(), *case, *ahead);
        }
    }
}

/// A round may run then: what it read goes with the source.
#[test]
fn a_source_that_reads_ahead_may_be_released_at_any_chunk(rt: HostRuntime) {
    let alloc = rt.alloc();
    for ahead in &ROUNDS {
        for lengths in [[].as_slice(), &[1], &[1, 1], &[1, 1, 1], &[1, 1, 1, 1]] {
            let mut source = source_of(&rt, alloc, b"a,b\n1,x\n2,y\n3,z\n4,v\n", 1, *ahead);
            let (desk, mut pass) = open_desk();
            expect_chunks(&rt, alloc, &mut source, &mut pass, lengths);
            end(&rt, source, &mut pass);
            closed(&rt, *ahead, desk, pass);
        }
    }
}
