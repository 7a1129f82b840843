//! Runs with several workers: each passes the gate, and two are seen side by side.
use crate::runs::{Ran, run_from};
use edge_io::{Gate, MemSource};
use std::alloc::Global;
use std::process::Abort;
use std::sync::atomic::{AtomicU64, Ordering};
use std::test::Fail;
use std::thread::Threads;
use test_parts::Meet;

/// Counts how often each of the workers 0 to 3 passes, and then how often any other does.
#[derive(Drop)]
struct Counted {
    passed: [AtomicU64; 5],
}

impl Counted {
    fn new() -> Counted {
        Counted {
            passed: [
                AtomicU64::new(0),
                AtomicU64::new(0),
                AtomicU64::new(0),
                AtomicU64::new(0),
                AtomicU64::new(0),
            ],
        }
    }

    fn counts(&self) -> [u64; 5] {
        let [a, b, c, d, others] = &self.passed;
        [a, b, c, d, others].map(|count| count.load(Ordering::SeqCst))
    }
}

impl Gate for Counted {
    fn pass(&self, worker: u32) {
        let place = (worker as usize).min(4);
        self.passed[place].fetch_add(1, Ordering::SeqCst);
    }
}

/// Runs with this many workers and the words of a line over a text.
fn run_by<R: Threads + Sync>(
    rt: &R,
    alloc: Global,
    workers: u32,
    line: &str,
    bytes: &[u8],
    gate: &(dyn Gate + Sync),
) -> Result<Ran, Fail> {
    let line = format!(in alloc; "--workers {workers} {line}")?;
    let mut source = MemSource::new(bytes.to_vec(alloc)?, 4096, Vec::new(alloc));
    run_from(rt, alloc, line.as_str(), &mut source, gate)
}

/// Expects that a run came to this text, made with this many blocks and nodes.
fn has_made(rt: &impl Abort, row: &str, ran: &Ran, text: &[u8], traffic: (u64, u64)) {
    let audit = &ran.outcome.audit;
    let came = (ran.outcome.status, ran.sink.taken(), audit.left);
    assert_eq!(rt; came, (0, text, 0), "what {row} comes to");
    assert_eq!(rt;
        (audit.blocks, audit.nodes),
        traffic,
        "the blocks and nodes of {row}"
    );
}

/// Runs with this many workers and the words of a row over a text, and expects the row's text, made with this many blocks and
/// nodes.
fn expect_by<R: Threads + Sync + Abort>(
    rt: &R,
    alloc: Global,
    workers: u32,
    row: &(&str, &[u8], (u64, u64)),
    bytes: &[u8],
    gate: &(dyn Gate + Sync),
) -> Result<(), Fail> {
    let (line, text, traffic) = row;
    let ran = run_by(rt, alloc, workers, *line, bytes, gate)?;
    let by = format!(in alloc; "{line} by {workers}")?;
    has_made(rt, by.as_str(), &ran, *text, *traffic);
    Ok(())
}

/// A column `n` of the whole numbers from 1 on.
fn numbers(alloc: Global, rows: u32) -> Result<Vec<u8>, Fail> {
    let mut bytes = b"n\n".to_vec(alloc)?;
    for row in 0..rows {
        let n = row + 1;
        let line = format!(in alloc; "{n}\n")?;
        bytes.extend_from_slice(line.as_bytes())?;
    }
    Ok(bytes)
}

// Each row has the words for a chunk of the numbers from 1 to 65,536, the text, and the blocks and nodes that are made, by
// however many workers. The chunk has rows for four pieces.

static ROWS: [(&str, &[u8], (u64, u64)); 2] = [
    (
        "--batch 1000000 --schema n:l filter=n,gt,65533",
        b"n\n65534\n65535\n65536\n",
        (2, 8),
    ),
    (
        "--batch 1000000 --schema n:l totals=n",
        b"n_count,n_sum,n_min,n_max\n65536,2147516416,1,65536\n",
        (5, 14),
    ),
];

#[test]
fn two_of_four_workers_are_seen_side_by_side(rt: HostRuntime) -> Result<(), Fail> {
    let bytes = numbers(rt.alloc(), 65536)?;
    for row in &ROWS {
        let meet = Meet::new();
        expect_by(&rt, rt.alloc(), 4, row, &bytes, &meet)?;
        assert!(rt; meet.was_seen(), "the workers of {row:?}");
    }
    Ok(())
}

#[test]
fn as_many_workers_pass_as_are_asked_for_and_have_rows_enough(rt: HostRuntime) -> Result<(), Fail> {
    let bytes = numbers(rt.alloc(), 65536)?;
    for row in &ROWS {
        for (workers, counts) in [
            (1u32, [1u64, 0, 0, 0, 0]),
            (2, [1, 1, 0, 0, 0]),
            (3, [1, 1, 1, 0, 0]),
            (4, [1, 1, 1, 1, 0]),
            (64, [1, 1, 1, 1, 0]),
        ] {
            let gate = Counted::new();
            expect_by(&rt, rt.alloc(), workers, row, &bytes, &gate)?;
            assert_eq!(rt; gate.counts(), counts, "{workers} workers of {row:?}");
        }
    }
    Ok(())
}

#[test]
fn no_piece_has_fewer_rows_than_the_least(rt: HostRuntime) -> Result<(), Fail> {
    let alloc = rt.alloc();
    for (rows, counts) in [
        (1u32, [1u64, 0, 0, 0, 0]),
        (32767, [1, 0, 0, 0, 0]),
        (32768, [1, 1, 0, 0, 0]),
        (65535, [1, 1, 1, 0, 0]),
        (1_000_000, [1, 1, 1, 1, 57]),
    ] {
        let bytes = numbers(alloc, rows)?;
        let gate = Counted::new();
        let line = "--batch 1000000 --schema n:l totals=n";
        let ran = run_by(&rt, alloc, 64, line, &bytes, &gate)?;
        assert_eq!(rt;
            (ran.outcome.status, ran.outcome.audit.left),
            (0, 0),
            "{rows} rows"
        );
        assert_eq!(rt; gate.counts(), counts, "{rows} rows");
    }
    Ok(())
}

/// This many payments, every second of which is paid: the lines `i,itemD,i.25,P`, where D is the last digit of i.
fn payments(alloc: Global, rows: u32) -> Result<Vec<u8>, Fail> {
    let mut bytes = b"id,name,amount,paid\n".to_vec(alloc)?;
    for row in 0..rows {
        let i = row + 1;
        let digit = i % 10;
        let paid = i % 2 == 1;
        let line = format!(in alloc; "{i},item{digit},{i}.25,{paid}\n")?;
        bytes.extend_from_slice(line.as_bytes())?;
    }
    Ok(bytes)
}

/// Stages of each kind over payments, in chunks of 70,000.
const CHAIN: &str =
    "--batch 70000 --schema id:l;amount:d:10,2;paid:b pack=p,id,amount unpack=p dict=name filter=paid,eq,true plain=name totals=id,amount";

/// The totals of the paid ones of 140,000.
const TOTALS: &[u8] =
    b"id_count,id_sum,id_min,id_max,amount_count,amount_sum,amount_min,amount_max\n70000,4900000000,1,139999,70000,4900017500.00,1.25,139999.25\n";

#[test]
fn four_workers_total_payments_in_two_chunks(rt: HostRuntime) -> Result<(), Fail> {
    let alloc = rt.alloc();
    let bytes = payments(alloc, 140_000)?;
    let gate = Counted::new();
    let ran = run_by(&rt, alloc, 4, CHAIN, &bytes, &gate)?;
    has_made(&rt, "the payments", &ran, TOTALS, (36, 87));
    // A filter of two chunks of 70,000 rows, and totals of two of 35,000.
    assert_eq!(rt; gate.counts(), [4, 4, 2, 2, 0]);
    Ok(())
}
